//! Touching pages, and storing.
ghost use Rattle.std.specs.Prelude.{◌≡◌, ◌+◌, ◌<◌, ◌≤◌, ℕ, [], length, slice_set, slice_index_or, None, Some, true, IfErr, IsSome, OnErr, OnOk};
ghost use Rattle.vm_base.specs.Counts.{next_count};
ghost use Rattle.vm_base.specs.FlatMemory.{spliced};
ghost use Rattle.leaf_cell.specs.Adding.{stored_in, IsWholeFrame};
ghost use Rattle.kernel_meaning.specs.Leaves.{version_at};
ghost use Rattle.kernel_meaning.specs.CellAccount.{CellAccount, Touch, Store};
ghost use Rattle.leaf_cell.specs.CellView.{AreUnjoined, held_of};
ghost use Rattle.leaf_cell.specs.Renaming.{IsNamedBy};
ghost use Rattle.leaf_cell.specs.Standing.{MadeAct, StandsFor, TakesAccount};
ghost use Rattle.leaf_cell.specs.States.{refused_count};
ghost use Rattle.leaf_cell.specs.Touching.{IsTouched};
ghost use Rattle.leaf_cell.specs.Writable.{writable_at};

use crate::cell::Cell;
use crate::leaf_table::{CELL_PAGES, put_bytes};
use crate::lookups::{may_write_in, names_place, place_in};
use crate::pages::add_page;
use vm_base::{Allot, Frame, Refused};

impl Cell {
    /// Gives the parent a page of its own, which may then be stored to. An absent page becomes one
    /// of zeros, with the leaf table where it is the first; after a refusal the cell is as before.
    /// A present page that a snapshot names too is copied; where that frame is refused the
    /// snapshot loses the cell, and the page stays where it is.
    pub fn touch<A: Allot>(&mut self, page: u16, allot: &mut A) -> Result<(), Refused>
        requires page { page < CELL_PAGES }
        requires unjoined { AreUnjoined self.old.leaves.kept }
        requires held { held_of self.old ≤ A.out (A.state allot.old) }
        requires untold { A.grants allot.old ≡ None }
        ensures made { MadeAct A.goes (A.state allot.old) (A.state allot.new) (Touch page) self.old self.new (refused_count result) }
        ensures held { A.out (A.state allot.new) + held_of self.old ≡ A.out (A.state allot.old) + held_of self.new }
        ensures untold { A.grants allot.new ≡ None }
        ensures touched { OnOk result (IsTouched page (A.refused (A.state allot.old)) (A.refused (A.state allot.new)) self.old self.new) }
        ensures writable { OnOk result (self.new.writable ≡ slice_set self.old.writable page true) }
        ensures allowed { OnOk result (writable_at self.new.writable page ≡ true) }

        // Refused only at an absent page, where the allot's count rose, and the answer carries it.
        ensures refused { OnErr result (self.new ≡ self.old) }
        ensures absent { OnErr result (version_at self.old.leaves.parent page ≡ None) }
        ensures counted { IfErr result (λ e. (A.refused (A.state allot.new) ≡ next_count (A.refused (A.state allot.old))) × (e.at ≡ A.refused (A.state allot.new))) }
    {
        match place_in(&self.parent, page) {
            // A page that may be written to is the parent's alone.
            Some(_) if may_write_in(&self.parent, page) => Ok(()),
            Some(place) => {
                self.touch_present(page, place, allot);
                self.allow_page(page);
                Ok(())
            }
            None => self.touch_absent(page, allot),
        }
    }

    /// Makes an absent page of the parent present, as zeros, and the leaf table too where it is the
    /// first page. After a refusal the cell is as before.
    fn touch_absent<A: Allot>(&mut self, page: u16, allot: &mut A) -> Result<(), Refused>
        requires page { page < CELL_PAGES }
        requires absent { version_at self.old.leaves.parent page ≡ None }
        requires unjoined { AreUnjoined self.old.leaves.kept }
        requires held { held_of self.old ≤ A.out (A.state allot.old) }
        requires untold { A.grants allot.old ≡ None }
        ensures made { MadeAct A.goes (A.state allot.old) (A.state allot.new) (Touch page) self.old self.new (refused_count result) }
        ensures held { A.out (A.state allot.new) + held_of self.old ≡ A.out (A.state allot.old) + held_of self.new }
        ensures untold { A.grants allot.new ≡ None }
        ensures refused { OnErr result (self.new ≡ self.old) }
        ensures touched { OnOk result (IsTouched page (A.refused (A.state allot.old)) (A.refused (A.state allot.new)) self.old self.new) }
        ensures writable { OnOk result (self.new.writable ≡ slice_set self.old.writable page true) }
        ensures counted { IfErr result (λ e. (A.refused (A.state allot.new) ≡ next_count (A.refused (A.state allot.old))) × (e.at ≡ A.refused (A.state allot.new))) }
    {
        add_page(&mut self.parent, &mut self.frames, page, allot)
    }

    /// Gives the parent a present page of its own.
    fn touch_present<A: Allot>(&mut self, page: u16, place: u32, allot: &mut A)
        requires page { page < CELL_PAGES }
        requires there { version_at self.old.leaves.parent page ≡ Some place }
        requires unjoined { AreUnjoined self.old.leaves.kept }
        requires held { held_of self.old ≤ A.out (A.state allot.old) }
        requires untold { A.grants allot.old ≡ None }
        ensures made { MadeAct A.goes (A.state allot.old) (A.state allot.new) (Touch page) self.old self.new None }
        ensures held { A.out (A.state allot.new) + held_of self.old ≡ A.out (A.state allot.old) + held_of self.new }
        ensures untold { A.grants allot.new ≡ None }
        ensures touched { IsTouched page (A.refused (A.state allot.old)) (A.refused (A.state allot.new)) self.old self.new }
        ensures writable { slice_set self.new.writable page true ≡ slice_set self.old.writable page true }
    {
        if names_place(&self.snapshot, page, place) {
            self.unshare_page(page, place, allot);
        }
    }

    /// Stores bytes in a page that no snapshot names.
    pub fn store(&mut self, page: u16, at: u16, bytes: &[u8])
        requires page { page < CELL_PAGES }
        requires room { at + length bytes.now ≤ 4096 }
        requires present { IsSome (version_at self.old.leaves.parent page) }
        requires unnamed { (place : ℕ) → version_at self.old.leaves.parent page ≡ Some place → IsNamedBy page place self.old.leaves.kept → ⊥ }
        ensures stored { (account : CellAccount) → StandsFor self.old account → TakesAccount (Store page at bytes.now) self.old self.new [] None account }
        ensures leaves { self.new.leaves ≡ self.old.leaves }
        ensures writable { self.new.writable ≡ self.old.writable }
        ensures held { held_of self.new ≡ held_of self.old }
    {
        if let Some(place) = place_in(&self.parent, page) {
            self.frames.store(place, at as usize, bytes);
        }
    }
}

/// Stores bytes in the frame at a place.
pub(crate) fn store_place(frames: &mut Vec<Option<Frame>>, place: u32, at: usize, bytes: &[u8])
    requires place { place < length frames.old.items }
    requires room { at + length bytes.now ≤ 4096 }
    ensures stored { frames.new.items ≡ slice_set frames.old.items place (stored_in (slice_index_or frames.old.items place None) at bytes.now) }
    ensures whole { IsWholeFrame (slice_index_or frames.old.items place None) }
{
    store_slot(&mut frames[place as usize], at, bytes);
}

/// Stores bytes in a frame that is there.
fn store_slot(slot: &mut Option<Frame>, at: usize, bytes: &[u8])
    requires { at + length bytes.now ≤ 4096 }
    ensures stored { slot.new ≡ stored_in slot.old at bytes.now }
    ensures whole { IsWholeFrame slot.old }
{
    if let Some(frame) = slot {
        store_frame(frame, at, bytes);
    }
}

/// Stores bytes in a frame.
fn store_frame(frame: &mut Frame, at: usize, bytes: &[u8])
    requires { at + length bytes.now ≤ 4096 }
    ensures stored { frame.new ≡ record frame.old { bytes = spliced frame.old.bytes at bytes.now } }
    ensures whole { length frame.old.bytes ≡ 4096 }
{
    let target: &mut [u8] = frame.bytes_mut();
    put_bytes(target, at, bytes);
}
