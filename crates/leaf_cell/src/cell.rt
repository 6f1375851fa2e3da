//! A cell, and what is read of it.
ghost use Rattle.std.specs.Prelude.{◌≡◌, ◌+◌, ◌<◌, ◌≤◌, ℕ, length, IfOk, Ok, Err, OnOk, OnErr, IfErr, replicate, None, Some, is_some, count_by, false, true};
ghost use Rattle.std.specs.FinMap.{get};
ghost use Rattle.kernel_meaning.specs.Leaves.{AreRising, has_pages, has_present, kept_by, version_at};
ghost use Rattle.kernel_meaning.specs.CellAccount.{CellAccount, empty_account, account_share};
ghost use Rattle.leaf_cell.specs.CellView.{new_view, parent_page, part_of, held_of, most_kept, AreUnjoined};
ghost use Rattle.leaf_cell.specs.Writable.{writable_at};
ghost use Rattle.leaf_cell.specs.Permissions.{is_unshared};
ghost use Rattle.leaf_cell.specs.Touching.{IsAlone};
ghost use Rattle.leaf_cell.specs.Standing.{StandsFor, IsSnapRead};
ghost use Rattle.leaf_cell.specs.States.{state_of, nth_number, snapshot_part};

use crate::frame_places::FramePlaces;
use crate::leaf_table::{CELL_PAGES, LeafTable};
use crate::lookups::{
    count_own, count_table, covers_in, leaf_state, may_write_in, place_in, read_place,
    snapshot_place,
};
use crate::snapshot::{LeafState, Snapshot};
use std::alloc::Global;
use std::marker::Model;
use vm_base::{Lost, NoMemory};

/// The leaf tables and pages of 512 pages of addresses, on the parent's side and on that of its
/// snapshots. It is made once, with all its room, and no other call takes memory.
#[derive(Debug, Drop)]
pub struct Cell {
    pub(crate) parent: Option<LeafTable>,
    pub(crate) snapshot: Option<Snapshot>,
    pub(crate) frames: FramePlaces,
}

impl Model for Cell {
    ghost use Rattle.leaf_cell.specs.CellView.{CellView};
    ghost use Rattle.leaf_cell.specs.Inside.{cell_value, AreInside};
    ghost use Rattle.leaf_cell.specs.Codes.{cell_view_code};

    ghost Value = { CellView };

    ghost coded = { cell_view_code };

    ghost view = { λ cell. cell_value cell.parent cell.snapshot cell.frames };

    ghost invariant = { λ cell. AreInside cell.parent cell.snapshot cell.frames };
}

impl Cell {
    /// A cell that nobody has.
    pub fn new(alloc: Global) -> Result<Cell, NoMemory>
        ensures empty { IfOk result (λ cell. cell ≡ new_view) }
        ensures stands { IfOk result (λ cell. StandsFor cell empty_account) }
    {
        let frames = FramePlaces::new(alloc)?;
        Ok(Cell {
            parent: None,
            snapshot: None,
            frames,
        })
    }

    /// Reads bytes of the parent's page, which are zeros where it is absent.
    pub fn read(&self, page: u16, at: u16, buf: &mut [u8])
        requires page { page < CELL_PAGES }
        requires room { at + length buf.old ≤ 4096 }
        ensures read { buf.new ≡ part_of (parent_page self.now page) at (length buf.old) }
        ensures account { (account : CellAccount) → StandsFor self.now account → buf.new ≡ part_of (get account.state.pages page) at (length buf.old) }
    {
        let place = place_in(&self.parent, page);
        read_place(&self.frames, place, at as usize, buf);
    }

    /// Reads bytes of a snapshot's page, whatever its leaf is. A snapshot that does not have the
    /// cell has no page here, and so reads zeros.
    pub fn snap_read(&self, number: u32, page: u16, at: u16, buf: &mut [u8]) -> Result<(), Lost>
        requires page { page < CELL_PAGES }
        requires room { at + length buf.old ≤ 4096 }
        ensures ok { OnOk result (snapshot_part self.now number page at (length buf.old) ≡ Ok buf.new) }
        ensures lost { IfErr result (λ lost. snapshot_part self.now number page at (length buf.old) ≡ Err lost.at) }
        ensures account { (account : CellAccount) → StandsFor self.now account → IsSnapRead account number page at (length buf.old) result buf.new }
    {
        match &self.snapshot {
            Some(snapshot) => {
                if snapshot.number == number {
                    let place = snapshot_place(&self.parent, &snapshot.leaf, page)?;
                    read_place(&self.frames, place, at as usize, buf);
                    return Ok(());
                }
            }
            None => {}
        }
        read_place(&self.frames, None, at as usize, buf);
        Ok(())
    }

    /// What the snapshot has here.
    pub fn state(&self, number: u32) -> LeafState
        ensures state { result ≡ state_of (kept_by self.now.leaves.kept number) }
        ensures account { (account : CellAccount) → StandsFor self.now account → result ≡ state_of (kept_by account.state.leaves.kept number) }
    {
        match &self.snapshot {
            Some(snapshot) => {
                if snapshot.number == number {
                    leaf_state(snapshot)
                } else {
                    LeafState::Absent
                }
            }
            None => LeafState::Absent,
        }
    }

    /// How many pages the parent has here.
    pub fn pages(&self) -> u32
        ensures pages { result ≡ count_by is_some self.now.leaves.parent }
        ensures account { (account : CellAccount) → StandsFor self.now account → result ≡ count_by is_some account.state.leaves.parent }
    {
        match &self.parent {
            Some(table) => table.pages(),
            None => 0,
        }
    }

    /// Whether the parent has a page here. It reads no entry: a leaf table that is there has one.
    pub fn has_pages(&self) -> bool
        ensures pages { result ≡ has_pages self.now.leaves.parent }

        // A leaf that is joined is the parent's table, which is there.
        ensures unjoined { has_pages self.now.leaves.parent ≡ false
            → AreUnjoined self.now.leaves.kept }
        ensures account { (account : CellAccount) → StandsFor self.now account → result ≡ has_pages account.state.leaves.parent }
    {
        self.parent.is_some()
    }

    /// How many frames the cell holds. It counts them. No crate above asks: an allot counts the
    /// frames of all cells, and a proof there takes `tell_share`.
    pub fn held(&self) -> u32
        ensures held { result ≡ held_of self.now }
        ensures share { (account : CellAccount) → StandsFor self.now account → result ≡ account_share account }
    {
        let tables = count_table(&self.parent) + count_own(&self.snapshot);
        tables + self.frames.count()
    }

    /// Tells a proof that the frames of the cell are the share of each account that it stands for,
    /// without counting them.
    pub fn tell_share(&self)
        ensures { (account : CellAccount) → StandsFor self.now account → held_of self.now ≡ account_share account }
    {
        let _parent = &self.parent;
    }

    /// Whether the parent has a page in a range of pages.
    pub fn covers(&self, first: u16, pages: u16) -> bool
        requires { first + pages ≤ CELL_PAGES }
        ensures covers { result ≡ has_present self.now.leaves.parent first pages }
        ensures filled { (p : ℕ) → is_some (parent_page self.now p) ≡ is_some (version_at self.now.leaves.parent p) }

        // A page that may be written to is present, and no snapshot's own leaf names its frame.
        // Where no leaf is joined it is the parent's alone.
        ensures unshared { (p : ℕ) → writable_at self.now.writable p ≡ true → is_unshared self.now.leaves p ≡ true }
        ensures alone { AreUnjoined self.now.leaves.kept → (p : ℕ) → writable_at self.now.writable p ≡ true → IsAlone self.now.leaves p }
        ensures account { (account : CellAccount) → StandsFor self.now account → result ≡ has_present account.state.leaves.parent first pages }
    {
        covers_in(&self.parent, first, pages)
    }

    /// Whether the entry of the parent's page tells that it may be written to. It is one look at
    /// the entry.
    pub fn may_write(&self, page: u16) -> bool
        requires page { page < CELL_PAGES }
        ensures writable { result ≡ writable_at self.now.writable page }

        // Where no leaf is joined such a page is present, and the parent's alone.
        ensures alone { AreUnjoined self.now.leaves.kept → result ≡ true
            → IsAlone self.now.leaves page }
    {
        may_write_in(&self.parent, page)
    }

    /// The number of the nth snapshot here, counted from 0 in rising order.
    pub fn snap(&self, nth: u32) -> Option<u32>
        ensures nth { result ≡ nth_number self.now.leaves.kept nth }
        ensures rising { AreRising self.now.leaves.kept }
        ensures few { length self.now.leaves.kept ≤ most_kept }
        ensures account { (account : CellAccount) → StandsFor self.now account → result ≡ nth_number account.state.leaves.kept nth }
    {
        match &self.snapshot {
            Some(snapshot) => {
                if nth == 0 {
                    Some(snapshot.number)
                } else {
                    None
                }
            }
            None => None,
        }
    }
}
