//! Leaves that are the parent's: how they come to be so, become a snapshot's own, and are lost.
ghost use Rattle.std.specs.Prelude.{ℕ, ◌≡◌, ◌+◌, ◌≤◌, [], None, true};
ghost use Rattle.std.specs.Option.{option_map};
ghost use Rattle.vm_base.specs.declared.fork_mode.Mode.TheVariants as modes;
ghost use Rattle.kernel_meaning.specs.Requests.{Yes, No};
ghost use Rattle.kernel_meaning.specs.Leaves.{has_pages, kept_by, Own, Joined};
ghost use Rattle.kernel_meaning.specs.CellActs.{leaf_copy_answered, with_fork, with_leaf_where, is_number};
ghost use Rattle.kernel_meaning.specs.CellAccount.{CellAccount, Fork, Unmark};
ghost use Rattle.leaf_cell.specs.CellView.{held_of, without_snapshot};
ghost use Rattle.leaf_cell.specs.Losing.{IsLost};
ghost use Rattle.leaf_cell.specs.Standing.{StandsFor, TakesAccount, TakesPart, MadePart};
ghost use Rattle.leaf_cell.specs.States.{has_leaf, has_joined, with_own};
ghost use Rattle.leaf_cell.specs.Inside.{table_of};
ghost use Rattle.leaf_cell.specs.Writable.{none_writable};

use crate::cell::Cell;
use crate::changes::own_table;
use crate::leaf_table::{CELL_PAGES, LeafTable};
use crate::lookups::is_snapshot;
use crate::protect::allow_range;
use crate::snapshot::{Snapshot, SnapshotLeaf};
use crate::unshare::lose_leaf;
use vm_base::{Allot, Frame, Mode};

impl Cell {
    /// Gives a snapshot the cell as the parent has it now, by the parent's leaf table: shared, by
    /// an on-demand fork, or marked, by an async one. Nothing is asked for or copied.
    pub fn set_lazy(&mut self, number: u32, mode: Mode)
        requires lazy { mode ≡ modes.Eager → ⊥ }
        requires present { has_pages self.old.leaves.parent ≡ true }
        requires alone { self.old.leaves.kept ≡ [] }
        ensures forked { (seat : ℕ) (account : CellAccount) → StandsFor self.old account → TakesAccount (Fork number mode seat) self.old self.new [] None account }
        ensures cell { self.new ≡ record self.old { leaves = with_fork number mode Joined self.old.leaves } }
        ensures held { held_of self.new ≡ held_of self.old }
    {
        self.snapshot = Some(Snapshot {
            number,
            mode,
            leaf: SnapshotLeaf::Joined,
        });
    }

    /// A leaf that is the parent's becomes the snapshot's own, in this frame. It names the frames
    /// that it named before.
    pub fn own_leaf(&mut self, number: u32, frame: Frame)
        requires joined { has_joined (kept_by self.old.leaves.kept number) ≡ true }
        ensures owned { (account : CellAccount) → StandsFor self.old account → TakesPart (leaf_copy_answered number Yes) self.old self.new [] account }
        ensures cell { self.new ≡ record self.old { leaves = with_leaf_where (is_number number) Own self.old.leaves; writable = none_writable } }
        ensures held { held_of self.new ≡ held_of self.old + 1 }
    {
        if is_snapshot(&self.snapshot, number) {
            // Two tables name the frames from now on.
            allow_range(&mut self.parent, &self.snapshot, 0, CELL_PAGES, false);
            own_joined(&mut self.snapshot, &self.parent, frame);
        }
    }

    /// Takes a snapshot out whose leaf is the parent's, as where its fork is taken back. Nothing is
    /// given back.
    pub fn forget(&mut self, number: u32)
        requires joined { has_joined (kept_by self.old.leaves.kept number) ≡ true }
        ensures unmarked { (account : CellAccount) → StandsFor self.old account
            → TakesAccount (Unmark number) self.old self.new [] None account }
        ensures cell { self.new
            ≡ record self.old { leaves = without_snapshot number self.old.leaves } }
        ensures held { held_of self.new ≡ held_of self.old }
    {
        if is_snapshot(&self.snapshot, number) {
            take_out(&mut self.snapshot);
        }
    }

    /// A snapshot loses the cell at this count of refused requests. Its own table and the frames
    /// that it alone names go back; a leaf that is the parent's leaves nothing to give back.
    pub fn lose<A: Allot>(&mut self, number: u32, at: u64, allot: &mut A)
        requires there { has_leaf (kept_by self.old.leaves.kept number) ≡ true }
        requires held { held_of self.old ≤ A.out (A.state allot.old) }
        requires untold { A.grants allot.old ≡ None }
        ensures made { MadePart A.goes (A.state allot.old) (A.state allot.new) (leaf_copy_answered number (No at)) self.old self.new }
        ensures held { A.out (A.state allot.new) + held_of self.old ≡ A.out (A.state allot.old) + held_of self.new }
        ensures untold { A.grants allot.new ≡ None }
        ensures unrefused { A.refused (A.state allot.new) ≡ A.refused (A.state allot.old) }
        ensures lost { IsLost number at self.old self.new }
        ensures writable { self.new.writable ≡ self.old.writable }
    {
        if is_snapshot(&self.snapshot, number) {
            lose_leaf(
                &mut self.snapshot,
                &self.parent,
                &mut self.frames,
                at,
                allot,
            );
        }
    }
}

/// The snapshot that is there gets a table of its own in this frame.
fn own_joined(snapshot: &mut Option<Snapshot>, parent: &Option<LeafTable>, frame: Frame)
    ensures { snapshot.new ≡ option_map (with_own (table_of parent.now)) snapshot.old }
{
    if let Some(snapshot) = snapshot {
        snapshot.leaf = SnapshotLeaf::Own(own_table(frame, parent));
    }
}

/// No snapshot is there any more.
fn take_out(snapshot: &mut Option<Snapshot>)
    ensures { snapshot.new ≡ None }
{
    let _gone = snapshot.take();
}
