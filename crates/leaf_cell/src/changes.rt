//! Forking and dropping.
ghost use Rattle.std.specs.Prelude.{◌≡◌, ◌+◌, ◌≤◌, ℕ, [], true, false, is_some, None, IfErr, OnErr, OnOk};
ghost use Rattle.vm_base.specs.declared.fork_mode.Mode.TheVariants as mode;
ghost use Rattle.vm_base.specs.Counts.{next_count};
ghost use Rattle.leaf_cell.specs.declared.snapshot.SnapshotLeaf.TheVariants as leaf;
ghost use Rattle.leaf_cell.specs.Inside.{table_of, kept_values};
ghost use Rattle.leaf_cell.specs.Writable.{none_writable};
ghost use Rattle.kernel_meaning.specs.Leaves.{has_pages, kept_by, no_versions, Own};
ghost use Rattle.kernel_meaning.specs.CellActs.{with_fork};
ghost use Rattle.kernel_meaning.specs.CellAccount.{Fork, Drop as DropAct};
ghost use Rattle.leaf_cell.specs.CellView.{held_of, without_snapshot};
ghost use Rattle.leaf_cell.specs.Standing.{MadeAct};
ghost use Rattle.leaf_cell.specs.States.{refused_count};

use crate::cell::Cell;
use crate::leaf_table::{CELL_PAGES, LeafTable};
use crate::lookups::is_snapshot;
use crate::protect::allow_range;
use crate::release::release_leaf;
use crate::snapshot::{Snapshot, SnapshotLeaf};
use vm_base::{Allot, Frame, Mode, Refused, Want};

impl Cell {
    /// Gives a snapshot the cell as the parent has it now, with a leaf table of its own. After a
    /// refusal the cell is as before.
    pub fn fork_eager<A: Allot>(&mut self, number: u32, allot: &mut A) -> Result<(), Refused>
        requires present { has_pages self.old.leaves.parent ≡ true }
        requires alone { self.old.leaves.kept ≡ [] }
        requires held { held_of self.old ≤ A.out (A.state allot.old) }
        requires untold { A.grants allot.old ≡ None }
        ensures made { (seat : ℕ) → MadeAct A.goes (A.state allot.old) (A.state allot.new) (Fork number mode.Eager seat) self.old self.new (refused_count result) }
        ensures held { A.out (A.state allot.new) + held_of self.old ≡ A.out (A.state allot.old) + held_of self.new }
        ensures untold { A.grants allot.new ≡ None }
        ensures refused { OnErr result (self.new ≡ self.old) }
        ensures leaves { OnOk result (self.new.leaves ≡ with_fork number mode.Eager Own self.old.leaves) }
        ensures writable { OnOk result (self.new.writable ≡ none_writable) }

        // Refused only where the allot's count rose, and the answer carries it.
        ensures unrefused { OnOk result (A.refused (A.state allot.new) ≡ A.refused (A.state allot.old)) }
        ensures counted { IfErr result (λ e. (A.refused (A.state allot.new) ≡ next_count (A.refused (A.state allot.old))) × (e.at ≡ A.refused (A.state allot.new))) }
    {
        match allot.take(Want::Leaf) {
            Ok(frame) => {
                // Two tables name the frames from now on.
                allow_range(&mut self.parent, &self.snapshot, 0, CELL_PAGES, false);
                self.snapshot = Some(new_snapshot(number, frame, &self.parent));
                Ok(())
            }
            Err(refused) => Err(refused),
        }
    }

    /// Takes a snapshot out, with its own table and the frames that only it names.
    pub fn drop_snap<A: Allot>(&mut self, number: u32, allot: &mut A)
        requires held { held_of self.old ≤ A.out (A.state allot.old) }
        requires untold { A.grants allot.old ≡ None }
        ensures made { MadeAct A.goes (A.state allot.old) (A.state allot.new) (DropAct number) self.old self.new None }
        ensures held { A.out (A.state allot.new) + held_of self.old ≡ A.out (A.state allot.old) + held_of self.new }
        ensures untold { A.grants allot.new ≡ None }
        ensures unrefused { A.refused (A.state allot.new) ≡ A.refused (A.state allot.old) }
        ensures leaves { self.new.leaves ≡ without_snapshot number self.old.leaves }
        ensures writable { self.new.writable ≡ self.old.writable }
    {
        if is_snapshot(&self.snapshot, number) {
            if let Some(snapshot) = self.snapshot.take() {
                release_leaf(snapshot.leaf, &self.parent, &mut self.frames, allot);
            }
        }
    }
}

/// A snapshot with a table of its own, which is as the parent's.
fn new_snapshot(number: u32, frame: Frame, parent: &Option<LeafTable>) -> Snapshot
    ensures number { result.number ≡ number }
    ensures mode { result.mode ≡ mode.Eager }
    ensures leaf { result.leaf ≡ leaf.Own (table_of parent.now) }
{
    Snapshot {
        number,
        mode: Mode::Eager,
        leaf: SnapshotLeaf::Own(own_table(frame, parent)),
    }
}

/// A table in this frame that is as the parent's.
pub(crate) fn own_table(frame: Frame, parent: &Option<LeafTable>) -> LeafTable
    ensures { result ≡ table_of parent.now }
{
    match parent {
        Some(table) => table.copy_in(frame),
        None => LeafTable::empty_in(frame),
    }
}
