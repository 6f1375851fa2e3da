//! Leaves that an async fork marked, and their copies by the snapshot.
ghost use Rattle.std.specs.Prelude.{ℕ, ◌≡◌, ◌+◌, ◌<◌, ◌≤◌, [], None, true, IfSome};
ghost use Rattle.vm_base.specs.declared.fork_mode.Mode.TheVariants as modes;
ghost use Rattle.kernel_meaning.specs.Leaves.{has_pages, kept_by, Joined, is_marked};
ghost use Rattle.kernel_meaning.specs.CellActs.{with_fork, numbers_where};
ghost use Rattle.kernel_meaning.specs.CellAccount.{CellAccount, Fork, Unmark};
ghost use Rattle.leaf_cell.specs.CellView.{held_of, without_snapshot};
ghost use Rattle.leaf_cell.specs.Standing.{StandsFor, TakesAccount};
ghost use Rattle.leaf_cell.specs.States.{has_joined, state_of};
ghost use Rattle.leaf_cell.specs.declared.snapshot.LeafState.TheVariants as state;
ghost use Rattle.share_cell.specs.Parts.{MadeWithin};
ghost use Rattle.share_cell.specs.Copies.{Copies, copied_where};
ghost use Rattle.mark_cell.specs.OneCopy.{CopyLeaves, MadeCopy, Spends};

use leaf_cell::{Cell, LeafState};
use share_cell::{Joining, copy_leaves};
use vm_base::{Allot, Mode, Refused, Want};

/// What a snapshot's copy of a cell came to.
#[derive(Clone, Copy, Debug, PartialEq, Eq)]
pub enum Copied {
    /// The leaf is the snapshot's own now.
    Copied,
    /// There was no mark.
    Nothing,
    /// The snapshot lost the cell, at this count of the parent's refused requests.
    Lost(u64),
}

/// Gives a snapshot the cell as the parent has it now, by the parent's leaf table, and marks it as
/// still to be copied. No frame is asked for.
pub fn fork_mark(cell: &mut Cell, number: u32)
    requires present { has_pages cell.old.leaves.parent ≡ true }
    requires alone { cell.old.leaves.kept ≡ [] }
    ensures forked { (seat : ℕ) (account : CellAccount) → StandsFor cell.old account
        → TakesAccount (Fork number modes.Async seat) cell.old cell.new [] None account }
    ensures cell { cell.new ≡ record cell.old
        { leaves = with_fork number modes.Async Joined cell.old.leaves } }
    ensures held { held_of cell.new ≡ held_of cell.old }
{
    cell.set_lazy(number, Mode::Async);
}

/// The copy that the snapshot itself makes: a marked leaf becomes its own. After a refusal the leaf
/// stays marked, and the snapshot may ask again.
pub fn copy_one<A: Allot>(cell: &mut Cell, number: u32, allot: &mut A) -> Result<Copied, Refused>
    requires granted { state_of (kept_by cell.old.leaves.kept number) ≡ state.Marked
        → IfSome (A.grants allot.old) (λ left. 0 < left) }
    ensures made { MadeCopy A.goes (A.state allot.old) (A.state allot.new) number cell.old cell.new
        result }
    ensures held { A.out (A.state allot.new) + held_of cell.old
        ≡ A.out (A.state allot.old) + held_of cell.new }
    ensures spent { Spends result (A.grants allot.old) (A.grants allot.new) }
    ensures leaves { CopyLeaves number result (A.refused (A.state allot.old))
        (A.refused (A.state allot.new)) cell.old cell.new }
{
    match cell.state(number) {
        LeafState::Marked => match allot.take(Want::Leaf) {
            Ok(frame) => {
                cell.own_leaf(number, frame);
                Ok(Copied::Copied)
            }
            Err(refused) => Err(refused),
        },
        LeafState::Lost(at) => Ok(Copied::Lost(at)),
        LeafState::Absent | LeafState::Own | LeafState::Shared => Ok(Copied::Nothing),
    }
}

/// Before a change, each marked leaf becomes the snapshot's own: the parent copies first where it
/// is about to write. Where its frame is refused the snapshot loses the cell, and the change goes
/// on.
pub fn sync<A: Allot>(cell: &mut Cell, allot: &mut A)
    requires held { held_of cell.old ≤ A.out (A.state allot.old) }
    requires untold { A.grants allot.old ≡ None }
    ensures made { MadeWithin A.goes (A.state allot.old) (A.state allot.new)
        (copied_where is_marked) cell.old cell.new }
    ensures held { A.out (A.state allot.new) + held_of cell.old
        ≡ A.out (A.state allot.old) + held_of cell.new }
    ensures untold { A.grants allot.new ≡ None }
    ensures copied { Copies is_marked (A.refused (A.state allot.old))
        (A.refused (A.state allot.new)) cell.old cell.new }
    ensures none { numbers_where is_marked cell.old.leaves ≡ [] → (cell.new ≡ cell.old)
        × (A.state allot.new ≡ A.state allot.old) }
{
    copy_leaves(cell, Joining::Marked, allot);
}

/// Takes a mark away, where the fork that set it is taken back: the snapshot does not have the
/// cell. No frame goes back.
pub fn unmark(cell: &mut Cell, number: u32)
    requires joined { has_joined (kept_by cell.old.leaves.kept number) ≡ true }
    ensures unmarked { (account : CellAccount) → StandsFor cell.old account
        → TakesAccount (Unmark number) cell.old cell.new [] None account }
    ensures cell { cell.new ≡ record cell.old { leaves = without_snapshot number cell.old.leaves } }
    ensures held { held_of cell.new ≡ held_of cell.old }
{
    cell.forget(number);
}
