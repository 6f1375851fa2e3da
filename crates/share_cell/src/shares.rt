//! Leaves that snapshots share by on-demand forks.
ghost use Rattle.std.specs.Prelude.{ℕ, ◌≡◌, ◌+◌, ◌≤◌, [], None, true};
ghost use Rattle.vm_base.specs.declared.fork_mode.Mode.TheVariants as modes;
ghost use Rattle.kernel_meaning.specs.Leaves.{has_pages, Joined, is_shared};
ghost use Rattle.kernel_meaning.specs.CellActs.{with_fork, numbers_where};
ghost use Rattle.kernel_meaning.specs.CellAccount.{CellAccount, Fork};
ghost use Rattle.leaf_cell.specs.CellView.{held_of};
ghost use Rattle.leaf_cell.specs.Standing.{StandsFor, TakesAccount};
ghost use Rattle.share_cell.specs.Parts.{MadeWithin};
ghost use Rattle.share_cell.specs.Copies.{Copies, copied_where};

use crate::copies::copy_leaves;
use crate::joining::Joining;
use leaf_cell::Cell;
use vm_base::{Allot, Mode};

/// Gives a snapshot the cell as the parent has it now, by the parent's leaf table. No frame is
/// asked for.
pub fn fork_share(cell: &mut Cell, number: u32)
    requires present { has_pages cell.old.leaves.parent ≡ true }
    requires alone { cell.old.leaves.kept ≡ [] }
    ensures forked { (seat : ℕ) (account : CellAccount) → StandsFor cell.old account
        → TakesAccount (Fork number modes.OnDemand seat) cell.old cell.new [] None account }
    ensures cell { cell.new ≡ record cell.old
        { leaves = with_fork number modes.OnDemand Joined cell.old.leaves } }
    ensures held { held_of cell.new ≡ held_of cell.old }
{
    cell.set_lazy(number, Mode::OnDemand);
}

/// Before a change, each leaf that a snapshot shares becomes its own. Where its frame is refused
/// the snapshot loses the cell, and the change goes on.
pub fn unshare<A: Allot>(cell: &mut Cell, allot: &mut A)
    requires held { held_of cell.old ≤ A.out (A.state allot.old) }
    requires untold { A.grants allot.old ≡ None }
    ensures made { MadeWithin A.goes (A.state allot.old) (A.state allot.new)
        (copied_where is_shared) cell.old cell.new }
    ensures held { A.out (A.state allot.new) + held_of cell.old
        ≡ A.out (A.state allot.old) + held_of cell.new }
    ensures untold { A.grants allot.new ≡ None }
    ensures copied { Copies is_shared (A.refused (A.state allot.old))
        (A.refused (A.state allot.new)) cell.old cell.new }
    ensures none { numbers_where is_shared cell.old.leaves ≡ [] → (cell.new ≡ cell.old)
        × (A.state allot.new ≡ A.state allot.old) }
{
    copy_leaves(cell, Joining::Shared, allot);
}
