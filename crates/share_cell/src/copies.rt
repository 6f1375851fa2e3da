//! The copies of leaves that come before a change.
ghost use Rattle.std.specs.Prelude.{◌≡◌, ◌+◌, ◌≤◌, [], None, Some, true, IfSome};
ghost use Rattle.std.specs.List.{slice_get};
ghost use Rattle.kernel_meaning.specs.Leaves.{AreRising, kept_by};
ghost use Rattle.kernel_meaning.specs.CellActs.{leaf_copied, numbers_where, is_number};
ghost use Rattle.leaf_cell.specs.CellView.{held_of};
ghost use Rattle.leaf_cell.specs.States.{has_joined};
ghost use Rattle.share_cell.specs.Parts.{MadeWithin};
ghost use Rattle.share_cell.specs.Copies.{Copies, copied_where, is_joined_by, is_state_joined};

use crate::joining::Joining;
use leaf_cell::{Cell, LeafState};
use vm_base::{Allot, Want};

/// Copies each leaf that a snapshot has of the parent's by forks of this kind, in rising order of
/// their numbers. It takes one frame for each and becomes the snapshot's own; where that frame is
/// refused the snapshot loses the cell. It is never refused itself.
pub fn copy_leaves<A: Allot>(cell: &mut Cell, joining: Joining, allot: &mut A)
    requires held { held_of cell.old ≤ A.out (A.state allot.old) }
    requires untold { A.grants allot.old ≡ None }
    ensures made { MadeWithin A.goes (A.state allot.old) (A.state allot.new)
        (copied_where (is_joined_by joining)) cell.old cell.new }
    ensures held { A.out (A.state allot.new) + held_of cell.old
        ≡ A.out (A.state allot.old) + held_of cell.new }
    ensures untold { A.grants allot.new ≡ None }
    ensures copied { Copies (is_joined_by joining) (A.refused (A.state allot.old))
        (A.refused (A.state allot.new)) cell.old cell.new }
    ensures none { numbers_where (is_joined_by joining) cell.old.leaves ≡ [] → (cell.new ≡ cell.old)
        × (A.state allot.new ≡ A.state allot.old) }
{
    while let Some(number) = first_joined(cell, joining) {
        copy_leaf(cell, number, allot);
    }
}

/// The least number of a snapshot whose leaf is joined by a fork of this kind.
fn first_joined(cell: &Cell, joining: Joining) -> Option<u32>
    ensures first { result ≡ slice_get (numbers_where (is_joined_by joining) cell.now.leaves) 0 }
    ensures rising { AreRising cell.now.leaves.kept }
{
    let mut nth = 0;
    while let Some(number) = cell.snap(nth) {
        if is_joined(joining, cell.state(number)) {
            return Some(number);
        }
        nth += 1;
    }
    None
}

/// Whether a leaf in this state is joined by a fork of this kind.
fn is_joined(joining: Joining, state: LeafState) -> bool
    ensures { result ≡ is_state_joined joining state }
{
    match joining {
        Joining::Shared => matches!(state, LeafState::Shared),
        Joining::Marked => matches!(state, LeafState::Marked),
    }
}

/// Copies the joined leaf of one snapshot, or lets the snapshot lose the cell.
fn copy_leaf<A: Allot>(cell: &mut Cell, number: u32, allot: &mut A)
    requires rising { AreRising cell.old.leaves.kept }
    requires joined { has_joined (kept_by cell.old.leaves.kept number) ≡ true }
    requires held { held_of cell.old ≤ A.out (A.state allot.old) }
    requires untold { A.grants allot.old ≡ None }
    ensures made { MadeWithin A.goes (A.state allot.old) (A.state allot.new) (leaf_copied number)
        cell.old cell.new }
    ensures held { A.out (A.state allot.new) + held_of cell.old
        ≡ A.out (A.state allot.old) + held_of cell.new }
    ensures untold { A.grants allot.new ≡ None }
    ensures copied { Copies (is_number number) (A.refused (A.state allot.old))
        (A.refused (A.state allot.new)) cell.old cell.new }
{
    match allot.take(Want::Leaf) {
        Ok(frame) => cell.own_leaf(number, frame),
        Err(refused) => cell.lose(number, refused.at, allot),
    }
}
