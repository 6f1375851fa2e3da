//! The lowest cell that a snapshot has lost.
ghost use Rattle.std.specs.Prelude.{◌≡◌, length};
ghost use Rattle.page_tables.specs.Losses.{lost_here, lower_of, IsLowestLost};

use crate::slot::Slot;
use leaf_cell::LeafState;

/// A cell that a snapshot has lost.
#[derive(Debug, Clone, Copy)]
pub struct LostCell {
    /// Its number.
    pub cell: u32,
    /// The count of refused requests with which it was lost.
    pub at: u64,
}

/// The lowest of the cells in these slots that a snapshot has lost.
pub(crate) fn lowest_lost(slots: &[Slot], number: u32) -> Option<LostCell>
    ensures { IsLowestLost slots.now number (length slots.now) result }
{
    let mut lowest = None;
    for i in 0..slots.len() {
        lowest = lower_of(lowest, lost_here(&slots[i], number));
    }
    lowest
}

/// What a snapshot has lost in a slot.
fn lost_here(slot: &Slot, number: u32) -> Option<LostCell>
    ensures { result ≡ lost_here slot.now number }
{
    match slot.owner {
        Some(cell) => match slot.cell.state(number) {
            LeafState::Lost(at) => Some(LostCell { cell, at }),
            _ => None,
        },
        None => None,
    }
}

/// The lower of two cells, where there are two: the first of two that are one.
fn lower_of(one: Option<LostCell>, other: Option<LostCell>) -> Option<LostCell>
    ensures { result ≡ lower_of one other }
{
    match one {
        Some(lost) => match other {
            Some(found) => Some(if found.cell < lost.cell { found } else { lost }),
            None => Some(lost),
        },
        None => other,
    }
}
