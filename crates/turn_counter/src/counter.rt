//! A counter under a lock, and additions to it.
ghost use Rattle.std.specs.Prelude.{◌≡◌, ◌+◌, length};
ghost use Rattle.turn_cell.specs.Seats.{IsSeatOf, IsSameSeat, cell_id, mine};
ghost use Rattle.turn_counter.specs.Additions.{made_by};
ghost use Rattle.turn_counter.specs.Replies.{IsAddition};

use std::sync::Wait;
use turn_cell::{Note, Seat, Told, TurnCell};

/// What a seat added.
#[derive(Debug, Clone, Copy, PartialEq, Eq, Drop)]
pub struct Addition {
    pub seat: u32,
    pub amount: u32,
}

/// A sum modulo 2^64. It stands for the additions to what it was at first.
#[derive(Debug, Drop)]
pub struct Counter {
    pub sum: u64,
}

impl Told for Counter {
    ghost use Rattle.std.specs.Prelude.{ℕ};
    ghost use Rattle.turn_counter.specs.Additions.{made_by, IsSumOf};

    type Entry = Addition;

    ghost Opening = { ℕ };

    ghost opening = { λ c. c.sum };

    ghost stands = { IsSumOf };

    ghost seat_of = { made_by };
}

impl Note<Counter> for Addition {
    ghost entry = { λ a. a };
}

/// Adds, and answers the sum of what was there at first and of the additions before this one.
pub fn add<R: Wait>(rt: &R, cell: &TurnCell<Counter>, seat: &mut Seat<Counter>, amount: u32) -> u64
    requires { IsSeatOf made_by (cell_id cell.now) seat.old }
    ensures seat { IsSeatOf made_by (cell_id cell.now) seat.new }
    ensures reply { IsAddition (cell_id cell.now) seat.old seat.new amount result }
{
    let note = Addition {
        seat: seat.number(),
        amount,
    };
    let mut turn = cell.turn(rt, seat);
    let counter = turn.value();
    let before = counter.sum;
    counter.sum = before.wrapping_add(u64::from(amount));
    turn.back(&note);
    before
}
