//! How a seat comes to sleep, as three steps of which each takes what the one before it made.
ghost use Rattle.std.specs.Prelude.{◌≡◌, ℕ, IfErr, MatchResult};
ghost use Rattle.turn_cell.specs.Seats.{IsSeatOf, WasBusy, Began, cell_id};

use crate::cell::TurnCell;
use crate::seat::Seat;
use crate::told::Told;
use std::sync::Wait;
use std::sync::atomic::Ordering::SeqCst;

/// The word that counts the calls to seats that sleep. They park on it.
pub(crate) const CALLS: usize = 1;

/// The bits of a word that a seat parks on.
const LOW: u64 = 0xffff_ffff;

/// The count of calls, as a seat heard it before it said that it may sleep.
pub(crate) struct Heard {
    calls: u32,
}

/// The seat has said that it may sleep, and had heard this count before.
pub(crate) struct Said {
    calls: u32,
}

/// The seat asked in vain, and had said before that it may sleep. Only such a seat parks.
pub(crate) struct Missed {
    calls: u32,
}

impl Heard {
    // Who calls from now on finds that the seat may sleep.
    pub(crate) fn say<T: Told>(self, cell: &TurnCell<T>) -> Said
        ensures { result.calls ≡ self.calls }
    {
        let Self { calls } = self;
        cell.asleep.store(1, SeqCst);
        Said { calls }
    }
}

impl<T: Told> TurnCell<T> {
    pub(crate) fn hear(&self) -> Heard {
        Heard {
            calls: (self.table.shared.peek(CALLS) & LOW) as u32,
        }
    }

    // Asks once more. What a seat that had no luck parks on is what it heard before.
    pub(crate) fn ask(&self, seat: &mut Seat<T>, said: Said) -> Result<T, Missed>
        requires { IsSeatOf T.seat_of (cell_id self.now) seat.old }
        ensures asked { MatchResult result
            (λ x. Began T.opening T.stands T.seat_of (cell_id self.now) seat.old seat.new x)
            (λ m. (holder : ℕ) × WasBusy T.seat_of (cell_id self.now) seat.old seat.new holder) }
        ensures heard { IfErr result (λ m. m.calls ≡ said.calls) }
    {
        let Said { calls } = said;
        match self.take(seat) {
            Ok(value) => Ok(value),
            Err(_) => Err(Missed { calls }),
        }
    }

    // Sleeps while no one has called since the seat heard. It may wake up for no reason.
    pub(crate) fn sleep<R: Wait>(&self, rt: &R, missed: Missed) {
        let Missed { calls } = missed;
        self.table.shared.park(rt, CALLS, calls);
    }
}
