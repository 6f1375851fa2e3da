//! A lock whose value stands for the list of all that was told under it.
//!
//! The main type is `TurnCell`. A seat takes a turn by `let mut turn = cell.turn(rt, &mut seat);`,
//! uses `turn.value()`, and gives the turn back by `turn.back(&note)`. A caller may rely on this:
//! the value in a turn stands for one history that begins with all that the seat has seen.
//! README.md goes on.
#![tactic(auto)]

mod cell;
mod known;
mod life;
mod plays;
mod seat;
mod sleep;
mod told;
mod turns;

pub use cell::{OneHistory, Start, TurnCell};
pub use known::{Known, Role};
pub use life::NoMemory;
pub use seat::{Seat, SeatList};
pub use told::{Note, Told};
pub use turns::{Busy, Turn};
