//! What the service is: the machine of its commands on a finite map, the histories of its calls,
//! and the bytes that a session, a report and an image then have.
//!
//! The main definition is `answer` in specs/MapMachine.antt, which says the reply and the state
//! after each request. The code is the table of the commands, [`Command`], as
//! `Command::named(b"get")`, and [`Saved`], the end of a save. A caller may rely on it that no
//! definition here knows how pairs are kept. The README beside this crate goes on.
#![tactic(auto)]

mod command;
mod saved;
mod shape;

pub use command::Command;
pub use saved::Saved;
pub use shape::{Frames, Keys, Shape};
