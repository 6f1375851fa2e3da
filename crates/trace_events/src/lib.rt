//! What happens in one run of the kernel, and what each event answers: types alone.
//!
//! The main types are [`Event`] and [`Outcome`]. The kernel takes an event whose fields lie within
//! their bounds and answers an outcome, and a script is a list of such events: a caller of either
//! may rely on it that both speak of the same bounds. README.md goes on.
#![tactic(auto)]

mod area_row;
mod bounds;
mod event;
mod outcome;

pub use area_row::AreaRow;
pub use event::Event;
pub use outcome::Outcome;
