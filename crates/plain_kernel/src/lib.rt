//! The modelled kernel over events: a parent's memory, its fork, and what each event answers.
//!
//! The main type is [`Kernel`]: `kernel.step(&event)?` runs one event and answers its [`Outcome`].
//! A caller may rely on it that parent and snapshot read what two flat memories hold of which the
//! second was copied whole at the fork. README.md says where this is proved.
#![tactic(auto)]

mod event;
mod kernel;
mod memory;
mod outcome;
mod page;
mod pages;
mod range;

pub use event::Event;
pub use kernel::{Kernel, MOST_FRAMES};
pub use outcome::Outcome;
