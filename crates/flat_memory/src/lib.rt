//! A process by flat copies: areas and pages as plain data, of which a fork copies all.
//!
//! The main type is [`Flat`]: `Flat::new(alloc, pages, 0)?` makes a process with room for so many
//! pages, and it is used by the traits `Memory`, `Process` and `Nest` of `vm_base`. A caller may
//! rely on it that a touch is refused a page exactly where the room is used up, that a child has
//! all of the memory as it was at its fork, and that no cell of it is ever lost. README.md goes on.
#![tactic(auto)]

mod entry;
mod flat;
mod memory;
mod nest;
mod page;
mod pages;
mod process;
mod range;
mod side;
mod sides;

pub use flat::Flat;
pub use process::FlatChild;
