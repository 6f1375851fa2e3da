//! Views of a memory, for tests: one counts the calls on it, and one reads it as a snapshot.
//!
//! The main type is [`Counted`]: `Counted::new(memory)` is that memory to whoever calls it, and
//! `counted.calls` tells how many calls of each kind there were. `ReadOnly { memory: &mut memory }`
//! is a [`Frozen`](vm_base::Frozen) of what the memory holds. README.md goes on.
#![tactic(auto)]

mod counted;
mod read_only;

pub use counted::{CallCounts, Counted};
pub use read_only::ReadOnly;
