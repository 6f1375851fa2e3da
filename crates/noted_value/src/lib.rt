//! Values that only clauses read, kept by code that does nothing.
//!
//! The main type is std's `Snapshot`, a value of no bytes. `note_down(&mut most, &Reached(now))`
//! gives it the value that the [`Note`] of `Reached` says. A caller may rely on this: the new value
//! is the one that the definition gives of the old one and of what the note is about. README.md
//! goes on.
#![tactic(auto)]

mod choice;
mod note;
mod peak;
#[cfg(test)]
mod tests;

pub use choice::{Choice, choose, chosen};
pub use note::{Note, note_down, noted};
