//! Callers of a heap over any memory, proved from its clauses alone, and run on flat memories.
//!
//! No crate stands on this one. The README beside it says what its callers show.
#![tactic(auto)]

mod heap;
#[cfg(test)]
mod tests;

pub use heap::{again, give, take};
