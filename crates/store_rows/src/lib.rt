//! Stores in pages that have begun, what is looked at in them, and tests of the store in pages.
//!
//! [`store_in`] begins a store in any new memory, [`flat_store`] in a flat one, and [`list_of`]
//! lists the pairs of a store. README.md says what the tests are of.
#![tactic(auto)]

#[cfg(test)]
mod counts;
#[cfg(test)]
mod dice;
#[cfg(test)]
mod fills;
#[cfg(test)]
mod kernels;
mod looks;
mod opened;
#[cfg(test)]
mod refusals;
#[cfg(test)]
mod rows;
#[cfg(test)]
mod sequences;

pub use looks::{list_of, word_at};
pub use opened::{NoStore, STORE_CELLS, flat_store, store_in};
