//! Tests of the kernel and of the parts that it stands on, some over an allot that counts.
//!
//! Beside tables of cases, which name public items of the crates below, it has that allot:
//! [`Supply`]. No crate stands on it. README.md says why the tests stand here.
#![tactic(auto)]

#[cfg(test)]
mod areas;
#[cfg(test)]
mod cells;
#[cfg(test)]
mod directories;
#[cfg(test)]
mod flat_memories;
#[cfg(test)]
mod kernels;
#[cfg(test)]
mod plain_kernels;
#[cfg(test)]
mod pools;
mod supply;

pub use supply::Supply;
