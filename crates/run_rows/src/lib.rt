//! Tests of whole runs: scripts and sessions through the top call, and two kernels side by side.
//!
//! It has tables of cases alone, which name public items of the crates below. No crate stands on
//! it, and it has no call. README.md says why they stand here.
#![tactic(auto)]

#[cfg(test)]
mod rows;
#[cfg(test)]
mod sessions;
#[cfg(test)]
mod traces;
#[cfg(test)]
mod two_kernels;
