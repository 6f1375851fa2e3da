//! Tests of what reads, prints and writes texts: requests, replies, images, scripts and streams.
//!
//! It has tables of cases alone, which name public items of the crates below. No crate stands on
//! it, and it has no call. README.md says why they stand here.
#![tactic(auto)]

#[cfg(test)]
mod events;
#[cfg(test)]
mod images;
#[cfg(test)]
mod requests;
#[cfg(test)]
mod scripts;
#[cfg(test)]
mod streams;
