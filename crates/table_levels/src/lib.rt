//! The directory of an address space: its top, upper and middle tables, kept in frames.
//!
//! The main type is [`Directory`], a finite map from cells to slots:
//! `directory.insert(cell, slot, &mut allot)?` asks the allot for the tables that are missing. A
//! caller may rely on it that a refused call leaves the map as it was and gives back what it took,
//! and that as many frames are out as the directory's cells need. README.md goes on.
#![tactic(auto)]

mod copying;
mod directory;
mod frames;
mod linking;
mod search;
mod table;
mod unlinking;

pub use directory::Directory;
