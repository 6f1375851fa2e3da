//! One cell of the modelled memory: the leaf tables and the pages of 512 pages of addresses, in
//! frames, with the parent's side and that of its snapshots.
//!
//! The main type is [`Cell`]: `cell.touch(page, &mut allot)?` gives the parent a page of its own.
//! A caller may rely on `follows` of each call: a cell that stood for an account stands for the
//! account with that act. The README beside this crate says what it keeps where.
#![tactic(auto)]

mod cell;
mod changes;
mod clear;
mod frame_places;
mod joined;
mod laws;
mod leaf_table;
mod lookups;
mod pages;
mod protect;
mod release;
mod snapshot;
mod touch;
mod unshare;

pub use cell::Cell;
pub use laws::a_cell_is_as_its_account;
pub use snapshot::LeafState;
