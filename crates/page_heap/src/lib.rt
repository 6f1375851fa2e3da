//! Blocks of memory in the pages of any memory.
//!
//! [`init`] makes a heap without blocks. [`plan`] says which block a size gets next, so that its
//! pages can be touched before anything is stored; [`commit`] takes that block, and [`free`] gives
//! one back. No call but `init` can be refused. The README beside this crate says what is proved.
#![tactic(auto)]

mod begin;
mod blocks;
mod layout;
mod planned;
mod words;

pub use begin::init;
pub use blocks::{commit, free, plan};
pub use layout::class_for;
pub use planned::Plan;
