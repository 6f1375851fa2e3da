//! The page tables of a modelled process: the directory of the parent and that of its snapshot, and
//! the cells with their leaf tables and pages, all in frames.
//!
//! The main type is [`PageTables`]: `tables.touch(0x100, 2, &mut added, &mut allot)?` makes two
//! pages present. A caller may rely on one sentence: each call asks the allot for exactly the
//! frames that the definitions of `kernel_meaning` name, in their order, and leaves what they
//! leave. The README beside this crate goes on from here.
#![tactic(auto)]

mod access;
mod clear;
mod fork;
mod loss;
mod pieces;
mod protect;
mod range;
mod slot;
mod tables;
mod touch;
mod vacancy;

pub use loss::LostCell;
pub use pieces::PAGE_BYTES;
pub use range::FrameRefused;
pub use tables::PageTables;
