//! The areas of an address space: which pages may be used, and for what.
//!
//! The main type is [`Areas`], a list of at most 128 areas that never allocates:
//! `areas.map(first, pages, Perm::ReadWrite)?` adds pages to it. A caller may rely on it that the
//! list is in order and that areas that touch and may be used alike are one, so two lists that give
//! each page the same permission are equal. README.md goes on.
#![tactic(auto)]

mod area;
mod areas;
mod fault;
mod laws;
mod lookup;
mod pieces;

pub use area::Area;
pub use areas::{Areas, MOST_AREAS};
pub use fault::AreaFault;
pub use laws::{as_on_flat_memory, same_pages_same_areas};
