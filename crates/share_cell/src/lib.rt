//! One cell whose leaf table an on-demand fork shares with the parent.
//!
//! [`fork_share`] gives a snapshot the parent's leaf, and [`unshare`] copies such leaves before a
//! change. A caller may rely on `made`: the copies are those that the definitions name, in their
//! order, whatever the other parts of the act do. The README beside this crate says what is proved.
#![tactic(auto)]

mod copies;
mod joining;
mod shares;

pub use copies::copy_leaves;
pub use joining::Joining;
pub use shares::{fork_share, unshare};
