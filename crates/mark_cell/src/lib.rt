//! One cell under forks of all modes: its changes, with the copies of leaves that come before
//! them, and the copies that an async snapshot makes itself.
//!
//! [`touch_page`], [`clear_pages`] and [`protect_pages`] are the parent's changes, [`copy_one`] is
//! the snapshot's copy. A caller may rely on `made`: the cell goes as the definitions say, with
//! just the frame requests that they name. The README beside this crate says what is proved.
#![tactic(auto)]

mod acts;
mod marks;

pub use acts::{clear_pages, protect_pages, touch_page};
pub use marks::{Copied, copy_one, fork_mark, sync, unmark};
