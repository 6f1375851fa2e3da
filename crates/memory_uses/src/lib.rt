//! Generic callers of the memories, processes and snapshots of `vm_base`.
#![tactic(auto)]

mod complete;
mod copying;
mod doubling;
mod frozen;
mod housing;
mod memory;
mod nest;
mod parting;
mod process;
mod putting;
mod saving;
mod undoing;

pub use complete::{copy_within, write_within};
pub use copying::copy_through;
pub use doubling::double;
pub use frozen::read_twice;
pub use housing::{read_child, write_and_copy, write_copy_and_reap};
pub use memory::{write_at, write_both};
pub use nest::{copy_nested, read_nested_twice};
pub use parting::{fork_write_and_read, write_and_read_own};
pub use process::{fork_and_write, fork_twice, reap_one};
pub use putting::put_three;
pub use saving::{copy_child, save_child, save_nested};
pub use undoing::{begin, map_and_protect, take_back};
