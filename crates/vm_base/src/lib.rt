//! Values and definitions that the memory of afkv and all that stands on it share.
//!
//! The main type is [`Bytes`], a list of bytes that grows where memory is left:
//! `text.push_all(b"ok\n")?` appends, and a call that ran out of memory has changed nothing.
//! The README beside this crate says what each part is for and how the allocator is passed.
#![tactic(auto)]

mod allotment;
mod byte_list;
mod copying;
mod faults;
mod fork_mode;
mod frame_request;
mod frozen;
mod gate;
mod housing;
mod laws;
mod memory;
mod nest;
mod no_memory;
mod page_frame;
mod parting;
mod permission;
mod process;
mod refusals;
mod table_entry;
mod walk;

pub use allotment::Allot;
pub use byte_list::Bytes;
pub use copying::Copying;
pub use faults::{CopyFault, Fault, ForkFault, SnapFault, Step};
pub use fork_mode::Mode;
pub use frame_request::{Asker, Want};
pub use frozen::Frozen;
pub use gate::{Gate, OpenGate, Point};
pub use housing::Housing;
pub use laws::{
    a_range_of_one_area_is_not_refused, a_store_changes_its_own_bytes_alone,
    a_touch_changes_no_read, an_unmap_changes_no_other_read, more_pages_take_more_frames,
    no_area_is_missed, slots_suffice_among_as_many_cells,
};
pub use memory::Memory;
pub use nest::{Nest, Nested};
pub use no_memory::NoMemory;
pub use page_frame::Frame;
pub use parting::Parting;
pub use permission::Perm;
pub use process::Process;
pub use refusals::{Lost, Refused};
pub use table_entry::{Bits, entry_parts, entry_word};
pub use walk::split_addr;
