//! The events of one run of the kernel.
use vm_base::{Bytes, Mode, Perm};

/// One thing that happens: to the parent, or to a snapshot where a number is named. Pages are
/// page numbers (an address divided by 4096), addresses and lengths count bytes.
#[derive(Debug, Drop)]
pub enum Event {
    /// The parent maps an area.
    Map { first: u64, pages: u64, perm: Perm },
    /// The parent reads.
    Read { addr: u64, len: u32 },
    /// The parent touches the range of the bytes, and then stores them.
    Write { addr: u64, bytes: Bytes },
    /// The parent forks, and the child gets this number.
    Fork { number: u32, mode: Mode },
    /// The snapshot of this number reads.
    SnapRead { number: u32, addr: u64, len: u32 },
}
