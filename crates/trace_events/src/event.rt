//! The events of one run of the kernel.
use vm_base::{Bytes, Mode, Perm};

/// One thing that happens: to the parent, or to a snapshot where a number is named. Pages are
/// page numbers (an address divided by 4096), addresses and lengths count bytes.
#[derive(Debug, Drop)]
pub enum Event {
    /// The parent maps pages that no area holds.
    Map { first: u64, pages: u64, perm: Perm },
    /// The parent unmaps pages. Those that no area holds are skipped.
    Unmap { first: u64, pages: u64 },
    /// The parent gives pages of areas another permission.
    Protect { first: u64, pages: u64, perm: Perm },
    /// The parent reads.
    Read { addr: u64, len: u32 },
    /// The parent touches the range of the bytes, and then stores them.
    Write { addr: u64, bytes: Bytes },
    /// The parent touches the range, and then stores the byte at each of its addresses.
    Fill { addr: u64, len: u32, byte: u8 },
    /// The parent forks, and the snapshot gets this number.
    Fork { number: u32, mode: Mode },
    /// The snapshot copies its leaf table at a cell, where that is marked.
    Copy { number: u32, cell: u32 },
    /// The snapshot ends and is reaped.
    Drop { number: u32 },
    /// The snapshot reads.
    SnapRead { number: u32, addr: u64, len: u32 },
    /// How many frames are out, and how many are left?
    Frames,
    /// Which areas has the parent?
    ListAreas,
    /// The nth request for a frame from here on is refused, once.
    Refuse { nth: u32 },
}
