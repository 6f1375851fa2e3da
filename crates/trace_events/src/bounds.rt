//! The test for the bounds of an event's fields.
ghost use Rattle.std.specs.Prelude.{◌≡◌, ◌+◌, ◌<◌, ◌≤◌, ◌^◌, ◌↔◌, length, All, IsTrue};
ghost use Rattle.trace_events.specs.EventBounds.{is_fork_mode, IsCounted, ArePages, IsRange, IsWithinBounds};

use crate::event::Event;
use vm_base::Mode;

/// One more than the last address.
const ADDRESSES: u64 = 1 << 48;
/// One more than the last page.
const PAGES: u64 = 1 << 36;
/// One more than the last cell.
const CELLS: u32 = 1 << 27;

/// The most bytes of a read.
const MOST_READ: u64 = 65_536;
/// The most bytes of a write.
const MOST_WRITTEN: u64 = 4096;
/// The most bytes that are filled at once.
const MOST_FILLED: u64 = 2_097_152;

impl Event {
    /// Whether each field lies within its bounds.
    pub fn is_within_bounds(&self) -> bool
        ensures { IsTrue result ↔ IsWithinBounds self.now }
    {
        match self {
            Event::Map { first, pages, .. } => are_pages(*first, *pages),
            Event::Unmap { first, pages } => are_pages(*first, *pages),
            Event::Protect { first, pages, .. } => are_pages(*first, *pages),
            Event::Read { addr, len } => is_range(MOST_READ, *addr, u64::from(*len)),
            Event::Write { addr, bytes } => is_written(*addr, bytes.as_slice()),
            Event::Fill { addr, len, byte } => {
                // A proof knows of a byte that it has eight bits once it is read.
                let _byte = *byte;
                is_range(MOST_FILLED, *addr, u64::from(*len))
            }
            Event::Fork { number, mode } => *number > 0 && is_fork_mode(*mode),
            Event::Copy { number, cell } => *number > 0 && *cell < CELLS,
            Event::Drop { number } => *number > 0,
            Event::SnapRead { number, addr, len } => {
                *number > 0 && is_range(MOST_READ, *addr, u64::from(*len))
            }
            Event::Frames => true,
            Event::ListAreas => true,
            Event::Refuse { nth } => *nth > 0,
        }
    }
}

fn is_fork_mode(mode: Mode) -> bool
    ensures { result ≡ is_fork_mode mode }
{
    matches!(mode, Mode::Eager)
}

fn are_pages(first: u64, pages: u64) -> bool
    ensures { IsTrue result ↔ ArePages first pages }
{
    pages > 0 && first <= PAGES && pages <= PAGES - first
}

fn is_range(most: u64, addr: u64, len: u64) -> bool
    ensures { IsTrue result ↔ IsRange most addr len }
{
    len > 0 && len <= most && addr <= ADDRESSES && len <= ADDRESSES - addr
}

fn is_written(addr: u64, bytes: &[u8]) -> bool
    ensures { IsTrue result ↔ (IsRange 4096 addr (length bytes.now) × All (λ byte. byte < 2 ^ 8) bytes.now) }
{
    is_range(MOST_WRITTEN, addr, bytes.len() as u64)
}
