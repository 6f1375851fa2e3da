//! Why a reader of requests takes no more bytes.

/// The part of an item in which a stream broke.
#[derive(Clone, Copy, Debug, PartialEq, Eq)]
pub enum ProtocolKind {
    /// The first byte of an item.
    Start,
    /// The rest of an item's first line.
    Count,
    /// The first byte of a word.
    Dollar,
    /// The rest of a word's first line.
    Length,
    /// The line end behind a word's bytes.
    Ending,
}

/// Why a feed failed.
#[derive(Clone, Copy, Debug, PartialEq, Eq)]
pub enum FeedFault {
    /// The bytes are no stream. `place` is the first byte with which they begin none, counted
    /// from 0 at the first byte fed. Each further feed answers the same.
    Protocol { place: u64, kind: ProtocolKind },
    /// The allocator refused. The reader is as it was before the feed.
    NoMemory,
}
