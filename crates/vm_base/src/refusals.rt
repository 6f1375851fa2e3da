//! What is left of a frame request that was refused.

/// A frame request was refused.
#[derive(Clone, Copy, Debug, PartialEq, Eq)]
pub struct Refused {
    /// The refused requests of the one who asked, this one counted.
    pub at: u64,
}

/// A snapshot has lost a cell, and what it held there can't be read any more.
#[derive(Clone, Copy, Debug, PartialEq, Eq)]
pub struct Lost {
    /// The parent's refused requests up to the one that lost the cell, that one counted.
    pub at: u64,
}
