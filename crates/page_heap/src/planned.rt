//! The block that a commit will take.

/// Where the block of a size will be.
#[derive(Clone, Copy, Debug)]
pub struct Plan {
    pub addr: u64,
    /// Its block has 2^class bytes.
    pub class: u8,
    /// It lies at the top, and in no list of free blocks.
    pub fresh: bool,
}
