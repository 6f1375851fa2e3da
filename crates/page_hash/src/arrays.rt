//! The two arrays of a doubling.

/// Where the old array lies and the new one, how many buckets the old one has, and how many pairs
/// there are.
#[derive(Clone, Copy, Debug)]
pub struct Arrays {
    pub old: u64,
    pub new: u64,
    pub buckets: u64,
    pub pairs: u64,
}
