//! Where a pair ends in its buffer.

/// The places in the buffer where a key and its value end. The value begins where the key ends.
#[derive(Clone, Copy, Debug, PartialEq, Eq)]
pub(crate) struct PairEnd {
    pub(crate) key: usize,
    pub(crate) value: usize,
}
