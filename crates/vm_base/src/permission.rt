//! What an area of memory may be used for.

/// The permission of an area. Every area may be read.
#[derive(Clone, Copy, Debug, PartialEq, Eq)]
pub enum Perm {
    Read,
    ReadWrite,
}
