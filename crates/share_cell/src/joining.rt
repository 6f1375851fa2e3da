//! How a snapshot's leaf comes to be the parent's.

/// By which fork a snapshot has the parent's leaf table.
#[derive(Clone, Copy, Debug, PartialEq, Eq)]
pub enum Joining {
    /// By an on-demand fork.
    Shared,
    /// By an async fork, which marked it: still to be copied.
    Marked,
}
