//! The ways in which a fork makes the memory of its child.

/// What a fork does with the last-level tables. The child reads the same bytes in each mode.
#[derive(Clone, Copy, Debug, PartialEq, Eq)]
pub enum Mode {
    /// Each table is copied at the fork.
    Eager,
    /// Both sides share each table until one of them changes there.
    OnDemand,
    /// Both sides share each table, the child copies them one by one, and the parent copies
    /// one before it changes there.
    Async,
}
