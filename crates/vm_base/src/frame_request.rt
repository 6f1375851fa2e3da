//! What a frame is asked for, and by whom.

/// What a frame is to hold. An address is walked from the top table down to its page.
#[derive(Clone, Copy, Debug, PartialEq, Eq)]
pub enum Want {
    Top,
    Upper,
    Middle,
    Leaf,
    Page,
}

/// The side that asks for a frame.
#[derive(Clone, Copy, Debug, PartialEq, Eq)]
pub enum Asker {
    Parent,
    /// The snapshot of this number, from 1.
    Snapshot(u32),
}
