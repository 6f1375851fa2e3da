//! Why a call on a list of areas is refused.

/// The answer of a call that was refused. The list is as it was.
#[derive(Clone, Copy, Debug, PartialEq, Eq)]
pub enum AreaFault {
    /// The lowest page of the range that lies in no area.
    NoArea(u64),
    /// The lowest page of the range that an area holds.
    Overlap(u64),
    /// The new list would hold more than 128 areas.
    AreasFull,
}
