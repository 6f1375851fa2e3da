//! What an event of the kernel answers.
use vm_base::Bytes;

/// The answer of an event. A refused event has changed nothing.
#[derive(Debug, Drop)]
pub enum Outcome {
    Done,
    /// The bytes that were read.
    Bytes(Bytes),
    /// The lowest page of the range that lies in no area.
    NoArea(u64),
    /// The lowest page of the range that may only be read.
    NoWrite(u64),
    /// The lowest page of the range that an area has already.
    Overlap(u64),
    /// There would be more than 128 areas.
    AreasFull,
    /// No snapshot of that number lives.
    NoSnap,
    /// The snapshot has lost a cell of the range: how many requests the parent had been refused
    /// when it lost the lowest one.
    Lost(u64),
}
