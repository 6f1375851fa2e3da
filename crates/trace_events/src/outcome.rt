//! What an event of the kernel answers.
use crate::area_row::AreaRow;
use vm_base::Bytes;

/// The answer of an event. Pages are page numbers; counts are of refused requests for frames.
#[derive(Debug, Drop)]
pub enum Outcome {
    Done,
    /// The bytes that were read.
    Bytes(Bytes),
    /// Frames that are out of the pool, and frames that are left in it.
    Held { held: u32, free: u32 },
    /// The areas of the parent.
    AreaRow(AreaRow),
    /// The snapshot has copied its leaf table.
    Copied,
    /// The snapshot has nothing to copy at that cell.
    Nothing,
    /// The snapshot was refused the frame of a copy: its own count, with that refusal.
    Refused(u64),
    /// The snapshot has lost a cell of the range: the parent's count when it lost the lowest one.
    Lost(u64),
    /// The lowest page of the range that lies in no area.
    NoArea(u64),
    /// The lowest page of the range that may only be read.
    NoWrite(u64),
    /// The lowest page of the range that an area has already.
    Overlap(u64),
    /// There would be more than 128 areas.
    AreasFull,
    /// The range has more cells without a slot than there are free slots.
    CellsFull,
    /// The parent was refused a frame: its own count, with that refusal.
    NoFrame(u64),
    /// As many snapshots live as may live at once.
    TooMany,
    /// No snapshot of that number lives.
    NoSnap,
}
