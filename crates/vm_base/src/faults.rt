//! Why a call on a memory, a process or a snapshot was refused.

/// A call on a memory was refused, and the memory holds what it did. A page is a page's number.
#[derive(Clone, Copy, Debug, PartialEq, Eq)]
pub enum Fault {
    /// The lowest page of the range that lies in no area.
    NoArea(u64),
    /// The lowest page of the range whose area may only be read.
    NoWrite(u64),
    /// No frame was left for an absent page or a table above it.
    NoFrame {
        /// The refused requests of the memory, this one counted.
        at: u64,
        page: u64,
    },
    /// The lowest page of the range that already lies in an area.
    Overlap(u64),
    /// The memory would have more than 128 areas.
    AreasFull,
    /// More cells of the range are without a slot than there are free slots.
    CellsFull,
}

/// A fork was refused, and no child is there.
#[derive(Clone, Copy, Debug, PartialEq, Eq)]
pub enum ForkFault {
    /// No frame was left for a table of the child.
    NoFrame {
        /// The refused requests of the process, this one counted.
        at: u64,
    },
    /// As many children live as may.
    TooMany,
    /// Every number was given to a child.
    NumbersSpent,
}

/// A snapshot can't be read there.
#[derive(Clone, Copy, Debug, PartialEq, Eq)]
pub enum SnapFault {
    /// The lowest page of the range that lay in no area at the fork.
    NoArea(u64),
    /// The first cell of the range that is lost.
    Lost {
        /// The parent's refused requests up to the one that lost the cell, that one counted.
        at: u64,
    },
}

/// A cell of a snapshot was not copied.
#[derive(Clone, Copy, Debug, PartialEq, Eq)]
pub enum CopyFault {
    /// No frame was left. The cell can be copied later.
    Refused {
        /// The refused copies of this snapshot, this one counted.
        at: u64,
    },
    /// A cell of the snapshot is lost.
    Lost {
        /// The parent's refused requests up to the one that lost the cell, that one counted.
        at: u64,
    },
}

/// How far one call that copies a cell has come.
#[derive(Clone, Copy, Debug, PartialEq, Eq)]
pub enum Step {
    /// The cell was copied.
    Copied(u32),
    /// The cell was left for later, because the holder of that number had its turn.
    Skipped { cell: u32, holder: u32 },
    /// No cell is left for this call.
    AllDone,
}
