//! How the save of a snapshot ended.

/// The end of a save.
#[derive(Clone, Copy, Debug, PartialEq, Eq)]
pub enum Saved {
    /// The image was published, and it has so many pairs.
    Ok(u64),
    /// The snapshot had lost a cell, at this count of refused requests of the parent.
    Lost(u64),
    /// A copy of the snapshot's own was refused, at this count of them.
    Refused(u64),
    /// The folder or the file failed.
    SinkFault,
    NoMemory,
}
