//! What a cell keeps of a snapshot.

use crate::leaf_table::LeafTable;
use vm_base::Mode;

/// What a snapshot has at a cell, as callers see it.
#[derive(Clone, Copy, Debug, PartialEq, Eq)]
pub enum LeafState {
    /// The snapshot does not have the cell.
    Absent,
    /// A leaf table of its own.
    Own,
    /// The parent's leaf table, by an on-demand fork.
    Shared,
    /// The parent's leaf table, by an async fork: still to be copied.
    Marked,
    /// None any more, with the parent's refused requests up to the one that lost it.
    Lost(u64),
}

/// A snapshot's leaf.
#[derive(Debug, Drop)]
pub(crate) enum SnapshotLeaf {
    Own(LeafTable),
    Joined,
    Lost(u64),
}

/// A snapshot at a cell.
#[derive(Debug, Drop)]
pub(crate) struct Snapshot {
    pub(crate) number: u32,
    pub(crate) mode: Mode,
    pub(crate) leaf: SnapshotLeaf,
}
