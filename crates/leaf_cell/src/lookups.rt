//! Where the pages of a cell are.
ghost use Rattle.std.specs.Prelude.{◌≡◌, ◌+◌, ◌<◌, ◌≤◌, length, count_by, is_some, take, drop, cond, [], Some, Ok, Err, OnOk, IfOk, IfErr, nat_eq};
ghost use Rattle.std.specs.Option.{option_map, option_eq};
ghost use Rattle.kernel_meaning.specs.Leaves.{version_at, has_present, no_versions, kept_by, is_own, Joined};
ghost use Rattle.leaf_cell.specs.CellView.{bytes_in, part_of};
ghost use Rattle.leaf_cell.specs.Writable.{writable_at};
ghost use Rattle.leaf_cell.specs.Inside.{table_places, table_writable, snapshot_places, own_places, leaf_value, kept_values};
ghost use Rattle.leaf_cell.specs.States.{unless_lost, leaf_state as leaf_state_of};

use crate::frame_places::FramePlaces;
use crate::leaf_table::{CELL_PAGES, LeafTable};
use crate::snapshot::{LeafState, Snapshot, SnapshotLeaf};
use vm_base::{Frame, Lost, Mode};

/// The place of a page in a table, where there is one.
pub(crate) fn place_in(table: &Option<LeafTable>, page: u16) -> Option<u32>
    requires { page < CELL_PAGES }
    ensures { result ≡ version_at (table_places table.now) page }
{
    match table {
        Some(table) => table.get(page),
        None => None,
    }
}

/// Whether a table, where there is one, tells that a page may be written to.
pub(crate) fn may_write_in(table: &Option<LeafTable>, page: u16) -> bool
    requires { page < CELL_PAGES }
    ensures { result ≡ writable_at (table_writable table.now) page }
{
    match table {
        Some(table) => table.may_write(page),
        None => false,
    }
}

/// Whether a table, where there is one, has a page in a range of pages.
pub(crate) fn covers_in(table: &Option<LeafTable>, first: u16, pages: u16) -> bool
    requires { first + pages ≤ CELL_PAGES }
    ensures { result ≡ has_present (table_places table.now) first pages }
{
    match table {
        Some(table) => table.covers(first, pages),
        None => false,
    }
}

/// The place of a page that a snapshot names, where it has not lost the cell.
pub(crate) fn snapshot_place(
    parent: &Option<LeafTable>,
    leaf: &SnapshotLeaf,
    page: u16,
) -> Result<Option<u32>, Lost>
    requires { page < CELL_PAGES }
    ensures ok { IfOk result (λ place. place ≡ version_at (snapshot_places (table_places parent.now) leaf.now) page) }
    ensures kept { OnOk result (unless_lost (leaf_value leaf.now) [] ≡ Ok []) }
    ensures lost { IfErr result (λ lost. unless_lost (leaf_value leaf.now) [] ≡ Err lost.at) }
{
    match leaf {
        SnapshotLeaf::Own(table) => Ok(table.get(page)),
        SnapshotLeaf::Joined => Ok(place_in(parent, page)),
        SnapshotLeaf::Lost(at) => Err(Lost { at: *at }),
    }
}

/// Whether the snapshot has this number.
pub(crate) fn is_snapshot(snapshot: &Option<Snapshot>, number: u32) -> bool
    ensures { result ≡ is_some (kept_by (kept_values no_versions snapshot.now) number) }
{
    match snapshot {
        Some(snapshot) => snapshot.number == number,
        None => false,
    }
}

/// The place of a page in a snapshot's own table, where there is one.
pub(crate) fn own_place(snapshot: &Option<Snapshot>, page: u16) -> Option<u32>
    requires { page < CELL_PAGES }
    ensures { result ≡ version_at (own_places snapshot.now) page }
{
    match snapshot {
        Some(snapshot) => match &snapshot.leaf {
            SnapshotLeaf::Own(table) => table.get(page),
            SnapshotLeaf::Joined => None,
            SnapshotLeaf::Lost(_) => None,
        },
        None => None,
    }
}

/// Whether a snapshot's own table names a page at this place.
pub(crate) fn names_place(snapshot: &Option<Snapshot>, page: u16, place: u32) -> bool
    requires { page < CELL_PAGES }
    ensures { result ≡ option_eq nat_eq (version_at (own_places snapshot.now) page) (Some place) }
{
    own_place(snapshot, page) == Some(place)
}

/// Reads bytes of the page at a place, which are zeros where there is none.
pub(crate) fn read_place(frames: &FramePlaces, place: Option<u32>, at: usize, buf: &mut [u8])
    requires { at + length buf.old ≤ 4096 }
    ensures { buf.new ≡ part_of (bytes_in frames.now place) at (length buf.old) }
{
    match frame_at(frames, place) {
        Some(frame) => read_frame(frame, at, buf),
        None => buf.fill(0),
    }
}

/// The frame at a place.
pub(crate) fn frame_at(frames: &FramePlaces, place: Option<u32>) -> Option<&Frame>
    ensures { option_map (λ frame. frame.now.bytes) result ≡ bytes_in frames.now place }
{
    frames.get(place?)
}

/// Reads bytes of a frame.
fn read_frame(frame: &Frame, at: usize, buf: &mut [u8])
    requires { at + length buf.old ≤ 4096 }
    ensures { buf.new ≡ take (length buf.old) (drop at frame.now.bytes) }
{
    let bytes: &[u8] = frame.bytes();
    buf.copy_from_slice(&bytes[at..at + buf.len()]);
}

/// The state of a leaf.
pub(crate) fn leaf_state(snapshot: &Snapshot) -> LeafState
    ensures { result ≡ leaf_state_of snapshot.now.mode (leaf_value snapshot.now.leaf) }
{
    match snapshot.leaf {
        SnapshotLeaf::Own(_) => LeafState::Own,
        SnapshotLeaf::Joined => joined_state(snapshot.mode),
        SnapshotLeaf::Lost(at) => LeafState::Lost(at),
    }
}

/// The state of a leaf that is the parent's.
fn joined_state(mode: Mode) -> LeafState
    ensures { result ≡ leaf_state_of mode Joined }
{
    match mode {
        Mode::Eager => LeafState::Shared,
        Mode::OnDemand => LeafState::Shared,
        Mode::Async => LeafState::Marked,
    }
}

/// One frame for a table that is there.
pub(crate) fn count_table(table: &Option<LeafTable>) -> u32
    ensures { result ≡ cond (is_some table.now) 1 0 }
{
    match table {
        Some(_) => 1,
        None => 0,
    }
}

/// One frame for a snapshot's own table.
pub(crate) fn count_own(snapshot: &Option<Snapshot>) -> u32
    ensures { result ≡ count_by (λ kept. is_own kept.leaf) (kept_values no_versions snapshot.now) }
{
    match snapshot {
        Some(snapshot) => match &snapshot.leaf {
            SnapshotLeaf::Own(_) => 1,
            SnapshotLeaf::Joined => 0,
            SnapshotLeaf::Lost(_) => 0,
        },
        None => 0,
    }
}
