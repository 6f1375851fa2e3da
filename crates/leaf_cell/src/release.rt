//! Frames that go back.
ghost use Rattle.std.specs.Prelude.{ℕ, ◌≡◌, ◌+◌, ◌<◌, ◌≤◌, length, slice_set, slice_index_or, replicate, count_by, is_some, Some, None};
ghost use Rattle.vm_base.specs.Deals.{LeadsAlong, Returned};
ghost use Rattle.kernel_meaning.specs.Leaves.{no_versions, version_at};
ghost use Rattle.leaf_cell.specs.Inside.{table_places, own_places, snapshot_places, leaf_value};
ghost use Rattle.leaf_cell.specs.Releasing.{one_if, own_if, IsLeafReleased, AreHome, Releasing, IsReleased};

use crate::frame_places::FramePlaces;
use crate::leaf_table::{BLOCK, CELL_PAGES, LeafTable};
use crate::lookups::{own_place, place_in};
use crate::snapshot::{Snapshot, SnapshotLeaf};
use vm_base::{Allot, Frame};

/// Gives back what a snapshot's leaf alone names, and its own table.
pub(crate) fn release_leaf<A: Allot>(
    leaf: SnapshotLeaf,
    parent: &Option<LeafTable>,
    frames: &mut FramePlaces,
    allot: &mut A,
)
    requires size { length frames.old ≡ 1024 }
    requires home { AreHome (snapshot_places no_versions leaf) }
    requires others { AreHome (table_places parent.now) }
    requires out { count_by is_some frames.old + own_if (leaf_value leaf) ≤ A.out (A.state allot.old) }
    requires untold { A.grants allot.old ≡ None }
    ensures released { IsLeafReleased A.goes (A.state allot.old) (A.state allot.new) (snapshot_places no_versions leaf) (table_places parent.now) (own_if (leaf_value leaf)) frames.old frames.new }
    ensures out { A.out (A.state allot.new) + count_by is_some frames.old + own_if (leaf_value leaf) ≡ A.out (A.state allot.old) + count_by is_some frames.new }
    ensures untold { A.grants allot.new ≡ None }
    ensures unrefused { A.refused (A.state allot.new) ≡ A.refused (A.state allot.old) }
{
    match leaf {
        SnapshotLeaf::Own(table) => {
            release_pages(&table, parent, frames, allot);
            allot.give(table.into_frame());
        }
        SnapshotLeaf::Joined => {}
        SnapshotLeaf::Lost(_) => {}
    }
}

/// Gives back the frames that a table names and the other does not.
fn release_pages<A: Allot>(
    table: &LeafTable,
    other: &Option<LeafTable>,
    frames: &mut FramePlaces,
    allot: &mut A,
)
    requires size { length frames.old ≡ 1024 }
    requires home { AreHome table.now.places }
    requires others { AreHome (table_places other.now) }
    requires out { count_by is_some frames.old ≤ A.out (A.state allot.old) }
    requires untold { A.grants allot.old ≡ None }
    ensures released { Releasing A.goes (A.state allot.old) (A.state allot.new) table.now.places (table_places other.now) frames.old frames.new 0 512 }
    ensures out { A.out (A.state allot.new) + count_by is_some frames.old ≡ A.out (A.state allot.old) + count_by is_some frames.new }
    ensures untold { A.grants allot.new ≡ None }
    ensures unrefused { A.refused (A.state allot.new) ≡ A.refused (A.state allot.old) }
{
    for block in 0..CELL_PAGES / BLOCK {
        release_block(table, other, BLOCK * block, frames, allot);
    }
}

/// The same for a block of pages, which has nothing to give back where no page is present.
fn release_block<A: Allot>(
    table: &LeafTable,
    other: &Option<LeafTable>,
    first: u16,
    frames: &mut FramePlaces,
    allot: &mut A,
)
    requires size { length frames.old ≡ 1024 }
    requires home { (first + 8 ≤ CELL_PAGES)
        × (AreHome table.now.places × AreHome (table_places other.now)) }
    requires out { count_by is_some frames.old ≤ A.out (A.state allot.old) }
    requires untold { A.grants allot.old ≡ None }
    ensures released { Releasing A.goes (A.state allot.old) (A.state allot.new)
        table.now.places (table_places other.now) frames.old frames.new first (first + 8) }
    ensures out { A.out (A.state allot.new) + count_by is_some frames.old
        ≡ A.out (A.state allot.old) + count_by is_some frames.new }
    ensures untold { A.grants allot.new ≡ None }
    ensures unrefused { A.refused (A.state allot.new) ≡ A.refused (A.state allot.old) }
{
    if table.is_bare(first) {
        return;
    }
    for page in first..first + BLOCK {
        release_entry(table, other, page, frames, allot);
    }
}

/// Gives back the frame of a page, where a table names it and the other does not. The other is
/// looked at only where the page is present.
fn release_entry<A: Allot>(
    table: &LeafTable,
    other: &Option<LeafTable>,
    page: u16,
    frames: &mut FramePlaces,
    allot: &mut A,
)
    requires size { length frames.old ≡ 1024 }
    requires home { (page < CELL_PAGES) × AreHome table.now.places }
    requires out { count_by is_some frames.old ≤ A.out (A.state allot.old) }
    requires untold { A.grants allot.old ≡ None }
    ensures released { IsReleased A.goes (A.state allot.old) (A.state allot.new)
        (version_at table.now.places page) (version_at (table_places other.now) page)
        frames.old frames.new }
    ensures out { A.out (A.state allot.new) + count_by is_some frames.old
        ≡ A.out (A.state allot.old) + count_by is_some frames.new }
    ensures untold { A.grants allot.new ≡ None }
    ensures unrefused { A.refused (A.state allot.new) ≡ A.refused (A.state allot.old) }
{
    let place = table.get(page);
    match place {
        Some(_) => release_page(place, place_in(other, page), frames, allot),
        None => {}
    }
}

/// Gives back the frames of a range of pages that the parent names and the snapshot's own
/// table does not.
pub(crate) fn release_range<A: Allot>(
    parent: &Option<LeafTable>,
    snapshot: &Option<Snapshot>,
    frames: &mut FramePlaces,
    first: u16,
    pages: u16,
    allot: &mut A,
)
    requires range { first + pages ≤ CELL_PAGES }
    requires size { length frames.old ≡ 1024 }
    requires home { AreHome (table_places parent.now) }
    requires others { AreHome (own_places snapshot.now) }
    requires out { count_by is_some frames.old ≤ A.out (A.state allot.old) }
    requires untold { A.grants allot.old ≡ None }
    ensures released { Releasing A.goes (A.state allot.old) (A.state allot.new) (table_places parent.now) (own_places snapshot.now) frames.old frames.new first (first + pages) }
    ensures out { A.out (A.state allot.new) + count_by is_some frames.old ≡ A.out (A.state allot.old) + count_by is_some frames.new }
    ensures untold { A.grants allot.new ≡ None }
    ensures unrefused { A.refused (A.state allot.new) ≡ A.refused (A.state allot.old) }
{
    for page in first..first + pages {
        release_page(
            place_in(parent, page),
            own_place(snapshot, page),
            frames,
            allot,
        );
    }
}

/// Gives back the frame at the place of a page, where the other place of it is another.
fn release_page<A: Allot>(
    place: Option<u32>,
    other: Option<u32>,
    frames: &mut FramePlaces,
    allot: &mut A,
)
    requires size { length frames.old ≡ 1024 }
    requires room { (q : ℕ) → place ≡ Some q → q < 1024 }
    requires out { count_by is_some frames.old ≤ A.out (A.state allot.old) }
    requires untold { A.grants allot.old ≡ None }
    ensures released { IsReleased A.goes (A.state allot.old) (A.state allot.new) place other frames.old frames.new }
    ensures out { A.out (A.state allot.new) + count_by is_some frames.old ≡ A.out (A.state allot.old) + count_by is_some frames.new }
    ensures untold { A.grants allot.new ≡ None }
    ensures unrefused { A.refused (A.state allot.new) ≡ A.refused (A.state allot.old) }
{
    if let Some(place) = place {
        if other != Some(place) {
            give_place(frames, place, allot);
        }
    }
}

/// Gives back the frame at a place.
fn give_place<A: Allot>(frames: &mut FramePlaces, place: u32, allot: &mut A)
    requires place { place < length frames.old }
    requires out { one_if (slice_index_or frames.old place None) ≤ A.out (A.state allot.old) }
    requires untold { A.grants allot.old ≡ None }
    ensures frames { frames.new ≡ slice_set frames.old place None }
    ensures led { LeadsAlong A.goes (A.state allot.old) (replicate (one_if (slice_index_or frames.old place None)) Returned) (A.state allot.new) }
    ensures out { A.out (A.state allot.new) + one_if (slice_index_or frames.old place None) ≡ A.out (A.state allot.old) }
    ensures untold { A.grants allot.new ≡ None }
    ensures unrefused { A.refused (A.state allot.new) ≡ A.refused (A.state allot.old) }
{
    let taken = frames.take(place);
    give_taken(taken, allot);
}

/// Gives back a frame that was there.
fn give_taken<A: Allot>(taken: Option<Frame>, allot: &mut A)
    requires out { one_if taken ≤ A.out (A.state allot.old) }
    requires untold { A.grants allot.old ≡ None }
    ensures led { LeadsAlong A.goes (A.state allot.old) (replicate (one_if taken) Returned) (A.state allot.new) }
    ensures out { A.out (A.state allot.new) + one_if taken ≡ A.out (A.state allot.old) }
    ensures untold { A.grants allot.new ≡ None }
    ensures unrefused { A.refused (A.state allot.new) ≡ A.refused (A.state allot.old) }
{
    match taken {
        Some(frame) => allot.give(frame),
        None => {}
    }
}
