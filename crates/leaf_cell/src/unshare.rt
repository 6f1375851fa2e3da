//! A page that a snapshot names too becomes the parent's own.
ghost use Rattle.std.specs.Prelude.{◌≡◌, ◌⊎◌, ◌+◌, ◌<◌, ◌≤◌, length, count_by, is_some, true, None, Some, IsSome, slice_set, slice_index_or};
ghost use Rattle.vm_base.specs.FlatMemory.{zero_page};
ghost use Rattle.kernel_meaning.specs.Leaves.{version_at, is_named, no_versions, is_own};
ghost use Rattle.kernel_meaning.specs.CellAccount.{Touch};
ghost use Rattle.leaf_cell.specs.CellView.{AreUnjoined, held_of, frame_bytes, page_or_zeros};
ghost use Rattle.leaf_cell.specs.Adding.{IsPut};
ghost use Rattle.leaf_cell.specs.Inside.{AreInside, table_places, table_writable, own_places, kept_values};
ghost use Rattle.leaf_cell.specs.Losing.{IsLoss};
ghost use Rattle.leaf_cell.specs.Standing.{MadeAct};
ghost use Rattle.leaf_cell.specs.Touching.{IsTouched};

use crate::cell::Cell;
use crate::frame_places::FramePlaces;
use crate::leaf_table::{CELL_PAGES, LeafTable, copy_bytes};
use crate::lookups::frame_at;
use crate::pages::{free_place, put_page};
use crate::release::release_leaf;
use crate::snapshot::{Snapshot, SnapshotLeaf};
use vm_base::{Allot, Frame, Want};

// The copy before a change
//
// What it is for. After a fork the parent's table and the snapshot's own name the same frames. A
// store through the one would change what the other reads, so before the parent stores to a page
// the page becomes the parent's alone.
//
// How it goes. Each page has two places for frames, its number and its number plus 512. At most two
// versions of it live: the parent's and the snapshot's. So one of the places is free while both
// name the other. The copy goes there, the parent's entry moves to it with the bit for writing, and
// the snapshot keeps the frame that it names. Nothing is moved that a snapshot reads.
//
// What if the frame is refused. The write goes on: the parent is never refused for a copy. The
// snapshot loses the whole cell instead, with the count of this refusal, and gives back its table
// and the frames that it alone names. From then on it says `Lost` where it is read here. The page
// is the parent's alone where it is.
//
// Limits. The leaf must be the snapshot's own: one that is joined gets a table first (`own_leaf`),
// since two sides that share a table can't name different frames.
impl Cell {
    /// Copies a page that the snapshot's own leaf names too. Where the frame is refused the
    /// snapshot loses the cell, and the page is the parent's alone where it is.
    pub(crate) fn unshare_page<A: Allot>(&mut self, page: u16, place: u32, allot: &mut A)
        requires page { page < CELL_PAGES }
        requires there { version_at self.old.leaves.parent page ≡ Some place }
        requires named { is_named self.old.leaves page place ≡ true }
        requires unjoined { AreUnjoined self.old.leaves.kept }
        requires held { held_of self.old ≤ A.out (A.state allot.old) }
        requires untold { A.grants allot.old ≡ None }
        ensures made { MadeAct A.goes (A.state allot.old) (A.state allot.new) (Touch page) self.old self.new None }
        ensures held { A.out (A.state allot.new) + held_of self.old ≡ A.out (A.state allot.old) + held_of self.new }
        ensures untold { A.grants allot.new ≡ None }
        ensures touched { IsTouched page (A.refused (A.state allot.old)) (A.refused (A.state allot.new)) self.old self.new }
        ensures writable { slice_set self.new.writable page true ≡ slice_set self.old.writable page true }
    {
        match allot.take(Want::Page) {
            Ok(frame) => put_copy(&mut self.parent, &mut self.frames, page, place, frame),
            Err(refused) => lose_leaf(
                &mut self.snapshot,
                &self.parent,
                &mut self.frames,
                refused.at,
                allot,
            ),
        }
    }
}

/// The parent's page moves to its other place, in a frame with the same bytes. The snapshot keeps
/// the frame that it names.
fn put_copy(
    parent: &mut Option<LeafTable>,
    frames: &mut FramePlaces,
    page: u16,
    place: u32,
    frame: Frame,
)
    requires page { page < CELL_PAGES }
    requires size { length frames.old ≡ 1024 }
    requires there { version_at (table_places parent.old) page ≡ Some place }
    requires free { (slice_index_or frames.old page None ≡ None) ⊎ (slice_index_or frames.old (page + 512) None ≡ None) }
    requires zeros { frame.bytes ≡ zero_page }
    ensures put { IsPut (page_or_zeros (frame_bytes frames.old place)) page (table_places parent.old) frames.old (table_places parent.new) frames.new }
    ensures writable { table_writable parent.new ≡ slice_set (table_writable parent.old) page true }
    ensures table { is_some parent.new ≡ true }
{
    let to = free_place(frames, page);
    let copy = copied_place(frames, place, frame);
    if let Some(table) = parent {
        put_page(table, frames, page, to, copy);
    }
}

/// The frame, with the bytes of the one at a place.
fn copied_place(frames: &FramePlaces, place: u32, frame: Frame) -> Frame
    requires zeros { frame.bytes ≡ zero_page }
    ensures { result.bytes ≡ page_or_zeros (frame_bytes frames.now place) }
{
    let mut copy = frame;
    if let Some(from) = frame_at(frames, Some(place)) {
        copy_bytes(&mut copy, from);
    }
    copy
}

/// The snapshot loses the cell at this count: its own table and the frames that it alone names go
/// back.
pub(crate) fn lose_leaf<A: Allot>(
    snapshot: &mut Option<Snapshot>,
    parent: &Option<LeafTable>,
    frames: &mut FramePlaces,
    at: u64,
    allot: &mut A,
)
    requires inside { AreInside parent.now snapshot.old frames.old }
    requires there { IsSome snapshot.old }
    requires out { count_by is_some frames.old + count_by (λ kept. is_own kept.leaf) (kept_values no_versions snapshot.old) ≤ A.out (A.state allot.old) }
    requires untold { A.grants allot.old ≡ None }
    ensures lost { IsLoss A.goes (A.state allot.old) (A.state allot.new) at (table_places parent.now) snapshot.old frames.old snapshot.new frames.new }
    ensures out { A.out (A.state allot.new) + count_by is_some frames.old + count_by (λ kept. is_own kept.leaf) (kept_values no_versions snapshot.old) ≡ A.out (A.state allot.old) + count_by is_some frames.new }
    ensures untold { A.grants allot.new ≡ None }
    ensures unrefused { A.refused (A.state allot.new) ≡ A.refused (A.state allot.old) }
{
    if let Some(lost) = snapshot.take() {
        *snapshot = Some(Snapshot {
            number: lost.number,
            mode: lost.mode,
            leaf: SnapshotLeaf::Lost(at),
        });
        release_leaf(lost.leaf, parent, frames, allot);
    }
}
