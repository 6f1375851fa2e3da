//! Pages that come into a cell.
ghost use Rattle.std.specs.Prelude.{◌≡◌, ◌⊎◌, ◌+◌, ◌<◌, ◌≤◌, length, slice_set, slice_index_or, Some, None, true, cond, is_some, OnOk, OnErr, IfOk, IfErr};
ghost use Rattle.vm_base.specs.Counts.{next_count};
ghost use Rattle.vm_base.specs.FlatMemory.{zero_page};
ghost use Rattle.leaf_cell.specs.Places.{with_entry};
ghost use Rattle.leaf_cell.specs.Inside.{IsPlaceOf, table_places, table_writable};
ghost use Rattle.leaf_cell.specs.Adding.{IsPut, LedByAdding, LedByTwo};

use crate::frame_places::FramePlaces;
use crate::leaf_table::{CELL_PAGES, LeafTable};
use vm_base::{Allot, Frame, Refused, Want};

/// Adds a page of zeros, and the leaf table where it is the first page. After a refusal nothing
/// has changed.
pub(crate) fn add_page<A: Allot>(
    parent: &mut Option<LeafTable>,
    frames: &mut FramePlaces,
    page: u16,
    allot: &mut A,
) -> Result<(), Refused>
    requires page { page < CELL_PAGES }
    requires size { length frames.old ≡ 1024 }
    requires free { (slice_index_or frames.old page None ≡ None) ⊎ (slice_index_or frames.old (page + 512) None ≡ None) }
    requires untold { A.grants allot.old ≡ None }
    ensures led { LedByAdding A.goes (A.state allot.old) (A.state allot.new) (is_some parent.old) result }
    ensures put { OnOk result (IsPut zero_page page (table_places parent.old) frames.old (table_places parent.new) frames.new × (is_some parent.new ≡ true)) }
    ensures writable { OnOk result (table_writable parent.new ≡ slice_set (table_writable parent.old) page true) }
    ensures kept { OnErr result ((parent.new ≡ parent.old) × (frames.new ≡ frames.old)) }
    ensures untold { A.grants allot.new ≡ None }
    ensures taken { OnOk result (A.out (A.state allot.new) ≡ A.out (A.state allot.old) + cond (is_some parent.old) 1 2) }
    ensures returned { OnErr result (A.out (A.state allot.new) ≡ A.out (A.state allot.old)) }
    ensures unrefused { OnOk result (A.refused (A.state allot.new) ≡ A.refused (A.state allot.old)) }
    ensures counted { IfErr result (λ e. (A.refused (A.state allot.new) ≡ next_count (A.refused (A.state allot.old))) × (e.at ≡ A.refused (A.state allot.new))) }
{
    let place = free_place(frames, page);
    match parent {
        Some(table) => match allot.take(Want::Page) {
            Ok(frame) => {
                put_page(table, frames, page, place, frame);
                Ok(())
            }
            Err(refused) => Err(refused),
        },
        None => match take_both(allot) {
            Ok((leaf, frame)) => {
                let mut table = LeafTable::new(leaf);
                put_page(&mut table, frames, page, place, frame);
                *parent = Some(table);
                Ok(())
            }
            Err(refused) => Err(refused),
        },
    }
}

/// Takes a frame for a leaf table and one for its first page, or neither.
fn take_both<A: Allot>(allot: &mut A) -> Result<(Frame, Frame), Refused>
    requires untold { A.grants allot.old ≡ None }
    ensures led { LedByTwo A.goes (A.state allot.old) (A.state allot.new) result }
    ensures zeros { IfOk result (λ frames. (frames.0.bytes ≡ zero_page) × (frames.1.bytes ≡ zero_page)) }
    ensures taken { OnOk result (A.out (A.state allot.new) ≡ A.out (A.state allot.old) + 2) }
    ensures kept { OnErr result (A.out (A.state allot.new) ≡ A.out (A.state allot.old)) }
    ensures unrefused { OnOk result (A.refused (A.state allot.new) ≡ A.refused (A.state allot.old)) }
    ensures counted { IfErr result (λ e. (A.refused (A.state allot.new) ≡ next_count (A.refused (A.state allot.old))) × (e.at ≡ A.refused (A.state allot.new))) }
    ensures untold { A.grants allot.new ≡ None }
{
    match allot.take(Want::Leaf) {
        Ok(table) => match allot.take(Want::Page) {
            Ok(page) => Ok((table, page)),
            Err(refused) => {
                allot.give(table);
                Err(refused)
            }
        },
        Err(refused) => Err(refused),
    }
}

/// The one of a page's two places that is free.
pub(crate) fn free_place(frames: &FramePlaces, page: u16) -> u32
    requires page { page < CELL_PAGES }
    requires size { length frames.now ≡ 1024 }
    requires free { (slice_index_or frames.now page None ≡ None) ⊎ (slice_index_or frames.now (page + 512) None ≡ None) }
    ensures home { IsPlaceOf page result }
    ensures free { slice_index_or frames.now result None ≡ None }
{
    if frames.is_free(u32::from(page)) {
        u32::from(page)
    } else {
        u32::from(page) + u32::from(CELL_PAGES)
    }
}

/// The page lies at this place from now on, and may be written to.
pub(crate) fn put_page(
    table: &mut LeafTable,
    frames: &mut FramePlaces,
    page: u16,
    place: u32,
    frame: Frame,
)
    requires page { page < CELL_PAGES }
    requires place { place < length frames.old }
    ensures table { table.new ≡ with_entry table.old page place true }
    ensures frames { frames.new ≡ slice_set frames.old place (Some frame) }
{
    table.set(page, place, true);
    frames.put(place, frame);
}
