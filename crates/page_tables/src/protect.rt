//! What the parent's pages may be used for.
ghost use Rattle.std.specs.Prelude.{◌≡◌, ◌≢◌, ℕ, ◌+◌, ◌-◌, ◌*◌, ◌/◌, ◌≤◌, ◌<◌, ◌^◌, None, Some};
ghost use Rattle.std.specs.FinMap.{get};
ghost use Rattle.vm_base.specs.Places.{cell_of};
ghost use Rattle.kernel_meaning.specs.EventRequests.{pages_protected};
ghost use Rattle.page_tables.specs.Making.{MadeEvent, pages_as_they_were};
ghost use Rattle.page_tables.specs.Sides.{Sides};
ghost use Rattle.page_tables.specs.Standing.{TablesStandFor};
ghost use Rattle.page_tables.specs.Permissions.{may_write, may_write_after, LeavesAllButPermissions};

use crate::pieces::CELL_PAGES;
use crate::tables::PageTables;
use vm_base::{Allot, Perm};

impl PageTables {
    /// Gives the parent's pages of a range another permission, one cell after another in rising
    /// order. No page comes, goes or changes. No leaf is joined, so none is copied before, and no
    /// frame is asked for. What changes is which pages may be written to: of the range, with a
    /// permission for writing, those that are the parent's alone, and none with another. The cost
    /// is that of the parent's cells in the range, however long the range is.
    pub fn protect<A: Allot>(&mut self, first: u64, count: u64, perm: Perm, allot: &mut A)
        requires range { first + count ≤ 2 ^ 36 }
        requires stands { ∥ ((sides : Sides) × TablesStandFor self.old sides) ∥₁ }
        ensures made { MadeEvent A.goes (A.state allot.old) (A.state allot.new) (pages_protected first count) pages_as_they_were self.old self.new None }
        ensures tables { LeavesAllButPermissions self.old self.new }
        ensures writable { (page : ℕ) → may_write self.new page ≡ may_write_after perm first count self.old page }
        ensures allot { allot.new ≡ allot.old }
        ensures unasked { A.state allot.new ≡ A.state allot.old }
    {
        let end = first + count;
        let mut next = (first / CELL_PAGES) as u32;
        while let Some((cell, slot)) = self.directory.at_or_after(next) {
            if u64::from(cell) * CELL_PAGES >= end {
                break;
            }
            self.protect_cell(slot, cell, first, end, perm, allot);
            next = cell + 1;
        }
    }

    /// The same from one page up to another within a cell, which lies in this slot.
    fn protect_cell<A: Allot>(
        &mut self,
        slot: u32,
        cell: u32,
        first: u64,
        end: u64,
        perm: Perm,
        allot: &mut A,
    )
        requires range { (first ≤ end) × (end ≤ 2 ^ 36) }
        requires within { (first / 512 ≤ cell) × (cell * 512 < end) }
        requires known { get self.old.directory cell ≡ Some slot }
        requires stands { ∥ ((sides : Sides) × TablesStandFor self.old sides) ∥₁ }
        ensures tables { LeavesAllButPermissions self.old self.new }
        ensures within { (page : ℕ) → cell_of page ≡ cell → may_write self.new page ≡ may_write_after perm first (end - first) self.old page }
        ensures others { (page : ℕ) → cell_of page ≢ cell → may_write self.new page ≡ may_write self.old page }
        ensures allot { allot.new ≡ allot.old }
    {
        let start = u64::from(cell) * CELL_PAGES;
        let low = first.saturating_sub(start) as u16;
        let high = (end - start).min(CELL_PAGES) as u16;
        self.slots[slot as usize]
            .cell
            .protect(low, high - low, perm, allot);
    }
}
