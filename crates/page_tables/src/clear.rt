//! Taking pages of the parent out.
ghost use Rattle.std.specs.Prelude.{◌≡◌, ◌+◌, ◌-◌, ◌*◌, ◌/◌, ◌≤◌, ◌<◌, ◌^◌, None, Some, true};
ghost use Rattle.std.specs.FinMap.{get};
ghost use Rattle.vm_base.specs.Deals.{LeadsAlong};
ghost use Rattle.table_levels.specs.Requests.{returned};
ghost use Rattle.kernel_meaning.specs.Leaves.{has_present};
ghost use Rattle.kernel_meaning.specs.FrameLaw.{cell_at};
ghost use Rattle.leaf_cell.specs.States.{nth_number};
ghost use Rattle.page_tables.specs.Clearing.{sides_without, owner_left, pages_without, has_some, GivesBack, IsOutOf};
ghost use Rattle.kernel_meaning.specs.EventRequests.{pages_unmapped, first_in_cell, count_in_cell};
ghost use Rattle.page_tables.specs.Making.{MadeEvent};
ghost use Rattle.page_tables.specs.Permissions.{StopsWriting};
ghost use Rattle.page_tables.specs.Sides.{Sides};
ghost use Rattle.page_tables.specs.Standing.{TablesStandFor, slot_count};
ghost use Rattle.page_tables.specs.Held.{frames_of};
ghost use Rattle.page_tables.specs.Lending.{IsLent, StaysLent};

use crate::pieces::CELL_PAGES;
use crate::slot::Slot;
use crate::tables::PageTables;
use vm_base::Allot;

impl PageTables {
    /// Takes the parent's pages of a range out, one cell after another in rising order. No frame
    /// is asked for, and after each cell what it held goes back. The cost is that of the parent's
    /// cells in the range, however long the range is.
    pub fn unmap<A: Allot>(&mut self, first: u64, count: u64, allot: &mut A)
        requires range { first + count ≤ 2 ^ 36 }
        requires stands { ∥ ((sides : Sides) × TablesStandFor self.old sides) ∥₁ }
        requires lent { IsLent self.old (A.out (A.state allot.old)) (A.grants allot.old) }
        ensures made { MadeEvent A.goes (A.state allot.old) (A.state allot.new) (pages_unmapped first count) (pages_without first count) self.old self.new None }
        ensures lent { StaysLent self.old self.new (A.out (A.state allot.old))
            (A.out (A.state allot.new)) (A.grants allot.new) }
        ensures unrefused { A.refused (A.state allot.new) ≡ A.refused (A.state allot.old) }
        ensures writable { StopsWriting first count self.old self.new }
    {
        let end = first + count;
        let mut next = (first / CELL_PAGES) as u32;
        while let Some((cell, slot)) = self.directory.at_or_after(next) {
            if u64::from(cell) * CELL_PAGES >= end {
                break;
            }
            self.unmap_cell(slot, cell, first, end, allot);
            next = cell + 1;
        }
    }

    /// Takes the parent's pages from one page up to another out of a cell, which lies in this slot.
    fn unmap_cell<A: Allot>(&mut self, slot: u32, cell: u32, first: u64, end: u64, allot: &mut A)
        requires range { (first ≤ end) × (end ≤ 2 ^ 36) }
        requires within { (first / 512 ≤ cell) × (cell * 512 < end) }
        requires known { get self.old.directory cell ≡ Some slot }
        requires stands { ∥ ((sides : Sides) × TablesStandFor self.old sides) ∥₁ }
        requires lent { frames_of self.old ≤ A.out (A.state allot.old) }
        requires untold { A.grants allot.old ≡ None }
        ensures given { LeadsAlong A.goes (A.state allot.old) (returned (frames_of self.old - frames_of self.new)) (A.state allot.new) }
        ensures follows { (sides : Sides) → TablesStandFor self.old sides → IsOutOf (has_some first (end - first) cell (cell_at sides.leaves cell)) cell first (end - first) self.new (frames_of self.old - frames_of self.new) sides }
        ensures held { A.out (A.state allot.new) + frames_of self.old ≡ A.out (A.state allot.old) + frames_of self.new }
        ensures untold { A.grants allot.new ≡ None }
        ensures slots { slot_count self.new ≡ slot_count self.old }
        ensures unrefused { A.refused (A.state allot.new) ≡ A.refused (A.state allot.old) }
        ensures snapshot { self.new.snapshot ≡ self.old.snapshot }
        ensures writable { StopsWriting (cell * 512 + first_in_cell cell first) (count_in_cell cell first (end - first)) self.old self.new }
    {
        let start = u64::from(cell) * CELL_PAGES;
        let low = first.saturating_sub(start) as u16;
        let high = (end - start).min(CELL_PAGES) as u16;
        if self.slots[slot as usize].cell.covers(low, high - low) {
            self.clear_in_cell(cell, low, high - low, allot);
        }
    }

    /// Takes the parent's pages of a range within one cell out, of which one is present. With the
    /// cell's last page the directory loses the cell, and where no snapshot has it either its slot
    /// loses its owner.
    pub(crate) fn clear_in_cell<A: Allot>(
        &mut self,
        cell: u32,
        first: u16,
        count: u16,
        allot: &mut A,
    )
        requires cell { cell < 2 ^ 27 }
        requires range { first + count ≤ 512 }
        requires stands { ∥ ((sides : Sides) × (TablesStandFor self.old sides × (has_present (cell_at sides.leaves cell).parent first count ≡ true))) ∥₁ }
        requires lent { frames_of self.old ≤ A.out (A.state allot.old) }
        requires untold { A.grants allot.old ≡ None }
        ensures given { LeadsAlong A.goes (A.state allot.old) (returned (frames_of self.old - frames_of self.new)) (A.state allot.new) }
        ensures shrunk { frames_of self.new ≤ frames_of self.old }
        ensures follows { (sides : Sides) → TablesStandFor self.old sides → TablesStandFor self.new (sides_without cell first count sides) }

        // What the unmap of these pages makes, in the words of the events.
        ensures event { (sides : Sides) → TablesStandFor self.old sides → GivesBack cell first count (frames_of self.old - frames_of self.new) sides }
        ensures held { A.out (A.state allot.new) + frames_of self.old ≡ A.out (A.state allot.old) + frames_of self.new }
        ensures untold { A.grants allot.new ≡ None }
        ensures slots { slot_count self.new ≡ slot_count self.old }
        ensures unrefused { A.refused (A.state allot.new) ≡ A.refused (A.state allot.old) }
        ensures snapshot { self.new.snapshot ≡ self.old.snapshot }
        ensures writable { StopsWriting (cell * 512 + first) count self.old self.new }
    {
        match self.directory.find(cell) {
            Some(slot) => self.clear_slot(slot, cell, first, count, allot),
            None => unreachable!("the parent has a page in the cell"),
        }
    }

    /// Takes those pages out of the cell, which lies in this slot.
    fn clear_slot<A: Allot>(&mut self, slot: u32, cell: u32, first: u16, count: u16, allot: &mut A)
        requires cell { cell < 2 ^ 27 }
        requires range { first + count ≤ 512 }
        requires known { get self.old.directory cell ≡ Some slot }
        requires stands { ∥ ((sides : Sides) × (TablesStandFor self.old sides × (has_present (cell_at sides.leaves cell).parent first count ≡ true))) ∥₁ }
        requires lent { frames_of self.old ≤ A.out (A.state allot.old) }
        requires untold { A.grants allot.old ≡ None }
        ensures given { LeadsAlong A.goes (A.state allot.old) (returned (frames_of self.old - frames_of self.new)) (A.state allot.new) }
        ensures shrunk { frames_of self.new ≤ frames_of self.old }
        ensures follows { (sides : Sides) → TablesStandFor self.old sides → TablesStandFor self.new (sides_without cell first count sides) }
        ensures event { (sides : Sides) → TablesStandFor self.old sides → GivesBack cell first count (frames_of self.old - frames_of self.new) sides }
        ensures held { A.out (A.state allot.new) + frames_of self.old ≡ A.out (A.state allot.old) + frames_of self.new }
        ensures untold { A.grants allot.new ≡ None }
        ensures slots { slot_count self.new ≡ slot_count self.old }
        ensures unrefused { A.refused (A.state allot.new) ≡ A.refused (A.state allot.old) }
        ensures snapshot { self.new.snapshot ≡ self.old.snapshot }
        ensures writable { StopsWriting (cell * 512 + first) count self.old self.new }
    {
        let home = &mut self.slots[slot as usize];
        // A cell holds its share, before and after: what goes back is what the share falls by.
        home.cell.tell_share();
        home.cell.clear(first, count, allot);
        home.cell.tell_share();
        if !home.cell.has_pages() {
            // No page is left here, so none may be written to.
            prove!(!home.cell.covers(0, 512));
            leave_slot(home);
            self.directory.remove(cell, allot);
        }
    }
}

/// The parent has left the cell of a slot: the slot is nobody's where no snapshot has the cell.
fn leave_slot(home: &mut Slot)
    ensures { home.new ≡ record home.old { owner = owner_left home.old.owner (nth_number home.old.cell.leaves.kept 0) } }
{
    if home.cell.snap(0).is_none() {
        home.owner = None;
    }
}
