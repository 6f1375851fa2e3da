//! Touching pages.
ghost use Rattle.std.specs.Prelude.{◌≡◌, ◌+◌, ◌≤◌, ◌<◌, ◌^◌, IfErr, OnOk, None, Some, false, length, ◌∷◌, []};
ghost use Rattle.std.specs.FinMap.{get};
ghost use Rattle.vm_base.specs.Counts.{next_count};
ghost use Rattle.vm_base.specs.Places.{cell_of};
ghost use Rattle.kernel_meaning.specs.FrameLaw.{lacks_slots};
ghost use Rattle.page_tables.specs.Sides.{Sides};
ghost use Rattle.page_tables.specs.Standing.{TablesStandFor, HasSlotFor, IsSlotOf, IsSlotChosen, slot_count};
ghost use Rattle.page_tables.specs.Lending.{IsLent, StaysLent};
ghost use Rattle.page_tables.specs.Permissions.{WritesAfterPage};
ghost use Rattle.page_tables.specs.Making.{MadeTouch, page_refusal};

use crate::pieces::cell_and_index;
use crate::slot::Slot;
use crate::tables::PageTables;
use vm_base::{Allot, Refused};

impl PageTables {
    /// Touches a page, where the directory has the page's cell in this slot, or not: it is present
    /// then, and no snapshot names it. The frames are asked for in this order: the missing top,
    /// upper, middle and leaf tables, then the page. After a refusal what was granted has been
    /// given back, and both sides read as before.
    pub(crate) fn touch_page<A: Allot>(
        &mut self,
        slot: Option<u32>,
        page: u64,
        allot: &mut A,
    ) -> Result<(), Refused>
        requires page { page < 2 ^ 36 }
        requires known { slot ≡ get self.old.directory (cell_of page) }
        requires stands { ∥ ((sides : Sides) × (TablesStandFor self.old sides × (lacks_slots (slot_count self.old) sides.leaves (cell_of page ∷ []) ≡ false))) ∥₁ }
        requires lent { IsLent self.old (A.out (A.state allot.old)) (A.grants allot.old) }
        ensures made { MadeTouch A.goes (A.state allot.old) (A.state allot.new) page self.old self.new (page_refusal page result) }
        ensures lent { StaysLent self.old self.new (A.out (A.state allot.old))
            (A.out (A.state allot.new)) (A.grants allot.new) }
        ensures counted { IfErr result (λ e. (A.refused (A.state allot.new) ≡ next_count (A.refused (A.state allot.old))) × (e.at ≡ A.refused (A.state allot.new))) }
        ensures writable { WritesAfterPage page result self.old self.new }
    {
        match slot {
            Some(slot) => self.touch_known(slot, page, allot),
            None => match self.slot_for(cell_and_index(page).0) {
                Some(slot) => self.touch_new(slot, page, allot),
                None => unreachable!("a slot is free or the cell's"),
            },
        }
    }

    /// Touches a page in a cell that the directory has.
    fn touch_known<A: Allot>(&mut self, slot: u32, page: u64, allot: &mut A) -> Result<(), Refused>
        requires page { page < 2 ^ 36 }
        requires known { get self.old.directory (cell_of page) ≡ Some slot }
        requires stands { ∥ ((sides : Sides) × TablesStandFor self.old sides) ∥₁ }
        requires lent { IsLent self.old (A.out (A.state allot.old)) (A.grants allot.old) }
        ensures made { MadeTouch A.goes (A.state allot.old) (A.state allot.new) page self.old self.new (page_refusal page result) }
        ensures lent { StaysLent self.old self.new (A.out (A.state allot.old))
            (A.out (A.state allot.new)) (A.grants allot.new) }
        ensures counted { IfErr result (λ e. (A.refused (A.state allot.new) ≡ next_count (A.refused (A.state allot.old))) × (e.at ≡ A.refused (A.state allot.new))) }
        ensures writable { WritesAfterPage page result self.old self.new }
    {
        let (_, index) = cell_and_index(page);
        let home = &mut self.slots[slot as usize];
        home.cell.tell_share();
        let answer = home.cell.touch(index, allot);
        home.cell.tell_share();
        answer
    }

    /// Touches a page in a cell that the directory lacks, which gets this slot.
    fn touch_new<A: Allot>(&mut self, slot: u32, page: u64, allot: &mut A) -> Result<(), Refused>
        requires page { page < 2 ^ 36 }
        requires new { get self.old.directory (cell_of page) ≡ None }
        requires stands { ∥ ((sides : Sides) × (TablesStandFor self.old sides × HasSlotFor self.old sides.leaves (cell_of page) slot)) ∥₁ }
        requires lent { IsLent self.old (A.out (A.state allot.old)) (A.grants allot.old) }
        ensures made { MadeTouch A.goes (A.state allot.old) (A.state allot.new) page self.old self.new (page_refusal page result) }
        ensures lent { StaysLent self.old self.new (A.out (A.state allot.old))
            (A.out (A.state allot.new)) (A.grants allot.new) }
        ensures counted { IfErr result (λ e. (A.refused (A.state allot.new) ≡ next_count (A.refused (A.state allot.old))) × (e.at ≡ A.refused (A.state allot.new))) }
        ensures writable { WritesAfterPage page result self.old self.new }
    {
        let (cell, index) = cell_and_index(page);
        match self.directory.insert(cell, slot, allot) {
            Ok(()) => {}
            Err(refused) => return Err(refused),
        }
        let home = &mut self.slots[slot as usize];
        home.cell.tell_share();
        // The parent has no page here, so none may be written to yet.
        prove!(!home.cell.covers(0, 512));
        match home.cell.touch(index, allot) {
            Ok(()) => {
                home.cell.tell_share();
                home.owner = Some(cell);
                Ok(())
            }
            Err(refused) => {
                self.directory.remove(cell, allot);
                Err(refused)
            }
        }
    }

    /// The slot of a cell that the directory lacks: the snapshot's, where it has the cell, or else
    /// a free one. No other can be the cell's, so none is looked at behind the first free one.
    fn slot_for(&self, cell: u32) -> Option<u32>
        requires cell { cell < 2 ^ 27 }
        requires new { get self.now.directory cell ≡ None }
        requires few { slot_count self.now ≤ 512 }
        ensures { (sides : Sides) → TablesStandFor self.now sides
            → IsSlotChosen self.now.slots.items cell result }
    {
        match self.snapshot_slot(cell) {
            Some(slot) => Some(slot),
            None => slot_of(&self.slots, None),
        }
    }
}

/// The lowest slot with this owner.
pub(crate) fn slot_of(slots: &[Slot], owner: Option<u32>) -> Option<u32>
    requires { length slots.now ≤ 512 }
    ensures { IsSlotOf slots.now owner result }
{
    for i in 0..slots.len() {
        if slots[i].owner == owner {
            return Some(i as u32);
        }
    }
    None
}
