//! Whether the cells of a range have slots.
ghost use Rattle.std.specs.Prelude.{◌≡◌, ℕ, ◌+◌, ◌-◌, ◌<◌, ◌≤◌, ◌^◌, is_some, length, count_by, not, nat_lt};
ghost use Rattle.std.specs.Ordering.{nat_cmp};
ghost use Rattle.std.specs.FinMap.{find};
ghost use Rattle.kernel_meaning.specs.FrameLaw.{lacks_slots};
ghost use Rattle.page_tables.specs.Sides.{Sides};
ghost use Rattle.page_tables.specs.Standing.{TablesStandFor, slot_count, slot_in};
ghost use Rattle.page_tables.specs.Ranges.{cells_of_pages, missing_in};

use crate::pieces::CELL_PAGES;
use crate::slot::Slot;
use crate::tables::PageTables;

impl PageTables {
    /// Whether the cells of a range of pages that have no slot are more than the free slots: what a
    /// caller asks before a touch. For each cell of the range it is one look-up in each directory,
    /// and no slot is looked at behind as many free ones as are wanted.
    pub fn lacks_slots(&self, first: u64, count: u64) -> bool
        requires some { 0 < count }
        requires range { first + count ≤ 2 ^ 36 }
        requires stands { ∥ ((sides : Sides) × TablesStandFor self.now sides) ∥₁ }
        ensures { (sides : Sides) → TablesStandFor self.now sides → result ≡ lacks_slots (slot_count self.now) sides.leaves (cells_of_pages first count) }
    {
        let low = (first / CELL_PAGES) as u32;
        let high = ((first + count - 1) / CELL_PAGES) as u32;
        let missing = self.missing_slots(low, high);
        missing > 0 && !has_free(&self.slots, missing)
    }

    /// How many of the cells from one to another have no slot.
    fn missing_slots(&self, low: u32, high: u32) -> usize
        requires order { low ≤ high }
        requires cells { high < 2 ^ 27 }
        requires stands { ∥ ((sides : Sides) × TablesStandFor self.now sides) ∥₁ }
        ensures { (sides : Sides) → TablesStandFor self.now sides → result ≡ missing_in sides.leaves low (high + 1 - low) }
    {
        let mut missing = 0;
        for cell in low..high + 1 {
            if !self.has_slot(cell) {
                missing += 1;
            }
        }
        missing
    }

    /// Whether a cell has a slot.
    fn has_slot(&self, cell: u32) -> bool
        requires cell { cell < 2 ^ 27 }
        requires stands { ∥ ((sides : Sides) × TablesStandFor self.now sides) ∥₁ }
        ensures { (sides : Sides) → TablesStandFor self.now sides → result ≡ is_some (find nat_cmp cell sides.leaves) }
    {
        if self.directory.find(cell).is_some() {
            return true;
        }
        self.is_kept(cell)
    }

    /// Whether the snapshot that lives has a cell, as its directory tells.
    fn is_kept(&self, cell: u32) -> bool
        requires { cell < 2 ^ 27 }
        ensures { result ≡ is_some (slot_in self.now.snapshot cell) }
    {
        match &self.snapshot {
            Some(tables) => tables.directory.find(cell).is_some(),
            None => false,
        }
    }
}

/// Whether nobody has so many slots. It looks at no slot behind the last of them.
fn has_free(slots: &[Slot], wanted: usize) -> bool
    ensures { (free : ℕ) → free + count_by (λ slot. is_some slot.owner) slots.now ≡ length slots.now
        → result ≡ not (nat_lt free wanted) }
{
    let mut free = 0;
    for slot in slots {
        if free == wanted {
            return true;
        }
        if slot.owner.is_none() {
            free += 1;
        }
    }
    free == wanted
}
