//! Touching a range of pages.
ghost use Rattle.std.specs.Prelude.{◌≡◌, ◌↔◌, ◌+◌, ◌-◌, ◌≤◌, ◌<◌, ◌^◌, ◌++◌, ◌∷◌, [], Bool, IfErr, OnOk, None, true, length, vec_capacity, if◌then◌else◌, is_some, All};
ghost use Rattle.std.specs.FinMap.{get};
ghost use Rattle.vm_base.specs.Counts.{next_count};
ghost use Rattle.vm_base.specs.Deals.{LeadsAlong};
ghost use Rattle.vm_base.specs.Places.{cell_of};
ghost use Rattle.table_levels.specs.Requests.{returned};
ghost use Rattle.kernel_meaning.specs.EventRequests.{page_version};
ghost use Rattle.page_tables.specs.Sides.{Sides};
ghost use Rattle.page_tables.specs.Standing.{TablesStandFor, slot_count};
ghost use Rattle.page_tables.specs.Accesses.{IsPageReady};
ghost use Rattle.page_tables.specs.Permissions.{may_write, is_alone, is_there, StopsWritingAt, WritesAfterRange};
ghost use Rattle.page_tables.specs.Held.{frames_of};
ghost use Rattle.page_tables.specs.Ranges.{MadeRange, HasRoom, cells_of_pages, range_refusal, sides_without_pages, AreThere};

use crate::pieces::cell_and_index;
use crate::tables::PageTables;
use vm_base::Allot;

/// A page of a range was refused a frame, for itself or for a table on its way.
#[derive(Clone, Copy, Debug, PartialEq, Eq)]
pub struct FrameRefused {
    /// How many requests of the asker were refused by then, this one among them.
    pub at: u64,
    /// The number of the page.
    pub page: u64,
}

// The touch of a range
//
// What it is for. A write, a fill and whoever stores by pieces need each page of a range present
// and the parent's alone before the first byte is stored, so that a write is made whole or not.
//
// How it goes. Page by page in rising order, which is the order in which the requests are numbered.
// For each page first the tables that its cell lacks, then the leaf table, then the copies that a
// snapshot needs, then the page's own frame. Each page is looked up once before it is touched, so
// that the call knows which were absent.
//
// What if a frame is refused. A copy that is refused loses the snapshot's cell and the touch goes
// on. A table or a new page that is refused ends it: the pages that this call added are taken back,
// from the lowest on, with the tables that they alone needed, in whatever cell they lie. Copies and
// losses that came before stay, for the snapshot was told of them already. Both sides read as
// before, and a caller may try again.
//
// Limits. `added` has to have room for the whole range: a call that had to take memory in the
// middle could neither go on nor go back. The caller has looked at areas and slots before.
impl PageTables {
    /// Touches `count` pages from `first` on in rising order, as `pages_touched` of
    /// `kernel_meaning` has it. After a refusal those that were absent are gone again, with the
    /// tables that they alone needed; copies and losses that came before stay, and both sides read
    /// as before. `added` is room of the caller's where the call notes what it may have to take
    /// back, so that it takes no memory; what is in it afterwards means nothing. It costs one
    /// look-up for each page, and for a new cell a look through the slots.
    pub fn touch<A: Allot>(
        &mut self,
        first: u64,
        count: u64,
        added: &mut Vec<u64>,
        allot: &mut A,
    ) -> Result<(), FrameRefused>
        requires range { first + count ≤ 2 ^ 36 }
        requires noted { count ≤ vec_capacity added.old }
        requires stands { ∥ ((sides : Sides) × (TablesStandFor self.old sides × HasRoom (slot_count self.old) sides.leaves (cells_of_pages first count))) ∥₁ }
        requires lent { frames_of self.old ≤ A.out (A.state allot.old) }
        requires untold { A.grants allot.old ≡ None }
        ensures made { MadeRange A.goes (A.state allot.old) (A.state allot.new) first count self.old self.new (range_refusal result) }
        ensures held { A.out (A.state allot.new) + frames_of self.old ≡ A.out (A.state allot.old) + frames_of self.new }
        ensures untold { A.grants allot.new ≡ None }
        ensures at { IfErr result (λ e. e.at ≡ A.refused (A.state allot.new)) }
        ensures slots { slot_count self.new ≡ slot_count self.old }
        ensures snapshot { self.new.snapshot ≡ self.old.snapshot }
        ensures noted { vec_capacity added.new ≡ vec_capacity added.old }
        ensures writable { WritesAfterRange first count result self.old self.new }
    {
        added.clear();
        for page in first..first + count {
            let slot = self.known_slot(page);
            let was_present = self.has_page(slot, page);
            match self.touch_page(slot, page, allot) {
                Ok(()) => note_added(added, page, was_present),
                Err(refused) => {
                    self.take_back(added, allot);
                    return Err(FrameRefused {
                        at: refused.at,
                        page,
                    });
                }
            }
        }
        Ok(())
    }

    /// Whether the parent has a page, by its number. It is one look-up.
    pub fn is_present(&self, page: u64) -> bool
        requires page { page < 2 ^ 36 }
        requires stands { ∥ ((sides : Sides) × TablesStandFor self.now sides) ∥₁ }
        ensures version { (sides : Sides) → TablesStandFor self.now sides → result ≡ is_some (page_version sides.leaves page) }
        ensures page { (sides : Sides) → TablesStandFor self.now sides → result ≡ is_some (get sides.pages page) }
        ensures there { result ≡ is_there self.now page }

        // These two are about the tables and not about the answer: a page may be stored to exactly
        // where it is the parent's alone, and so it is where its entry tells that it may be written
        // to. What the second rests on, each cell keeps, and tells a proof by its calls alone: so
        // it stands at a call, and in no law.
        ensures alone { (sides : Sides) → TablesStandFor self.now sides → (is_alone self.now page ≡ true) ↔ IsPageReady sides.leaves page }
        ensures ready { may_write self.now page ≡ true → (sides : Sides) → TablesStandFor self.now sides → IsPageReady sides.leaves page }
    {
        self.has_page(self.known_slot(page), page)
    }

    /// The slot of a page's cell, where the directory has it.
    fn known_slot(&self, page: u64) -> Option<u32>
        requires { page < 2 ^ 36 }
        ensures { result ≡ get self.now.directory (cell_of page) }
    {
        self.directory.find(cell_and_index(page).0)
    }

    /// Whether the parent has a page, where the directory has the page's cell in this slot, or not.
    fn has_page(&self, slot: Option<u32>, page: u64) -> bool
        requires page { page < 2 ^ 36 }
        requires known { slot ≡ get self.now.directory (cell_of page) }
        requires stands { ∥ ((sides : Sides) × TablesStandFor self.now sides) ∥₁ }
        ensures version { (sides : Sides) → TablesStandFor self.now sides → result ≡ is_some (page_version sides.leaves page) }
        ensures page { (sides : Sides) → TablesStandFor self.now sides → result ≡ is_some (get sides.pages page) }
        ensures ready { may_write self.now page ≡ true → (sides : Sides) → TablesStandFor self.now sides → IsPageReady sides.leaves page }
    {
        match slot {
            Some(slot) => {
                let (_, index) = cell_and_index(page);
                self.slots[slot as usize].cell.covers(index, 1)
            }
            None => false,
        }
    }

    /// Takes pages out that were added.
    fn take_back<A: Allot>(&mut self, added: &[u64], allot: &mut A)
        requires stands { ∥ ((sides : Sides) × (TablesStandFor self.old sides × AreThere sides.leaves added.now)) ∥₁ }
        requires below { All (λ page. page < 2 ^ 36) added.now }
        requires lent { frames_of self.old ≤ A.out (A.state allot.old) }
        requires untold { A.grants allot.old ≡ None }
        ensures given { LeadsAlong A.goes (A.state allot.old) (returned (frames_of self.old - frames_of self.new)) (A.state allot.new) }
        ensures shrunk { frames_of self.new ≤ frames_of self.old }
        ensures follows { (sides : Sides) → TablesStandFor self.old sides → TablesStandFor self.new (sides_without_pages added.now sides) }
        ensures held { A.out (A.state allot.new) + frames_of self.old ≡ A.out (A.state allot.old) + frames_of self.new }
        ensures untold { A.grants allot.new ≡ None }
        ensures slots { slot_count self.new ≡ slot_count self.old }
        ensures unrefused { A.refused (A.state allot.new) ≡ A.refused (A.state allot.old) }
        ensures snapshot { self.new.snapshot ≡ self.old.snapshot }
        ensures writable { StopsWritingAt added.now self.old self.new }
    {
        for &page in added {
            let (cell, index) = cell_and_index(page);
            self.clear_in_cell(cell, index, 1, allot);
        }
    }
}

/// Notes a page that was absent.
fn note_added(added: &mut Vec<u64>, page: u64, was_present: bool)
    requires { length added.old.items < vec_capacity added.old }
    ensures noted { added.new.items ≡ added.old.items ++ (if was_present then [] else page ∷ []) }
    ensures room { vec_capacity added.new ≡ vec_capacity added.old }
{
    if !was_present {
        added.push_reserved(page);
    }
}
