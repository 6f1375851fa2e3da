//! The pages of the first cell that are present, one slot for each page of the cell.
ghost use Rattle.std.specs.Prelude.{◌≡◌, ◌+◌, ◌≤◌, ◌<◌, ℕ, List, length, IfOk, Some, None, is_some, IfSome, replicate, IsTrue};
ghost use Rattle.std.specs.Option.{option_map};
ghost use Rattle.std.specs.FinMap as map;
ghost use Rattle.vm_base.specs.FlatMemory.{spliced};
ghost use Rattle.plain_kernel.specs.Pages.{found_page};

use crate::page::Page;
use std::alloc::Global;
use std::marker::Model;
use vm_base::NoMemory;

/// Pages in a cell: what one leaf table maps.
pub(crate) const CELL_PAGES: u64 = 512;

/// A finite map from page numbers below 512 to pages.
#[derive(Debug, Drop)]
pub(crate) struct Pages {
    slots: Vec<Option<Page>>,
}

impl Model for Pages {
    ghost use Rattle.vm_base.specs.FlatMemory.{PageMap};
    ghost use Rattle.vm_base.specs.Codes.{page_map_code};
    ghost use Rattle.plain_kernel.specs.Pages.{present_from, AreSlots};

    ghost Value = { PageMap };

    ghost coded = { page_map_code };

    ghost view = { λ pages. present_from 0 pages.slots.items };

    ghost invariant = { λ pages. AreSlots pages.slots.items };
}

impl Pages {
    /// No page is present.
    pub(crate) fn new(alloc: Global) -> Result<Pages, NoMemory>
        ensures { IfOk result (λ pages. pages ≡ map.empty) }
    {
        let slots = free_slots(alloc)?;
        Ok(Pages { slots })
    }

    pub(crate) fn get(&self, page: u64) -> Option<&Page>
        requires { page < CELL_PAGES }
        ensures { found_page result ≡ map.get self.now page }
    {
        self.slots[page as usize].as_ref()
    }

    pub(crate) fn contains(&self, page: u64) -> bool
        requires { page < CELL_PAGES }
        ensures { result ≡ is_some (map.get self.now page) }
    {
        self.slots[page as usize].is_some()
    }

    /// Makes a page present.
    pub(crate) fn put(&mut self, page: u64, bytes: Page)
        requires { page < CELL_PAGES }
        ensures { self.new ≡ map.insert self.old page bytes }
    {
        self.slots[page as usize] = Some(bytes);
    }

    /// Writes bytes from a place of a present page on.
    pub(crate) fn write(&mut self, page: u64, at: usize, bytes: &[u8])
        requires inside { page < CELL_PAGES }
        requires present { IsTrue (is_some (map.get self.old page)) }
        requires room { at + length bytes.now ≤ 4096 }
        ensures whole { IfSome (map.get self.old page) (λ old. length old ≡ 4096) }
        ensures written { IfSome (map.get self.old page) (λ old. self.new ≡ map.insert self.old page (spliced old at bytes.now)) }
    {
        write_slot(&mut self.slots[page as usize], at, bytes);
    }

    /// The same pages with the same bytes.
    pub(crate) fn copy(&self, alloc: Global) -> Result<Pages, NoMemory>
        ensures { IfOk result (λ pages. pages ≡ self.now) }
    {
        let slots = copied_slots(alloc, &self.slots)?;
        Ok(Pages { slots })
    }
}

/// Writes bytes from a place of the slot's page on, where there is one.
fn write_slot(slot: &mut Option<Page>, at: usize, bytes: &[u8])
    requires { at + length bytes.now ≤ 4096 }
    ensures { slot.new ≡ option_map (λ old. spliced old at bytes.now) slot.old }
{
    if let Some(page) = slot {
        page.write(at, bytes);
    }
}

/// A slot for each page of a cell, without a page.
fn free_slots(alloc: Global) -> Result<Vec<Option<Page>>, NoMemory>
    ensures { IfOk result (λ slots. slots.items ≡ replicate 512 None) }
{
    let mut slots = Vec::with_capacity(alloc, CELL_PAGES as usize)?;
    for _ in 0..CELL_PAGES {
        slots.push(None)?;
    }
    Ok(slots)
}

/// Copies of the pages of all slots.
fn copied_slots(alloc: Global, slots: &[Option<Page>]) -> Result<Vec<Option<Page>>, NoMemory>
    ensures { IfOk result (λ copies. copies.items ≡ slots.now) }
{
    let mut copies = Vec::with_capacity(alloc, slots.len())?;
    for slot in slots {
        copies.push(copied(alloc, slot)?)?;
    }
    Ok(copies)
}

/// A copy of the page of a slot, where there is one.
fn copied(alloc: Global, slot: &Option<Page>) -> Result<Option<Page>, NoMemory>
    ensures { IfOk result (λ copy. copy ≡ slot.now) }
{
    match slot {
        Some(page) => Ok(Some(page.copy(alloc)?)),
        None => Ok(None),
    }
}
