//! The pages of a memory that are present, with room for a fixed number of them.
ghost use Rattle.std.specs.Prelude.{◌≡◌, ◌+◌, ◌<◌, ◌≤◌, ℕ, length, IfOk, [], Some, None, is_some, IsSome, vec_len, vec_capacity};
ghost use Rattle.std.specs.Option.{option_copied};
ghost use Rattle.std.specs.Ordering.{nat_cmp};
ghost use Rattle.std.specs.FinMap.{get, len as count, insert, retain_keys};
ghost use Rattle.std.specs.FinMap.Entries.{where_key};
ghost use Rattle.vm_base.specs.FlatMemory.{zero_page};
ghost use Rattle.vm_base.specs.FlatStep.{is_beyond};
ghost use Rattle.flat_memory.specs.Pages.{no_pages, with_written};
ghost use Rattle.flat_memory.specs.Entries.{AreSorted};

use crate::entry::{Entry, find_page, place_of};
use crate::page::Page;
use std::alloc::Global;
use std::marker::Model;
use vm_base::NoMemory;

/// A finite map from page numbers to pages, in rising order. All room is made at the start: each
/// page that is not present lies ready to become so.
#[derive(Debug, Drop)]
pub(crate) struct Pages {
    entries: Vec<Entry>,
    spare: Vec<Page>,
}

impl Model for Pages {
    ghost use Rattle.std.specs.Prelude.{ℕ, ◌+◌, ◌≤◌, vec_len, vec_capacity};
    ghost use Rattle.std.specs.FinMap.{from_sorted};
    ghost use Rattle.flat_memory.specs.Pages.{PageTable, page_table_code};
    ghost use Rattle.flat_memory.specs.Entries.{AreSorted};

    ghost Value = { PageTable };

    ghost coded = { page_table_code };

    ghost view = { λ pages. record {
      present = from_sorted pages.entries.items;
      room = vec_len pages.entries + vec_len pages.spare;
    } };

    ghost invariant = { λ pages. AreSorted pages.entries.items
        × (vec_len pages.entries + vec_len pages.spare ≤ vec_capacity pages.entries)
        × (vec_len pages.entries + vec_len pages.spare ≤ vec_capacity pages.spare) };
}

impl Pages {
    /// No page is present. It fails only for want of memory.
    pub(crate) fn new(alloc: Global, room: u32) -> Result<Pages, NoMemory>
        ensures { IfOk result (λ pages. pages ≡ no_pages room) }
    {
        let entries = Vec::with_capacity(alloc, room as usize)?;
        let spare = zeroed_pages(alloc, room as usize)?;
        Ok(Pages { entries, spare })
    }

    pub(crate) fn get(&self, page: u64) -> Option<&Page>
        ensures { option_copied result ≡ get self.now.present page }
    {
        match find_page(&self.entries, page) {
            Some(place) => Some(self.entries[place].page()),
            None => None,
        }
    }

    pub(crate) fn contains(&self, page: u64) -> bool
        ensures { result ≡ is_some (get self.now.present page) }
    {
        find_page(&self.entries, page).is_some()
    }

    /// How many pages may still become present.
    pub(crate) fn free(&self) -> usize
        ensures { count self.now.present + result ≡ self.now.room }
    {
        self.spare.len()
    }

    /// Makes a page of zeros present.
    pub(crate) fn add(&mut self, page: u64)
        requires absent { get self.old.present page ≡ None }
        requires free { count self.old.present < self.old.room }
        ensures { self.new ≡ record self.old { present = insert self.old.present page zero_page } }
    {
        let place = place_of(&self.entries, page);
        let mut zeros = self.spare.take_last();
        zeros.clear();
        let added = self.entries.insert(place, Entry::new(page, zeros));
        prove!(added.is_ok());
    }

    /// Writes bytes from a place of a present page on.
    pub(crate) fn write(&mut self, page: u64, at: usize, bytes: &[u8])
        requires present { IsSome (get self.old.present page) }
        requires within { at + length bytes.now ≤ 4096 }
        ensures { self.new ≡ record self.old
            { present = with_written self.old.present page at bytes.now } }
    {
        let place = place_of(&self.entries, page);
        self.entries[place].write(at, bytes);
    }

    /// Takes pages out. Those that are absent are passed over.
    pub(crate) fn remove(&mut self, first: u64, pages: u64)
        ensures { self.new ≡ record self.old
            { present = retain_keys self.old.present (is_beyond first pages) } }
    {
        take_out(&mut self.entries, &mut self.spare, first, pages);
    }

    /// Becomes a copy of other pages: each page is copied whole.
    pub(crate) fn copy_from(&mut self, pages: &Pages)
        requires { count pages.now.present ≤ self.old.room }
        ensures { self.new ≡ record self.old { present = pages.now.present } }
    {
        give_back(&mut self.entries, &mut self.spare);
        copy_into(&mut self.entries, &mut self.spare, &pages.entries);
    }
}

// So many pages of zeros.
fn zeroed_pages(alloc: Global, room: usize) -> Result<Vec<Page>, NoMemory>
    ensures len { IfOk result (λ pages. vec_len pages ≡ room) }
    ensures capacity { IfOk result (λ pages. vec_capacity pages ≡ room) }
{
    let mut pages = Vec::with_capacity(alloc, room)?;
    for _ in 0..room {
        pages.push_reserved(Page::zeroed(alloc)?);
    }
    Ok(pages)
}

// Takes the entries of some pages out, and lays their pages aside.
fn take_out(entries: &mut Vec<Entry>, spare: &mut Vec<Page>, first: u64, pages: u64)
    requires room { vec_len entries.old + vec_len spare.old ≤ vec_capacity spare.old }
    ensures entries { entries.new.items ≡ where_key nat_cmp (is_beyond first pages)
        entries.old.items }
    ensures all { vec_len entries.new + vec_len spare.new
        ≡ vec_len entries.old + vec_len spare.old }
    ensures room { vec_capacity entries.new ≡ vec_capacity entries.old }
    ensures spare_room { vec_capacity spare.new ≡ vec_capacity spare.old }
{
    let mut at = entries.len();
    while at > 0 {
        at -= 1;
        let number = entries[at].number();
        if first <= number && number - first < pages {
            let entry = entries.remove(at);
            spare.push_reserved(entry.into_page());
        }
    }
}

// Takes all entries out, and lays their pages aside.
fn give_back(entries: &mut Vec<Entry>, spare: &mut Vec<Page>)
    requires room { vec_len entries.old + vec_len spare.old ≤ vec_capacity spare.old }
    ensures entries { entries.new.items ≡ [] }
    ensures all { vec_len entries.new + vec_len spare.new
        ≡ vec_len entries.old + vec_len spare.old }
    ensures room { vec_capacity entries.new ≡ vec_capacity entries.old }
    ensures spare_room { vec_capacity spare.new ≡ vec_capacity spare.old }
{
    while !entries.is_empty() {
        let entry = entries.take_last();
        spare.push_reserved(entry.into_page());
    }
}

// Copies entries into pages that lie ready.
fn copy_into(entries: &mut Vec<Entry>, spare: &mut Vec<Page>, from: &[Entry])
    requires none { vec_len entries.old ≡ 0 }
    requires ready { length from.now ≤ vec_len spare.old }
    requires room { length from.now ≤ vec_capacity entries.old }
    ensures entries { entries.new.items ≡ from.now }
    ensures all { vec_len entries.new + vec_len spare.new
        ≡ vec_len entries.old + vec_len spare.old }
    ensures room { vec_capacity entries.new ≡ vec_capacity entries.old }
    ensures spare_room { vec_capacity spare.new ≡ vec_capacity spare.old }
{
    for entry in from {
        let mut page = spare.take_last();
        page.copy_from(entry.page());
        entries.push_reserved(Entry::new(entry.number(), page));
    }
}
