//! A present page with its number, and where it stands among others in rising order.
ghost use Rattle.std.specs.Prelude.{◌≡◌, ◌+◌, ◌≤◌, length};
ghost use Rattle.vm_base.specs.FlatMemory.{spliced};
ghost use Rattle.flat_memory.specs.Entries.{AreSorted, IsPlace, FoundAt};

use crate::page::Page;
use std::marker::Model;

/// A present page. Contracts see it as its number and its bytes.
#[derive(Debug, Drop)]
pub(crate) struct Entry {
    number: u64,
    page: Page,
}

impl Model for Entry {
    ghost use Rattle.std.specs.Prelude.{List, ℕ};

    ghost Value = { ℕ × List ℕ };

    ghost view = { λ entry. (entry.number, entry.page) };
}

impl Entry {
    pub(crate) fn new(number: u64, page: Page) -> Entry
        ensures { result ≡ (number, page) }
    {
        Entry { number, page }
    }

    pub(crate) fn number(&self) -> u64
        ensures { result ≡ self.now.0 }
    {
        self.number
    }

    pub(crate) fn page(&self) -> &Page
        ensures { result.now ≡ self.now.1 }
    {
        &self.page
    }

    pub(crate) fn into_page(self) -> Page
        ensures { result ≡ self.1 }
    {
        self.page
    }

    /// Writes the bytes from a place of the page on.
    pub(crate) fn write(&mut self, at: usize, bytes: &[u8])
        requires { at + length bytes.now ≤ 4096 }
        ensures { self.new ≡ (self.old.0, spliced self.old.1 at bytes.now) }
    {
        self.page.write(at, bytes);
    }
}

/// How many entries lie below a page, by halving.
pub(crate) fn place_of(entries: &[Entry], page: u64) -> usize
    requires { AreSorted entries.now }
    ensures { IsPlace entries.now page result }
{
    entries.partition_point(|entry| entry.number() < page)
}

/// Where the entry of a page stands, if there is one.
pub(crate) fn find_page(entries: &[Entry], page: u64) -> Option<usize>
    requires { AreSorted entries.now }
    ensures { FoundAt entries.now page result }
{
    let place = place_of(entries, page);
    if place < entries.len() && entries[place].number() == page {
        Some(place)
    } else {
        None
    }
}
