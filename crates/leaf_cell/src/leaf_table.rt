//! A leaf table: the places of the frames of 512 pages, in a frame of its own.
ghost use Rattle.std.specs.Prelude.{ℕ, IsTrue, ◌≡◌, ◌<◌, ◌*◌, ◌+◌, ◌≤◌, slice_set, Some, None, length, replicate, count_by, is_some, cond};
ghost use Rattle.byteorder.specs.Endian.{little_bytes};
ghost use Rattle.vm_base.specs.FlatMemory.{zero_page, spliced};
ghost use Rattle.kernel_meaning.specs.Leaves.{version_at, has_pages, has_present};
ghost use Rattle.leaf_cell.specs.Places.{word_at, place_in, with_word, without_words, no_table, with_entry, without_entries};
ghost use Rattle.leaf_cell.specs.Writable.{writable_at};

use bitflags::Flags;
use byteorder::{ByteOrder, LittleEndian};
use std::marker::Model;
use vm_base::{Bits, Frame, entry_parts, entry_word};

/// Pages that a leaf table maps.
pub(crate) const CELL_PAGES: u16 = 512;

/// Bytes of a table entry.
const ENTRY_BYTES: usize = 8;

/// How many entries are looked at together.
pub(crate) const BLOCK: u16 = 8;

/// For each page of a cell the place of its frame, or none, and whether the page may be written
/// to. It is in a frame, with an entry for each page.
#[derive(Debug, Drop)]
pub(crate) struct LeafTable {
    frame: Frame,
}

impl Model for LeafTable {
    ghost use Rattle.leaf_cell.specs.Places.{TableView, IsLeafTable, places_of, writable_of};

    ghost Value = { TableView };

    ghost view = { λ table. record { places = places_of table.frame.bytes; writable = writable_of table.frame.bytes } };

    ghost invariant = { λ table. IsLeafTable table.frame.bytes };
}

impl LeafTable {
    /// A table without a page, in a frame of zeros.
    pub(crate) fn new(frame: Frame) -> LeafTable
        requires { frame.bytes ≡ zero_page }
        ensures { result ≡ no_table }
    {
        LeafTable { frame }
    }

    /// A table without a page, in any frame.
    pub(crate) fn empty_in(frame: Frame) -> LeafTable
        ensures { result ≡ no_table }
    {
        let mut zeros = frame;
        *zeros.bytes_mut() = [0; 4096];
        LeafTable::new(zeros)
    }

    /// The place of the frame of a page.
    pub(crate) fn get(&self, page: u16) -> Option<u32>
        requires { page < CELL_PAGES }
        ensures { result ≡ version_at self.now.places page }
    {
        place_of(word_of(self.frame.bytes(), page))
    }

    /// Whether a page may be written to.
    pub(crate) fn may_write(&self, page: u16) -> bool
        requires { page < CELL_PAGES }
        ensures { result ≡ writable_at self.now.writable page }
    {
        entry_parts(word_of(self.frame.bytes(), page))
            .1
            .contains(Bits::WRITE)
    }

    /// The page's frame is at this place from now on, and may be written to or not.
    pub(crate) fn set(&mut self, page: u16, place: u32, is_writable: bool)
        requires { page < CELL_PAGES }
        ensures { self.new ≡ with_entry self.old page place is_writable }
    {
        let word = entry_word(place, page_bits(is_writable));
        put_word(&mut self.frame, page, word);
    }

    /// No page of a range is there from now on.
    pub(crate) fn clear(&mut self, first: u16, pages: u16)
        requires { first + pages ≤ CELL_PAGES }
        ensures { self.new ≡ without_entries self.old first pages }
    {
        clear_words(&mut self.frame, first, pages);
    }

    /// A table in this frame that names the same frames.
    pub(crate) fn copy_in(&self, frame: Frame) -> LeafTable
        ensures { result ≡ self.now }
    {
        let mut copy = frame;
        copy_bytes(&mut copy, &self.frame);
        LeafTable { frame: copy }
    }

    /// As many entries as the frame has room for, which is one for each page.
    pub(crate) fn entries(&self) -> u16
        ensures count { result ≡ 512 }
        ensures size { length self.now.places ≡ 512 }
    {
        let bytes: &[u8] = self.frame.bytes();
        (bytes.len() / ENTRY_BYTES) as u16
    }

    /// How many pages are present.
    pub(crate) fn pages(&self) -> u32
        ensures { result ≡ count_by is_some self.now.places }
    {
        let mut pages = 0;
        for page in 0..self.entries() {
            if self.get(page).is_some() {
                pages += 1;
            }
        }
        pages
    }

    /// Whether one of some pages is present.
    pub(crate) fn covers(&self, first: u16, pages: u16) -> bool
        requires { first + pages ≤ CELL_PAGES }
        ensures { result ≡ has_present self.now.places first pages }
    {
        for page in first..first + pages {
            if self.get(page).is_some() {
                return true;
            }
        }
        false
    }

    /// Whether a page is present. It looks at no block of entries behind that of the first one.
    pub(crate) fn has_pages(&self) -> bool
        ensures { result ≡ has_pages self.now.places }
    {
        for block in 0..self.entries() / BLOCK {
            if self.covers_block(BLOCK * block) {
                return true;
            }
        }
        false
    }

    /// Whether one of a block of pages is present.
    fn covers_block(&self, first: u16) -> bool
        requires { first + 8 ≤ CELL_PAGES }
        ensures { result ≡ has_present self.now.places first 8 }
    {
        if self.is_bare(first) {
            return false;
        }
        self.covers(first, BLOCK)
    }

    /// Whether the entries of a block of pages are all zero, so that none of them is present.
    pub(crate) fn is_bare(&self, first: u16) -> bool
        requires { first + 8 ≤ CELL_PAGES }
        ensures { IsTrue result → (k : ℕ) → first ≤ k → k < first + 8
            → version_at self.now.places k ≡ None }
    {
        let bytes: &[u8] = self.frame.bytes();
        let begin = ENTRY_BYTES * first as usize;
        let zeros: &[u8] = &[0; 64];
        &bytes[begin..begin + 64] == zeros
    }

    /// The frame that the table was in.
    pub(crate) fn into_frame(self) -> Frame {
        self.frame
    }
}

/// What the entry of a page says beside its place.
fn page_bits(is_writable: bool) -> Bits
    ensures { result.0 ≡ cond is_writable 3 1 }
{
    if is_writable {
        Bits::PRESENT.union(Bits::WRITE)
    } else {
        Bits::PRESENT
    }
}

/// The place that an entry holds.
fn place_of(word: u64) -> Option<u32>
    ensures { result ≡ place_in word }
{
    let (place, bits) = entry_parts(word);
    // Present, to be written to or not, and no other bit.
    if bits.union(Bits::WRITE) == page_bits(true) {
        Some(place)
    } else {
        None
    }
}

/// The entry of a page.
fn word_of(bytes: &[u8], page: u16) -> u64
    requires size { length bytes.now ≡ 4096 }
    requires page { page < CELL_PAGES }
    ensures { result ≡ word_at bytes.now page }
{
    let at = ENTRY_BYTES * page as usize;
    LittleEndian::read_u64(&bytes[at..])
}

/// Puts the entry of a page.
fn put_word(frame: &mut Frame, page: u16, word: u64)
    requires page { page < CELL_PAGES }
    ensures { frame.new ≡ record frame.old { bytes = with_word frame.old.bytes page word } }
{
    let bytes: &mut [u8] = frame.bytes_mut();
    set_word(bytes, page, word);
}

/// Puts zeros as the entries of a range of pages.
fn clear_words(frame: &mut Frame, first: u16, pages: u16)
    requires { first + pages ≤ CELL_PAGES }
    ensures { frame.new ≡ record frame.old { bytes = without_words frame.old.bytes first pages } }
{
    let bytes: &mut [u8] = frame.bytes_mut();
    put_zeros(
        bytes,
        ENTRY_BYTES * first as usize,
        ENTRY_BYTES * pages as usize,
    );
}

/// Puts zeros from a place on.
fn put_zeros(target: &mut [u8], at: usize, count: usize)
    requires { at + count ≤ length target.old }
    ensures { target.new ≡ spliced target.old at (replicate count 0) }
{
    target[at..at + count].fill(0);
}

fn set_word(bytes: &mut [u8], page: u16, word: u64)
    requires size { length bytes.old ≡ 4096 }
    requires page { page < CELL_PAGES }
    ensures { bytes.new ≡ with_word bytes.old page word }
{
    put_bytes(bytes, ENTRY_BYTES * page as usize, &entry_bytes(word));
}

/// An entry as it stands in a table.
fn entry_bytes(word: u64) -> [u8; 8]
    ensures bytes { result ≡ little_bytes 8 word }
    ensures size { length result ≡ 8 }
{
    let mut bytes = [0; 8];
    LittleEndian::write_u64(&mut bytes, word);
    bytes
}

/// Puts bytes from a place on.
pub(crate) fn put_bytes(target: &mut [u8], at: usize, bytes: &[u8])
    requires { at + length bytes.now ≤ length target.old }
    ensures { target.new ≡ spliced target.old at bytes.now }
{
    target[at..at + bytes.len()].copy_from_slice(bytes);
}

/// Puts the bytes of one frame into another.
pub(crate) fn copy_bytes(frame: &mut Frame, other: &Frame)
    ensures { frame.new ≡ record frame.old { bytes = other.now.bytes } }
{
    *frame.bytes_mut() = *other.bytes();
}
