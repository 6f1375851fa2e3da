//! Ranges of bytes, gone through page by page.
ghost use Rattle.std.specs.Prelude.{◌≡◌, ◌+◌, ◌%◌, ◌^◌, ◌<◌, ◌≤◌};
ghost use Rattle.vm_base.specs.Places.{page_of, offset_of, cell_of};

/// Bytes in a page.
pub const PAGE_BYTES: u64 = 4096;

/// Pages in a cell.
pub(crate) const CELL_PAGES: u64 = 512;

/// Bytes in a cell.
const CELL_BYTES: u64 = PAGE_BYTES * CELL_PAGES;

/// Where an address lies: its cell, the page's index in the cell, and the place in the page.
#[derive(Clone, Copy, Debug)]
pub(crate) struct Location {
    pub(crate) cell: u32,
    pub(crate) page: u16,
    pub(crate) at: u16,
}

/// Where an address lies.
pub(crate) fn location_of(addr: u64) -> Location
    requires { addr < 2 ^ 48 }
    ensures cell { result.cell ≡ cell_of (page_of addr) }
    ensures page { result.page ≡ page_of addr % 512 }
    ensures at { result.at ≡ offset_of addr }
{
    let (cell, page) = cell_and_index(addr / PAGE_BYTES);
    Location {
        cell,
        page,
        at: (addr % PAGE_BYTES) as u16,
    }
}

/// The cell of a page, and the page's index in the cell.
pub(crate) fn cell_and_index(page: u64) -> (u32, u16)
    requires { page < 2 ^ 36 }
    ensures cell { result.0 ≡ cell_of page }
    ensures index { result.1 ≡ page % 512 }
{
    ((page / CELL_PAGES) as u32, (page % CELL_PAGES) as u16)
}

/// How many bytes of a range lie in its first page.
pub(crate) fn piece_of_page(addr: u64, len: usize) -> usize
    requires { 0 < len }
    ensures some { 0 < result }
    ensures within { result ≤ len }
    ensures room { offset_of addr + result ≤ 4096 }
{
    let room = (PAGE_BYTES - addr % PAGE_BYTES) as usize;
    len.min(room)
}

/// How many bytes of a range lie in its first cell.
pub(crate) fn piece_of_cell(addr: u64, len: usize) -> usize
    requires { 0 < len }
    ensures some { 0 < result }
    ensures within { result ≤ len }
    ensures room { addr % 2 ^ 21 + result ≤ 2 ^ 21 }
{
    let room = (CELL_BYTES - addr % CELL_BYTES) as usize;
    len.min(room)
}
