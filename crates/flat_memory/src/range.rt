//! Ranges of bytes over pages, gone through page by page.
ghost use Rattle.std.specs.Prelude.{◌≡◌, ◌+◌, ◌*◌, ◌%◌, ◌^◌, ◌≤◌, ◌<◌, ℕ, length, replicate};
ghost use Rattle.std.specs.FinMap.{len as page_total};
ghost use Rattle.vm_base.specs.Places.{page_of, offset_of, page_count};
ghost use Rattle.vm_base.specs.FlatMemory.{bytes_at};
ghost use Rattle.vm_base.specs.FlatStep.{with_page, with_pages, with_bytes};
ghost use Rattle.vm_base.specs.FlatLaws.{AreFullPages};
ghost use Rattle.flat_memory.specs.Answers.{LacksRoom};

use crate::page::{PAGE_BYTES, ZEROS};
use crate::pages::Pages;

/// How many pages a range meets.
pub(crate) fn page_count(addr: u64, len: u64) -> u64
    requires { addr + len ≤ 2 ^ 48 }
    ensures count { result ≡ page_count addr len }
    ensures inside { page_of addr + result ≤ 2 ^ 36 }
{
    if len == 0 {
        return 0;
    }
    (addr + len - 1) / PAGE_BYTES as u64 + 1 - addr / PAGE_BYTES as u64
}

/// How many bytes of a range lie in its first page.
fn piece_of_page(addr: u64, len: usize) -> usize
    requires { 0 < len }
    ensures some { 0 < result }
    ensures within { result ≤ len }
    ensures room { offset_of addr + result ≤ 4096 }
{
    let room = PAGE_BYTES - (addr % PAGE_BYTES as u64) as usize;
    len.min(room)
}

/// Reads the bytes of a range, absent pages as zeros. It is one look-up for each page.
pub(crate) fn read_range(pages: &Pages, addr: u64, buf: &mut [u8])
    requires { addr + length buf.old ≤ 2 ^ 48 }
    ensures { buf.new ≡ bytes_at pages.now.present addr (length buf.old) }
{
    let mut done = 0;
    while done < buf.len() {
        let at = addr + done as u64;
        let piece = piece_of_page(at, buf.len() - done);
        read_piece(pages, at, &mut buf[done..done + piece]);
        done += piece;
    }
}

// Reads bytes within one page.
fn read_piece(pages: &Pages, addr: u64, buf: &mut [u8])
    requires { offset_of addr + length buf.old ≤ 4096 }
    ensures { buf.new ≡ bytes_at pages.now.present addr (length buf.old) }
{
    let piece = bytes_in_page(pages, addr, buf.len());
    buf.copy_from_slice(piece);
}

// The bytes of a range within one page.
fn bytes_in_page<'a>(pages: &'a Pages, addr: u64, len: usize) -> &'a [u8]
    requires { offset_of addr + len ≤ 4096 }
    ensures bytes { result.now ≡ bytes_at pages.now.present addr len }
    ensures len { length result.now ≡ len }
{
    let offset = (addr % PAGE_BYTES as u64) as usize;
    match pages.get(addr / PAGE_BYTES as u64) {
        Some(page) => &page.bytes()[offset..offset + len],
        None => zeros(len),
    }
}

// So many zeros.
fn zeros(len: usize) -> &'static [u8]
    requires { len ≤ 4096 }
    ensures { result.now ≡ replicate len 0 }
{
    &ZEROS[..len]
}

/// Stores bytes from an address on, in pages that are present.
pub(crate) fn store_range(pages: &mut Pages, addr: u64, bytes: &[u8])
    requires within { addr + length bytes.now ≤ 2 ^ 48 }
    requires full { AreFullPages pages.old.present addr (length bytes.now) }
    ensures { pages.new
        ≡ record pages.old { present = with_bytes pages.old.present addr bytes.now } }
{
    let mut done = 0;
    while done < bytes.len() {
        let at = addr + done as u64;
        let piece = piece_of_page(at, bytes.len() - done);
        pages.write(
            at / PAGE_BYTES as u64,
            (at % PAGE_BYTES as u64) as usize,
            &bytes[done..done + piece],
        );
        done += piece;
    }
}

/// The page at which a touch of pages finds no room: those before it fill it, and it is absent.
pub(crate) fn lacking(pages: &Pages, first: u64, count: u64) -> Option<u64>
    requires { first + count ≤ 2 ^ 36 }
    ensures { LacksRoom pages.now.present pages.now.room first count result }
{
    let mut free = pages.free();
    for page in first..first + count {
        if !pages.contains(page) {
            if free == 0 {
                return Some(page);
            }
            free -= 1;
        }
    }
    None
}

/// Makes each page of a range present: an absent one is of zeros.
pub(crate) fn touch_range(pages: &mut Pages, first: u64, count: u64)
    requires within { first + count ≤ 2 ^ 36 }
    requires room { page_total (with_pages pages.old.present first count) ≤ pages.old.room }
    ensures { pages.new ≡ record pages.old { present = with_pages pages.old.present first count } }
{
    for page in first..first + count {
        touch_page(pages, page);
    }
}

// Makes a page present.
fn touch_page(pages: &mut Pages, page: u64)
    requires { page_total (with_page pages.old.present page) ≤ pages.old.room }
    ensures { pages.new ≡ record pages.old { present = with_page pages.old.present page } }
{
    if !pages.contains(page) {
        pages.add(page);
    }
}
