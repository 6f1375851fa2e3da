//! Ranges of bytes over pages: a range is gone through page by page.
ghost use Rattle.std.specs.Prelude.{◌≡◌, ◌+◌, ◌*◌, ◌%◌, ◌^◌, ◌≤◌, ◌<◌, ℕ, length, IfOk, OnOk, OnErr, replicate, IsTrue, is_some};
ghost use Rattle.std.specs.FinMap.{get};
ghost use Rattle.vm_base.specs.Places.{page_of, offset_of};
ghost use Rattle.vm_base.specs.FlatMemory.{bytes_at, zero_page};
ghost use Rattle.vm_base.specs.FlatStep.{with_pages, with_bytes};
ghost use Rattle.plain_kernel.specs.Pages.{absent_count};

use crate::page::{PAGE_BYTES, Page};
use crate::pages::Pages;
use std::alloc::Global;
use vm_base::{Bytes, NoMemory};

/// What an absent page reads as.
static ZEROS: [u8; PAGE_BYTES] = [0; PAGE_BYTES];

/// The bytes of a range, absent pages as zeros.
pub(crate) fn read_range(
    alloc: Global,
    pages: &Pages,
    addr: u64,
    len: u64,
) -> Result<Bytes, NoMemory>
    requires { addr + len ≤ 2 ^ 21 }
    ensures { IfOk result (λ bytes. bytes ≡ bytes_at pages.now addr len) }
{
    let mut bytes = Bytes::new(alloc);
    let end = addr + len;
    let mut at = addr;
    while at < end {
        let piece = piece_of_page(at, end - at);
        bytes.push_all(bytes_in_page(pages, at, piece))?;
        at += piece as u64;
    }
    Ok(bytes)
}

/// How many bytes of a range lie in its first page.
fn piece_of_page(addr: u64, len: u64) -> usize
    requires { 0 < len }
    ensures some { 0 < result }
    ensures within { result ≤ len }
    ensures room { offset_of addr + result ≤ 4096 }
{
    let room = PAGE_BYTES - (addr % PAGE_BYTES as u64) as usize;
    if len < room as u64 {
        len as usize
    } else {
        room
    }
}

/// The bytes of a range within one page.
fn bytes_in_page<'a>(pages: &'a Pages, addr: u64, len: usize) -> &'a [u8]
    requires inside { addr < 2 ^ 21 }
    requires room { offset_of addr + len ≤ 4096 }
    ensures { result.now ≡ bytes_at pages.now addr len }
{
    let offset = (addr % PAGE_BYTES as u64) as usize;
    match pages.get(addr / PAGE_BYTES as u64) {
        Some(page) => &page.bytes()[offset..offset + len],
        None => zeros(len),
    }
}

/// This many zeros.
fn zeros(len: usize) -> &'static [u8]
    requires { len ≤ 4096 }
    ensures { result.now ≡ replicate len 0 }
{
    &ZEROS[..len]
}

/// Makes each page of a range present: an absent one gets zeros. After `NoMemory` nothing has
/// changed, since all memory is taken before the first page is placed.
pub(crate) fn touch_range(
    alloc: Global,
    pages: &mut Pages,
    first: u64,
    count: u64,
) -> Result<(), NoMemory>
    requires { first + count ≤ 512 }
    ensures ok { OnOk result (pages.new ≡ with_pages pages.old first count) }
    ensures no_memory { OnErr result (pages.new ≡ pages.old) }
{
    let zeros = zeros_for_absent(alloc, pages, first, count)?;
    place_zeros(pages, zeros, first, count);
    Ok(())
}

/// A page of zeros for each page of a range that is absent.
fn zeros_for_absent(
    alloc: Global,
    pages: &Pages,
    first: u64,
    count: u64,
) -> Result<Vec<Page>, NoMemory>
    requires { first + count ≤ 512 }
    ensures { IfOk result (λ zeros. zeros.items ≡ replicate (absent_count pages.now first count) zero_page) }
{
    let mut zeros = Vec::new(alloc);
    for page in first..first + count {
        if !pages.contains(page) {
            zeros.push(Page::zeroed(alloc)?)?;
        }
    }
    Ok(zeros)
}

/// Places a page of zeros at each page of a range that is absent.
fn place_zeros(pages: &mut Pages, zeros: Vec<Page>, first: u64, count: u64)
    requires range { first + count ≤ 512 }
    requires enough { zeros.items ≡ replicate (absent_count pages.old first count) zero_page }
    ensures { pages.new ≡ with_pages pages.old first count }
{
    let mut zeros = zeros;
    for page in first..first + count {
        if !pages.contains(page) {
            match zeros.pop() {
                Some(zero) => pages.put(page, zero),
                None => unreachable!("there is one for each absent page"),
            }
        }
    }
}

/// Stores bytes from an address on, in pages that are present.
pub(crate) fn store_range(pages: &mut Pages, addr: u64, bytes: &[u8])
    requires range { addr + length bytes.now ≤ 2 ^ 21 }
    requires present { (page : ℕ) → page_of addr ≤ page → page * 4096 < addr + length bytes.now → IsTrue (is_some (get pages.old page)) }
    ensures { pages.new ≡ with_bytes pages.old addr bytes.now }
{
    let mut at = addr;
    let mut rest = bytes;
    while !rest.is_empty() {
        let piece = piece_of_page(at, rest.len() as u64);
        let (front, back) = rest.split_at(piece);
        pages.write(
            at / PAGE_BYTES as u64,
            (at % PAGE_BYTES as u64) as usize,
            front,
        );
        at += piece as u64;
        rest = back;
    }
}
