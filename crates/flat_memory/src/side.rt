//! One side of a process: areas, and the pages that are present.
ghost use Rattle.std.specs.Prelude.{◌≡◌, ◌+◌, ◌≤◌, ◌<◌, ◌^◌, ◌-◌, length, [], IfOk, OnOk, IfErr, None, Some};
ghost use Rattle.std.specs.FinMap.{len as page_total};
ghost use Rattle.vm_base.specs.Places.{page_of, page_count};
ghost use Rattle.vm_base.specs.FlatMemory.{bytes_at, area_of};
ghost use Rattle.vm_base.specs.FlatStep.{outside, unwritable, is_read_only, with_bytes, map_of, unmap_of, protect_of};
ghost use Rattle.vm_base.specs.FlatLaws.{AreFullPages, unmapped};
ghost use Rattle.area_list.specs.AreaList.{Sets};
ghost use Rattle.vm_base.specs.MemoryCalls.{touched};
ghost use Rattle.flat_memory.specs.Pages.{no_pages};
ghost use Rattle.flat_memory.specs.Answers.{LacksRoom, JudgesTouch, SideChanges};
ghost use Rattle.flat_memory.specs.SideSeen.{mem_of};

use crate::page::PAGE_BYTES;
use crate::pages::Pages;
use crate::range::{lacking, page_count, read_range, store_range, touch_range};
use area_list::{Area, AreaFault, Areas};
use std::alloc::Global;
use vm_base::{Fault, NoMemory, Perm};

/// Areas, and the pages that are present.
#[derive(Drop)]
pub(crate) struct Side {
    pub(crate) areas: Areas,
    pub(crate) pages: Pages,
}

impl Side {
    /// No area and no page. It fails only for want of memory.
    pub(crate) fn new(alloc: Global, room: u32) -> Result<Side, NoMemory>
        ensures areas { IfOk result (λ side. side.areas ≡ []) }
        ensures pages { IfOk result (λ side. side.pages ≡ no_pages room) }
    {
        let pages = Pages::new(alloc, room)?;
        Ok(Side {
            areas: Areas::new(),
            pages,
        })
    }

    /// Reads the bytes of a range, or tells its lowest page that lies in no area.
    pub(crate) fn read(&self, addr: u64, buf: &mut [u8]) -> Result<(), u64>
        requires { addr + length buf.old ≤ 2 ^ 48 }
        ensures inside { OnOk result
            (outside self.now.areas (page_of addr) (page_count addr (length buf.old)) ≡ None) }
        ensures bytes { OnOk result
            (buf.new ≡ bytes_at self.now.pages.present addr (length buf.old)) }
        ensures outside { IfErr result
            (λ page. outside self.now.areas (page_of addr) (page_count addr (length buf.old)) ≡ Some
            page) }
    {
        let count = page_count(addr, buf.len() as u64);
        if let Some(page) = first_outside(&self.areas, addr / PAGE_BYTES as u64, count) {
            return Err(page);
        }
        read_range(&self.pages, addr, buf);
        Ok(())
    }

    /// Why the areas refuse a touch of a range.
    pub(crate) fn judge(&self, addr: u64, len: u64) -> Result<(), Fault>
        requires { addr + len ≤ 2 ^ 48 }
        ensures { JudgesTouch (mem_of self.now) addr len result }
    {
        let first = addr / PAGE_BYTES as u64;
        let count = page_count(addr, len);
        if let Some(page) = first_outside(&self.areas, first, count) {
            return Err(Fault::NoArea(page));
        }
        if let Some(page) = first_read_only(&self.areas, first, count) {
            return Err(Fault::NoWrite(page));
        }
        Ok(())
    }

    /// The page at which a touch of a range finds no room.
    pub(crate) fn lacking(&self, addr: u64, len: u64) -> Option<u64>
        requires { addr + len ≤ 2 ^ 48 }
        ensures { LacksRoom self.now.pages.present self.now.pages.room (page_of addr)
            (page_count addr len) result }
    {
        lacking(&self.pages, addr / PAGE_BYTES as u64, page_count(addr, len))
    }

    /// Makes each page of a range present.
    pub(crate) fn touch(&mut self, addr: u64, len: u64)
        requires within { addr + len ≤ 2 ^ 48 }
        requires room { page_total (touched (mem_of self.old) addr len).present
            ≤ self.old.pages.room }
        ensures { self.new ≡ record self.old {
          pages =
              record self.old.pages { present = (touched (mem_of self.old) addr len).present };
        } }
    {
        touch_range(
            &mut self.pages,
            addr / PAGE_BYTES as u64,
            page_count(addr, len),
        );
    }

    /// Stores bytes in pages that are present.
    pub(crate) fn store(&mut self, addr: u64, bytes: &[u8])
        requires within { addr + length bytes.now ≤ 2 ^ 48 }
        requires full { AreFullPages self.old.pages.present addr (length bytes.now) }
        ensures { self.new ≡ record self.old {
          pages =
              record self.old.pages { present = with_bytes self.old.pages.present addr bytes.now };
        } }
    {
        store_range(&mut self.pages, addr, bytes);
    }

    /// Makes an area of pages that no area has.
    pub(crate) fn map(&mut self, first: u64, pages: u64, perm: Perm) -> Result<(), AreaFault>
        requires some { 0 < pages }
        requires within { first + pages ≤ 2 ^ 36 }
        ensures answer { SideChanges self.old self.new result
            (map_of (mem_of self.old) first pages perm) }
        ensures areas { OnOk result (Sets self.old.areas self.new.areas first pages (Some perm)) }
        ensures pages { self.new.pages ≡ self.old.pages }
    {
        self.areas.map(first, pages, perm)
    }

    /// Takes pages out of the areas, and those of them out that are present.
    pub(crate) fn unmap(&mut self, first: u64, pages: u64) -> Result<(), AreaFault>
        requires some { 0 < pages }
        requires within { first + pages ≤ 2 ^ 36 }
        ensures answer { SideChanges self.old self.new result
            (unmap_of (mem_of self.old) first pages) }
        ensures pages { OnOk result
            (self.new.pages ≡ record self.old.pages
            { present = unmapped self.old.pages.present first pages }) }
    {
        match self.areas.unmap(first, pages) {
            Ok(()) => {
                self.pages.remove(first, pages);
                Ok(())
            }
            Err(fault) => Err(fault),
        }
    }

    /// Gives pages of areas another permission.
    pub(crate) fn protect(&mut self, first: u64, pages: u64, perm: Perm) -> Result<(), AreaFault>
        requires some { 0 < pages }
        requires within { first + pages ≤ 2 ^ 36 }
        ensures answer { SideChanges self.old self.new result
            (protect_of (mem_of self.old) first pages perm) }
        ensures pages { self.new.pages ≡ self.old.pages }
    {
        self.areas.protect(first, pages, perm)
    }

    /// Becomes a copy of another side: each page is copied whole.
    pub(crate) fn copy_from(&mut self, side: &Side)
        requires { page_total side.now.pages.present ≤ self.old.pages.room }
        ensures areas { self.new.areas ≡ side.now.areas }
        ensures pages { self.new.pages
            ≡ record self.old.pages { present = side.now.pages.present } }
    {
        self.areas = side.areas.copy();
        self.pages.copy_from(&side.pages);
    }
}

// The lowest page of a range that lies in no area.
fn first_outside(areas: &Areas, first: u64, count: u64) -> Option<u64>
    requires { first + count ≤ 2 ^ 36 }
    ensures { result ≡ outside areas.now first count }
{
    for page in first..first + count {
        if areas.find(page).is_none() {
            return Some(page);
        }
    }
    None
}

// The lowest page of a range that may only be read.
fn first_read_only(areas: &Areas, first: u64, count: u64) -> Option<u64>
    requires { first + count ≤ 2 ^ 36 }
    ensures { result ≡ unwritable areas.now first count }
{
    for page in first..first + count {
        if is_read_only(areas.find(page)) {
            return Some(page);
        }
    }
    None
}

// An area is there, and may only be read.
fn is_read_only(area: Option<Area>) -> bool
    ensures { result ≡ is_read_only area }
{
    match area {
        Some(area) => matches!(area.perm, Perm::Read),
        None => false,
    }
}
