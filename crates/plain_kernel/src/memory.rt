//! A memory on plain pages: at most one area, and the pages that are present.
ghost use Rattle.std.specs.Prelude.{◌≡◌, ◌+◌, ◌*◌, ◌/◌, ◌≤◌, ◌<◌, ℕ, [], length, IfOk, Ok, is_some};
ghost use Rattle.vm_base.specs.Places.{page_count};
ghost use Rattle.vm_base.specs.FlatMemory.{empty_memory, area_of, holds};
ghost use Rattle.vm_base.specs.FlatStep.{outside, unwritable, is_read_only, is_writable, map_of, read_of, write_of};
ghost use Rattle.plain_kernel.specs.KernelStep.{IsInFirstCell};
ghost use Rattle.plain_kernel.specs.PlainMemory.{area_value, Gives, ChangesPages};

use crate::page::PAGE_BYTES;
use crate::pages::Pages;
use crate::range::{read_range, store_range, touch_range};
use std::alloc::Global;
use std::marker::Model;
use vm_base::{Bytes, NoMemory, Perm};

/// Pages that may be used, and what for.
#[derive(Clone, Copy, Debug)]
pub(crate) struct Area {
    first: u64,
    pages: u64,
    perm: Perm,
}

impl Area {
    fn holds(&self, page: u64) -> bool
        ensures { result ≡ holds (area_value self.now) page }
    {
        self.first <= page && page - self.first < self.pages
    }

    fn is_writable(&self) -> bool
        ensures { result ≡ is_writable self.now.perm }
    {
        match self.perm {
            Perm::Read => false,
            Perm::ReadWrite => true,
        }
    }
}

/// Why a memory refuses a call. The memory is as it was.
#[derive(Clone, Copy, Debug)]
pub(crate) enum MemoryFault {
    /// The lowest page of the range that lies in no area.
    NoArea(u64),
    /// The lowest page of the range that may only be read.
    NoWrite(u64),
    NoMemory,
}

/// What an owner sees of the first cell.
#[derive(Debug, Drop)]
pub(crate) struct Memory {
    area: Option<Area>,
    pages: Pages,
}

impl Model for Memory {
    ghost use Rattle.vm_base.specs.FlatMemory.{FlatMemory};
    ghost use Rattle.vm_base.specs.Codes.{flat_memory_code};

    ghost Value = { FlatMemory };

    ghost coded = { flat_memory_code };

    ghost use Rattle.plain_kernel.specs.PlainMemory.{areas_of};

    ghost view = { λ memory. record { areas = areas_of memory.area; present = memory.pages } };
}

impl Memory {
    /// No area and no page.
    pub(crate) fn new(alloc: Global) -> Result<Memory, NoMemory>
        ensures { IfOk result (λ memory. memory ≡ empty_memory) }
    {
        let pages = Pages::new(alloc)?;
        Ok(Memory { area: None, pages })
    }

    /// Maps the first area.
    pub(crate) fn map(&mut self, first: u64, pages: u64, perm: Perm)
        requires unmapped { self.old.areas ≡ [] }
        requires some { 0 < pages }
        ensures { map_of self.old first pages perm ≡ Ok self.new }
    {
        self.area = Some(Area { first, pages, perm });
    }

    /// Reads a range, absent pages as zeros.
    pub(crate) fn read(&self, alloc: Global, addr: u64, len: u64) -> Result<Bytes, MemoryFault>
        requires { IsInFirstCell addr len }
        ensures { Gives result (read_of self.now addr len) }
    {
        let count = page_count(addr, len);
        if let Some(page) = self.first_outside(addr / PAGE_BYTES as u64, count) {
            return Err(MemoryFault::NoArea(page));
        }
        match read_range(alloc, &self.pages, addr, len) {
            Ok(bytes) => Ok(bytes),
            Err(NoMemory) => Err(MemoryFault::NoMemory),
        }
    }

    /// Touches the range of the bytes, and then stores them.
    pub(crate) fn write(
        &mut self,
        alloc: Global,
        addr: u64,
        bytes: &[u8],
    ) -> Result<(), MemoryFault>
        requires { IsInFirstCell addr (length bytes.now) }
        ensures { ChangesPages self.old self.new result (write_of self.old addr bytes.now) }
    {
        let first = addr / PAGE_BYTES as u64;
        let count = page_count(addr, bytes.len() as u64);
        if let Some(page) = self.first_outside(first, count) {
            return Err(MemoryFault::NoArea(page));
        }
        if let Some(page) = self.first_read_only(first, count) {
            return Err(MemoryFault::NoWrite(page));
        }
        match touch_range(alloc, &mut self.pages, first, count) {
            Ok(()) => {
                store_range(&mut self.pages, addr, bytes);
                Ok(())
            }
            Err(NoMemory) => Err(MemoryFault::NoMemory),
        }
    }

    /// A copy of the whole memory.
    pub(crate) fn copy(&self, alloc: Global) -> Result<Memory, NoMemory>
        ensures { IfOk result (λ copy. copy ≡ self.now) }
    {
        let pages = self.pages.copy(alloc)?;
        Ok(Memory {
            area: self.area,
            pages,
        })
    }

    fn is_mapped(&self, page: u64) -> bool
        ensures { result ≡ is_some (area_of self.now.areas page) }
    {
        match &self.area {
            Some(area) => area.holds(page),
            None => false,
        }
    }

    fn is_read_only(&self, page: u64) -> bool
        ensures { result ≡ is_read_only (area_of self.now.areas page) }
    {
        match &self.area {
            Some(area) => area.holds(page) && !area.is_writable(),
            None => false,
        }
    }

    /// The lowest page of a range that lies in no area.
    fn first_outside(&self, first: u64, count: u64) -> Option<u64>
        requires { first + count ≤ 512 }
        ensures { result ≡ outside self.now.areas first count }
    {
        for page in first..first + count {
            if !self.is_mapped(page) {
                return Some(page);
            }
        }
        None
    }

    /// The lowest page of a range that may only be read.
    fn first_read_only(&self, first: u64, count: u64) -> Option<u64>
        requires { first + count ≤ 512 }
        ensures { result ≡ unwritable self.now.areas first count }
    {
        for page in first..first + count {
            if self.is_read_only(page) {
                return Some(page);
            }
        }
        None
    }
}

/// How many pages a range meets.
fn page_count(addr: u64, len: u64) -> u64
    requires { IsInFirstCell addr len }
    ensures count { result ≡ page_count addr len }
    ensures inside { addr / 4096 + result ≤ 512 }
    ensures whole { addr + len ≤ (addr / 4096 + result) * 4096 }
{
    (addr + len - 1) / PAGE_BYTES as u64 + 1 - addr / PAGE_BYTES as u64
}
