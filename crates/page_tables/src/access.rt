//! Reading both sides, and storing.
ghost use Rattle.std.specs.Prelude.{◌≡◌, ◌+◌, ◌*◌, ◌/◌, ◌%◌, ◌^◌, ◌<◌, ◌≤◌, ℕ, Some, IfSome, length, is_some, true, false};
ghost use Rattle.std.specs.FinMap.{get};
ghost use Rattle.vm_base.specs.Places.{page_of, offset_of, cell_of};
ghost use Rattle.vm_base.specs.FlatMemory.{bytes_at};
ghost use Rattle.vm_base.specs.FlatStep.{with_bytes};
ghost use Rattle.kernel_meaning.specs.Leaves.{kept_by};
ghost use Rattle.kernel_meaning.specs.FrameLaw.{cell_at};
ghost use Rattle.leaf_cell.specs.States.{state_of};
ghost use Rattle.page_tables.specs.Sides.{Sides};
ghost use Rattle.page_tables.specs.Standing.{TablesStandFor, slot_in, slot_count};
ghost use Rattle.page_tables.specs.Held.{frames_of, HoldAlike};
ghost use Rattle.page_tables.specs.Permissions.{KeepsWriting, KeepsAllButBytes, may_write};
ghost use Rattle.page_tables.specs.Accesses.{IsPageReady, IsSnapshotRead, IsLowestLoss};

use crate::loss::{LostCell, lowest_lost};
use crate::pieces::{PAGE_BYTES, cell_and_index, location_of, piece_of_cell, piece_of_page};
use crate::tables::PageTables;
use leaf_cell::LeafState;
use vm_base::Lost;

impl PageTables {
    /// Reads bytes of the parent from an address on, as many as `buf` has. An absent page reads as
    /// zeros. It is one look-up for each page of the range.
    pub fn read(&self, addr: u64, buf: &mut [u8])
        requires range { addr + length buf.old ≤ 2 ^ 48 }
        requires stands { ∥ ((sides : Sides) × TablesStandFor self.now sides) ∥₁ }
        ensures read { (sides : Sides) → TablesStandFor self.now sides → buf.new ≡ bytes_at sides.pages addr (length buf.old) }
    {
        let mut done = 0;
        while done < buf.len() {
            let at = addr + done as u64;
            let piece = piece_of_page(at, buf.len() - done);
            self.read_piece(at, &mut buf[done..done + piece]);
            done += piece;
        }
    }

    /// Reads bytes of the parent within one page.
    fn read_piece(&self, addr: u64, buf: &mut [u8])
        requires inside { addr < 2 ^ 48 }
        requires room { offset_of addr + length buf.old ≤ 4096 }
        requires stands { ∥ ((sides : Sides) × TablesStandFor self.now sides) ∥₁ }
        ensures read { (sides : Sides) → TablesStandFor self.now sides → buf.new ≡ bytes_at sides.pages addr (length buf.old) }
    {
        let location = location_of(addr);
        match self.directory.find(location.cell) {
            Some(slot) => {
                let cell = &self.slots[slot as usize].cell;
                cell.read(location.page, location.at, buf);
            }
            None => buf.fill(0),
        }
    }

    /// Stores bytes from an address on, in pages that are present and that no snapshot names, as a
    /// touch leaves them. It asks for no frame. It is one look-up for each page of the range.
    pub fn store(&mut self, addr: u64, bytes: &[u8])
        requires range { addr + length bytes.now ≤ 2 ^ 48 }
        requires stands { ∥ ((sides : Sides) × (TablesStandFor self.old sides ×
            ((page : ℕ) → page_of addr ≤ page → page * 4096 < addr + length bytes.now → IsPageReady sides.leaves page))) ∥₁ }
        ensures stored { (sides : Sides) → TablesStandFor self.old sides → TablesStandFor self.new (record sides { pages = with_bytes sides.pages addr bytes.now }) }
        ensures held { frames_of self.new ≡ frames_of self.old }
        ensures cells { HoldAlike self.old.slots.items self.new.slots.items }
        ensures writable { KeepsWriting self.old self.new }
        ensures snapshot { self.new.snapshot ≡ self.old.snapshot }
        ensures slots { slot_count self.new ≡ slot_count self.old }
    {
        let mut done = 0;
        while done < bytes.len() {
            let at = addr + done as u64;
            let piece = piece_of_page(at, bytes.len() - done);
            self.store_piece(at, &bytes[done..done + piece]);
            done += piece;
        }
    }

    /// Stores bytes within one page.
    fn store_piece(&mut self, addr: u64, bytes: &[u8])
        requires inside { addr < 2 ^ 48 }
        requires room { offset_of addr + length bytes.now ≤ 4096 }
        requires stands { ∥ ((sides : Sides) × (TablesStandFor self.old sides × IsPageReady sides.leaves (page_of addr))) ∥₁ }
        ensures stored { (sides : Sides) → TablesStandFor self.old sides → TablesStandFor self.new (record sides { pages = with_bytes sides.pages addr bytes.now }) }
        ensures kept { KeepsAllButBytes self.old self.new }
    {
        match self.directory.find(location_of(addr).cell) {
            Some(slot) => self.store_in_slot(slot, addr, bytes),
            None => unreachable!("the directory has the cell of a page that is ready"),
        }
    }

    /// Stores bytes within one page of the cell in a slot.
    fn store_in_slot(&mut self, slot: u32, addr: u64, bytes: &[u8])
        requires inside { addr < 2 ^ 48 }
        requires room { offset_of addr + length bytes.now ≤ 4096 }
        requires known { get self.old.directory (cell_of (page_of addr)) ≡ Some slot }
        requires stands { ∥ ((sides : Sides) × (TablesStandFor self.old sides
            × IsPageReady sides.leaves (page_of addr))) ∥₁ }
        ensures stored { (sides : Sides) → TablesStandFor self.old sides
            → TablesStandFor self.new (record sides
            { pages = with_bytes sides.pages addr bytes.now }) }
        ensures kept { KeepsAllButBytes self.old self.new }
    {
        let location = location_of(addr);
        let cell = &mut self.slots[slot as usize].cell;
        cell.store(location.page, location.at, bytes);
    }

    /// Stores bytes within one page where its entry tells that it may be written to, and tells
    /// whether that is so. It is one look-up, and asks for no frame: no touch has to come before.
    pub fn store_ready(&mut self, addr: u64, bytes: &[u8]) -> bool
        requires inside { addr < 2 ^ 48 }
        requires room { offset_of addr + length bytes.now ≤ 4096 }
        requires stands { ∥ ((sides : Sides) × TablesStandFor self.old sides) ∥₁ }
        ensures ready { result ≡ may_write self.old (page_of addr) }
        ensures alone { result ≡ true → (sides : Sides) → TablesStandFor self.old sides
            → IsPageReady sides.leaves (page_of addr) }
        ensures stored { result ≡ true → (sides : Sides) → TablesStandFor self.old sides
            → TablesStandFor self.new (record sides
            { pages = with_bytes sides.pages addr bytes.now }) }
        ensures unstored { result ≡ false → self.new ≡ self.old }
        ensures kept { KeepsAllButBytes self.old self.new }
    {
        match self.ready_slot(addr / PAGE_BYTES) {
            Some(slot) => {
                self.store_in_slot(slot, addr, bytes);
                true
            }
            None => false,
        }
    }

    /// The slot of a page's cell, where the page's entry tells that it may be written to.
    fn ready_slot(&self, page: u64) -> Option<u32>
        requires page { page < 2 ^ 36 }
        requires stands { ∥ ((sides : Sides) × TablesStandFor self.now sides) ∥₁ }
        ensures known { IfSome result (λ slot. get self.now.directory (cell_of page) ≡ Some slot) }
        ensures ready { is_some result ≡ may_write self.now page }
        ensures alone { is_some result ≡ true → (sides : Sides) → TablesStandFor self.now sides
            → IsPageReady sides.leaves page }
    {
        let (cell, index) = cell_and_index(page);
        match self.directory.find(cell) {
            Some(slot) => {
                let cell = &self.slots[slot as usize].cell;
                if cell.may_write(index) {
                    Some(slot)
                } else {
                    None
                }
            }
            None => None,
        }
    }

    /// Reads bytes of a snapshot, by its number, from an address on, as they were at its fork. It
    /// looks at each cell of the range once, in rising order, and stops at the first that the
    /// snapshot has lost: `Lost` tells the count of refused requests with which it was.
    pub fn snap_read(&self, number: u32, addr: u64, buf: &mut [u8]) -> Result<(), Lost>
        requires range { addr + length buf.old ≤ 2 ^ 48 }
        requires stands { ∥ ((sides : Sides) × TablesStandFor self.now sides) ∥₁ }
        ensures read { (sides : Sides) → TablesStandFor self.now sides → IsSnapshotRead sides number addr (length buf.old) result buf.new }
    {
        let mut done = 0;
        while done < buf.len() {
            let at = addr + done as u64;
            let piece = piece_of_cell(at, buf.len() - done);
            match self.snap_read_cell(number, at, &mut buf[done..done + piece]) {
                Ok(()) => done += piece,
                Err(lost) => return Err(lost),
            }
        }
        Ok(())
    }

    /// Reads bytes of a snapshot within one cell.
    fn snap_read_cell(&self, number: u32, addr: u64, buf: &mut [u8]) -> Result<(), Lost>
        requires range { addr + length buf.old ≤ 2 ^ 48 }
        requires room { addr % 2 ^ 21 + length buf.old ≤ 2 ^ 21 }
        requires some { 0 < length buf.old }
        requires stands { ∥ ((sides : Sides) × TablesStandFor self.now sides) ∥₁ }
        ensures read { (sides : Sides) → TablesStandFor self.now sides → IsSnapshotRead sides number addr (length buf.old) result buf.new }
    {
        match self.snapshot_slot(location_of(addr).cell) {
            Some(slot) => self.snap_read_slot(slot, number, addr, buf),
            None => {
                buf.fill(0);
                Ok(())
            }
        }
    }

    /// Reads bytes of a snapshot within the cell in a slot.
    fn snap_read_slot(&self, slot: u32, number: u32, addr: u64, buf: &mut [u8]) -> Result<(), Lost>
        requires range { addr + length buf.old ≤ 2 ^ 48 }
        requires room { addr % 2 ^ 21 + length buf.old ≤ 2 ^ 21 }
        requires known { slot_in self.now.snapshot (cell_of (page_of addr)) ≡ Some slot }
        requires stands { ∥ ((sides : Sides) × TablesStandFor self.now sides) ∥₁ }
        ensures read { (sides : Sides) → TablesStandFor self.now sides → IsSnapshotRead sides number addr (length buf.old) result buf.new }
    {
        let mut done = 0;
        while done < buf.len() {
            let at = addr + done as u64;
            let piece = piece_of_page(at, buf.len() - done);
            match self.snap_read_piece(slot, number, at, &mut buf[done..done + piece]) {
                Ok(()) => done += piece,
                Err(lost) => return Err(lost),
            }
        }
        Ok(())
    }

    /// Reads bytes of a snapshot within one page of the cell in a slot.
    fn snap_read_piece(&self, slot: u32, number: u32, addr: u64, buf: &mut [u8]) -> Result<(), Lost>
        requires inside { addr < 2 ^ 48 }
        requires room { offset_of addr + length buf.old ≤ 4096 }
        requires some { 0 < length buf.old }
        requires known { slot_in self.now.snapshot (cell_of (page_of addr)) ≡ Some slot }
        requires stands { ∥ ((sides : Sides) × TablesStandFor self.now sides) ∥₁ }
        ensures read { (sides : Sides) → TablesStandFor self.now sides → IsSnapshotRead sides number addr (length buf.old) result buf.new }
    {
        let location = location_of(addr);
        let cell = &self.slots[slot as usize].cell;
        cell.snap_read(number, location.page, location.at, buf)
    }

    /// What a snapshot has at a cell, both by their numbers. It is one look-up.
    pub fn state(&self, number: u32, cell: u32) -> LeafState
        requires cell { cell < 2 ^ 27 }
        requires stands { ∥ ((sides : Sides) × TablesStandFor self.now sides) ∥₁ }
        ensures state { (sides : Sides) → TablesStandFor self.now sides → result ≡ state_of (kept_by (cell_at sides.leaves cell).kept number) }
    {
        match self.snapshot_slot(cell) {
            Some(slot) => self.slots[slot as usize].cell.state(number),
            None => LeafState::Absent,
        }
    }

    /// The lowest cell that a snapshot, by its number, has lost, if it has lost one. It looks
    /// through the slots.
    pub fn lowest_loss(&self, number: u32) -> Option<LostCell>
        ensures loss { (sides : Sides) → TablesStandFor self.now sides → IsLowestLoss sides.leaves number result }
    {
        lowest_lost(&self.slots, number)
    }

    /// The slot of a cell that the snapshot has.
    pub(crate) fn snapshot_slot(&self, cell: u32) -> Option<u32>
        requires { cell < 2 ^ 27 }
        ensures { result ≡ slot_in self.now.snapshot cell }
    {
        match &self.snapshot {
            Some(tables) => tables.directory.find(cell),
            None => None,
        }
    }
}
