//! The page tables, made with all their room.
ghost use Rattle.std.specs.Prelude.{◌≡◌, ◌≤◌, IfOk};
ghost use Rattle.page_tables.specs.Spare.{HasSpare};
ghost use Rattle.page_tables.specs.SlotFrames.{frames_in, shares_in};

use crate::slot::{Slot, free_slots};
use std::alloc::Global;
use table_levels::Directory;
use vm_base::NoMemory;

/// The directory of a snapshot.
#[derive(Debug, Drop)]
pub(crate) struct SnapshotTables {
    pub(crate) number: u32,
    pub(crate) directory: Directory,
}

/// The directory of the parent, that of its snapshot, and the cells in their slots. It is made
/// once, with all its room, and no other call takes memory.
#[derive(Debug, Drop)]
pub struct PageTables {
    pub(crate) directory: Directory,
    pub(crate) snapshot: Option<SnapshotTables>,
    /// The directory of the next snapshot, while none lives.
    pub(crate) spare: Option<Directory>,
    pub(crate) slots: Vec<Slot>,
    ghost spared: { HasSpare snapshot spare },
    /// Each cell holds as many frames as its share.
    ghost even: { frames_in slots.items ≡ shares_in slots.items },
}

impl PageTables {
    ghost use Rattle.page_tables.specs.Sides.{opening_sides};
    ghost use Rattle.page_tables.specs.Standing.{TablesStandFor, slot_count};
    ghost use Rattle.page_tables.specs.Held.{frames_of};
    ghost use Rattle.page_tables.specs.Permissions.{LetsNoneWrite};

    /// No page, no snapshot, and so many free slots, 512 at most: each has room for one cell. It
    /// fails only for want of memory.
    pub fn new(alloc: Global, slots: u32) -> Result<PageTables, NoMemory>
        requires { slots ≤ 512 }
        ensures stands { IfOk result (λ tables. TablesStandFor tables opening_sides) }
        ensures slots { IfOk result (λ tables. slot_count tables ≡ slots) }
        ensures held { IfOk result (λ tables. frames_of tables ≡ 0) }
        ensures unwritten { IfOk result (λ tables. LetsNoneWrite tables) }
    {
        let directory = Directory::new(alloc)?;
        let spare = Directory::new(alloc)?;
        let slots = free_slots(alloc, slots)?;
        Ok(PageTables {
            directory,
            snapshot: None,
            spare: Some(spare),
            slots,
        })
    }
}
