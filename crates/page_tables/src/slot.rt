//! A slot: room for a cell, and the number of the cell that has it.
ghost use Rattle.std.specs.Prelude.{◌≡◌, replicate, IfOk};
ghost use Rattle.page_tables.specs.Standing.{free_slot};

use leaf_cell::Cell;
use std::alloc::Global;
use vm_base::NoMemory;

/// Room for one cell. Nobody's cell lies in a slot without an owner.
#[derive(Debug, Drop)]
pub(crate) struct Slot {
    /// The number of the cell that lies here.
    pub(crate) owner: Option<u32>,
    pub(crate) cell: Cell,
}

/// Slots in which no cell lies.
pub(crate) fn free_slots(alloc: Global, count: u32) -> Result<Vec<Slot>, NoMemory>
    ensures { IfOk result (λ slots. slots.items ≡ replicate count free_slot) }
{
    let mut slots = Vec::with_capacity(alloc, count as usize)?;
    for _ in 0..count {
        let cell = Cell::new(alloc)?;
        slots.push(Slot { owner: None, cell })?;
    }
    Ok(slots)
}
