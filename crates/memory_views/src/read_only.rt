//! A memory that is only read, as a snapshot of itself.
ghost use Rattle.std.specs.Prelude.{◌≡◌};

use vm_base::{Fault, Frozen, Memory, SnapFault};

/// A memory that is only read, as a snapshot of itself. No cell of it is ever lost.
#[derive(Drop)]
pub struct ReadOnly<'m, M: Memory> {
    pub memory: &'m mut M,
}

impl<M: Memory> Frozen for ReadOnly<'_, M> {
    ghost use Rattle.std.specs.Borrow.{GName};
    ghost use Rattle.vm_base.specs.MemoryState.{MemoryState};
    ghost use Rattle.memory_views.specs.ReadViews.{snapshot_of};

    ghost Aside = { (M.Aside × MemoryState) × GName };

    // The memory's state stands beside it, so no reader changes that.
    ghost aside = { λ it.
        ((M.aside it.memory.now, M.state it.memory.now), it.memory.ghost_name) };

    ghost snapshot = { λ it. snapshot_of (M.state it.memory.now).mem };

    ghost went = { λ p q. M.went p.memory.now q.memory.now };

    ghost went_none = { λ p. M.went_none p.memory.now };

    ghost went_on = { λ p q r one two.
        M.went_on p.memory.now q.memory.now r.memory.now one two };

    fn read(&mut self, addr: u64, buf: &mut [u8]) -> Result<(), SnapFault> {
        match self.memory.read(addr, buf) {
            Ok(()) => Ok(()),
            Err(Fault::NoArea(page)) => Err(SnapFault::NoArea(page)),
            Err(_) => unreachable!("a read is refused for its areas alone"),
        }
    }
}
