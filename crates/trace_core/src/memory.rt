//! The kernel as a memory.
ghost use Rattle.std.specs.Prelude.{◌≡◌};
ghost use Rattle.trace_core.specs.TouchAnswers.{touch_outcome};
ghost use Rattle.trace_core.specs.CallAnswers.{area_outcome};

use crate::kernel::Kernel;
use area_list::AreaFault;
use std::snapshot::Snapshot;
use vm_base::{Fault, Memory, Perm};

impl Memory for Kernel {
    ghost use Rattle.std.specs.Prelude.{map};
    ghost use Rattle.trace_core.specs.KernelWent.{KernelWent};
    ghost use Rattle.trace_core.specs.WentOn.{went-none, went-on};
    ghost use Rattle.trace_core.specs.KernelSeen.{BesideMemory, beside_of, kernel_memory, parts_of, parts_with, notes_of};

    ghost Aside = { BesideMemory };

    ghost aside = { λ kernel. beside_of (parts_of kernel.parts) (notes_of kernel.notes) };

    ghost state = { λ kernel. kernel_memory (parts_of kernel.parts) (notes_of kernel.notes) };

    // Each request since was answered as it may be, each asker's count rose by its own refused
    // ones, and what is told of a snapshot that lives goes on.
    ghost went = { λ old new. KernelWent
        (parts_with old.parts (map (λ b. (FramePolicy-box b).told b.value) old.parts.supply.pool.policies.items)) (notes_of old.notes)
        (parts_with new.parts (map (λ b. (FramePolicy-box b).told b.value) new.parts.supply.pool.policies.items)) (notes_of new.notes) };

    ghost went_none = { λ p. went-none _ (notes_of p.notes) p.given };

    ghost went_on = { λ p q r one two. went-on _ _ _ _ _ _ p.given q.given one two };

    fn read(&mut self, addr: u64, buf: &mut [u8]) -> Result<(), Fault> {
        if buf.is_empty() {
            return Ok(());
        }
        match self.parts.read(addr, buf) {
            Ok(()) => Ok(()),
            Err(outside) => Err(Fault::NoArea(outside.page)),
        }
    }

    fn touch(&mut self, addr: u64, len: u64) -> Result<(), Fault> {
        if len == 0 {
            return Ok(());
        }
        let before = Snapshot::of(&self.parts.tables);
        let answer = self.parts.touch(addr, len);
        self.notes.touched(&before, addr, len, &answer);
        answer
    }

    fn store(&mut self, addr: u64, bytes: &[u8]) {
        self.parts.store(addr, bytes);
    }

    fn map(&mut self, first: u64, pages: u64, perm: Perm) -> Result<(), Fault> {
        area_answer(self.parts.map(first, pages, perm))
    }

    fn unmap(&mut self, first: u64, pages: u64) -> Result<(), Fault> {
        area_answer(self.parts.unmap(first, pages))
    }

    fn protect(&mut self, first: u64, pages: u64, perm: Perm) -> Result<(), Fault> {
        area_answer(self.parts.protect(first, pages, perm))
    }
}

// What a change of areas answers, as a memory tells it.
fn area_answer(changed: Result<(), AreaFault>) -> Result<(), Fault>
    ensures { touch_outcome result ≡ area_outcome changed }
{
    match changed {
        Ok(()) => Ok(()),
        Err(AreaFault::NoArea(page)) => Err(Fault::NoArea(page)),
        Err(AreaFault::Overlap(page)) => Err(Fault::Overlap(page)),
        Err(AreaFault::AreasFull) => Err(Fault::AreasFull),
    }
}
