//! The process as a memory.
ghost use Rattle.std.specs.Prelude.{◌≡◌, ◌+◌, ◌≤◌, ◌^◌, OnOk, IfErr};
ghost use Rattle.vm_base.specs.Places.{cells_of_range};
ghost use Rattle.vm_base.specs.MemoryState.{IsKept};
ghost use Rattle.vm_base.specs.MemoryCalls.{Touches, TouchFails};
ghost use Rattle.flat_memory.specs.FlatSeen.{fault_answer, memory_of, beside_of, FlatWent, IsRefusedByRoom};

use crate::flat::Flat;
use area_list::AreaFault;
use vm_base::{Fault, Memory, Perm};

impl Memory for Flat {
    ghost use Rattle.flat_memory.specs.FlatSeen.{BesideMemory, FlatWent, memory_of, beside_of};
    ghost use Rattle.flat_memory.specs.FlatLaws.{went-none, went-on};

    ghost Aside = { BesideMemory };

    ghost aside = { λ flat. beside_of flat.sides };

    ghost state = { λ flat. memory_of flat.sides };

    // A child that lives keeps its memory, and its number is given to no other.
    ghost went = { λ old new. FlatWent (beside_of old.sides) (beside_of new.sides) };

    ghost went_none = { λ p. went-none (beside_of p.sides) };

    ghost went_on = { λ p q r one two.
        went-on (beside_of p.sides) (beside_of q.sides) (beside_of r.sides) one two };

    fn read(&mut self, addr: u64, buf: &mut [u8]) -> Result<(), Fault> {
        match self.sides.memory.read(addr, buf) {
            Ok(()) => Ok(()),
            Err(page) => Err(Fault::NoArea(page)),
        }
    }

    /// A page is refused exactly where the range has more absent pages than there is room for.
    fn touch(&mut self, addr: u64, len: u64) -> Result<(), Fault>
        requires within { addr + len ≤ 2 ^ 48 }
        requires few { len ≤ 4194304 }
        ensures touched { OnOk result
            (Touches (memory_of self.old.sides) (memory_of self.new.sides) addr len) }
        ensures fault { IfErr result
            (λ fault. TouchFails (memory_of self.old.sides) (memory_of self.new.sides) addr len
            fault) }
        ensures room { IsRefusedByRoom (memory_of self.old.sides) addr len result }
        ensures keeps { IsKept (memory_of self.old.sides) (memory_of self.new.sides)
            (cells_of_range addr len) }
        ensures aside { beside_of self.new.sides ≡ beside_of self.old.sides }
        ensures went { FlatWent (beside_of self.old.sides) (beside_of self.new.sides) }
    {
        self.sides.touch(addr, len)
    }

    fn store(&mut self, addr: u64, bytes: &[u8]) {
        self.sides.memory.store(addr, bytes);
    }

    fn map(&mut self, first: u64, pages: u64, perm: Perm) -> Result<(), Fault> {
        fault_answer(self.sides.memory.map(first, pages, perm))
    }

    fn unmap(&mut self, first: u64, pages: u64) -> Result<(), Fault> {
        fault_answer(self.sides.memory.unmap(first, pages))
    }

    fn protect(&mut self, first: u64, pages: u64, perm: Perm) -> Result<(), Fault> {
        fault_answer(self.sides.memory.protect(first, pages, perm))
    }
}

// What a change of areas answers, as a memory tells it.
fn fault_answer(changed: Result<(), AreaFault>) -> Result<(), Fault>
    ensures { result ≡ fault_answer changed }
{
    match changed {
        Ok(()) => Ok(()),
        Err(AreaFault::NoArea(page)) => Err(Fault::NoArea(page)),
        Err(AreaFault::Overlap(page)) => Err(Fault::Overlap(page)),
        Err(AreaFault::AreasFull) => Err(Fault::AreasFull),
    }
}
