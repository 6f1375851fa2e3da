//! Callers that had too few frames for a refusal.
ghost use Rattle.std.specs.Prelude.{◌≡◌, ℕ, ◌<◌, IsTrue, OnOk, IfErr, Some};
ghost use Rattle.memory_uses.specs.Written.{WritesOrFails, WritesTwice, FailsTwice};
ghost use Rattle.memory_uses.specs.Copied.{IsCopyLost, CopiesAllBehind};
ghost use Rattle.memory_uses.specs.Steps.{IsWithin};

use crate::memory::write_at;
use crate::saving::copy_child;
use vm_base::{CopyFault, Fault, Housing, Memory, Process};

/// Writes the same bytes at two addresses, one after the other. Where it is told how many frames
/// are enough, and the most frames stayed below that, no request was refused.
pub fn write_within<M: Memory>(
    memory: &mut M,
    addr: u64,
    second: u64,
    bytes: &[u8],
) -> Result<(), Fault>
    requires first { IsWithin addr bytes.now }
    requires second { IsWithin second bytes.now }
    ensures written { OnOk result
        (WritesTwice (M.state memory.old) (M.state memory.new) addr second bytes.now) }
    ensures failed { IfErr result (λ fault.
        FailsTwice (M.state memory.old) (M.state memory.new) addr second bytes.now fault) }
    ensures complete { (enough : ℕ) → (M.state memory.new).enough ≡ Some enough
        → (M.state memory.new).most < enough → (M.state memory.new).refused ≡ 0 }
    ensures aside { M.aside memory.new ≡ M.aside memory.old }
    ensures went { M.went memory.old memory.new }
{
    write_at(memory, addr, bytes)?;
    write_at(memory, second, bytes)
}

/// Writes to a process, and then copies its child through. Where it is told how many frames are
/// enough, and the most frames stayed below that, no copy of the child was refused either.
pub fn copy_within<P: Housing>(
    process: &mut P,
    child: &mut <P as Process>::Child,
    addr: u64,
    bytes: &[u8],
) -> Result<u64, CopyFault>
    requires lives { IsTrue (P.lives (P.Nest.beside process.old child.old)) }
    requires within { IsWithin addr bytes.now }
    ensures written { WritesOrFails (P.state process.old) (P.state process.new) addr bytes.now }
    ensures copied { CopiesAllBehind (P.nested process.old child.old) (P.nested process.new child.new) result }
    ensures complete { (enough : ℕ) → (P.state process.new).enough ≡ Some enough
        → (P.state process.new).most < enough → ((P.state process.new).refused ≡ 0)
        × ((P.nested process.new child.new).refused ≡ 0) × IfErr result IsCopyLost }
    ensures went { P.Memory.went process.old process.new }
{
    let _written = write_at(process, addr, bytes);
    copy_child(process, child)
}
