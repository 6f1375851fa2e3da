//! Callers of a process whose children lie in it.
ghost use Rattle.std.specs.Prelude.{◌≡◌, ◌+◌, ◌≤◌, ◌^◌, IsTrue, length, OnOk, IfErr, IfSome, Ok, Err};
ghost use Rattle.vm_base.specs.Places.{cells_of_range};
ghost use Rattle.vm_base.specs.MemoryState.{IsKept, IsListed};
ghost use Rattle.vm_base.specs.ProcessState.{Reaps, HadRefusal};
ghost use Rattle.vm_base.specs.SnapshotState.{SnapshotState, GoesOn, KeepsSnapshot, IsFoundSince, snapshot_answer};
ghost use Rattle.memory_uses.specs.Copied.{CopiesBehind};
ghost use Rattle.memory_uses.specs.Written.{WritesOrFails, WritesAndReaps};

use crate::memory::write_at;
use vm_base::{CopyFault, Housing, Process, SnapFault, Step};

/// Reads a child of a process. The process is as it was.
pub fn read_child<P: Housing>(
    process: &mut P,
    child: &mut <P as Process>::Child,
    addr: u64,
    buf: &mut [u8],
) -> Result<(), SnapFault>
    requires lives { IsTrue (P.lives (P.Nest.beside process.old child.old)) }
    requires within { addr + length buf.old ≤ 2 ^ 48 }
    ensures bytes { OnOk result (snapshot_answer (P.nested process.new child.new) addr (length buf.old) ≡ Ok buf.new) }
    ensures fault { IfErr result
        (λ fault. snapshot_answer (P.nested process.new child.new) addr (length buf.old) ≡ Err fault) }
    ensures keeps { KeepsSnapshot (P.nested process.old child.old) (P.nested process.new child.new) }
    ensures same { P.nested process.new child.new ≡ P.nested process.old child.old }
    ensures since { IsFoundSince (P.Nest.born (P.Nest.beside process.old child.old))
        (P.Nest.refused (P.Nest.beside process.old child.old)) (P.nested process.new child.new) }
    ensures state { P.state process.new ≡ P.state process.old }
    ensures aside { P.aside process.new ≡ P.aside process.old }
    ensures went { P.Memory.went process.old process.new }

    // So the child lives as before, and may be read again, copied and reaped.
    ensures beside { P.Nest.beside process.new child.new ≡ P.Nest.beside process.old child.old }
    ensures child { (P.child_number child.new ≡ P.child_number child.old) × (P.child_home child.new ≡ P.child_home child.old) }
{
    process.child_read(child, addr, buf)
}

/// Writes to a process whose child lives, and then copies a cell of the child. The child lives as
/// before, with the memory at its fork. Whether the write was refused is not told.
pub fn write_and_copy<P: Housing>(
    process: &mut P,
    child: &mut <P as Process>::Child,
    addr: u64,
    bytes: &[u8],
) -> Result<Step, CopyFault>
    requires lives { IsTrue (P.lives (P.Nest.beside process.old child.old)) }
    requires within { addr + length bytes.now ≤ 2 ^ 48 }
    requires few { length bytes.now ≤ 4194304 }
    ensures written { WritesOrFails (P.state process.old) (P.state process.new) addr bytes.now }
    ensures copied { CopiesBehind (P.nested process.old child.old) (P.nested process.new child.new) result }
    ensures goes_on { GoesOn (P.nested process.old child.old) (P.nested process.new child.new)
        × ((P.nested process.new child.new).mem ≡ P.kept (P.Process.beside process.old) child.old) }

    // Each cell that was found lost was lost since the fork.
    ensures since { IsFoundSince (P.Nest.born (P.Nest.beside process.old child.old)) (P.state process.new).refused (P.nested process.new child.new) }

    ensures lives { IsTrue (P.lives (P.Nest.beside process.new child.new))
        × (P.child_number child.new ≡ P.child_number child.old) × (P.child_home child.new ≡ P.child_home child.old) }
    ensures keeps { IsKept (P.state process.old) (P.state process.new) (cells_of_range addr (length bytes.now)) }
    ensures aside { P.aside process.new ≡ P.aside process.old }
    ensures went { P.Memory.went process.old process.new }
{
    let _written = write_at(process, addr, bytes);
    process.child_copy(child)
}

/// Writes, copies a cell of a child, and then reaps what is left of that child. It lives no more.
pub fn write_copy_and_reap<P: Housing>(
    process: &mut P,
    child: &mut <P as Process>::Child,
    gone: P::Gone,
    addr: u64,
    bytes: &[u8],
) -> Result<Step, CopyFault>
    requires lives { IsTrue (P.lives (P.Nest.beside process.old child.old)) }
    requires gone { (P.gone_home gone ≡ P.child_home child.old) × ((P.remains gone).number ≡ P.child_number child.old) }
    requires within { addr + length bytes.now ≤ 2 ^ 48 }
    requires few { length bytes.now ≤ 4194304 }
    ensures written { WritesAndReaps (P.state process.old) (P.state process.new) addr bytes.now }
    ensures copied { (copied : SnapshotState) × (CopiesBehind (P.nested process.old child.old) copied result
        × (copied.mem ≡ P.kept (P.Process.beside process.old) child.old)
        × IsFoundSince (P.Nest.born (P.Nest.beside process.old child.old)) (P.state process.new).refused copied) }
    ensures reaped { Reaps (P.children (P.Process.beside process.old)) (P.children (P.Process.beside process.new)) (P.child_number child.old) }
    ensures ended { IsTrue (P.lives (P.Nest.beside process.new child.new)) → ⊥ }
    ensures enough { HadRefusal (P.remains gone)
        → IfSome (P.state process.new).enough (λ enough. enough ≤ (P.state process.new).most) }

    // The other children are as they were.
    ensures others { (other : P.Child) → IsListed (P.child_number other) (P.children (P.Process.beside process.new)).numbers
        → P.child_home other ≡ P.home (P.Process.beside process.old) → (P.kept (P.Process.beside process.new) other ≡ P.kept (P.Process.beside process.old) other)
        × (P.Process.born (P.Process.beside process.new) other ≡ P.Process.born (P.Process.beside process.old) other) }
    ensures home { P.home (P.Process.beside process.new) ≡ P.home (P.Process.beside process.old) }
    ensures went { P.Memory.went process.old process.new }
{
    let copied = write_and_copy(process, child, addr, bytes);
    process.reap(gone);
    copied
}
