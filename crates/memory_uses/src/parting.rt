//! Callers of a process whose children are snapshots of their own.
ghost use Rattle.std.specs.Prelude.{◌≡◌, ◌+◌, ◌≤◌, ◌^◌, length, IfOk, OnOk, IfErr, OnErr, Err};
ghost use Rattle.vm_base.specs.FlatMemory.{bytes_at};
ghost use Rattle.vm_base.specs.ProcessState.{ForkFails};
ghost use Rattle.vm_base.specs.SnapshotState.{snapshot_answer};
ghost use Rattle.memory_uses.specs.Written.{WritesOrFails, ForksAndWrites};
ghost use Rattle.memory_uses.specs.Steps.{IsWithin};

use crate::memory::write_at;
use crate::process::fork_and_write;
use vm_base::{ForkFault, Frozen, Parting, SnapFault};

/// Writes to a process, and reads one of its children itself. The child reads the memory that was
/// kept for it, whatever was written.
pub fn write_and_read_own<P: Parting>(
    process: &mut P,
    child: &mut <P as Parting>::Own,
    addr: u64,
    bytes: &[u8],
    buf: &mut [u8],
) -> Result<(), SnapFault>
    requires within { IsWithin addr bytes.now }
    requires within_child { addr + length buf.old ≤ 2 ^ 48 }
    ensures written { WritesOrFails (P.state process.old) (P.state process.new) addr bytes.now }
    ensures bytes { OnOk result (bytes_at (P.kept (P.beside process.old) child.old).present addr (length buf.old) ≡ buf.new) }
    ensures fault { IfErr result
        (λ fault. snapshot_answer (P.Own.snapshot child.new) addr (length buf.old) ≡ Err fault) }
    ensures beside { P.beside process.new ≡ P.beside process.old }
    ensures went { P.Memory.went process.old process.new }
{
    let _written = write_at(process, addr, bytes);
    child.read(addr, buf)
}

/// Forks, writes to the process, and then reads the child itself. The child reads the memory of the
/// process as it was before the write.
pub fn fork_write_and_read<P: Parting>(
    process: &mut P,
    addr: u64,
    bytes: &[u8],
    buf: &mut [u8],
) -> Result<(<P as Parting>::Own, Result<(), SnapFault>), ForkFault>
    requires within { addr + length bytes.now ≤ 2 ^ 48 }
    requires few { length bytes.now ≤ 4194304 }
    requires within_child { addr + length buf.old ≤ 2 ^ 48 }
    ensures child { IfOk result (λ pair. ((P.Own.snapshot pair.0).mem ≡ (P.state process.old).mem)
        × (P.child_number pair.0 ≡ (P.children (P.beside process.old)).last + 1) × (P.child_home pair.0 ≡ P.home (P.beside process.old))) }
    ensures bytes { IfOk result (λ pair. OnOk pair.1 (bytes_at (P.state process.old).mem.present addr (length buf.old) ≡ buf.new)) }
    ensures unread { IfOk result (λ pair. IfErr pair.1
        (λ fault. snapshot_answer (P.Own.snapshot pair.0) addr (length buf.old) ≡ Err fault)) }
    ensures written { OnOk result (ForksAndWrites (P.state process.old) (P.state process.new) addr bytes.now) }

    // No child is there, and nothing was written.
    ensures fault { IfErr result
        (λ fault. ForkFails (P.children (P.beside process.old)) (P.state process.old) (P.state process.new) fault) }
    ensures failed { OnErr result ((P.children (P.beside process.new) ≡ P.children (P.beside process.old))
        × ((P.state process.new).mem ≡ (P.state process.old).mem)) }

    ensures home { P.home (P.beside process.new) ≡ P.home (P.beside process.old) }
    ensures went { P.Memory.went process.old process.new }
{
    let mut child = fork_and_write(process, addr, bytes)?;
    let read = child.read(addr, buf);
    Ok((child, read))
}
