//! Callers that save a child: it is copied cell by cell until all is done, and then read.
ghost use Rattle.std.specs.Prelude.{◌≡◌, ◌+◌, ◌≤◌, ◌^◌, length, IsTrue, IfOk, OnOk, IfErr, IsOk, Err};
ghost use Rattle.vm_base.specs.FlatMemory.{bytes_at};
ghost use Rattle.vm_base.specs.SnapshotState.{KeepsSnapshot, snapshot_answer};
ghost use Rattle.memory_uses.specs.Copied.{IsAllCopied, NotCopied, FailsBefore, IsLostSince, IsReadSince, IsOutsideRead};

use crate::housing::read_child;
use crate::nest::{copy_nested, read_nested_twice};
use vm_base::{CopyFault, Gate, Housing, Process, SnapFault, Step};

/// Copies a child cell by cell until all is done, and tells how many cells were copied. The process
/// tells what it told before.
pub fn copy_child<P: Housing>(
    process: &mut P,
    child: &mut <P as Process>::Child,
) -> Result<u64, CopyFault>
    requires lives { IsTrue (P.lives (P.Nest.beside process.old child.old)) }
    ensures copied { IfOk result (λ copies. IsAllCopied (P.nested process.old child.old) (P.nested process.new child.new) copies) }
    ensures fault { IfErr result (λ fault. NotCopied (P.nested process.old child.old) (P.nested process.new child.new)
        (P.Nest.born (P.Nest.beside process.old child.old)) (P.state process.old).refused fault) }
    ensures keeps { KeepsSnapshot (P.nested process.old child.old) (P.nested process.new child.new) }
    ensures beside { P.Nest.beside process.new child.new ≡ P.Nest.beside process.old child.old }
    ensures process { (P.state process.new ≡ P.state process.old) × (P.aside process.new ≡ P.aside process.old) }
    ensures went { P.Memory.went process.old process.new }
{
    let mut copies: u64 = 0;
    loop {
        if let Step::AllDone = process.child_copy(child)? {
            return Ok(copies);
        }
        copies = copies.saturating_add(1);
    }
}

/// Copies a child through, and then reads a range of it, whether all could be copied or not.
pub fn save_child<P: Housing>(
    process: &mut P,
    child: &mut <P as Process>::Child,
    addr: u64,
    buf: &mut [u8],
) -> (Result<u64, CopyFault>, Result<(), SnapFault>)
    requires lives { IsTrue (P.lives (P.Nest.beside process.old child.old)) }
    requires within { addr + length buf.old ≤ 2 ^ 48 }
    ensures copied { IfOk result.0 (λ copies. IsAllCopied (P.nested process.old child.old) (P.nested process.new child.new) copies) }
    ensures fault { IfErr result.0 (λ fault. NotCopied (P.nested process.old child.old) (P.nested process.new child.new)
        (P.Nest.born (P.Nest.beside process.old child.old)) (P.state process.old).refused fault) }

    // The bytes are those at the fork. A lost cell was lost since; none is where all was copied.
    ensures bytes { OnOk result.1 (bytes_at (P.kept (P.Process.beside process.old) child.old).present addr (length buf.old) ≡ buf.new) }
    ensures unread { IfErr result.1 (λ fault. (snapshot_answer (P.nested process.new child.new) addr (length buf.old) ≡ Err fault)
        × IsReadSince (P.Nest.born (P.Nest.beside process.old child.old)) (P.state process.old).refused fault) }
    ensures all { IsOk result.0 → IfErr result.1 IsOutsideRead }

    ensures keeps { KeepsSnapshot (P.nested process.old child.old) (P.nested process.new child.new) }
    ensures process { (P.Nest.beside process.new child.new ≡ P.Nest.beside process.old child.old)
        × (P.state process.new ≡ P.state process.old) × (P.aside process.new ≡ P.aside process.old) }
    ensures went { P.Memory.went process.old process.new }
{
    let copied = copy_child(process, child);
    let read = read_child(process, child, addr, buf);
    (copied, read)
}

/// The same over a snapshot: what is left of a child is copied, and then a range is read twice.
pub fn save_nested<P: Housing, G: Gate>(
    process: &mut P,
    child: &mut <P as Process>::Child,
    gate: &G,
    addr: u64,
    first: &mut [u8],
    again: &mut [u8],
) -> (Result<(), CopyFault>, Result<(), SnapFault>)
    requires lives { IsTrue (P.lives (P.Nest.beside process.old child.old)) }
    requires within { addr + length first.old ≤ 2 ^ 48 }
    requires length { length again.old ≡ length first.old }
    ensures whole { OnOk result.0 (IsTrue (P.nested process.new child.new).whole) }
    ensures fault { IfErr result.0 (λ fault. FailsBefore (P.nested process.old child.old) (P.nested process.new child.new) fault
        × IsLostSince (P.Nest.born (P.Nest.beside process.old child.old)) (P.state process.old).refused fault) }
    ensures same { OnOk result.1 (first.new ≡ again.new) }
    ensures bytes { OnOk result.1 (bytes_at (P.kept (P.Process.beside process.old) child.old).present addr (length first.old) ≡ first.new) }
    ensures unread { IfErr result.1 (λ fault. (snapshot_answer (P.nested process.new child.new) addr (length first.old) ≡ Err fault)
        × IsReadSince (P.Nest.born (P.Nest.beside process.old child.old)) (P.state process.old).refused fault) }
    ensures keeps { KeepsSnapshot (P.nested process.old child.old) (P.nested process.new child.new) }
    ensures process { (P.Nest.beside process.new child.new ≡ P.Nest.beside process.old child.old)
        × (P.state process.new ≡ P.state process.old) × (P.aside process.new ≡ P.aside process.old) }
    ensures went { P.Memory.went process.old process.new }
{
    let copied = copy_nested(process, child, gate);
    let read = read_nested_twice(process, child, addr, first, again);
    (copied, read)
}
