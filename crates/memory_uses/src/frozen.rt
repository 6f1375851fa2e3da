//! A caller of a snapshot.
ghost use Rattle.std.specs.Prelude.{◌≡◌, ◌+◌, ◌≤◌, ◌^◌, length, OnOk, IfErr, Ok, Err};
ghost use Rattle.vm_base.specs.SnapshotState.{KeepsSnapshot, snapshot_answer};

use vm_base::{Frozen, SnapFault};

/// Reads a range twice. What is read is the same both times. It is refused where a read is.
pub fn read_twice<Z: Frozen>(
    z: &mut Z,
    addr: u64,
    first: &mut [u8],
    again: &mut [u8],
) -> Result<(), SnapFault>
    requires within { addr + length first.old ≤ 2 ^ 48 }
    requires length { length again.old ≡ length first.old }
    ensures same { OnOk result (first.new ≡ again.new) }
    ensures bytes { OnOk result (snapshot_answer (Z.snapshot z.new) addr (length first.old) ≡ Ok first.new) }
    ensures fault { IfErr result
        (λ fault. snapshot_answer (Z.snapshot z.new) addr (length first.old) ≡ Err fault) }
    ensures memory { (Z.snapshot z.new).mem ≡ (Z.snapshot z.old).mem }
    ensures keeps { KeepsSnapshot (Z.snapshot z.old) (Z.snapshot z.new) }
    ensures uncounted { (Z.snapshot z.new).refused ≡ (Z.snapshot z.old).refused }
    ensures aside { Z.aside z.new ≡ Z.aside z.old }
    ensures went { Z.went z.old z.new }
{
    z.read(addr, first)?;
    z.read(addr, again)
}
