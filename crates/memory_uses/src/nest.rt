//! Callers of a child that lies in a value, as a snapshot.
ghost use Rattle.std.specs.Prelude.{◌≡◌, IsTrue, ◌+◌, ◌≤◌, ◌^◌, length, OnOk, IfErr, Ok, Err};
ghost use Rattle.vm_base.specs.SnapshotState.{KeepsSnapshot, Quiet, CopyFails, snapshot_answer};

use crate::copying::copy_through;
use crate::frozen::read_twice;
use vm_base::{CopyFault, Gate, Nest, Nested, SnapFault};

/// Reads a range of a child twice, as a snapshot.
pub fn read_nested_twice<N: Nest>(
    nest: &mut N,
    child: &mut N::Child,
    addr: u64,
    first: &mut [u8],
    again: &mut [u8],
) -> Result<(), SnapFault>
    requires lives { IsTrue (N.lives (N.beside nest.old child.old)) }
    requires within { addr + length first.old ≤ 2 ^ 48 }
    requires length { length again.old ≡ length first.old }
    ensures same { OnOk result (first.new ≡ again.new) }
    ensures bytes { OnOk result (snapshot_answer (N.nested nest.new child.new) addr (length first.old) ≡ Ok first.new) }
    ensures fault { IfErr result
        (λ fault. snapshot_answer (N.nested nest.new child.new) addr (length first.old) ≡ Err fault) }
    ensures uncounted { (N.nested nest.new child.new).refused ≡ (N.nested nest.old child.old).refused }
    ensures beside { N.beside nest.new child.new ≡ N.beside nest.old child.old }
    ensures keeps { KeepsSnapshot (N.nested nest.old child.old) (N.nested nest.new child.new) }
    ensures went { N.went nest.old nest.new }
{
    let mut z = Nested { nest, child };
    read_twice(&mut z, addr, first, again)
}

/// Copies what is left of a child, as a snapshot.
pub fn copy_nested<N: Nest, G: Gate>(
    nest: &mut N,
    child: &mut N::Child,
    gate: &G,
) -> Result<(), CopyFault>
    requires lives { IsTrue (N.lives (N.beside nest.old child.old)) }
    ensures whole { OnOk result (IsTrue (N.nested nest.new child.new).whole) }
    ensures quiet { OnOk result (Quiet (N.nested nest.old child.old) (N.nested nest.new child.new)) }
    ensures fault { IfErr result (λ fault. CopyFails (N.nested nest.old child.old) (N.nested nest.new child.new) fault) }
    ensures keeps { KeepsSnapshot (N.nested nest.old child.old) (N.nested nest.new child.new) }
    ensures beside { N.beside nest.new child.new ≡ N.beside nest.old child.old }
    ensures went { N.went nest.old nest.new }
{
    let mut z = Nested { nest, child };
    copy_through(&mut z, gate)
}
