//! A caller that copies a snapshot through.
ghost use Rattle.std.specs.Prelude.{◌≡◌, IfErr, IsTrue, OnOk};
ghost use Rattle.vm_base.specs.SnapshotState.{KeepsSnapshot, Quiet, CopyFails};

use vm_base::{CopyFault, Copying, Gate, Step};

/// Copies what is left of a snapshot: each cell that is free at once, and then those that were
/// skipped. At `Ok` no cell waits to be copied any more, and none was refused or found lost.
pub fn copy_through<Z: Copying, G: Gate>(z: &mut Z, gate: &G) -> Result<(), CopyFault>
    ensures whole { OnOk result (IsTrue (Z.snapshot z.new).whole) }
    ensures quiet { OnOk result (Quiet (Z.snapshot z.old) (Z.snapshot z.new)) }
    ensures fault { IfErr result (λ fault. CopyFails (Z.snapshot z.old) (Z.snapshot z.new) fault) }
    ensures memory { (Z.snapshot z.new).mem ≡ (Z.snapshot z.old).mem }
    ensures keeps { KeepsSnapshot (Z.snapshot z.old) (Z.snapshot z.new) }
    ensures aside { Z.aside z.new ≡ Z.aside z.old }
    ensures went { Z.went z.old z.new }
{
    copy_free(z, gate)?;
    loop {
        if let Step::AllDone = z.copy_left(gate)? {
            return Ok(());
        }
    }
}

// One pass of the cells whose turn is free. At `Ok` each cell that still waits was skipped.
fn copy_free<Z: Copying, G: Gate>(z: &mut Z, gate: &G) -> Result<(), CopyFault>
    ensures passed { OnOk result (IsTrue (Z.snapshot z.new).passed) }
    ensures quiet { OnOk result (Quiet (Z.snapshot z.old) (Z.snapshot z.new)) }
    ensures fault { IfErr result (λ fault. CopyFails (Z.snapshot z.old) (Z.snapshot z.new) fault) }
    ensures keeps { KeepsSnapshot (Z.snapshot z.old) (Z.snapshot z.new) }
    ensures aside { Z.aside z.new ≡ Z.aside z.old }
    ensures went { Z.went z.old z.new }
{
    loop {
        if let Step::AllDone = z.copy_next(gate)? {
            return Ok(());
        }
    }
}
