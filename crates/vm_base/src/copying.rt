//! A snapshot that is copied cell by cell.
ghost use Rattle.std.specs.Prelude.{◌≡◌, IfOk, IfErr};
ghost use Rattle.vm_base.specs.SnapshotState.{KeepsSnapshot, StepsNext, StepsLeft, CopyFails, NextFails};

use crate::faults::{CopyFault, Step};
use crate::frozen::Frozen;
use crate::gate::Gate;

/// A snapshot whose cells may still have to be copied.
pub trait Copying: Frozen {
    /// Copies the lowest cell that is neither done nor skipped, and waits for no cell's turn. A
    /// cell that was skipped stays so. The cell can be copied later where a frame was refused. All
    /// is done where each cell that waits was skipped.
    fn copy_next<G: Gate>(&mut self, gate: &G) -> Result<Step, CopyFault>
        ensures step { IfOk result (λ step. StepsNext (Self.snapshot self.old) (Self.snapshot self.new) step) }
        ensures fault { IfErr result (λ fault. NextFails (Self.snapshot self.old) (Self.snapshot self.new) fault) }
        ensures keeps { KeepsSnapshot (Self.snapshot self.old) (Self.snapshot self.new) }
        ensures aside { Self.aside self.new ≡ Self.aside self.old }
        ensures went { Self.went self.old self.new };

    /// Copies the lowest cell that is not done, one that was skipped too. It may wait for a turn,
    /// and never answers `Skipped`.
    fn copy_left<G: Gate>(&mut self, gate: &G) -> Result<Step, CopyFault>
        ensures step { IfOk result (λ step. StepsLeft (Self.snapshot self.old) (Self.snapshot self.new) step) }
        ensures fault { IfErr result (λ fault. CopyFails (Self.snapshot self.old) (Self.snapshot self.new) fault) }
        ensures keeps { KeepsSnapshot (Self.snapshot self.old) (Self.snapshot self.new) }
        ensures aside { Self.aside self.new ≡ Self.aside self.old }
        ensures went { Self.went self.old self.new };
}
