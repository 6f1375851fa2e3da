//! A snapshot as its reader sees it.
ghost use Rattle.std.specs.Prelude.{◌≡◌, ◌+◌, ◌≤◌, ◌^◌, length, OnOk, IfErr, Ok, Err};
ghost use Rattle.vm_base.specs.SnapshotState.{SnapshotState, KeepsSnapshot, snapshot_answer};

use crate::faults::SnapFault;

/// A memory as it was at a fork. What its parent does later is not seen here.
pub trait Frozen {
    /// What stands beside the snapshot, plain data that no call changes: a child's number and home
    /// are read from it.
    ghost Aside: { Type 0 };

    ghost aside: { Self → Aside };

    ghost snapshot: { Self → SnapshotState };

    /// What calls on it may make of the value in which it lies, one after another.
    ghost went: { Self → Self → Type 0 };

    /// Reads the bytes of a range. It looks at each cell of the range once, lowest first, and
    /// answers `Lost` where one is lost then. After a refusal the buffer is left open.
    fn read(&mut self, addr: u64, buf: &mut [u8]) -> Result<(), SnapFault>
        requires { addr + length buf.old ≤ 2 ^ 48 }
        ensures bytes { OnOk result (snapshot_answer (snapshot self.new) addr (length buf.old) ≡ Ok buf.new) }
        ensures fault { IfErr result
            (λ fault. snapshot_answer (snapshot self.new) addr (length buf.old) ≡ Err fault) }
        ensures keeps { KeepsSnapshot (snapshot self.old) (snapshot self.new) }
        ensures uncounted { (snapshot self.new).refused ≡ (snapshot self.old).refused }
        ensures aside { aside self.new ≡ aside self.old }
        ensures went { went self.old self.new };

    ghost went_none: { (p : Self) → went p p };

    ghost went_on: { (p q r : Self) → went p q → went q r → went p r };
}
