//! A value in which its children lie, and a child there as a snapshot.
ghost use Rattle.std.specs.Prelude.{◌≡◌, ℕ, Bool, IsTrue, ◌+◌, ◌≤◌, ◌^◌, length, OnOk, IfOk, IfErr, Ok, Err};
ghost use Rattle.vm_base.specs.SnapshotState.{SnapshotState, KeepsSnapshot, StepsNest, FailsNest, IsFoundSince, snapshot_answer};

use crate::copying::Copying;
use crate::faults::{CopyFault, SnapFault, Step};
use crate::frozen::Frozen;
use crate::gate::Gate;

/// A value that reads and copies its children itself.
pub trait Nest {
    /// A snapshot that lives in the value.
    type Child;

    /// What no call here changes, plain data: a child's number and home, the counts below, and all
    /// that a memory, a process or a book of that value tells of itself.
    ghost Beside: { Type 0 };

    ghost beside: { Self → Self.Child → Beside };

    /// A child of that number lives in the value.
    ghost lives: { Beside → Bool };

    /// The refused requests of the value as the fork of the child returned, and those it has now.
    ghost born: { Beside → ℕ };

    ghost refused: { Beside → ℕ };

    /// The child as a snapshot: what it holds is the memory that was kept for it.
    ghost nested: { Self → Self.Child → SnapshotState };

    /// What calls on it may make of it, one after another.
    ghost went: { Self → Self → Type 0 };

    /// Reads the bytes of a range of a child, as a snapshot reads them. The child is as it was:
    /// only an act of its parent loses a cell.
    fn child_read(
        &mut self,
        child: &mut Self::Child,
        addr: u64,
        buf: &mut [u8],
    ) -> Result<(), SnapFault>
        requires lives { IsTrue (lives (beside self.old child.old)) }
        requires within { addr + length buf.old ≤ 2 ^ 48 }
        ensures bytes { OnOk result (snapshot_answer (nested self.new child.new) addr (length buf.old) ≡ Ok buf.new) }
        ensures fault { IfErr result
            (λ fault. snapshot_answer (nested self.new child.new) addr (length buf.old) ≡ Err fault) }
        ensures keeps { KeepsSnapshot (nested self.old child.old) (nested self.new child.new) }
        ensures same { nested self.new child.new ≡ nested self.old child.old }
        ensures since { IsFoundSince (born (beside self.old child.old)) (refused (beside self.old child.old)) (nested self.new child.new) }
        ensures beside { beside self.new child.new ≡ beside self.old child.old }
        ensures went { went self.old self.new };

    /// Copies the lowest cell of a child that waits to be copied. It skips none. Where none waits,
    /// it tells the lowest one that is lost.
    fn child_copy(&mut self, child: &mut Self::Child) -> Result<Step, CopyFault>
        requires lives { IsTrue (lives (beside self.old child.old)) }
        ensures step { IfOk result (λ step. StepsNest (nested self.old child.old) (nested self.new child.new) step) }
        ensures fault { IfErr result (λ fault. FailsNest (nested self.old child.old) (nested self.new child.new) fault) }
        ensures keeps { KeepsSnapshot (nested self.old child.old) (nested self.new child.new) }
        ensures since { IsFoundSince (born (beside self.old child.old)) (refused (beside self.old child.old)) (nested self.new child.new) }
        ensures beside { beside self.new child.new ≡ beside self.old child.old }
        ensures went { went self.old self.new };

    ghost went_none: { (p : Self) → went p p };

    ghost went_on: { (p q r : Self) → went p q → went q r → went p r };
}

/// A child of a nest, as a snapshot that is read and copied.
#[derive(Drop)]
pub struct Nested<'n, 'c, N: Nest> {
    pub nest: &'n mut N,
    pub child: &'c mut N::Child,
    ghost lives: { IsTrue (N.lives (N.beside nest.now child.now)) },
}

impl<N: Nest> Frozen for Nested<'_, '_, N> {
    ghost use Rattle.std.specs.Borrow.{GName};

    ghost Aside = { N.Beside × (GName × GName) };

    ghost aside = { λ it. (N.beside it.nest.now it.child.now, (it.nest.ghost_name, it.child.ghost_name)) };

    ghost snapshot = { λ it. N.nested it.nest.now it.child.now };

    ghost went = { λ p q. N.went p.nest.now q.nest.now };

    ghost went_none = { λ p. N.went_none p.nest.now };

    ghost went_on = { λ p q r one two. N.went_on p.nest.now q.nest.now r.nest.now one two };

    fn read(&mut self, addr: u64, buf: &mut [u8]) -> Result<(), SnapFault> {
        self.nest.child_read(self.child, addr, buf)
    }
}

impl<N: Nest> Copying for Nested<'_, '_, N> {
    fn copy_next<G: Gate>(&mut self, _gate: &G) -> Result<Step, CopyFault> {
        self.nest.child_copy(self.child)
    }

    fn copy_left<G: Gate>(&mut self, _gate: &G) -> Result<Step, CopyFault> {
        self.nest.child_copy(self.child)
    }
}
