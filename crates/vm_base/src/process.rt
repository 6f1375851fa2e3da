//! A memory that forks: a child has the whole of it as it was at its fork.
ghost use Rattle.std.specs.Prelude.{◌≡◌, ℕ, Option, ◌+◌, ◌≤◌, ◌^◌, [], length, IfOk, OnOk, IfErr, OnErr, IfSome};
ghost use Rattle.vm_base.specs.FlatMemory.{FlatMemory};
ghost use Rattle.vm_base.specs.MemoryState.{MemoryState, IsKept, IsListed, KeepsReady};
ghost use Rattle.vm_base.specs.ProcessState.{Children, Remains, AreChildren, MayFork, ForkFails, LeavesMemory, LeavesAtReap, Reaps, HadRefusal, after_fork};

use crate::faults::{Fault, ForkFault};
use crate::fork_mode::Mode;
use crate::memory::Memory;

/// A process. What its children hold is read from what stands beside its memory and from the child,
/// so no call on the memory changes it.
pub trait Process: Memory {
    /// A snapshot that lives.
    type Child;

    /// What is left of a child that has ended, and is to be reaped.
    type Gone;

    /// What is read from what stands beside the memory: which process it is, its children, and
    /// what was kept for them.
    ghost Beside: { Type 0 };

    ghost beside: { Self → Beside };

    /// Which process it is, plain data.
    ghost Home: { Type 0 };

    /// It never changes.
    ghost home: { Beside → Home };

    /// The children that live, and the numbers given out.
    ghost children: { Beside → Children };

    /// The memory of a child.
    ghost kept: { Beside → Self.Child → FlatMemory };

    /// The refused requests of the process as the fork of the child returned, where it tells them.
    ghost born: { Beside → Self.Child → Option ℕ };

    ghost child_number: { Self.Child → ℕ };

    ghost child_home: { Self.Child → Home };

    ghost gone_home: { Self.Gone → Home };

    ghost remains: { Self.Gone → Remains };

    /// Copies the memory to a child, in one of three ways. A refused fork uses up no number.
    fn fork(&mut self, mode: Mode) -> Result<Self::Child, ForkFault>
        // The child has the memory whole, and the next number.
        ensures copy { IfOk result (λ child. kept (beside self.new) child ≡ (Self.state self.old).mem) }
        ensures child { IfOk result (λ child.
            (child_number child ≡ (children (beside self.old)).last + 1) × (child_home child ≡ home (beside self.old))) }
        ensures born { IfOk result (λ child.
            IfSome (born (beside self.new) child) (λ count. count ≡ (Self.state self.new).refused)) }
        ensures forked { OnOk result (MayFork (children (beside self.old))
            × (children (beside self.new) ≡ after_fork (children (beside self.old)))
            × ((Self.state self.new).refused ≡ (Self.state self.old).refused)) }

        // No child is there, and what could be stored to still can be.
        ensures fault { IfErr result
            (λ fault. ForkFails (children (beside self.old)) (Self.state self.old) (Self.state self.new) fault) }
        ensures failed { OnErr result ((children (beside self.new) ≡ children (beside self.old))
            × KeepsReady (Self.state self.old) (Self.state self.new)) }

        // The memory and the other children are as they were.
        ensures memory { LeavesMemory (Self.state self.old) (Self.state self.new) × IsKept (Self.state self.old) (Self.state self.new) [] }
        ensures others { (child : Self.Child) → IsListed (child_number child) (children (beside self.old)).numbers
            → child_home child ≡ home (beside self.old) → (kept (beside self.new) child ≡ kept (beside self.old) child)
            × (born (beside self.new) child ≡ born (beside self.old) child) }
        ensures home { (home (beside self.new) ≡ home (beside self.old)) × AreChildren (children (beside self.old)) }
        ensures went { Self.went self.old self.new };

    /// Gives back what was kept for a child that has ended.
    fn reap(&mut self, gone: Self::Gone)
        requires home { gone_home gone ≡ home (beside self.old) }
        requires lives { IsListed (remains gone).number (children (beside self.old)).numbers }
        ensures reaped { Reaps (children (beside self.old)) (children (beside self.new)) (remains gone).number }
        ensures memory { LeavesAtReap (Self.state self.old) (Self.state self.new) × IsKept (Self.state self.old) (Self.state self.new) [] }
        ensures enough { HadRefusal (remains gone)
            → IfSome (Self.state self.new).enough (λ enough. enough ≤ (Self.state self.new).most) }
        ensures others { (child : Self.Child) → IsListed (child_number child) (children (beside self.new)).numbers
            → child_home child ≡ home (beside self.old) → (kept (beside self.new) child ≡ kept (beside self.old) child)
            × (born (beside self.new) child ≡ born (beside self.old) child) }
        ensures home { (home (beside self.new) ≡ home (beside self.old)) × AreChildren (children (beside self.old)) }
        ensures went { Self.went self.old self.new };

    /// The number of a child.
    fn number(child: &Self::Child) -> u32
        ensures { result ≡ child_number child.now };

    /// How many children live.
    fn live(&self) -> u32
        ensures live { result ≡ (children (beside self.now)).live }
        ensures sound { AreChildren (children (beside self.now)) };

    /// The number that was given to a child last.
    fn last(&self) -> u32
        ensures last { result ≡ (children (beside self.now)).last }
        ensures sound { AreChildren (children (beside self.now)) };

    /// How many children may live at a time.
    fn limit(&self) -> u32
        ensures limit { result ≡ (children (beside self.now)).limit }
        ensures sound { AreChildren (children (beside self.now)) };

    /// It is read from there, so no call on the memory alone changes it.
    ghost beside_memory: { (p q : Self) → Self.Memory.aside p ≡ Self.Memory.aside q → beside p ≡ beside q };
}
