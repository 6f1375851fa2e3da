//! A process whose children lie in the same value.
ghost use Rattle.std.specs.Prelude.{◌≡◌, ℕ, ◌<◌, ◌≤◌, ◌↔◌, ◌⊎◌, IsTrue, IfSome, Some, None};
ghost use Rattle.std.specs.FinMap.{get};
ghost use Rattle.vm_base.specs.Counts.{next_count};
ghost use Rattle.vm_base.specs.FlatMemory.{cells_of};
ghost use Rattle.vm_base.specs.MemoryState.{IsIn, IsListed};
ghost use Rattle.vm_base.specs.SnapshotState.{GoesOn, IsFoundSince};

use crate::memory::Memory;
use crate::nest::Nest;
use crate::process::Process;

/// A process that is the nest of its own children. Its laws say what the two have to do with each
/// other: reading and copying a child changes nothing of the process.
pub trait Housing: Process + Nest<Child = <Self as Process>::Child> {
    /// What stands beside a child has all that the process tells of its memory and of itself.
    ghost state_beside: { (p q : Self) (c d : Self.Child) → Self.Nest.beside p c ≡ Self.Nest.beside q d
        → Self.Memory.state p ≡ Self.Memory.state q };

    ghost aside_beside: { (p q : Self) (c d : Self.Child) → Self.Nest.beside p c ≡ Self.Nest.beside q d
        → Self.Memory.aside p ≡ Self.Memory.aside q };

    /// It has the child's number and home too.
    ghost child_beside: { (p q : Self) (c d : Self.Child) → Self.Nest.beside p c ≡ Self.Nest.beside q d
        → (Self.Process.child_number c ≡ Self.Process.child_number d) × (Self.Process.child_home c ≡ Self.Process.child_home d) };

    /// The count that bounds those of lost cells is that of the process.
    ghost refused_beside: { (p : Self) (c : Self.Child)
        → Self.Nest.refused (Self.Nest.beside p c) ≡ (Self.Memory.state p).refused };

    ghost born_beside: { (p : Self) (c : Self.Child)
        → Self.Process.born (Self.Process.beside p) c ≡ Some (Self.Nest.born (Self.Nest.beside p c)) };

    /// A child reads as the memory that was kept for it.
    ghost kept_nested: { (p : Self) (c : Self.Child)
        → (Self.Nest.nested p c).mem ≡ Self.Process.kept (Self.Process.beside p) c };

    /// At each moment a cell that a child has lost was lost behind its fork.
    ghost found_since: { (p : Self) (c : Self.Child) → IsTrue (Self.Nest.lives (Self.Nest.beside p c))
        → IsFoundSince (Self.Nest.born (Self.Nest.beside p c)) (Self.Nest.refused (Self.Nest.beside p c)) (Self.Nest.nested p c) };

    /// A slot is used by a cell of the process or of a child that lives, and by no other.
    ghost used_there: { (p : Self) (cell : ℕ) → IsIn cell (Self.Memory.state p).used
        → ∥ IsListed cell (cells_of (Self.Memory.state p).mem)
        ⊎ ((c : Self.Child) × (IsTrue (Self.Nest.lives (Self.Nest.beside p c)) × IsListed cell (cells_of (Self.Nest.nested p c).mem))) ∥₁ };

    /// What calls on a child make of the process is what calls on the process make of it.
    ghost went_nest: { (p q : Self) → Self.Nest.went p q → Self.Memory.went p q };

    /// Whatever calls are made on the process and on its children, what is told of a child that
    /// lives goes on.
    ghost went_child: { (p q : Self) (c : Self.Child) → Self.Memory.went p q
        → IsTrue (Self.Nest.lives (Self.Nest.beside p c)) → IsTrue (Self.Nest.lives (Self.Nest.beside q c))
        → GoesOn (Self.Nest.nested p c) (Self.Nest.nested q c) };

    /// A cell that a child was found to have lost since was lost at a count above the one before.
    ghost lost_since: { (p q : Self) (c : Self.Child) → Self.Memory.went p q
        → IsTrue (Self.Nest.lives (Self.Nest.beside p c)) → IsTrue (Self.Nest.lives (Self.Nest.beside q c)) → (cell at : ℕ)
        → get (Self.Nest.nested p c).found cell ≡ None → get (Self.Nest.nested q c).found cell ≡ Some at
        → next_count (Self.Memory.state p).refused ≤ at };

    /// Each cell of a child that lives uses a slot.
    ghost used_kept: { (p : Self) (c : Self.Child) (cell : ℕ) → IsTrue (Self.Nest.lives (Self.Nest.beside p c))
        → IsListed cell (cells_of (Self.Nest.nested p c).mem) → IsIn cell (Self.Memory.state p).used };

    /// Where it is told how many frames are enough, a copy is refused only once the process had as
    /// many.
    ghost copies_reached: { (p : Self) (c : Self.Child) → IsTrue (Self.Nest.lives (Self.Nest.beside p c))
        → 0 < (Self.Nest.nested p c).refused → IfSome (Self.Memory.state p).enough (λ enough. enough ≤ (Self.Memory.state p).most) };

    /// A child lives where its number does, in the process of its home.
    ghost lives_numbered: { (p : Self) (c : Self.Child)
        → (IsTrue (Self.Nest.lives (Self.Nest.beside p c)))
        ↔ (IsListed (Self.Process.child_number c) (Self.Process.children (Self.Process.beside p)).numbers
        × (Self.Process.child_home c ≡ Self.Process.home (Self.Process.beside p))) };
}
