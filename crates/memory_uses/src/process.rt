//! Callers of a process.
ghost use Rattle.std.specs.Prelude.{◌≡◌, ◌+◌, ◌≤◌, ◌^◌, [], length, IfOk, OnOk, IfErr, OnErr, IsErrAnd, IfSome};
ghost use Rattle.vm_base.specs.Places.{cells_of_range};
ghost use Rattle.vm_base.specs.MemoryState.{IsKept, IsListed};
ghost use Rattle.vm_base.specs.ProcessState.{MayFork, ForkFails, LeavesMemory, LeavesAtReap, Reaps, HadRefusal, after_fork};
ghost use Rattle.memory_uses.specs.Written.{ForksAndWrites, RefusesFork};
ghost use Rattle.memory_uses.specs.Copied.{IsTooMany};

use crate::memory::write_at;
use vm_base::{ForkFault, Mode, Process};

/// Forks, and then writes to the memory. The child has the memory as it was before, and whether
/// the write was refused is not told.
pub fn fork_and_write<P: Process>(
    process: &mut P,
    addr: u64,
    bytes: &[u8],
) -> Result<P::Child, ForkFault>
    requires within { addr + length bytes.now ≤ 2 ^ 48 }
    requires few { length bytes.now ≤ 4194304 }
    ensures copy { IfOk result (λ child. P.kept (P.beside process.new) child ≡ (P.state process.old).mem) }
    ensures child { IfOk result (λ child.
        (P.child_number child ≡ (P.children (P.beside process.old)).last + 1) × (P.child_home child ≡ P.home (P.beside process.old))) }
    ensures born { IfOk result (λ child.
        IfSome (P.born (P.beside process.new) child) (λ count. count ≡ (P.state process.old).refused)) }
    ensures forked { OnOk result (MayFork (P.children (P.beside process.old))
        × (P.children (P.beside process.new) ≡ after_fork (P.children (P.beside process.old)))) }
    ensures written { OnOk result (ForksAndWrites (P.state process.old) (P.state process.new) addr bytes.now) }

    // No child is there, and nothing was written.
    ensures fault { IfErr result
        (λ fault. ForkFails (P.children (P.beside process.old)) (P.state process.old) (P.state process.new) fault) }
    ensures numbers { OnErr result (P.children (P.beside process.new) ≡ P.children (P.beside process.old)) }
    ensures memory { OnErr result ((P.state process.new).mem ≡ (P.state process.old).mem) }

    ensures keeps { IsKept (P.state process.old) (P.state process.new) (cells_of_range addr (length bytes.now)) }

    // The other children are as they were.
    ensures others { (child : P.Child) → IsListed (P.child_number child) (P.children (P.beside process.old)).numbers
        → P.child_home child ≡ P.home (P.beside process.old) → (P.kept (P.beside process.new) child ≡ P.kept (P.beside process.old) child)
        × (P.born (P.beside process.new) child ≡ P.born (P.beside process.old) child) }
    ensures home { P.home (P.beside process.new) ≡ P.home (P.beside process.old) }
    ensures went { P.went process.old process.new }
{
    let child = process.fork(Mode::OnDemand)?;
    let _written = write_at(process, addr, bytes);
    Ok(child)
}

/// Forks twice in a row. Where one child may live, the second fork is refused.
pub fn fork_twice<P: Process>(
    process: &mut P,
    mode: Mode,
) -> Result<(P::Child, Result<P::Child, ForkFault>), ForkFault>
    // Each child has the memory whole, and the next number.
    ensures first { IfOk result (λ pair. (P.child_number pair.0 ≡ (P.children (P.beside process.old)).last + 1)
        × (P.child_home pair.0 ≡ P.home (P.beside process.old)) × (P.kept (P.beside process.new) pair.0 ≡ (P.state process.old).mem)) }
    ensures second { IfOk result (λ pair. IfOk pair.1 (λ child. (P.child_number child ≡ (P.children (P.beside process.old)).last + 2)
        × (P.child_home child ≡ P.home (P.beside process.old)) × (P.kept (P.beside process.new) child ≡ (P.state process.old).mem)
        × (P.children (P.beside process.new) ≡ after_fork (after_fork (P.children (P.beside process.old)))))) }

    ensures refused { IfOk result (λ pair. IfErr pair.1 (λ fault. (P.children (P.beside process.new) ≡ after_fork (P.children (P.beside process.old)))
        × RefusesFork (after_fork (P.children (P.beside process.old))) (P.state process.old) (P.state process.new) fault)) }
    ensures one { IfOk result (λ pair. (P.children (P.beside process.old)).limit ≡ 1 → IsErrAnd pair.1 IsTooMany) }
    ensures fault { IfErr result (λ fault. (P.children (P.beside process.new) ≡ P.children (P.beside process.old))
        × ForkFails (P.children (P.beside process.old)) (P.state process.old) (P.state process.new) fault) }
    ensures memory { LeavesMemory (P.state process.old) (P.state process.new) × IsKept (P.state process.old) (P.state process.new) [] }

    // The children from before are as they were.
    ensures others { (child : P.Child) → IsListed (P.child_number child) (P.children (P.beside process.old)).numbers
        → P.child_home child ≡ P.home (P.beside process.old) → P.kept (P.beside process.new) child ≡ P.kept (P.beside process.old) child }
    ensures went { P.went process.old process.new }
{
    let first = process.fork(mode)?;
    let second = process.fork(mode);
    Ok((first, second))
}

/// Reaps what is left of a child. The memory is as it was, and one child fewer lives.
pub fn reap_one<P: Process>(process: &mut P, gone: P::Gone)
    requires home { P.gone_home gone ≡ P.home (P.beside process.old) }
    requires lives { IsListed (P.remains gone).number (P.children (P.beside process.old)).numbers }
    ensures memory { (P.state process.new).mem ≡ (P.state process.old).mem }
    ensures keeps { LeavesAtReap (P.state process.old) (P.state process.new) × IsKept (P.state process.old) (P.state process.new) [] }
    ensures live { (P.children (P.beside process.new)).live + 1 ≡ (P.children (P.beside process.old)).live }
    ensures reaped { Reaps (P.children (P.beside process.old)) (P.children (P.beside process.new)) (P.remains gone).number }
    ensures enough { HadRefusal (P.remains gone)
        → IfSome (P.state process.new).enough (λ enough. enough ≤ (P.state process.new).most) }

    // The other children are as they were.
    ensures others { (child : P.Child) → IsListed (P.child_number child) (P.children (P.beside process.new)).numbers
        → P.child_home child ≡ P.home (P.beside process.old) → (P.kept (P.beside process.new) child ≡ P.kept (P.beside process.old) child)
        × (P.born (P.beside process.new) child ≡ P.born (P.beside process.old) child) }
    ensures home { P.home (P.beside process.new) ≡ P.home (P.beside process.old) }
    ensures went { P.went process.old process.new }
{
    process.reap(gone);
}
