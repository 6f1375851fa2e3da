//! Callers that take blocks of a heap and give them back.
ghost use Rattle.std.specs.Prelude.{◌≡◌, ℕ, ◌+◌, ◌-◌, ◌^◌, ◌≤◌, ◌<◌, [], ◌∷◌, IfOk, OnOk, IfErr};
ghost use Rattle.store_meaning.specs.Layout.{class_of, header_at, heap_at};
ghost use Rattle.store_meaning.specs.HeapLayout.{Heap, IsHeap, next_at, committed, freed};
ghost use Rattle.store_meaning.specs.Standing.{MayBegin};
ghost use Rattle.page_heap.specs.HeapCalls.{HasHeap, IsInUse, HasInUse};
ghost use Rattle.store_uses.specs.HeapUses.{FailsOfTwo};

use page_heap::{commit, free, init, plan};
use vm_base::{Fault, Memory};

const HEADER: u64 = 2_097_152;

/// Takes a block of a size, and answers where it lies. Its first half is touched.
pub fn take<M: Memory>(m: &mut M, size: u32) -> Result<u64, Fault>
    requires heap { HasHeap (M.state m.old) }
    requires size { (0 < size) × (size ≤ 2097152) }
    ensures taken { IfOk result (λ at. (heap : Heap) → IsHeap (M.state m.old).mem heap
        → (at ≡ next_at heap (class_of size))
        × IsHeap (M.state m.new).mem (committed heap (class_of size))) }

    // The touch of that block's half was refused, or the header's behind it. Nothing is stored.
    ensures refused { IfErr result (λ fault. (heap : Heap) → IsHeap (M.state m.old).mem heap
        → FailsOfTwo (M.state m.old) (M.state m.new) (next_at heap (class_of size))
        (2 ^ (class_of size - 1)) header_at 4096 fault) }
    ensures room { (M.state m.new).room ≡ (M.state m.old).room }
{
    let plan = plan(m, size);
    m.touch(plan.addr, 1 << (plan.class - 1))?;
    m.touch(HEADER, 4096)?;
    commit(m, &plan);
    Ok(plan.addr)
}

/// Gives a block in use back.
pub fn give<M: Memory>(m: &mut M, addr: u64, class: u8) -> Result<(), Fault>
    requires used { IsInUse (M.state m.old).mem addr class }
    ensures given { OnOk result ((heap : Heap) → IsHeap (M.state m.old).mem heap
        → HasInUse heap addr class
        → IsHeap (M.state m.new).mem (freed heap addr class)) }
    ensures refused { IfErr result (λ fault.
        FailsOfTwo (M.state m.old) (M.state m.new) addr 8 header_at 4096 fault) }
    ensures room { (M.state m.new).room ≡ (M.state m.old).room }
{
    m.touch(addr, 8)?;
    m.touch(HEADER, 4096)?;
    free(m, addr, class);
    Ok(())
}

/// Takes a block and one of another class, gives the first one back and takes one of its class:
/// that is the first one again.
pub fn again<M: Memory>(m: &mut M) -> Result<[u64; 3], Fault>
    requires may { MayBegin (M.state m.old) }
    ensures { IfOk result (λ places. places ≡ heap_at ∷ (heap_at + 32) ∷ heap_at ∷ []) }
{
    init(m)?;
    let first = take(m, 18)?;
    let second = take(m, 33)?;
    give(m, first, 5)?;
    let third = take(m, 32)?;
    Ok([first, second, third])
}
