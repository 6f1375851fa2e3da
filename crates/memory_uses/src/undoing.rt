//! Callers that take back what they mapped where a later call is refused.
ghost use Rattle.std.specs.Prelude.{◌≡◌, ◌+◌, ◌*◌, ◌<◌, ◌≤◌, ◌^◌, [], ◌∷◌, OnOk, OnErr, IfErr};
ghost use Rattle.vm_base.specs.Places.{cells_of_range};
ghost use Rattle.vm_base.specs.FlatMemory.{FlatMemory};
ghost use Rattle.vm_base.specs.MemoryState.{IsKept};
ghost use Rattle.memory_uses.specs.Steps.{IsMappedInto, MapsThenTouches, MapsOrTouchFails, MapsAndProtects, ProtectFails};

use vm_base::{Fault, Memory, Perm};

/// Unmaps the pages that were mapped last. It is never refused there.
pub fn take_back<M: Memory>(memory: &mut M, first: u64, pages: u64)
    requires some { 0 < pages }
    requires within { first + pages ≤ 2 ^ 36 }
    ensures undone { (before : FlatMemory) → IsMappedInto before (M.state memory.old).mem first pages
        → (M.state memory.new).mem ≡ before }
    ensures most { (M.state memory.new).most ≡ (M.state memory.old).most }
    ensures keeps { IsKept (M.state memory.old) (M.state memory.new) [] }
    ensures aside { M.aside memory.new ≡ M.aside memory.old }
    ensures went { M.went memory.old memory.new }
{
    let _undone = memory.unmap(first, pages);
}

/// Maps pages and then gives them a permission. They are unmapped where it is refused.
pub fn map_and_protect<M: Memory>(
    memory: &mut M,
    first: u64,
    pages: u64,
    perm: Perm,
) -> Result<(), Fault>
    requires some { 0 < pages }
    requires within { first + pages ≤ 2 ^ 36 }
    ensures protected { OnOk result (MapsAndProtects (M.state memory.old).mem (M.state memory.new).mem first pages perm) }
    ensures fault { IfErr result (λ fault. ProtectFails (M.state memory.old).mem first pages perm fault) }
    ensures undone { OnErr result ((M.state memory.new).mem ≡ (M.state memory.old).mem) }
    ensures most { (M.state memory.new).most ≡ (M.state memory.old).most }
    ensures keeps { IsKept (M.state memory.old) (M.state memory.new) [] }
    ensures aside { M.aside memory.new ≡ M.aside memory.old }
    ensures went { M.went memory.old memory.new }
{
    memory.map(first, pages, Perm::ReadWrite)?;
    if let Err(fault) = memory.protect(first, pages, perm) {
        take_back(memory, first, pages);
        return Err(fault);
    }
    Ok(())
}

/// Maps an area for a header, one for a heap and one for an array, and touches the header last.
/// Where a call is refused, no area is left that was not there before.
pub fn begin<M: Memory>(
    memory: &mut M,
    header: u64,
    heap: u64,
    heap_pages: u64,
    array: u64,
    array_pages: u64,
) -> Result<(), Fault>
    requires header { header + 1 ≤ 2 ^ 36 }
    requires heap { (0 < heap_pages) × (heap + heap_pages ≤ 2 ^ 36) }
    requires array { (0 < array_pages) × (array + array_pages ≤ 2 ^ 36) }
    ensures begun { OnOk result (MapsThenTouches (M.state memory.old) (M.state memory.new) ((header, 1) ∷ (heap, heap_pages) ∷ (array, array_pages) ∷ []) (header * 4096) 4096) }
    ensures fault { IfErr result (λ fault.
        MapsOrTouchFails (M.state memory.old) (M.state memory.new) ((header, 1) ∷ (heap, heap_pages) ∷ (array, array_pages) ∷ []) (header * 4096) 4096 fault) }
    ensures undone { OnErr result ((M.state memory.new).mem ≡ (M.state memory.old).mem) }
    ensures keeps { IsKept (M.state memory.old) (M.state memory.new) (cells_of_range (header * 4096) 4096) }
    ensures aside { M.aside memory.new ≡ M.aside memory.old }
    ensures went { M.went memory.old memory.new }
{
    memory.map(header, 1, Perm::ReadWrite)?;
    if let Err(fault) = begin_heap(memory, header, heap, heap_pages, array, array_pages) {
        take_back(memory, header, 1);
        return Err(fault);
    }
    Ok(())
}

// The same from the heap on.
fn begin_heap<M: Memory>(
    memory: &mut M,
    header: u64,
    heap: u64,
    heap_pages: u64,
    array: u64,
    array_pages: u64,
) -> Result<(), Fault>
    requires header { header + 1 ≤ 2 ^ 36 }
    requires heap { (0 < heap_pages) × (heap + heap_pages ≤ 2 ^ 36) }
    requires array { (0 < array_pages) × (array + array_pages ≤ 2 ^ 36) }
    ensures begun { OnOk result (MapsThenTouches (M.state memory.old) (M.state memory.new) ((heap, heap_pages) ∷ (array, array_pages) ∷ []) (header * 4096) 4096) }
    ensures fault { IfErr result (λ fault.
        MapsOrTouchFails (M.state memory.old) (M.state memory.new) ((heap, heap_pages) ∷ (array, array_pages) ∷ []) (header * 4096) 4096 fault) }
    ensures undone { OnErr result ((M.state memory.new).mem ≡ (M.state memory.old).mem) }
    ensures keeps { IsKept (M.state memory.old) (M.state memory.new) (cells_of_range (header * 4096) 4096) }
    ensures aside { M.aside memory.new ≡ M.aside memory.old }
    ensures went { M.went memory.old memory.new }
{
    memory.map(heap, heap_pages, Perm::ReadWrite)?;
    if let Err(fault) = begin_array(memory, header, array, array_pages) {
        take_back(memory, heap, heap_pages);
        return Err(fault);
    }
    Ok(())
}

// The same from the array on.
fn begin_array<M: Memory>(
    memory: &mut M,
    header: u64,
    array: u64,
    array_pages: u64,
) -> Result<(), Fault>
    requires header { header + 1 ≤ 2 ^ 36 }
    requires array { (0 < array_pages) × (array + array_pages ≤ 2 ^ 36) }
    ensures begun { OnOk result (MapsThenTouches (M.state memory.old) (M.state memory.new) ((array, array_pages) ∷ []) (header * 4096) 4096) }
    ensures fault { IfErr result (λ fault.
        MapsOrTouchFails (M.state memory.old) (M.state memory.new) ((array, array_pages) ∷ []) (header * 4096) 4096 fault) }
    ensures undone { OnErr result ((M.state memory.new).mem ≡ (M.state memory.old).mem) }
    ensures keeps { IsKept (M.state memory.old) (M.state memory.new) (cells_of_range (header * 4096) 4096) }
    ensures aside { M.aside memory.new ≡ M.aside memory.old }
    ensures went { M.went memory.old memory.new }
{
    memory.map(array, array_pages, Perm::ReadWrite)?;
    if let Err(fault) = memory.touch(header * 4096, 4096) {
        take_back(memory, array, array_pages);
        return Err(fault);
    }
    Ok(())
}
