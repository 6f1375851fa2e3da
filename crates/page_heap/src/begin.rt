//! The heap that begins.
ghost use Rattle.std.specs.Prelude.{◌≡◌, ℕ, max, [], ◌∷◌, OnOk, IfErr, None};
ghost use Rattle.std.specs.FinMap.{get};
ghost use Rattle.vm_base.specs.MemoryState.{IsKept};
ghost use Rattle.store_meaning.specs.Layout.{header_area, heap_area};
ghost use Rattle.store_meaning.specs.Standing.{MayBegin, BeginFails};
ghost use Rattle.page_heap.specs.HeapCalls.{Begins, with_areas};

use crate::layout::{HEADER, HEADER_PAGE, HEAP, HEAP_PAGE, HEAP_PAGES};
use crate::words::store_word;
use vm_base::{Fault, Memory, Perm};

/// Makes a heap without blocks in a memory without areas: maps the header's page and the heap, and
/// touches the header. After a refusal the memory has no area again.
pub fn init<M: Memory>(m: &mut M) -> Result<(), Fault>
    requires may { MayBegin (M.state m.old) }
    ensures begun { OnOk result (Begins (M.state m.old) (M.state m.new)) }
    ensures fault { IfErr result (λ fault. BeginFails (M.state m.old) (M.state m.new) fault) }
    ensures most { (M.state m.new).most ≡ max (M.state m.old).most 5 }
    ensures keeps { IsKept (M.state m.old) (M.state m.new) (1 ∷ []) }
    ensures aside { M.aside m.new ≡ M.aside m.old }
    ensures went { M.went m.old m.new }
{
    map_areas(m);
    if let Err(fault) = m.touch(HEADER, 4096) {
        unmap_areas(m);
        return Err(fault);
    }
    store_word(m, HEADER, HEAP);
    Ok(())
}

// Makes the areas of the header and of the heap. There was none, so neither is refused.
fn map_areas<M: Memory>(m: &mut M)
    requires empty { (M.state m.old).mem.areas ≡ [] }
    ensures mapped { M.state m.new ≡ with_areas (M.state m.old) (header_area ∷ heap_area ∷ []) }
    ensures keeps { IsKept (M.state m.old) (M.state m.new) [] }
    ensures aside { M.aside m.new ≡ M.aside m.old }
    ensures went { M.went m.old m.new }
{
    let _header = m.map(HEADER_PAGE, 1, Perm::ReadWrite);
    let _heap = m.map(HEAP_PAGE, HEAP_PAGES, Perm::ReadWrite);
}

// Takes both areas out again. No page of them is present, and the one left is too few to refuse.
fn unmap_areas<M: Memory>(m: &mut M)
    requires areas { (M.state m.old).mem.areas ≡ header_area ∷ heap_area ∷ [] }
    requires absent { (page : ℕ) → get (M.state m.old).mem.present page ≡ None }
    ensures undone { (M.state m.new).mem ≡ record (M.state m.old).mem { areas = [] } }
    ensures most { (M.state m.new).most ≡ (M.state m.old).most }
    ensures keeps { IsKept (M.state m.old) (M.state m.new) [] }
    ensures aside { M.aside m.new ≡ M.aside m.old }
    ensures went { M.went m.old m.new }
{
    let _heap = m.unmap(HEAP_PAGE, HEAP_PAGES);
    let _header = m.unmap(HEADER_PAGE, 1);
}
