//! A caller that grows an array as a doubling does: a new one is mapped and touched in pieces, the
//! header is stored, and the old one is unmapped.
ghost use Rattle.std.specs.Prelude.{List, ◌≡◌, ℕ, ◌+◌, ◌*◌, ◌<◌, ◌≤◌, ◌^◌, length, OnOk, OnErr, IfErr};
ghost use Rattle.vm_base.specs.Places.{cells_of_range};
ghost use Rattle.vm_base.specs.MemoryState.{IsMemory, IsKept};
ghost use Rattle.memory_uses.specs.Steps.{IsWithin, AreListed};
ghost use Rattle.memory_uses.specs.Doubled.{TouchesPages, PagesFail, TouchesArray, ArrayFails, Grows, GrowFails, Doubles, DoublingFails};

use crate::undoing::take_back;
use vm_base::{Fault, Memory, Perm};

/// Maps an array, touches it in pieces and its header behind that, stores the header's fields, and
/// unmaps the old array last. Where a touch is refused, just the new array is unmapped again, and
/// the memory has the areas and pages that it had.
pub fn double<M: Memory>(
    memory: &mut M,
    array: u64,
    pages: u64,
    header: u64,
    fields: &[u8],
    old_array: u64,
    old_pages: u64,
) -> Result<(), Fault>
    requires array { (0 < pages) × (array + pages ≤ 2 ^ 36) }
    requires header { IsWithin header fields.now }
    requires old_array { (0 < old_pages) × (old_array + old_pages ≤ 2 ^ 36) }
    ensures doubled { OnOk result (Doubles (M.state memory.old) (M.state memory.new) array pages header fields.now old_array old_pages) }
    ensures failed { IfErr result
        (λ fault. DoublingFails (M.state memory.old) (M.state memory.new) array pages header fields.now old_array old_pages fault) }
    ensures keeps { (cells : List ℕ) → AreListed (cells_of_range (array * 4096) (pages * 4096)) cells
        → AreListed (cells_of_range header (length fields.now)) cells → IsKept (M.state memory.old) (M.state memory.new) cells }
    ensures aside { M.aside memory.new ≡ M.aside memory.old }
    ensures went { M.went memory.old memory.new }
{
    grow(memory, array, pages, header, fields.len() as u64)?;
    memory.store(header, fields);
    memory.unmap(old_array, old_pages)
}

// Maps an array and touches it with its header, or leaves the memory as it was.
fn grow<M: Memory>(
    memory: &mut M,
    array: u64,
    pages: u64,
    header: u64,
    size: u64,
) -> Result<(), Fault>
    requires array { (0 < pages) × (array + pages ≤ 2 ^ 36) }
    requires header { (header + size ≤ 2 ^ 48) × (size ≤ 4194304) }
    ensures grown { OnOk result (Grows (M.state memory.old) (M.state memory.new) array pages header size) }
    ensures failed { IfErr result (λ fault. GrowFails (M.state memory.old) (M.state memory.new) array pages header size fault) }
    ensures undone { OnErr result ((M.state memory.new).mem ≡ (M.state memory.old).mem) }
    ensures keeps { (cells : List ℕ) → AreListed (cells_of_range (array * 4096) (pages * 4096)) cells
        → AreListed (cells_of_range header size) cells → IsKept (M.state memory.old) (M.state memory.new) cells }
    ensures aside { M.aside memory.new ≡ M.aside memory.old }
    ensures went { M.went memory.old memory.new }
{
    memory.map(array, pages, Perm::ReadWrite)?;
    if let Err(fault) = touch_array(memory, array, pages, header, size) {
        take_back(memory, array, pages);
        return Err(fault);
    }
    Ok(())
}

// Touches an array in pieces, and then its header.
fn touch_array<M: Memory>(
    memory: &mut M,
    array: u64,
    pages: u64,
    header: u64,
    size: u64,
) -> Result<(), Fault>
    requires sound { IsMemory (M.state memory.old) }
    requires array { array + pages ≤ 2 ^ 36 }
    requires header { (header + size ≤ 2 ^ 48) × (size ≤ 4194304) }
    ensures touched { OnOk result (TouchesArray (M.state memory.old) (M.state memory.new) array pages header size) }
    ensures failed { IfErr result (λ fault. ArrayFails (M.state memory.old) (M.state memory.new) array pages header size fault) }
    ensures keeps { (cells : List ℕ) → AreListed (cells_of_range (array * 4096) (pages * 4096)) cells
        → AreListed (cells_of_range header size) cells → IsKept (M.state memory.old) (M.state memory.new) cells }
    ensures aside { M.aside memory.new ≡ M.aside memory.old }
    ensures went { M.went memory.old memory.new }
{
    touch_pages(memory, array, pages)?;
    memory.touch(header, size)
}

// Touches pages in pieces of at most 4,194,304 bytes, which are 1,024 pages.
fn touch_pages<M: Memory>(memory: &mut M, first: u64, pages: u64) -> Result<(), Fault>
    requires sound { IsMemory (M.state memory.old) }
    requires within { first + pages ≤ 2 ^ 36 }
    ensures touched { OnOk result (TouchesPages (M.state memory.old) (M.state memory.new) first pages) }
    ensures failed { IfErr result (λ fault. PagesFail (M.state memory.old) (M.state memory.new) first pages fault) }
    ensures keeps { IsKept (M.state memory.old) (M.state memory.new) (cells_of_range (first * 4096) (pages * 4096)) }
    ensures aside { M.aside memory.new ≡ M.aside memory.old }
    ensures went { M.went memory.old memory.new }
{
    let mut done: u64 = 0;
    while done < pages {
        let piece = (pages - done).min(1024);
        memory.touch((first + done) * 4096, piece * 4096)?;
        done += piece;
    }
    Ok(())
}
