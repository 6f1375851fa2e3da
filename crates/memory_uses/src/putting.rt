//! A caller that makes all its touches before its first store, as the put of a new key does.
ghost use Rattle.std.specs.Prelude.{List, ◌≡◌, ℕ, ◌+◌, ◌≤◌, ◌^◌, ◌⊎◌, [], ◌∷◌, length, OnOk, IfErr, IsOk, Err};
ghost use Rattle.vm_base.specs.Places.{cells_of_range};
ghost use Rattle.vm_base.specs.MemoryState.{IsKept};
ghost use Rattle.vm_base.specs.MemoryCalls.{read_answer};
ghost use Rattle.memory_uses.specs.Steps.{StoresAll, TouchesFront, IsWithin, AreListed};

use vm_base::{Fault, Memory};

/// Reads the 24 bytes at a header, touches a block, a link and the header's fields, and then stores
/// in all three. Where a touch is refused nothing is stored, and the pages that were touched before
/// it stay present.
pub fn put_three<M: Memory>(
    memory: &mut M,
    block: u64,
    pair: &[u8],
    link: u64,
    word: &[u8],
    header: u64,
    fields: &[u8],
) -> Result<(), Fault>
    requires block { IsWithin block pair.now }
    requires link { IsWithin link word.now }
    requires header { IsWithin header fields.now × (header + 24 ≤ 2 ^ 48) }
    ensures stored { OnOk result (IsOk (read_answer (M.state memory.old).mem header 24)
        × StoresAll (M.state memory.old) (M.state memory.new) ((block, pair.now) ∷ (link, word.now) ∷ (header, fields.now) ∷ [])) }
    ensures failed { IfErr result (λ fault. ((read_answer (M.state memory.old).mem header 24 ≡ Err fault) × (M.state memory.new ≡ M.state memory.old))
        ⊎ TouchesFront (M.state memory.old) (M.state memory.new) ((block, pair.now) ∷ (link, word.now) ∷ (header, fields.now) ∷ []) fault) }
    ensures keeps { (cells : List ℕ) → AreListed (cells_of_range block (length pair.now)) cells → AreListed (cells_of_range link (length word.now)) cells
        → AreListed (cells_of_range header (length fields.now)) cells → IsKept (M.state memory.old) (M.state memory.new) cells }
    ensures aside { M.aside memory.new ≡ M.aside memory.old }
    ensures went { M.went memory.old memory.new }
{
    let mut found = [0; 24];
    memory.read(header, &mut found)?;
    touch_three(memory, block, pair, link, word, header, fields)
}

// The same behind the read.
fn touch_three<M: Memory>(
    memory: &mut M,
    block: u64,
    pair: &[u8],
    link: u64,
    word: &[u8],
    header: u64,
    fields: &[u8],
) -> Result<(), Fault>
    requires block { IsWithin block pair.now }
    requires link { IsWithin link word.now }
    requires header { IsWithin header fields.now }
    ensures stored { OnOk result (StoresAll (M.state memory.old) (M.state memory.new) ((block, pair.now) ∷ (link, word.now) ∷ (header, fields.now) ∷ [])) }
    ensures failed { IfErr result (λ fault.
        TouchesFront (M.state memory.old) (M.state memory.new) ((block, pair.now) ∷ (link, word.now) ∷ (header, fields.now) ∷ []) fault) }
    ensures keeps { (cells : List ℕ) → AreListed (cells_of_range block (length pair.now)) cells → AreListed (cells_of_range link (length word.now)) cells
        → AreListed (cells_of_range header (length fields.now)) cells → IsKept (M.state memory.old) (M.state memory.new) cells }
    ensures aside { M.aside memory.new ≡ M.aside memory.old }
    ensures went { M.went memory.old memory.new }
{
    memory.touch(block, pair.len() as u64)?;
    memory.touch(link, word.len() as u64)?;
    memory.touch(header, fields.len() as u64)?;
    memory.store(block, pair);
    memory.store(link, word);
    memory.store(header, fields);
    Ok(())
}
