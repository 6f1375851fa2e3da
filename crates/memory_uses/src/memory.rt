//! Callers of a memory that touch before they store.
ghost use Rattle.std.specs.Prelude.{List, ◌≡◌, ℕ, ◌+◌, ◌≤◌, ◌^◌, [], ◌∷◌, length};
ghost use Rattle.std.specs.Prelude.{OnOk, OnErr, IfErr, Ok};
ghost use Rattle.vm_base.specs.Places.{cells_of_range};
ghost use Rattle.vm_base.specs.FlatStep.{write_of};
ghost use Rattle.vm_base.specs.MemoryState.{IsKept};
ghost use Rattle.vm_base.specs.MemoryCalls.{TouchFails};
ghost use Rattle.memory_uses.specs.Written.{Writes};
ghost use Rattle.memory_uses.specs.Steps.{StoresAll, TouchesFront, IsWithin, AreListed};

use vm_base::{Fault, Memory};

/// Touches a range and stores bytes there. It is refused where the touch is.
pub fn write_at<M: Memory>(memory: &mut M, addr: u64, bytes: &[u8]) -> Result<(), Fault>
    requires within { addr + length bytes.now ≤ 2 ^ 48 }
    requires few { length bytes.now ≤ 4194304 }
    ensures written { OnOk result
        (write_of (M.state memory.old).mem addr bytes.now ≡ Ok (M.state memory.new).mem) }
    ensures ready { OnOk result (Writes (M.state memory.old) (M.state memory.new) addr bytes.now) }

    // The touch was refused, and the memory is as it was.
    ensures cause { IfErr result
        (λ fault. TouchFails (M.state memory.old) (M.state memory.new) addr (length bytes.now) fault) }
    ensures fault { OnErr result ((M.state memory.new).mem ≡ (M.state memory.old).mem) }

    ensures keeps { IsKept (M.state memory.old) (M.state memory.new) (cells_of_range addr (length bytes.now)) }
    ensures aside { M.aside memory.new ≡ M.aside memory.old }
    ensures went { M.went memory.old memory.new }
{
    memory.touch(addr, bytes.len() as u64)?;
    memory.store(addr, bytes);
    Ok(())
}

/// Touches two ranges, and then stores bytes in both. Where a touch is refused nothing is stored.
pub fn write_both<M: Memory>(
    memory: &mut M,
    addr: u64,
    one: &[u8],
    second: u64,
    two: &[u8],
) -> Result<(), Fault>
    requires first { IsWithin addr one.now }
    requires second { IsWithin second two.now }
    ensures stored { OnOk result (StoresAll (M.state memory.old) (M.state memory.new)
        ((addr, one.now) ∷ (second, two.now) ∷ [])) }
    ensures failed { IfErr result (λ fault. TouchesFront (M.state memory.old) (M.state memory.new)
        ((addr, one.now) ∷ (second, two.now) ∷ []) fault) }
    ensures keeps { (cells : List ℕ) → AreListed (cells_of_range addr (length one.now)) cells
        → AreListed (cells_of_range second (length two.now)) cells
        → IsKept (M.state memory.old) (M.state memory.new) cells }
    ensures aside { M.aside memory.new ≡ M.aside memory.old }
    ensures went { M.went memory.old memory.new }
{
    memory.touch(addr, one.len() as u64)?;
    memory.touch(second, two.len() as u64)?;
    memory.store(addr, one);
    memory.store(second, two);
    Ok(())
}
