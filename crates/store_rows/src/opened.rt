//! Memories in which a store has begun.
ghost use Rattle.std.specs.Prelude.{◌≡◌, ◌≤◌, ◌∷◌, [], IfErr, IfOk};
ghost use Rattle.vm_base.specs.MemoryState.{IsKept};
ghost use Rattle.flat_memory.specs.FlatSeen.{opening_flat_memory};
ghost use Rattle.page_hash.specs.HashCalls.{BeginsStore};
ghost use Rattle.store_meaning.specs.Standing.{IsStanding, MayBegin};
ghost use Rattle.store_rows.specs.Openings.{OpeningFails, StartFails};

use flat_memory::Flat;
use page_hash::begin;
use std::alloc::Global;
use vm_base::{Fault, Memory, NoMemory};

/// The slots of a kernel under a store: one for each cell of its regions.
pub const STORE_CELLS: u32 = 386;

/// Why no store began.
#[derive(Clone, Copy, Debug, PartialEq, Eq)]
pub enum NoStore {
    /// There was no memory for the pages.
    NoMemory,
    /// The memory refused a frame for the page of the header.
    Refused(Fault),
}

impl From<NoMemory> for NoStore {
    ghost use Rattle.store_rows.specs.declared.opened.NoStore.TheVariants as no_store;

    ghost from_gives = { λ _ error. error ≡ no_store.NoMemory };

    fn from(_refused: NoMemory) -> NoStore {
        NoStore::NoMemory
    }
}

/// A store without pairs in a memory without areas. The memory is gone where it refused a frame.
pub fn store_in<M: Memory + Drop>(mut memory: M) -> Result<M, Fault>
    requires may { MayBegin (M.state memory) }
    ensures begun { IfOk result (λ store. BeginsStore (M.state memory) (M.state store)) }
    ensures stands { IfOk result (λ store. IsStanding (M.state store)) }
    ensures keeps { IfOk result (λ store. IsKept (M.state memory) (M.state store) (1 ∷ [])) }
    ensures fault { IfErr result StartFails }
    ensures aside { IfOk result (λ store. M.aside store ≡ M.aside memory) }
    ensures went { IfOk result (λ store. M.went memory store) }
{
    begin(&mut memory)?;
    Ok(memory)
}

/// A store without pairs in a flat memory with room for so many pages.
pub fn flat_store(alloc: Global, pages: u32) -> Result<Flat, NoStore>
    requires room { pages ≤ 65536 }
    ensures begun { IfOk result (λ flat.
        BeginsStore (opening_flat_memory pages) (⟦<Flat as Memory>⟧.state flat)) }
    ensures stands { IfOk result (λ flat. IsStanding (⟦<Flat as Memory>⟧.state flat)) }
    ensures keeps { IfOk result (λ flat.
        IsKept (opening_flat_memory pages) (⟦<Flat as Memory>⟧.state flat) (1 ∷ [])) }
    ensures fault { IfErr result OpeningFails }
{
    let flat = Flat::new(alloc, pages, 0)?;
    match store_in(flat) {
        Ok(store) => Ok(store),
        Err(fault) => Err(NoStore::Refused(fault)),
    }
}
