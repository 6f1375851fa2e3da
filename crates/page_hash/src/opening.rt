//! The table that begins.
ghost use Rattle.std.specs.Prelude.{◌≡◌, max, [], ◌∷◌, OnOk, IfErr};
ghost use Rattle.vm_base.specs.MemoryState.{IsKept};
ghost use Rattle.store_meaning.specs.Standing.{MayBegin, BeginFails};
ghost use Rattle.page_hash.specs.HashCalls.{BeginsStore};

use crate::layout::{ARRAY, ARRAY_FIELD, ARRAY_PAGE, BUCKETS, BUCKETS_FIELD};
use crate::words::store_word;
use page_heap::init;
use vm_base::{Fault, Memory, Perm};

/// Makes the empty table in a memory without areas. After a refusal the memory has no area.
pub fn begin<M: Memory>(m: &mut M) -> Result<(), Fault>
    requires may { MayBegin (M.state m.old) }
    ensures begun { OnOk result (BeginsStore (M.state m.old) (M.state m.new)) }
    ensures fault { IfErr result (λ fault. BeginFails (M.state m.old) (M.state m.new) fault) }
    ensures most { (M.state m.new).most ≡ max (M.state m.old).most 5 }
    ensures keeps { IsKept (M.state m.old) (M.state m.new) (1 ∷ []) }
    ensures aside { M.aside m.new ≡ M.aside m.old }
    ensures went { M.went m.old m.new }
{
    if let Err(fault) = init(m) {
        return Err(fault);
    }
    // One page more, where there was no area: it is not refused, and takes no frame until a put.
    let _array = m.map(ARRAY_PAGE, 1, Perm::ReadWrite);
    store_word(m, ARRAY_FIELD, ARRAY);
    store_word(m, BUCKETS_FIELD, BUCKETS);
    Ok(())
}
