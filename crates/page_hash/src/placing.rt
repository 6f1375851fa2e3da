//! The three ways of a put: in place, of a new key, and into another block.
ghost use Rattle.std.specs.Prelude.{◌≡◌, ◌^◌, ◌<◌, [], OnOk, IfErr};
ghost use Rattle.vm_base.specs.MemoryState.{IsKept};
ghost use Rattle.store_meaning.specs.Layout.{store_cells};
ghost use Rattle.store_meaning.specs.HashLayout.{Pairs, Store, IsStore, pair_size};
ghost use Rattle.store_meaning.specs.Standing.{IsStanding, MayHoldStore};
ghost use Rattle.page_heap.specs.HeapCalls.{IsPlanned, IsInUse};
ghost use Rattle.page_hash.specs.Puts.{FitsPair, Places, PlaceFails, IsFoundInPlace, IsFoundElsewhere, LacksKey, HasWords, MakesWordsReady, IsReadyForNew, IsReadyForMove, new_stored, linked_stored, moved_stored};

use crate::chain::Located;
use crate::layout::{HEAD, PAIRS_FIELD};
use crate::pair_stores::{store_pair, store_value};
use crate::search::Search;
use crate::touching::{touch_present, touch_range};
use crate::words::store_word;
use page_heap::{Plan, class_for, commit, free, plan};
use vm_base::{Memory, Refused};

// The header's address, and its bytes.
const HEADER: u64 = 2_097_152;

const HEADER_SIZE: u64 = 4096;

/// Sets the value of a pair whose block has the class already.
pub fn put_in_place<M: Memory>(
    m: &mut M,
    located: &Located,
    key: &[u8],
    value: &[u8],
) -> Result<(), Refused>
    requires stands { IsStanding (M.state m.old) }
    requires fits { FitsPair key.now value.now }
    requires found { (store : Store) (pairs : Pairs) → IsStore (M.state m.old).mem store pairs
        → IsFoundInPlace store key.now value.now located.now }
    ensures put { OnOk result (Places (M.state m.old) (M.state m.new) key.now value.now) }
    ensures refused { IfErr result (λ refused.
        PlaceFails (M.state m.old) (M.state m.new) key.now value.now refused.at) }
    ensures keeps { IsKept (M.state m.old) (M.state m.new) store_cells }
    ensures aside { M.aside m.new ≡ M.aside m.old }
    ensures went { M.went m.old m.new }
{
    let size = HEAD + key.len() + value.len();
    if let Err(refused) = touch_range(m, located.at, size as u64) {
        return Err(refused);
    }
    store_value(m, located.at, located.length, key.len() as u32, value);
    Ok(())
}

/// Puts a pair of a new key in front of its chain.
pub fn put_new<M: Memory>(
    m: &mut M,
    search: &Search,
    key: &[u8],
    value: &[u8],
) -> Result<(), Refused>
    requires stands { IsStanding (M.state m.old) }
    requires fits { FitsPair key.now value.now }
    requires lacks { (store : Store) (pairs : Pairs) → IsStore (M.state m.old).mem store pairs
        → LacksKey (M.state m.old).mem store key.now search.now }
    ensures put { OnOk result (Places (M.state m.old) (M.state m.new) key.now value.now) }
    ensures refused { IfErr result (λ refused.
        PlaceFails (M.state m.old) (M.state m.new) key.now value.now refused.at) }
    ensures keeps { IsKept (M.state m.old) (M.state m.new) store_cells }
    ensures aside { M.aside m.new ≡ M.aside m.old }
    ensures went { M.went m.old m.new }
{
    let size = HEAD + key.len() + value.len();
    let plan = plan(m, size as u32);
    if let Err(refused) = touch_range(m, plan.addr, size as u64) {
        return Err(refused);
    }
    if let Err(refused) = touch_range(m, search.bucket, 8) {
        return Err(refused);
    }
    touch_present(m, HEADER, HEADER_SIZE);
    store_new(m, &plan, search, key, value);
    Ok(())
}

// Takes the block of a plan, stores a pair there, and makes it the first one of its bucket.
fn store_new<M: Memory>(m: &mut M, plan: &Plan, search: &Search, key: &[u8], value: &[u8])
    requires planned { IsPlanned (M.state m.old) plan.now }
    requires fits { FitsPair key.now value.now }
    requires ready { IsReadyForNew (M.state m.old) plan.now search.now.bucket
        (pair_size key.now value.now) }
    requires count { search.now.head.pairs < 2 ^ 48 }
    ensures stored { M.state m.new
        ≡ new_stored (M.state m.old) plan.now search.now key.now value.now }
    ensures keeps { IsKept (M.state m.old) (M.state m.new) [] }
    ensures aside { M.aside m.new ≡ M.aside m.old }
    ensures went { M.went m.old m.new }
{
    commit(m, plan);
    store_pair(m, plan.addr, search.first, key, value);
    store_word(m, search.bucket, plan.addr);
    store_word(m, PAIRS_FIELD, search.head.pairs + 1);
}

/// Puts a pair of a key that has a block of another class into a new one, in the old one's place.
pub fn put_moved<M: Memory>(
    m: &mut M,
    located: &Located,
    key: &[u8],
    value: &[u8],
) -> Result<(), Refused>
    requires stands { IsStanding (M.state m.old) }
    requires fits { FitsPair key.now value.now }
    requires found { (store : Store) (pairs : Pairs) → IsStore (M.state m.old).mem store pairs
        → IsFoundElsewhere store key.now value.now located.now }
    ensures put { OnOk result (Places (M.state m.old) (M.state m.new) key.now value.now) }
    ensures refused { IfErr result (λ refused.
        PlaceFails (M.state m.old) (M.state m.new) key.now value.now refused.at) }
    ensures keeps { IsKept (M.state m.old) (M.state m.new) store_cells }
    ensures aside { M.aside m.new ≡ M.aside m.old }
    ensures went { M.went m.old m.new }
{
    let size = HEAD + key.len() + value.len();
    let plan = plan(m, size as u32);
    if let Err(refused) = touch_range(m, plan.addr, size as u64) {
        return Err(refused);
    }
    touch_words(m, located);
    let class = class_for((HEAD + key.len()) as u32 + located.length);
    store_moved(m, &plan, located, class, key, value);
    Ok(())
}

// Touches the word that names a block, the block's first word, and the header.
fn touch_words<M: Memory>(m: &mut M, located: &Located)
    requires may { MayHoldStore (M.state m.old) }
    requires words { HasWords (M.state m.old).mem located.now }
    ensures ready { MakesWordsReady (M.state m.old) (M.state m.new) located.now }
    ensures keeps { IsKept (M.state m.old) (M.state m.new) store_cells }
    ensures aside { M.aside m.new ≡ M.aside m.old }
    ensures went { M.went m.old m.new }
{
    touch_present(m, located.link, 8);
    touch_present(m, located.at, 8);
    touch_present(m, HEADER, HEADER_SIZE);
}

// Takes the block of a plan, stores a pair there, puts it into an old block's place in its chain,
// and gives the old one back.
fn store_moved<M: Memory>(
    m: &mut M,
    plan: &Plan,
    located: &Located,
    class: u8,
    key: &[u8],
    value: &[u8],
)
    requires planned { IsPlanned (M.state m.old) plan.now }
    requires fits { FitsPair key.now value.now }
    requires ready { IsReadyForMove (M.state m.old) plan.now located.now
        (pair_size key.now value.now) }
    requires used { IsInUse
        (linked_stored (M.state m.old) plan.now located.now key.now value.now).mem
        located.now.at class }
    ensures stored { M.state m.new
        ≡ moved_stored (M.state m.old) plan.now located.now class key.now value.now }
    ensures keeps { IsKept (M.state m.old) (M.state m.new) [] }
    ensures aside { M.aside m.new ≡ M.aside m.old }
    ensures went { M.went m.old m.new }
{
    commit(m, plan);
    store_pair(m, plan.addr, located.next, key, value);
    store_word(m, located.link, plan.addr);
    free(m, located.at, class);
}
