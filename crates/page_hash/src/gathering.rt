//! The pairs of a snapshot, bucket by bucket.
ghost use Rattle.std.specs.Prelude.{◌≡◌, ◌+◌, ◌%◌, ◌≤◌, ◌^◌, IfOk, IfErr, OnOk, Contains, List, map};
ghost use Rattle.std.specs.List.{flat_map};
ghost use Rattle.vm_base.specs.SnapshotState.{KeepsSnapshot};
ghost use Rattle.store_meaning.specs.Layout.{heap_area};
ghost use Rattle.store_meaning.specs.HashLayout.{Entry, Store, Pairs, IsStore, StandsForMap, entry_pair, entries_of};
ghost use Rattle.store_meaning.specs.StoreSteps.{entry_cells};
ghost use Rattle.page_hash.specs.HashCalls.{IsOfArea};
ghost use Rattle.page_hash.specs.Walks.{IsChainFrom, HasChain};
ghost use Rattle.page_hash.specs.Listing.{ListsNoLost, PairsFail, StopsAmong};
ghost use Rattle.page_hash.specs.Chains.{pair_seen, IsChainRead, AreChainsOf, HasChains, IsPartRead, part_cells};

use crate::block_read::read_block;
use crate::found::PairsFault;
use crate::frozen_reads::read_frozen;
use crate::layout::ARRAY_FIELD;
use byteorder::{BigEndian, ByteOrder};
use std::alloc::Global;
use vm_base::Frozen;

/// A pair as it was read.
#[derive(Debug, Drop)]
pub struct Pair {
    pub key: Vec<u8>,
    pub value: Vec<u8>,
}

// Adds the pairs of a chain, from its front. There are no more blocks in it than pairs, and so it
// ends.
fn add_chain<Z: Frozen>(
    alloc: Global,
    z: &mut Z,
    first: u64,
    most: u64,
    pairs: &mut Vec<Pair>,
) -> Result<(), PairsFault>
    requires chain { Contains (Z.snapshot z.old).mem.areas heap_area
        × HasChain (Z.snapshot z.old).mem first most }
    requires sound { KeepsSnapshot (Z.snapshot z.old) (Z.snapshot z.old) }
    ensures read { OnOk result ((chain : List Entry)
        → IsChainFrom (Z.snapshot z.old).mem first chain
        → IsChainRead (Z.snapshot z.old) chain pairs.old.items pairs.new.items) }
    ensures lost { IfErr result (λ fault.
        (chain : List Entry) → IsChainFrom (Z.snapshot z.old).mem first chain
        → StopsAmong (Z.snapshot z.old) (Z.snapshot z.new) (flat_map entry_cells chain) fault) }
    ensures keeps { KeepsSnapshot (Z.snapshot z.old) (Z.snapshot z.new) }
    ensures uncounted { (Z.snapshot z.new).refused ≡ (Z.snapshot z.old).refused }
    ensures aside { Z.aside z.new ≡ Z.aside z.old }
    ensures went { Z.went z.old z.new }
{
    let mut at = first;
    let mut left = most;
    while at != 0 {
        let block = read_block(alloc, z, at)?;
        pairs.push(Pair {
            key: block.key,
            value: block.value,
        })?;
        at = block.next;
        left -= 1;
    }
    Ok(())
}

// Adds the pairs of the 512 buckets of a page, which one read tells.
fn add_page<Z: Frozen>(
    alloc: Global,
    z: &mut Z,
    page: u64,
    most: u64,
    pairs: &mut Vec<Pair>,
) -> Result<(), PairsFault>
    requires page { IsOfArea (Z.snapshot z.old).mem page 4096
        × ((page % 4096 ≡ 0) × (page + 4096 ≤ 2 ^ 48)) }
    requires chains { Contains (Z.snapshot z.old).mem.areas heap_area
        × HasChains (Z.snapshot z.old).mem page 512 most }
    ensures read { OnOk result ((chains : List (List Entry))
        → AreChainsOf (Z.snapshot z.old).mem page 512 chains
        → IsPartRead (Z.snapshot z.old) page chains pairs.old.items pairs.new.items) }
    ensures lost { IfErr result (λ fault. (chains : List (List Entry))
        → AreChainsOf (Z.snapshot z.old).mem page 512 chains
        → StopsAmong (Z.snapshot z.old) (Z.snapshot z.new) (part_cells page chains) fault) }
    ensures keeps { KeepsSnapshot (Z.snapshot z.old) (Z.snapshot z.new) }
    ensures uncounted { (Z.snapshot z.new).refused ≡ (Z.snapshot z.old).refused }
    ensures aside { Z.aside z.new ≡ Z.aside z.old }
    ensures went { Z.went z.old z.new }
{
    let mut words = [0; 4096];
    read_frozen(z, page, &mut words)?;
    for bucket in 0..512 {
        let first = BigEndian::read_u64(&words[8 * bucket..]);
        add_chain(alloc, z, first, most, pairs)?;
    }
    Ok(())
}

// All pairs, in the order in which they stand in the buckets and their chains.
pub fn gathered<Z: Frozen>(alloc: Global, z: &mut Z) -> Result<Vec<Pair>, PairsFault>
    requires stands { (pairs : Pairs) × StandsForMap (Z.snapshot z.old).mem pairs }
    ensures pairs { IfOk result (λ pairs.
        (store : Store) (of : Pairs) → IsStore (Z.snapshot z.old).mem store of
        → map pair_seen pairs.items ≡ map entry_pair (entries_of store.table)) }
    ensures whole { OnOk result (ListsNoLost (Z.snapshot z.old)) }
    ensures lost { IfErr result (λ fault. PairsFail (Z.snapshot z.old) (Z.snapshot z.new) fault) }
    ensures keeps { KeepsSnapshot (Z.snapshot z.old) (Z.snapshot z.new) }
    ensures uncounted { (Z.snapshot z.new).refused ≡ (Z.snapshot z.old).refused }
    ensures aside { Z.aside z.new ≡ Z.aside z.old }
    ensures went { Z.went z.old z.new }
{
    let mut fields = [0; 24];
    read_frozen(z, ARRAY_FIELD, &mut fields)?;
    let array = BigEndian::read_u64(&fields);
    let buckets = BigEndian::read_u64(&fields[8..]);
    let most = BigEndian::read_u64(&fields[16..]);
    let mut pairs = Vec::new(alloc);
    for page in 0..buckets / 512 {
        add_page(alloc, z, array + 4096 * page, most, &mut pairs)?;
    }
    Ok(pairs)
}
