//! A block of a snapshot, read by two reads.
ghost use Rattle.std.specs.Prelude.{◌≡◌, ◌+◌, ◌≤◌, ◌^◌, length, take, drop, Contains, IfOk, IfErr};
ghost use Rattle.vm_base.specs.Places.{cells_of_range};
ghost use Rattle.vm_base.specs.SnapshotState.{KeepsSnapshot};
ghost use Rattle.store_meaning.specs.Layout.{heap_area};
ghost use Rattle.store_meaning.specs.HashLayout.{Entry};
ghost use Rattle.store_meaning.specs.StoreSteps.{entry_cells};
ghost use Rattle.page_hash.specs.HashCalls.{IsOfArea};
ghost use Rattle.page_hash.specs.Walks.{IsBlockOf};
ghost use Rattle.page_hash.specs.Listing.{IsRead, StopsAmong, wants_memory};
ghost use Rattle.page_hash.specs.Blocks.{IsHeadRead, IsBlockRead};

use crate::found::PairsFault;
use crate::frozen_reads::read_frozen;
use crate::layout::HEAD;
use byteorder::{BigEndian, ByteOrder};
use std::alloc::Global;
use vm_base::Frozen;

/// A pair of a snapshot, and the next block's address.
#[derive(Debug, Drop)]
pub struct BlockRead {
    pub next: u64,
    pub key: Vec<u8>,
    pub value: Vec<u8>,
}

/// What the head of a block says: the next one's address and two lengths.
#[derive(Clone, Copy, Debug)]
pub struct BlockHead {
    pub next: u64,
    pub key_length: u32,
    pub value_length: u32,
}

// Reads the head of a block.
pub fn read_head<Z: Frozen>(z: &mut Z, at: u64) -> Result<BlockHead, PairsFault>
    requires heap { Contains (Z.snapshot z.old).mem.areas heap_area }
    requires block { (entry : Entry) × IsBlockOf (Z.snapshot z.old).mem at entry }
    ensures read { IfOk result (λ head. (entry : Entry) → IsBlockOf (Z.snapshot z.old).mem at entry
        → IsHeadRead (Z.snapshot z.old) entry head) }
    ensures lost { IfErr result
        (λ fault. StopsAmong (Z.snapshot z.old) (Z.snapshot z.new) (cells_of_range at 16) fault) }
    ensures keeps { KeepsSnapshot (Z.snapshot z.old) (Z.snapshot z.new) }
    ensures uncounted { (Z.snapshot z.new).refused ≡ (Z.snapshot z.old).refused }
    ensures aside { Z.aside z.new ≡ Z.aside z.old }
    ensures went { Z.went z.old z.new }
{
    let mut head = [0; HEAD];
    read_frozen(z, at, &mut head)?;
    Ok(BlockHead {
        next: BigEndian::read_u64(&head),
        key_length: BigEndian::read_u32(&head[8..]),
        value_length: BigEndian::read_u32(&head[12..]),
    })
}

// Reads a range of the heap into memory of its own.
fn read_bytes<Z: Frozen>(
    alloc: Global,
    z: &mut Z,
    addr: u64,
    len: usize,
) -> Result<Vec<u8>, PairsFault>
    requires range { IsOfArea (Z.snapshot z.old).mem addr len × (addr + len ≤ 2 ^ 48) }
    requires sound { KeepsSnapshot (Z.snapshot z.old) (Z.snapshot z.old) }
    ensures read { IfOk result (λ bytes. IsRead (Z.snapshot z.old) addr len bytes.items) }
    ensures lost { IfErr result (λ fault.
        StopsAmong (Z.snapshot z.old) (Z.snapshot z.new) (cells_of_range addr len) fault) }
    ensures keeps { KeepsSnapshot (Z.snapshot z.old) (Z.snapshot z.new) }
    ensures uncounted { (Z.snapshot z.new).refused ≡ (Z.snapshot z.old).refused }
    ensures aside { Z.aside z.new ≡ Z.aside z.old }
    ensures went { Z.went z.old z.new }
{
    let mut bytes = vec![in alloc; 0; len]?;
    read_frozen(z, addr, &mut bytes)?;
    Ok(bytes)
}

// A block of the key and the value that were read together.
fn parted(alloc: Global, head: &BlockHead, bytes: &[u8]) -> Result<BlockRead, PairsFault>
    requires both { length bytes.now ≡ head.now.key_length + head.now.value_length }
    ensures block { IfOk result (λ block. (block.next ≡ head.now.next)
        × (block.key.items ≡ take head.now.key_length bytes.now)
        × (block.value.items ≡ drop head.now.key_length bytes.now)) }
    ensures fault { IfErr result (λ fault. fault ≡ wants_memory) }
{
    let (key, value) = bytes.split_at(head.key_length as usize);
    Ok(BlockRead {
        next: head.next,
        key: Vec::from_slice(alloc, key)?,
        value: Vec::from_slice(alloc, value)?,
    })
}

// Reads the head of a block, and then exactly its key and value.
pub fn read_block<Z: Frozen>(alloc: Global, z: &mut Z, at: u64) -> Result<BlockRead, PairsFault>
    requires heap { Contains (Z.snapshot z.old).mem.areas heap_area }
    requires block { (entry : Entry) × IsBlockOf (Z.snapshot z.old).mem at entry }
    ensures read { IfOk result (λ block. (entry : Entry) → IsBlockOf (Z.snapshot z.old).mem at entry
        → IsBlockRead (Z.snapshot z.old) entry block) }
    ensures lost { IfErr result (λ fault.
        (entry : Entry) → IsBlockOf (Z.snapshot z.old).mem at entry
        → StopsAmong (Z.snapshot z.old) (Z.snapshot z.new) (entry_cells entry) fault) }
    ensures keeps { KeepsSnapshot (Z.snapshot z.old) (Z.snapshot z.new) }
    ensures uncounted { (Z.snapshot z.new).refused ≡ (Z.snapshot z.old).refused }
    ensures aside { Z.aside z.new ≡ Z.aside z.old }
    ensures went { Z.went z.old z.new }
{
    let head = read_head(z, at)?;
    let len = head.key_length as usize + head.value_length as usize;
    let bytes = read_bytes(alloc, z, at + HEAD as u64, len)?;
    parted(alloc, &head, &bytes)
}
