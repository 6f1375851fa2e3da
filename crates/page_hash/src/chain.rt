//! The chain of a bucket, block by block.
ghost use Rattle.std.specs.Prelude.{◌≡◌, ◌+◌, ◌≤◌, min, List, length, Contains};
ghost use Rattle.std.specs.Str.{bytes_eq};
ghost use Rattle.vm_base.specs.FlatMemory.{bytes_at};
ghost use Rattle.store_meaning.specs.Layout.{heap_area, heap_at, heap_end, word_at};
ghost use Rattle.store_meaning.specs.HashLayout.{Entry};
ghost use Rattle.store_meaning.specs.StoreSteps.{entry_in};
ghost use Rattle.page_hash.specs.Walks.{IsBlockOf, IsChainFrom, IsFrontOf, HasChain, value_seen, located_in};

use crate::layout::{HEAD, HEAP_END};
use crate::words::read_area;
use byteorder::{BigEndian, ByteOrder};
use vm_base::Memory;

// So much of a block is read at once at most: its head, and 256 bytes of its key.
const FRONT: usize = 272;

/// What a block says: the next one's address, and the value's length where it has the key.
#[derive(Clone, Copy, Debug)]
pub struct Seen {
    pub next: u64,
    pub value: Option<u32>,
}

/// The block of a key: the addresses of the word that names it, of itself and of the next block, 0
/// where none follows, and its value's length.
#[derive(Clone, Copy, Debug)]
pub struct Located {
    pub link: u64,
    pub at: u64,
    pub next: u64,
    pub length: u32,
}

// Looks for a key along a chain, whose first block a bucket names. There are no more blocks in it
// than pairs, and so it ends.
pub fn walk<M: Memory>(
    m: &mut M,
    bucket: u64,
    first: u64,
    pairs: u64,
    key: &[u8],
) -> Option<Located>
    requires heap { Contains (M.state m.old).mem.areas heap_area }
    requires chain { HasChain (M.state m.old).mem first pairs }
    requires key { length key.now ≤ 65536 }
    ensures located { (chain : List Entry) → IsChainFrom (M.state m.old).mem first chain
        → result ≡ located_in bucket chain key.now }
    ensures same { M.state m.new ≡ M.state m.old }
    ensures aside { M.aside m.new ≡ M.aside m.old }
    ensures went { M.went m.old m.new }
{
    let mut link = bucket;
    let mut at = first;
    let mut left = pairs;
    while at != 0 {
        let seen = look_at(m, at, key);
        if let Some(length) = seen.value {
            return Some(Located {
                link,
                at,
                next: seen.next,
                length,
            });
        }
        link = at;
        at = seen.next;
        left -= 1;
    }
    None
}

// Looks at one block, by one read of its head and of as much of a key as fits behind it.
fn look_at<M: Memory>(m: &mut M, at: u64, key: &[u8]) -> Seen
    requires heap { Contains (M.state m.old).mem.areas heap_area }
    requires block { (entry : Entry) × IsBlockOf (M.state m.old).mem at entry }
    requires key { length key.now ≤ 65536 }
    ensures next { result.next ≡ word_at (M.state m.old).mem at }
    ensures value { (entry : Entry) → IsBlockOf (M.state m.old).mem at entry
        → result.value ≡ value_seen entry key.now }
    ensures same { M.state m.new ≡ M.state m.old }
    ensures aside { M.aside m.new ≡ M.aside m.old }
    ensures went { M.went m.old m.new }
{
    let mut front = [0; FRONT];
    read_front(m, at, key.len(), &mut front);
    let next = BigEndian::read_u64(&front);
    let key_length = BigEndian::read_u32(&front[8..]);
    if key_length as usize != key.len() {
        return Seen { next, value: None };
    }
    let value_length = BigEndian::read_u32(&front[12..]);
    let has = has_key(m, at, &front, key);
    Seen {
        next,
        value: has.then_some(value_length),
    }
}

// Reads the head of a block, and as much of a key as fits behind it.
fn read_front<M: Memory>(m: &mut M, at: u64, key_length: usize, front: &mut [u8])
    requires heap { Contains (M.state m.old).mem.areas heap_area }
    requires within { (heap_at ≤ at) × (at + 16 ≤ heap_end) }
    requires room { (length front.old ≡ 272) × (key_length ≤ 65536) }
    ensures front { IsFrontOf (M.state m.old).mem at key_length front.new }
    ensures same { M.state m.new ≡ M.state m.old }
    ensures aside { M.aside m.new ≡ M.aside m.old }
    ensures went { M.went m.old m.new }
{
    let size = front_size(at, key_length);
    read_area(m, at, &mut front[..size]);
}

// How much of a block is read at once: no more than stands in front of the heap's end.
fn front_size(at: u64, key_length: usize) -> usize
    requires within { at + 16 ≤ heap_end }
    requires key { key_length ≤ 65536 }
    ensures head { 16 ≤ result }
    ensures few { result ≤ 272 }
    ensures inside { at + result ≤ heap_end }
    ensures key { at + 16 + key_length ≤ heap_end → result ≡ min (16 + key_length) 272 }
{
    (HEAD + key_length).min(FRONT).min((HEAP_END - at) as usize)
}

// Whether a block has the key, whose length it has: the front first, and what lies behind it then.
fn has_key<M: Memory>(m: &mut M, at: u64, front: &[u8], key: &[u8]) -> bool
    requires heap { Contains (M.state m.old).mem.areas heap_area }
    requires within { (heap_at ≤ at) × (at + 16 + length key.now ≤ heap_end) }
    requires front { IsFrontOf (M.state m.old).mem at (length key.now) front.now }
    ensures has { result
        ≡ bytes_eq (bytes_at (M.state m.old).mem.present (at + 16) (length key.now)) key.now }
    ensures same { M.state m.new ≡ M.state m.old }
    ensures aside { M.aside m.new ≡ M.aside m.old }
    ensures went { M.went m.old m.new }
{
    let first = key.len().min(FRONT - HEAD);
    if front[HEAD..HEAD + first] != key[..first] {
        return false;
    }
    has_bytes(m, at + (HEAD + first) as u64, &key[first..])
}

// Whether a range has these bytes, piece by piece.
fn has_bytes<M: Memory>(m: &mut M, addr: u64, bytes: &[u8]) -> bool
    requires heap { Contains (M.state m.old).mem.areas heap_area }
    requires within { (heap_at ≤ addr) × (addr + length bytes.now ≤ heap_end) }
    ensures has { result
        ≡ bytes_eq (bytes_at (M.state m.old).mem.present addr (length bytes.now)) bytes.now }
    ensures same { M.state m.new ≡ M.state m.old }
    ensures aside { M.aside m.new ≡ M.aside m.old }
    ensures went { M.went m.old m.new }
{
    let mut piece = [0; FRONT];
    let mut done = 0;
    while done < bytes.len() {
        let size = (bytes.len() - done).min(FRONT);
        read_area(m, addr + done as u64, &mut piece[..size]);
        if piece[..size] != bytes[done..done + size] {
            return false;
        }
        done += size;
    }
    true
}
