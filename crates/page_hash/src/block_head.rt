//! A block of a chain: the one behind it, and its key's hash.
ghost use Rattle.std.specs.Prelude.{◌≡◌, ◌+◌, ◌≤◌, ℕ, min, fold, length, Contains};
ghost use Rattle.vm_base.specs.FlatMemory.{bytes_at};
ghost use Rattle.store_meaning.specs.Layout.{heap_area, heap_at, heap_end, word_at};
ghost use Rattle.store_meaning.specs.HashLayout.{Entry, hash_of, hash_step};
ghost use Rattle.page_hash.specs.Relinking.{IsHeldBlock};

use crate::words::read_area;
use byteorder::{BigEndian, ByteOrder};
use vm_base::Memory;

// The first address behind the heap's area.
const HEAP_END: u64 = 9_128_902_656;

// The bytes of a block's next address and its two lengths. The key stands behind them.
const HEAD: usize = 16;

// So much of a block is read at once at most: its head, and 256 bytes of its key.
const FRONT: usize = 272;

// The hash of no bytes.
const NO_BYTES: u64 = 14_695_981_039_346_656_037;

/// The address of the block behind it, or 0, and the hash of its key.
#[derive(Clone, Copy, Debug)]
pub struct BlockHead {
    pub next: u64,
    pub hash: u64,
}

// Reads a block's head, and as much of its key as fits behind it, at once.
pub fn block_head<M: Memory>(m: &mut M, at: u64) -> BlockHead
    requires heap { Contains (M.state m.old).mem.areas heap_area }
    requires block { (entry : Entry) × ((entry.at ≡ at) × IsHeldBlock (M.state m.old).mem entry) }
    ensures next { result.next ≡ word_at (M.state m.old).mem at }
    ensures hash { (entry : Entry) → entry.at ≡ at → IsHeldBlock (M.state m.old).mem entry
        → result.hash ≡ hash_of entry.key }
    ensures same { M.state m.new ≡ M.state m.old }
    ensures aside { M.aside m.new ≡ M.aside m.old }
    ensures went { M.went m.old m.new }
{
    let mut front = [0; FRONT];
    let size = front_of(at);
    read_area(m, at, &mut front[..size]);
    let next = BigEndian::read_u64(&front);
    let length = BigEndian::read_u32(&front[8..]) as usize;
    let first = length.min(FRONT - HEAD);
    let begun = hash_bytes(NO_BYTES, &front[HEAD..HEAD + first]);
    let hash = hash_range(m, begun, at + (HEAD + first) as u64, length - first);
    BlockHead { next, hash }
}

// How much is read at an address of the heap: no more than stands in front of its end.
fn front_of(at: u64) -> usize
    requires within { at + 16 ≤ heap_end }
    ensures head { 16 ≤ result }
    ensures few { result ≤ 272 }
    ensures inside { at + result ≤ heap_end }
    ensures whole { (n : ℕ) → at + n ≤ heap_end → min n 272 ≤ result }
{
    FRONT.min((HEAP_END - at) as usize)
}

// Goes on with a hash over bytes, as FNV-1a of 64 bits does.
fn hash_bytes(hash: u64, bytes: &[u8]) -> u64
    ensures { result ≡ fold hash_step hash bytes.now }
{
    let mut on = hash;
    for byte in bytes {
        on = (on ^ u64::from(*byte)).wrapping_mul(1_099_511_628_211);
    }
    on
}

// Goes on with a hash over a range of the heap, piece by piece.
fn hash_range<M: Memory>(m: &mut M, hash: u64, addr: u64, n: usize) -> u64
    requires heap { Contains (M.state m.old).mem.areas heap_area }
    requires within { (heap_at ≤ addr) × (addr + n ≤ heap_end) }
    ensures hash { result ≡ fold hash_step hash (bytes_at (M.state m.old).mem.present addr n) }
    ensures same { M.state m.new ≡ M.state m.old }
    ensures aside { M.aside m.new ≡ M.aside m.old }
    ensures went { M.went m.old m.new }
{
    let mut piece = [0; FRONT];
    let mut on = hash;
    let mut done = 0;
    while done < n {
        let size = (n - done).min(FRONT);
        read_area(m, addr + done as u64, &mut piece[..size]);
        on = hash_bytes(on, &piece[..size]);
        done += size;
    }
    on
}
