//! Storing a pair in its block, whose pages were touched.
ghost use Rattle.std.specs.Prelude.{◌≡◌, ◌+◌, ◌≤◌, ◌^◌, [], ◌++◌, length, drop};
ghost use Rattle.vm_base.specs.MemoryState.{IsMemory, IsKept};
ghost use Rattle.vm_base.specs.MemoryCalls.{IsReady, after_store};
ghost use Rattle.store_meaning.specs.HashLayout.{pair_size};
ghost use Rattle.page_hash.specs.PairStores.{head_bytes, front_bytes, pair_bytes, length_stored, value_stored};

use crate::layout::HEAD;
use byteorder::{BigEndian, ByteOrder};
use vm_base::Memory;

// So many bytes of a key are stored together with the head at most.
const KEY_FRONT: usize = 256;

/// Stores a pair: the next block's address, both lengths, the key and the value.
pub fn store_pair<M: Memory>(m: &mut M, at: u64, next: u64, key: &[u8], value: &[u8])
    requires fits { (length key.now ≤ 65536) × (length value.now ≤ 1048576) }
    requires within { at + pair_size key.now value.now ≤ 2 ^ 48 }
    requires ready { IsReady (M.state m.old) at (pair_size key.now value.now) }
    ensures stored { M.state m.new
        ≡ after_store (M.state m.old) at (pair_bytes next key.now value.now) }
    ensures keeps { IsKept (M.state m.old) (M.state m.new) [] }
    ensures aside { M.aside m.new ≡ M.aside m.old }
    ensures went { M.went m.old m.new }
{
    store_front(m, at, next, key, value.len() as u32);
    m.store(at + (HEAD + key.len()) as u64, value);
}

// Stores all of a pair but its value: by one store where the key is short.
fn store_front<M: Memory>(m: &mut M, at: u64, next: u64, key: &[u8], value_length: u32)
    requires fits { length key.now ≤ 65536 }
    requires within { at + (16 + length key.now) ≤ 2 ^ 48 }
    requires ready { IsReady (M.state m.old) at (16 + length key.now) }
    ensures stored { M.state m.new
        ≡ after_store (M.state m.old) at (front_bytes next key.now value_length) }
    ensures keeps { IsKept (M.state m.old) (M.state m.new) [] }
    ensures aside { M.aside m.new ≡ M.aside m.old }
    ensures went { M.went m.old m.new }
{
    let head = head_of(next, key.len() as u32, value_length);
    if key.len() > KEY_FRONT {
        m.store(at, &head);
        m.store(at + HEAD as u64, key);
    } else {
        let mut front = [0; HEAD + KEY_FRONT];
        fill_front(&mut front, &head, key);
        m.store(at, &front[..HEAD + key.len()]);
    }
}

// Fills the front of a buffer with a block's head and its key.
fn fill_front(front: &mut [u8], head: &[u8], key: &[u8])
    requires room { length head.now + length key.now ≤ length front.old }
    ensures filled { front.new
        ≡ (head.now ++ key.now) ++ drop (length head.now + length key.now) front.old }
{
    front[..head.len()].copy_from_slice(head);
    front[head.len()..head.len() + key.len()].copy_from_slice(key);
}

// A block's head.
#[tactic(auto, unfolding(crate::specs::PairStores::head_bytes))]
fn head_of(next: u64, key_length: u32, value_length: u32) -> [u8; HEAD]
    ensures head { result ≡ head_bytes next key_length value_length }
{
    let mut head = [0; HEAD];
    BigEndian::write_u64(&mut head, next);
    BigEndian::write_u32(&mut head[8..], key_length);
    BigEndian::write_u32(&mut head[12..], value_length);
    head
}

/// Stores another value in a block, and its length where that is another one.
pub fn store_value<M: Memory>(m: &mut M, at: u64, old_length: u32, key_length: u32, value: &[u8])
    requires fits { (key_length ≤ 65536) × (length value.now ≤ 1048576) }
    requires sound { IsMemory (M.state m.old) }
    requires within { at + (16 + key_length + length value.now) ≤ 2 ^ 48 }
    requires ready { IsReady (M.state m.old) at (16 + key_length + length value.now) }
    ensures stored { M.state m.new
        ≡ value_stored (M.state m.old) at old_length key_length value.now }
    ensures keeps { IsKept (M.state m.old) (M.state m.new) [] }
    ensures aside { M.aside m.new ≡ M.aside m.old }
    ensures went { M.went m.old m.new }
{
    store_length(m, at, old_length, value.len() as u32);
    m.store(at + HEAD as u64 + key_length as u64, value);
}

// Stores the length of a value in its block, where it is another one.
fn store_length<M: Memory>(m: &mut M, at: u64, old_length: u32, value_length: u32)
    requires sound { IsMemory (M.state m.old) }
    requires within { at + 16 ≤ 2 ^ 48 }
    requires ready { IsReady (M.state m.old) (at + 12) 4 }
    ensures stored { M.state m.new ≡ length_stored (M.state m.old) at old_length value_length }
    ensures keeps { IsKept (M.state m.old) (M.state m.new) [] }
    ensures aside { M.aside m.new ≡ M.aside m.old }
    ensures went { M.went m.old m.new }
{
    if value_length == old_length {
        return;
    }
    let mut bytes = [0; 4];
    BigEndian::write_u32(&mut bytes, value_length);
    m.store(at + 12, &bytes);
}
