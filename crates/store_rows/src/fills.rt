//! Stores that are filled, and the lists that they have then.
ghost use Rattle.store_meaning.specs.Standing.{IsStanding};

use image_text::PairList;
use page_hash::put;
use vm_base::{Memory, Refused};

/// Puts so many pairs: each number below, in two bytes, has itself in three. Their keys come in an
/// order that does not rise.
pub fn fill<M: Memory>(m: &mut M, count: u32) -> Result<(), Refused>
    requires stands { IsStanding (M.state m.old) }
    ensures stands { IsStanding (M.state m.new) }
{
    for place in 0..count {
        let (key, value) = pair_of(place.wrapping_mul(7919) % count);
        put(m, &key, &value)?;
    }
    Ok(())
}

/// The key and the value of a number.
pub fn pair_of(number: u32) -> ([u8; 2], [u8; 3]) {
    let [_, high, middle, low] = number.to_be_bytes();
    ([middle, low], [high, middle, low])
}

/// Whether a list has the pairs of the numbers below this one, and no others.
pub fn has_pairs(list: &PairList, count: u32) -> bool {
    if list.len() != count as usize {
        return false;
    }
    for place in 0..list.len() {
        let (key, value) = pair_of(place as u32);
        if list.key(place) != key.as_slice() || list.value(place) != value.as_slice() {
            return false;
        }
    }
    true
}

/// Whether two lists have the same pairs.
pub fn are_same(one: &PairList, other: &PairList) -> bool {
    if one.len() != other.len() {
        return false;
    }
    for place in 0..one.len() {
        if one.key(place) != other.key(place) || one.value(place) != other.value(place) {
            return false;
        }
    }
    true
}

/// Whether a list has just the pairs of another one, with this pair in the place of its key's.
pub fn has_more(before: &PairList, behind: &PairList, key: &[u8], value: &[u8]) -> bool {
    let mut others = 0usize;
    let mut has_key = false;
    for place in 0..behind.len() {
        if behind.key(place) == key {
            has_key = behind.value(place) == value;
            continue;
        }
        others = behind_key(before, others, key);
        if others >= before.len()
            || before.key(others) != behind.key(place)
            || before.value(others) != behind.value(place)
        {
            return false;
        }
        others += 1;
    }
    has_key && behind_key(before, others, key) == before.len()
}

// The place itself, or the next one where the pair there has this key.
fn behind_key(list: &PairList, place: usize, key: &[u8]) -> usize {
    if place < list.len() && list.key(place) == key {
        place + 1
    } else {
        place
    }
}
