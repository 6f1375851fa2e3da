//! The calls that are timed, over and over.
ghost use Rattle.std.specs.Prelude.{◌≡◌};
ghost use Rattle.store_meaning.specs.Standing.{IsStanding};

use crate::pairs::{VALUE, asked_at, key_of, value_of};
use page_hash::{get, put};
use vm_base::{Memory, Refused};

// A word of the header: a store always has this page.
const HEADER_WORD: u64 = 0x20_0000;

/// Reads 8 bytes of one page so often, and answers the sum of what was read. It answers nothing
/// where a read is refused.
pub fn read_words<M: Memory>(m: &mut M, count: u32) -> Option<u64>
    ensures same { M.state m.new ≡ M.state m.old }
{
    let mut sum = 0u64;
    let mut word = [0; 8];
    for _turn in 0..count {
        if m.read(HEADER_WORD, &mut word).is_err() {
            return None;
        }
        sum = sum.wrapping_add(u64::from_be_bytes(word));
    }
    Some(sum)
}

/// Looks up keys of the first numbers so often, and answers the sum of a byte of each value. It
/// answers nothing where a key is not there.
pub fn get_pairs<M: Memory>(m: &mut M, pairs: u32, count: u32) -> Option<u64>
    requires stands { IsStanding (M.state m.old) }
    ensures same { M.state m.new ≡ M.state m.old }
{
    let mut sum = 0u64;
    let mut value = [0; VALUE];
    for turn in 0..count {
        let key = key_of(asked_at(turn, pairs));
        if get(m, &key, &mut value).is_none() {
            return None;
        }
        sum = sum.wrapping_add(u64::from(value[3]));
    }
    Some(sum)
}

/// Puts the pairs of so many numbers, from this one on.
pub fn add_pairs<M: Memory>(m: &mut M, first: u32, count: u32) -> Result<(), Refused>
    requires stands { IsStanding (M.state m.old) }
    ensures stands { IsStanding (M.state m.new) }
{
    for place in 0..count {
        let number = first.wrapping_add(place);
        put(m, &key_of(number), &value_of(number))?;
    }
    Ok(())
}

/// Puts other values for keys of the first numbers, so often.
pub fn put_again<M: Memory>(m: &mut M, pairs: u32, count: u32) -> Result<(), Refused>
    requires stands { IsStanding (M.state m.old) }
    ensures stands { IsStanding (M.state m.new) }
{
    for turn in 0..count {
        put(m, &key_of(asked_at(turn, pairs)), &value_of(turn))?;
    }
    Ok(())
}
