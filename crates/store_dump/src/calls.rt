//! The calls on a store, one a line: `put KEY VALUE`, `remove KEY`, `clear`. Words are parted by a
//! space, and a word that is not there is empty.
ghost use Rattle.store_meaning.specs.Standing.{IsStanding};

use page_hash::{clear, put, remove};
use vm_base::Memory;

const MOST_KEY: usize = 65_536;

const MOST_VALUE: usize = 1_048_576;

/// Makes the call of a line on a store, and answers whether there was one, and it was made.
pub fn run_call<M: Memory>(m: &mut M, line: &str) -> bool
    requires stands { IsStanding (M.state m.old) }
    ensures stands { IsStanding (M.state m.new) }
{
    let mut words = line.split(' ');
    let name = words.next().unwrap_or("");
    let key = words.next().unwrap_or("").as_bytes();
    let value = words.next().unwrap_or("").as_bytes();
    if key.len() > MOST_KEY || value.len() > MOST_VALUE {
        return false;
    }
    if name == "put" {
        return put(m, key, value).is_ok();
    }
    if name == "remove" {
        return remove(m, key);
    }
    if name == "clear" {
        clear(m);
        return true;
    }
    false
}
