//! The calls that read a table and change nothing.
ghost use Rattle.std.specs.Prelude.{◌≡◌, ◌+◌, ◌≤◌, length, IfSome};
ghost use Rattle.std.specs.Option.{option_map};
ghost use Rattle.std.specs.FinMap.{get, len};
ghost use Rattle.vm_base.specs.FlatMemory.{bytes_at};
ghost use Rattle.store_meaning.specs.Layout.{heap_at, heap_end};
ghost use Rattle.store_meaning.specs.HashLayout.{Pairs, StandsForMap};
ghost use Rattle.store_meaning.specs.Standing.{IsStanding};
ghost use Rattle.page_hash.specs.Lookups.{FoundFor, filled_by};

use crate::found::Found;
use crate::layout::{HEAD, PAIRS_FIELD};
use crate::search::locate;
use crate::words::{read_area, read_word};
use vm_base::Memory;

/// How many pairs there are.
pub fn len<M: Memory>(m: &mut M) -> u64
    requires stands { IsStanding (M.state m.old) }
    ensures len { (pairs : Pairs) → StandsForMap (M.state m.old).mem pairs → result ≡ len pairs }
    ensures same { M.state m.new ≡ M.state m.old }
    ensures aside { M.aside m.new ≡ M.aside m.old }
    ensures went { M.went m.old m.new }
{
    read_word(m, PAIRS_FIELD)
}

/// Reads a value that was found, into a buffer of its length.
pub fn value<M: Memory>(m: &mut M, found: &Found, buf: &mut [u8])
    requires stands { IsStanding (M.state m.old) }
    requires within { (heap_at ≤ found.now.addr) × (found.now.addr + length buf.old ≤ heap_end) }
    ensures bytes { buf.new ≡ bytes_at (M.state m.old).mem.present found.now.addr (length buf.old) }
    ensures same { M.state m.new ≡ M.state m.old }
    ensures aside { M.aside m.new ≡ M.aside m.old }
    ensures went { M.went m.old m.new }
{
    read_area(m, found.addr, buf);
}

/// Looks for a key. What it answers is read by `value`.
pub fn find<M: Memory>(m: &mut M, key: &[u8]) -> Option<Found>
    requires stands { IsStanding (M.state m.old) }
    requires key { length key.now ≤ 65536 }
    ensures found { (pairs : Pairs) → StandsForMap (M.state m.old).mem pairs
        → FoundFor (M.state m.new).mem result (get pairs key.now) }
    ensures within { IfSome result
        (λ found. (heap_at ≤ found.addr) × (found.addr + found.length ≤ heap_end)) }
    ensures same { M.state m.new ≡ M.state m.old }
    ensures aside { M.aside m.new ≡ M.aside m.old }
    ensures went { M.went m.old m.new }
{
    let block = locate(m, key).located?;
    Some(Found {
        addr: block.at + HEAD as u64 + key.len() as u64,
        length: block.length,
    })
}

/// The value's length, with as much of the value in the buffer as fits.
pub fn get<M: Memory>(m: &mut M, key: &[u8], buf: &mut [u8]) -> Option<u32>
    requires stands { IsStanding (M.state m.old) }
    requires key { length key.now ≤ 65536 }
    ensures length { (pairs : Pairs) → StandsForMap (M.state m.old).mem pairs
        → result ≡ option_map length (get pairs key.now) }
    ensures bytes { (pairs : Pairs) → StandsForMap (M.state m.old).mem pairs
        → buf.new ≡ filled_by buf.old (get pairs key.now) }
    ensures same { M.state m.new ≡ M.state m.old }
    ensures aside { M.aside m.new ≡ M.aside m.old }
    ensures went { M.went m.old m.new }
{
    let found = find(m, key)?;
    let kept = buf.len().min(found.length as usize);
    value(m, &found, &mut buf[..kept]);
    Some(found.length)
}
