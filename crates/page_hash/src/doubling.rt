//! An array of twice as many buckets.
ghost use Rattle.std.specs.Prelude.{◌≡◌, ◌*◌, [], ◌∷◌, ◌++◌, IsTrue, IsFalse};
ghost use Rattle.byteorder.specs.Endian.{big_bytes};
ghost use Rattle.vm_base.specs.MemoryState.{IsKept};
ghost use Rattle.store_meaning.specs.Layout.{store_cells};
ghost use Rattle.store_meaning.specs.HashLayout.{Pairs, Store, IsStore, other_array};
ghost use Rattle.store_meaning.specs.StoreSteps.{IsCrowded};
ghost use Rattle.store_meaning.specs.Reach.{At};
ghost use Rattle.store_meaning.specs.Standing.{IsStanding, StaysStanding, Follows};
ghost use Rattle.page_hash.specs.Relinking.{MayRelink};
ghost use Rattle.page_hash.specs.Doubling.{DoublesArray, LeavesSingle, IsDue, AddsArray, LacksArray, MovesTo, IsFreshArea, TouchesArea, LeavesArea, MayMoveTo};

use crate::arrays::Arrays;
use crate::layout::{ARRAY, ARRAY_FIELD, BUCKETS_FIELD, PAIRS_FIELD};
use crate::relinking_all::relink_all;
use crate::words::read_word;
use byteorder::{BigEndian, ByteOrder};
use vm_base::{Memory, Perm};

// The address of the second region of arrays.
const OTHER_ARRAY: u64 = 4_294_967_296;

// The bytes of the three fields of a table.
const FIELDS: usize = 24;

// So many bytes are touched at once at most.
const MOST_TOUCHED: u64 = 4_194_304;

/// Doubles the array, and answers whether it did.
pub fn double<M: Memory>(m: &mut M) -> bool
    requires stands { IsStanding (M.state m.old) }
    requires due { (store : Store) (pairs : Pairs) → IsStore (M.state m.old).mem store pairs
        → IsCrowded store }
    ensures doubled { (store : Store) (pairs : Pairs) → IsStore (M.state m.old).mem store pairs
        → IsTrue result
        → DoublesArray (M.state m.old) (M.state m.new) store pairs }
    ensures left { (store : Store) (pairs : Pairs) → IsStore (M.state m.old).mem store pairs
        → IsFalse result
        → LeavesSingle (M.state m.old) (M.state m.new) store }
    ensures follows { Follows (M.state m.old) (M.state m.new) (λ pairs. pairs)
        (λ pairs. At pairs ∷ []) }
    ensures keeps { StaysStanding (M.state m.old) (M.state m.new) }
    ensures aside { M.aside m.new ≡ M.aside m.old }
    ensures went { M.went m.old m.new }
{
    let arrays = arrays_of(m);
    if add_array(m, &arrays) {
        relink_all(m, &arrays);
        move_to_array(m, &arrays);
        return true;
    }
    false
}

// Where the array lies and where the next one will, how many buckets it has, and how many pairs.
fn arrays_of<M: Memory>(m: &mut M) -> Arrays
    requires stands { IsStanding (M.state m.old) }
    requires due { (store : Store) (pairs : Pairs) → IsStore (M.state m.old).mem store pairs
        → IsCrowded store }
    ensures due { (store : Store) (pairs : Pairs) → IsStore (M.state m.old).mem store pairs
        → IsDue (M.state m.old).mem result store pairs }
    ensures same { M.state m.new ≡ M.state m.old }
    ensures aside { M.aside m.new ≡ M.aside m.old }
    ensures went { M.went m.old m.new }
{
    let old = read_word(m, ARRAY_FIELD);
    let buckets = read_word(m, BUCKETS_FIELD);
    let pairs = read_word(m, PAIRS_FIELD);
    Arrays {
        old,
        new: region_beside(old),
        buckets,
        pairs,
    }
}

// The other region of arrays.
fn region_beside(array: u64) -> u64
    ensures { result ≡ other_array array }
{
    if array == ARRAY { OTHER_ARRAY } else { ARRAY }
}

// Maps the new array and touches its pages. Where a frame is refused, it takes them out again.
fn add_array<M: Memory>(m: &mut M, arrays: &Arrays) -> bool
    requires stands { IsStanding (M.state m.old) }
    requires due { (store : Store) × (pairs : Pairs)
        × IsDue (M.state m.old).mem arrays.now store pairs }
    ensures added { IsTrue result → AddsArray (M.state m.old) (M.state m.new) arrays.now }
    ensures lacks { IsFalse result → LacksArray (M.state m.old) (M.state m.new) arrays.now }
    ensures keeps { IsKept (M.state m.old) (M.state m.new) store_cells }
    ensures aside { M.aside m.new ≡ M.aside m.old }
    ensures went { M.went m.old m.new }
{
    let _new = m.map(arrays.new / 4096, arrays.buckets / 256, Perm::ReadWrite);
    if touch_area(m, arrays.new, 16 * arrays.buckets) {
        return true;
    }
    let _undone = m.unmap(arrays.new / 4096, arrays.buckets / 256);
    false
}

// Touches the pages of an area, so many bytes at once as one touch may have.
fn touch_area<M: Memory>(m: &mut M, addr: u64, size: u64) -> bool
    requires fresh { IsFreshArea (M.state m.old) addr size }
    ensures touched { IsTrue result → TouchesArea (M.state m.old) (M.state m.new) addr size }
    ensures left { IsFalse result → LeavesArea (M.state m.old) (M.state m.new) addr size }
    ensures keeps { IsKept (M.state m.old) (M.state m.new) store_cells }
    ensures aside { M.aside m.new ≡ M.aside m.old }
    ensures went { M.went m.old m.new }
{
    let mut done = 0;
    while done < size {
        let piece = (size - done).min(MOST_TOUCHED);
        if let Err(_fault) = m.touch(addr + done, piece) {
            return false;
        }
        done += piece;
    }
    true
}

// Names the new array in the header, and takes the old one out.
fn move_to_array<M: Memory>(m: &mut M, arrays: &Arrays)
    requires may { MayRelink (M.state m.old) }
    requires due { MayMoveTo (M.state m.old).mem arrays.now }
    ensures moves { MovesTo (M.state m.old) (M.state m.new) arrays.now }
    ensures keeps { IsKept (M.state m.old) (M.state m.new) store_cells }
    ensures aside { M.aside m.new ≡ M.aside m.old }
    ensures went { M.went m.old m.new }
{
    let fields = table_fields(arrays.new, 2 * arrays.buckets, arrays.pairs);
    let _present = m.touch(ARRAY_FIELD, FIELDS as u64);
    m.store(ARRAY_FIELD, &fields);
    let _old = m.unmap(arrays.old / 4096, arrays.buckets / 512);
}

// The header's three fields of a table.
fn table_fields(array: u64, buckets: u64, pairs: u64) -> [u8; FIELDS]
    ensures { result ≡ big_bytes 8 array ++ big_bytes 8 buckets ++ big_bytes 8 pairs }
{
    let mut fields = [0; FIELDS];
    BigEndian::write_u64(&mut fields, array);
    BigEndian::write_u64(&mut fields[8..], buckets);
    BigEndian::write_u64(&mut fields[16..], pairs);
    fields
}
