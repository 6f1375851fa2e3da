//! The table without its pairs.
ghost use Rattle.std.specs.Prelude.{◌≡◌};
ghost use Rattle.store_meaning.specs.Layout.{header_area, store_area, heap_area, array_pages};
ghost use Rattle.store_meaning.specs.Standing.{IsStanding, StaysStanding};
ghost use Rattle.page_hash.specs.Clears.{Clears, opening_fields};

use crate::layout::{ARRAY, ARRAY_FIELD, ARRAY_PAGE, BUCKETS, BUCKETS_FIELD};
use crate::words::read_word;
use byteorder::{BigEndian, ByteOrder};
use vm_base::{Memory, Perm};

// The header's address, where the heap's top stands.
const HEADER: u64 = 2_097_152;

// The heap's first address, its first page, and its pages.
const HEAP: u64 = 8_589_934_592;

const HEAP_PAGE: u64 = 2_097_152;

const HEAP_PAGES: u64 = 131_584;

// The header's fields, from the top to the number of pairs.
const FIELDS: usize = 168;

/// Takes all pairs out, and begins with 512 buckets in the first region again.
pub fn clear<M: Memory>(m: &mut M)
    requires stands { IsStanding (M.state m.old) }
    ensures cleared { Clears (M.state m.old) (M.state m.new) }
    ensures keeps { StaysStanding (M.state m.old) (M.state m.new) }
    ensures aside { M.aside m.new ≡ M.aside m.old }
    ensures went { M.went m.old m.new }
{
    let array = read_word(m, ARRAY_FIELD);
    let buckets = read_word(m, BUCKETS_FIELD);
    // Fewer areas and then three again: none of the four is refused, and the header is present.
    let _heap = m.unmap(HEAP_PAGE, HEAP_PAGES);
    let _array = m.unmap(array / 4096, buckets / 512);
    let _new_heap = m.map(HEAP_PAGE, HEAP_PAGES, Perm::ReadWrite);
    let _new_array = m.map(ARRAY_PAGE, 1, Perm::ReadWrite);
    let _header = m.touch(HEADER, FIELDS as u64);
    m.store(HEADER, &opening_header());
}

// The header's fields of a store that begins.
fn opening_header() -> [u8; FIELDS]
    ensures { result ≡ opening_fields }
{
    let mut fields = [0; FIELDS];
    BigEndian::write_u64(&mut fields, HEAP);
    BigEndian::write_u64(&mut fields[144..], ARRAY);
    BigEndian::write_u64(&mut fields[152..], BUCKETS);
    fields
}
