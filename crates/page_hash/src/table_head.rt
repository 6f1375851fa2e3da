//! The header's three fields of a table.
ghost use Rattle.std.specs.Prelude.{◌≡◌};
ghost use Rattle.vm_base.specs.MemoryState.{IsMemory};
ghost use Rattle.store_meaning.specs.Layout.{array_field, buckets_field, pairs_field, word_at};
ghost use Rattle.store_meaning.specs.Standing.{IsStanding};

use crate::layout::ARRAY_FIELD;
use crate::words::read_area;
use byteorder::{BigEndian, ByteOrder};
use vm_base::Memory;

/// Where the array lies, how many buckets it has, and how many pairs there are.
#[derive(Clone, Copy, Debug)]
pub struct TableHead {
    pub array: u64,
    pub buckets: u64,
    pub pairs: u64,
}

// Reads the three fields at once.
pub fn table_head<M: Memory>(m: &mut M) -> TableHead
    requires stands { IsStanding (M.state m.old) }
    ensures array { result.array ≡ word_at (M.state m.old).mem array_field }
    ensures buckets { result.buckets ≡ word_at (M.state m.old).mem buckets_field }
    ensures pairs { result.pairs ≡ word_at (M.state m.old).mem pairs_field }
    ensures sound { IsMemory (M.state m.old) }
    ensures same { M.state m.new ≡ M.state m.old }
    ensures aside { M.aside m.new ≡ M.aside m.old }
    ensures went { M.went m.old m.new }
{
    let mut fields = [0; 24];
    read_area(m, ARRAY_FIELD, &mut fields);
    TableHead {
        array: BigEndian::read_u64(&fields),
        buckets: BigEndian::read_u64(&fields[8..]),
        pairs: BigEndian::read_u64(&fields[16..]),
    }
}
