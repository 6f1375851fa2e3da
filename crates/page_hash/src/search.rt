//! The search for a key, from the header on.
ghost use Rattle.std.specs.Prelude.{◌≡◌, ◌≤◌, length};
ghost use Rattle.vm_base.specs.MemoryState.{IsMemory};
ghost use Rattle.store_meaning.specs.HashLayout.{Pairs, Store, IsStore};
ghost use Rattle.store_meaning.specs.Standing.{IsStanding};
ghost use Rattle.page_hash.specs.Walks.{IsSearch};

use crate::chain::{Located, walk};
use crate::key_hash::key_hash;
use crate::table_head::{TableHead, table_head};
use crate::words::read_word;
use vm_base::Memory;

/// The table's head, the address of a key's bucket, the first block there, and the key's block.
#[derive(Clone, Copy, Debug)]
pub struct Search {
    pub head: TableHead,
    pub bucket: u64,
    pub first: u64,
    pub located: Option<Located>,
}

/// Looks for the block of a key.
pub fn locate<M: Memory>(m: &mut M, key: &[u8]) -> Search
    requires stands { IsStanding (M.state m.old) }
    requires key { length key.now ≤ 65536 }
    ensures search { (store : Store) (pairs : Pairs) → IsStore (M.state m.old).mem store pairs
        → IsSearch (M.state m.old).mem store key.now result }
    ensures sound { IsMemory (M.state m.old) }
    ensures same { M.state m.new ≡ M.state m.old }
    ensures aside { M.aside m.new ≡ M.aside m.old }
    ensures went { M.went m.old m.new }
{
    let head = table_head(m);
    let bucket = head.array + 8 * (key_hash(key) % head.buckets);
    let first = read_word(m, bucket);
    let located = walk(m, bucket, first, head.pairs, key);
    Search {
        head,
        bucket,
        first,
        located,
    }
}
