//! Taking a pair out.
ghost use Rattle.std.specs.Prelude.{◌≡◌, ℕ, ◌^◌, ◌<◌, ◌≤◌, [], length};
ghost use Rattle.std.specs.FinMap.{contains_key};
ghost use Rattle.vm_base.specs.MemoryState.{IsKept};
ghost use Rattle.store_meaning.specs.Layout.{store_cells, pairs_field, word_at};
ghost use Rattle.store_meaning.specs.HashLayout.{Pairs, StandsForMap};
ghost use Rattle.store_meaning.specs.Standing.{IsStanding, StaysStanding};
ghost use Rattle.page_hash.specs.Removing.{Removes, IsNamedBlock, MayUnlink, unlinked};

use crate::chain::Located;
use crate::layout::{HEAD, PAIRS_FIELD};
use crate::search::locate;
use crate::touching::touch_present;
use crate::words::store_word;
use page_heap::{class_for, free};
use vm_base::Memory;

// The header's address, and its bytes.
const HEADER: u64 = 2_097_152;

const HEADER_SIZE: u64 = 4096;

/// Takes a pair out, and answers whether it was there. It is never refused.
pub fn remove<M: Memory>(m: &mut M, key: &[u8]) -> bool
    requires stands { IsStanding (M.state m.old) }
    requires key { length key.now ≤ 65536 }
    ensures there { (pairs : Pairs) → StandsForMap (M.state m.old).mem pairs
        → result ≡ contains_key pairs key.now }
    ensures removed { Removes (M.state m.old) (M.state m.new) key.now }
    ensures keeps { StaysStanding (M.state m.old) (M.state m.new) }
    ensures aside { M.aside m.new ≡ M.aside m.old }
    ensures went { M.went m.old m.new }
{
    let search = locate(m, key);
    match search.located {
        None => false,
        Some(block) => {
            let class = class_for((HEAD + key.len()) as u32 + block.length);
            touch_named(m, &block);
            unlink(m, &block, class, search.head.pairs);
            true
        }
    }
}

// Touches the word that names a block, the block's first word, and the header. All are present.
fn touch_named<M: Memory>(m: &mut M, block: &Located)
    requires stands { IsStanding (M.state m.old) }
    requires named { (class : ℕ) × IsNamedBlock (M.state m.old).mem block.now class }
    ensures ready { MayUnlink (M.state m.new) block.now }
    ensures mem { (M.state m.new).mem ≡ (M.state m.old).mem }
    ensures most { (M.state m.new).most ≡ (M.state m.old).most }
    ensures keeps { IsKept (M.state m.old) (M.state m.new) store_cells }
    ensures aside { M.aside m.new ≡ M.aside m.old }
    ensures went { M.went m.old m.new }
{
    touch_present(m, block.link, 8);
    touch_present(m, block.at, 8);
    touch_present(m, HEADER, HEADER_SIZE);
}

// Takes a block out of its chain, gives it back, and counts one pair less.
fn unlink<M: Memory>(m: &mut M, block: &Located, class: u8, pairs: u64)
    requires stands { IsStanding (M.state m.old) }
    requires named { IsNamedBlock (M.state m.old).mem block.now class }
    requires ready { MayUnlink (M.state m.old) block.now }
    requires pairs { pairs ≡ word_at (M.state m.old).mem pairs_field }
    ensures stored { (M.state m.new ≡ unlinked (M.state m.old) block.now class pairs)
        × (pairs < 2 ^ 64) }
    ensures keeps { IsKept (M.state m.old) (M.state m.new) [] }
    ensures aside { M.aside m.new ≡ M.aside m.old }
    ensures went { M.went m.old m.new }
{
    store_word(m, block.link, block.next);
    free(m, block.at, class);
    store_word(m, PAIRS_FIELD, pairs - 1);
}
