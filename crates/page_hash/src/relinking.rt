//! A chain of the old array that is linked anew as two of the new one.
ghost use Rattle.std.specs.Prelude.{◌≡◌, ◌+◌, ◌*◌, ◌%◌, ◌≤◌, ◌<◌, ◌^◌, List};
ghost use Rattle.store_meaning.specs.Layout.{heap_at, heap_end};
ghost use Rattle.store_meaning.specs.HeapLayout.{ArePresent};
ghost use Rattle.store_meaning.specs.HashLayout.{Entry};
ghost use Rattle.page_hash.specs.Relinking.{MayRelink, KeepsPlace, IsChainOf, Splits, with_word};

use crate::block_head::block_head;
use crate::words::store_word;
use vm_base::Memory;

// Links the blocks of a bucket's chain anew, from its front: each goes in front of the new chain
// that its key belongs to. The answer has the first blocks of the lower and of the upper one.
pub fn relink_chain<M: Memory>(
    m: &mut M,
    first: u64,
    pairs: u64,
    bucket: u64,
    buckets: u64,
) -> [u64; 2]
    requires may { MayRelink (M.state m.old) }
    requires chain { (chain : List Entry)
        × IsChainOf (M.state m.old).mem first pairs buckets bucket chain }
    requires few { (0 < buckets) × (buckets ≤ 2 ^ 24) }
    ensures splits { (chain : List Entry)
        → IsChainOf (M.state m.old).mem first pairs buckets bucket chain
        → Splits (M.state m.old).mem (M.state m.new).mem result buckets bucket chain }
    ensures keeps { KeepsPlace (M.state m.old) (M.state m.new) }
    ensures aside { M.aside m.new ≡ M.aside m.old }
    ensures went { M.went m.old m.new }
{
    let mut heads = [0; 2];
    let mut at = first;
    let mut left = pairs;
    while at != 0 {
        let block = block_head(m, at);
        let side = side_of(block.hash, bucket, buckets);
        relink_block(m, at, heads[side]);
        heads[side] = at;
        at = block.next;
        left -= 1;
    }
    heads
}

// Which of the two buckets that one becomes has a key of this hash: 0 for the lower one.
fn side_of(hash: u64, bucket: u64, buckets: u64) -> usize
    requires few { (0 < buckets) × (buckets ≤ 2 ^ 24) }
    ensures lower { hash % (2 * buckets) ≡ bucket → result ≡ 0 }
    ensures upper { hash % (2 * buckets) ≡ bucket + buckets → result ≡ 1 }
    ensures either { result < 2 }
{
    if hash % (2 * buckets) == bucket {
        return 0;
    }
    1
}

// Makes the block in front of another one. Its first word is present, so the touch is not refused.
fn relink_block<M: Memory>(m: &mut M, at: u64, next: u64)
    requires may { MayRelink (M.state m.old) }
    requires within { (heap_at ≤ at) × (at + 8 ≤ heap_end) }
    requires present { ArePresent (M.state m.old).mem at 8 }
    ensures linked { (M.state m.new).mem ≡ with_word (M.state m.old).mem at next }
    ensures keeps { KeepsPlace (M.state m.old) (M.state m.new) }
    ensures aside { M.aside m.new ≡ M.aside m.old }
    ensures went { M.went m.old m.new }
{
    let _present = m.touch(at, 8);
    store_word(m, at, next);
}
