//! The chains of the old array, linked anew into the new one, by pages of buckets.
ghost use Rattle.std.specs.Prelude.{◌≡◌, ◌+◌, ◌*◌, ◌≤◌, length};
ghost use Rattle.vm_base.specs.FlatMemory.{bytes_at};
ghost use Rattle.vm_base.specs.MemoryCalls.{IsReady};
ghost use Rattle.store_meaning.specs.HashLayout.{Table};
ghost use Rattle.page_hash.specs.Relinking.{MayRelink, KeepsPlace};
ghost use Rattle.page_hash.specs.ArrayRelinking.{IsOldTable, RelinksPart, SplitsPart};

use crate::arrays::Arrays;
use crate::page_words::{set_word, word_at_place};
use crate::relinking::relink_chain;
use crate::words::read_area;
use vm_base::Memory;

// Links all chains anew, buckets in rising order.
pub fn relink_all<M: Memory>(m: &mut M, arrays: &Arrays)
    requires may { MayRelink (M.state m.old) }
    requires table { (table : Table) × IsOldTable (M.state m.old).mem arrays.now table 0 }
    requires ready { IsReady (M.state m.old) arrays.now.new (16 * arrays.now.buckets) }
    ensures relinks { (table : Table) → IsOldTable (M.state m.old).mem arrays.now table 0
        → RelinksPart (M.state m.old).mem
        (M.state m.new).mem arrays.now table 0 arrays.now.buckets }
    ensures keeps { KeepsPlace (M.state m.old) (M.state m.new) }
    ensures aside { M.aside m.new ≡ M.aside m.old }
    ensures went { M.went m.old m.new }
{
    for page in 0..arrays.buckets / 512 {
        relink_page(m, arrays, 512 * page);
    }
}

// Links the chains of a page of buckets anew, the first of which is given, as those of two pages.
fn relink_page<M: Memory>(m: &mut M, arrays: &Arrays, bucket: u64)
    requires may { MayRelink (M.state m.old) }
    requires table { (table : Table) × IsOldTable (M.state m.old).mem arrays.now table bucket }
    requires ready { IsReady (M.state m.old) arrays.now.new (16 * arrays.now.buckets) }
    requires page { bucket + 512 ≤ arrays.now.buckets }
    ensures relinks { (table : Table) → IsOldTable (M.state m.old).mem arrays.now table bucket
        → RelinksPart (M.state m.old).mem
        (M.state m.new).mem arrays.now table bucket (bucket + 512) }
    ensures keeps { KeepsPlace (M.state m.old) (M.state m.new) }
    ensures aside { M.aside m.new ≡ M.aside m.old }
    ensures went { M.went m.old m.new }
{
    let mut firsts = [0; 4096];
    let mut lower = [0; 4096];
    let mut upper = [0; 4096];
    read_area(m, arrays.old + 8 * bucket, &mut firsts);
    split_page(m, arrays, bucket, &firsts, &mut lower, &mut upper);
    m.store(arrays.new + 8 * bucket, &lower);
    m.store(arrays.new + 8 * (arrays.buckets + bucket), &upper);
}

// Links the chains of a page of buckets anew, by their first blocks. Two pages get the first blocks
// of the new chains.
fn split_page<M: Memory>(
    m: &mut M,
    arrays: &Arrays,
    bucket: u64,
    firsts: &[u8],
    lower: &mut [u8],
    upper: &mut [u8],
)
    requires may { MayRelink (M.state m.old) }
    requires table { (table : Table) × IsOldTable (M.state m.old).mem arrays.now table bucket }
    requires words { firsts.now
        ≡ bytes_at (M.state m.old).mem.present (arrays.now.old + 8 * bucket) 4096 }
    requires page { (bucket + 512 ≤ arrays.now.buckets)
        × (length lower.old ≡ 4096) × (length upper.old ≡ 4096) }
    ensures splits { (table : Table) → IsOldTable (M.state m.old).mem arrays.now table bucket
        → SplitsPart (M.state m.old).mem
        (M.state m.new).mem arrays.now table bucket (bucket + 512) lower.new upper.new }
    ensures keeps { KeepsPlace (M.state m.old) (M.state m.new) }
    ensures aside { M.aside m.new ≡ M.aside m.old }
    ensures went { M.went m.old m.new }
{
    for place in 0..512 {
        let first = word_at_place(firsts, place);
        let heads = relink_chain(
            m,
            first,
            arrays.pairs,
            bucket + place as u64,
            arrays.buckets,
        );
        set_word(lower, place, heads[0]);
        set_word(upper, place, heads[1]);
    }
}
