//! How often the calls on a store call its memory.
ghost use Rattle.std.specs.Prelude.{◌≡◌, ◌≤◌, length};
ghost use Rattle.store_meaning.specs.Standing.{IsStanding};

use crate::fills::{fill, pair_of};
use crate::{flat_store, list_of};
use memory_views::{CallCounts, Counted};
use page_hash::{get, put};
use std::test::Fail;
use vm_base::{Memory, Refused};

// A store that counts.
fn counted<M: Memory>(memory: M) -> Counted<M>
    requires stands { IsStanding (M.state memory) }
    ensures stands { IsStanding (M.state result.memory) }
{
    Counted::new(memory)
}

// Whether there were so many reads, touches and stores at most, and no areas were changed.
fn are_within(calls: CallCounts, reads: u64, touches: u64, stores: u64) -> bool {
    let are_few = calls.reads <= reads && calls.touches <= touches && calls.stores <= stores;
    are_few && calls.maps == 0 && calls.unmaps == 0 && calls.protects == 0
}

// Counts from here on.
fn count_anew<M: Memory>(m: &mut Counted<M>)
    requires stands { IsStanding (M.state m.old.memory) }
    ensures stands { IsStanding (M.state m.new.memory) }
{
    m.take_calls();
}

// The calls of a put.
fn calls_of_put<M: Memory>(
    m: &mut Counted<M>,
    key: &[u8],
    value: &[u8],
) -> Result<CallCounts, Refused>
    requires stands { IsStanding (M.state m.old.memory) }
    requires key { length key.now ≤ 65536 }
    requires value { length value.now ≤ 1048576 }
    ensures stands { IsStanding (M.state m.new.memory) }
{
    m.take_calls();
    let answer = put(m, key, value);
    let calls = m.take_calls();
    answer.map(|()| calls)
}

// The calls of a put of the pair of a number.
fn calls_of_put_number<M: Memory>(m: &mut Counted<M>, number: u32) -> Result<CallCounts, Refused>
    requires stands { IsStanding (M.state m.old.memory) }
{
    let (key, value) = pair_of(number);
    calls_of_put(m, &key, &value)
}

// The calls of a get, into a buffer of 100 bytes.
fn calls_of_get<M: Memory>(m: &mut Counted<M>, key: &[u8]) -> CallCounts
    requires stands { IsStanding (M.state m.old.memory) }
    requires key { length key.now ≤ 65536 }
    ensures stands { IsStanding (M.state m.new.memory) }
{
    m.take_calls();
    let mut buf = [0; 100];
    get(m, key, &mut buf);
    m.take_calls()
}

#[test]
fn a_get_reads_four_times_and_once_for_each_further_block(rt: HostRuntime) -> Result<(), Fail> {
    let mut m = counted(flat_store(rt.alloc(), 64)?);
    // All of bucket 140, and the last one stands in front.
    put(&mut m, b"a", b"1")?;
    put(&mut m, b"d7", b"1")?;
    put(&mut m, b"gb", b"1")?;
    assert!(rt; are_within(calls_of_get(&mut m, b"gb"), 4, 0, 0));
    assert!(rt; are_within(calls_of_get(&mut m, b"d7"), 5, 0, 0));
    assert!(rt; are_within(calls_of_get(&mut m, b"a"), 6, 0, 0));
    // A key that is not there has no value to read.
    assert!(rt; are_within(calls_of_get(&mut m, b"jy"), 5, 0, 0));
    Ok(())
}

#[test]
fn a_put_calls_its_memory_a_few_times(rt: HostRuntime) -> Result<(), Fail> {
    let mut m = counted(flat_store(rt.alloc(), 64)?);
    // A new key, in a bucket without blocks.
    assert!(rt; are_within(calls_of_put(&mut m, b"a", b"1")?, 6, 3, 5));
    // In place: a value as long as the old one, and a longer one.
    assert!(rt; are_within(calls_of_put(&mut m, b"a", b"2")?, 3, 1, 2));
    assert!(rt; are_within(calls_of_put(&mut m, b"a", b"3 is longer")?, 3, 1, 2));
    // Another class: the old block becomes free, and a new key of its class takes it.
    assert!(rt; are_within(calls_of_put(&mut m, b"a", &[b'4'; 40])?, 7, 4, 6));
    assert!(rt; are_within(calls_of_put(&mut m, b"b", b"1")?, 6, 3, 5));
    Ok(())
}

#[test]
fn a_list_reads_twice_for_each_pair(rt: HostRuntime) -> Result<(), Fail> {
    let mut m = counted(flat_store(rt.alloc(), 64)?);
    fill(&mut m, 100)?;
    count_anew(&mut m);
    let list = list_of(rt.alloc(), &mut m)?;
    assert_eq!(rt; list.len(), 100);
    // The header's fields, and the array's one page.
    assert!(rt; are_within(m.take_calls(), 2 + 2 * 100, 0, 0));
    Ok(())
}

#[test]
fn a_doubling_reads_touches_and_stores_each_block_once(rt: HostRuntime) -> Result<(), Fail> {
    let mut m = counted(flat_store(rt.alloc(), 64)?);
    fill(&mut m, 512)?;
    let calls = calls_of_put_number(&mut m, 512)?;
    assert_eq!(rt; (calls.maps, calls.unmaps), (1, 1));
    // Those of the put, and of the header and the new array; each of 513 blocks once; and one read
    // and two stores for the one page of buckets.
    assert!(rt; calls.reads <= 6 + 3 + 513 + 1);
    assert!(rt; calls.touches <= 3 + 2 + 513);
    assert!(rt; calls.stores <= 5 + 1 + 513 + 2);
    Ok(())
}
