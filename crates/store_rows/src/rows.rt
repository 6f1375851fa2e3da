//! Where the first pairs lie, and what a doubling leaves.
ghost use Rattle.store_meaning.specs.Standing.{IsStanding};

use crate::fills::{fill, has_pairs};
use crate::kernels::kernel_store;
use crate::{flat_store, list_of, word_at};
use flat_memory::Flat;
use page_hash::{put, remove};
use std::alloc::Global;
use std::test::Fail;
use vm_base::{Fault, Memory, Perm};

const TOP: u64 = 0x20_0000;

const FREE_OF_CLASS_5: u64 = 0x20_0008;

const ARRAY: u64 = 0x20_0090;

const BUCKETS: u64 = 0x20_0098;

const PAIRS: u64 = 0x20_00a0;

const HEAP: u64 = 0x2_0000_0000;

// The words of the buckets of `a` and `b`, 140 and 421 of 512.
const BUCKET_OF_A: u64 = 0x8000_0460;

const BUCKET_OF_B: u64 = 0x8000_0d28;

// The top, the first free block of class 5, both buckets, and how many pairs there are.
fn words<M: Memory>(m: &mut M) -> Result<[u64; 5], Fault>
    requires stands { IsStanding (M.state m.old) }
    ensures stands { IsStanding (M.state m.new) }
{
    Ok([
        word_at(m, TOP)?,
        word_at(m, FREE_OF_CLASS_5)?,
        word_at(m, BUCKET_OF_A)?,
        word_at(m, BUCKET_OF_B)?,
        word_at(m, PAIRS)?,
    ])
}

/// The words of a store behind a first put, behind the removal of its pair, and behind a put of
/// another pair as long.
#[derive(Clone, Copy, Debug, PartialEq, Eq)]
struct UsedAgain {
    put: [u64; 5],
    removed: [u64; 5],
    put_again: [u64; 5],
}

const USED_AGAIN: UsedAgain = UsedAgain {
    put: [HEAP + 32, 0, HEAP, 0, 1],
    removed: [HEAP + 32, HEAP, 0, 0, 0],
    put_again: [HEAP + 32, 0, 0, HEAP, 1],
};

// Uses a block again.
fn use_again<M: Memory>(m: &mut M) -> Result<UsedAgain, Fail>
    requires stands { IsStanding (M.state m.old) }
{
    put(m, b"a", b"1")?;
    let first = words(m)?;
    remove(m, b"a");
    let removed = words(m)?;
    put(m, b"b", b"1")?;
    Ok(UsedAgain {
        put: first,
        removed,
        put_again: words(m)?,
    })
}

// Uses a block again in a kernel.
fn use_again_in_a_kernel(alloc: Global) -> Result<UsedAgain, Fail> {
    let mut kernel = kernel_store(alloc, 64, Vec::new(alloc))?;
    use_again(&mut kernel)
}

#[test]
fn a_block_is_used_again(rt: HostRuntime) -> Result<(), Fail> {
    let mut flat = flat_store(rt.alloc(), 64)?;
    assert_eq!(rt; use_again(&mut flat)?, USED_AGAIN);
    assert_eq!(rt; use_again_in_a_kernel(rt.alloc())?, USED_AGAIN);
    Ok(())
}

/// How many frames a kernel holds where a store has begun, behind a first put, and where another
/// pair took the block of the first.
#[derive(Clone, Copy, Debug, PartialEq, Eq)]
struct Held {
    begun: u32,
    put: u32,
    put_again: u32,
}

// The frames that are held. Each put has all that it needs, or its count is one of too few frames.
fn held_behind_puts(alloc: Global) -> Result<Held, Fail> {
    let mut kernel = kernel_store(alloc, 64, Vec::new(alloc))?;
    let begun = kernel.held();
    let _first = put(&mut kernel, b"a", b"1");
    let first = kernel.held();
    remove(&mut kernel, b"a");
    let _second = put(&mut kernel, b"b", b"1");
    Ok(Held {
        begun,
        put: first,
        put_again: kernel.held(),
    })
}

#[test]
fn a_block_that_is_used_again_takes_no_frame(rt: HostRuntime) -> Result<(), Fail> {
    // A page of the header, and the four tables above it; then a page of buckets and one of blocks,
    // with a middle and a leaf table above each.
    let expected = Held {
        begun: 5,
        put: 11,
        put_again: 11,
    };
    assert_eq!(rt; held_behind_puts(rt.alloc())?, expected);
    Ok(())
}

/// What a store tells behind 513 puts: where its array lies, how many buckets it has, what the
/// first region's first word is, and whether it lists just the pairs that were put.
#[derive(Clone, Copy, Debug, PartialEq, Eq)]
struct Doubled {
    array: u64,
    buckets: u64,
    first_region: Result<u64, Fault>,
    is_whole: bool,
}

// Puts 513 pairs.
fn put_513<M: Memory>(alloc: Global, m: &mut M) -> Result<Doubled, Fail>
    requires stands { IsStanding (M.state m.old) }
{
    fill(m, 513)?;
    let list = list_of(alloc, m)?;
    Ok(Doubled {
        array: word_at(m, ARRAY)?,
        buckets: word_at(m, BUCKETS)?,
        first_region: word_at(m, 0x8000_0000),
        is_whole: has_pairs(&list, 513),
    })
}

// Puts 513 pairs into a kernel.
fn put_513_into_a_kernel(alloc: Global) -> Result<Doubled, Fail> {
    let mut kernel = kernel_store(alloc, 64, Vec::new(alloc))?;
    put_513(alloc, &mut kernel)
}

#[test]
fn the_513th_pair_doubles_the_array(rt: HostRuntime) -> Result<(), Fail> {
    let expected = Doubled {
        array: 0x1_0000_0000,
        buckets: 1024,
        first_region: Err(Fault::NoArea(0x8_0000)),
        is_whole: true,
    };
    let mut flat = flat_store(rt.alloc(), 64)?;
    assert_eq!(rt; put_513(rt.alloc(), &mut flat)?, expected);
    assert_eq!(rt; put_513_into_a_kernel(rt.alloc())?, expected);
    Ok(())
}

#[test]
fn a_flat_memory_of_one_page_refuses_a_second(rt: HostRuntime) -> Result<(), Fail> {
    let mut flat = Flat::new(rt.alloc(), 1, 0)?;
    flat.map(7, 2, Perm::ReadWrite)?;
    flat.touch(0x7000, 4096)?;
    assert_eq!(rt;
        flat.touch(0x8000, 1),
        Err(Fault::NoFrame { at: 1, page: 8 })
    );
    Ok(())
}
