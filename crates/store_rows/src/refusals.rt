//! A put while one request for a frame is refused, each one in turn.
ghost use Rattle.std.specs.Prelude.{◌≤◌, IfOk, length};
ghost use Rattle.store_meaning.specs.Standing.{IsStanding};

use crate::fills::{are_same, has_more, has_pairs, pair_of};
use crate::kernels::kernel_store;
use crate::{list_of, word_at};
use frame_pool::{DenyNth, FramePolicy};
use page_hash::{get, put};
use std::alloc::Global;
use std::test::Fail;
use trace_core::Kernel;
use vm_base::{Memory, Refused};

const BUCKETS: u64 = 0x20_0098;

// The requests of a new kernel's store: a page of the header, and the four tables above it.
const OPENING: u64 = 5;

// A store in a kernel that refuses the request of this number behind the opening.
fn refusing(alloc: Global, nth: u64) -> Result<Kernel, Fail>
    requires few { nth ≤ 65536 }
    ensures stands { IfOk result (λ kernel. IsStanding (⟦<Kernel as Memory>⟧.state kernel)) }
{
    let mut policies: Vec<Box<dyn FramePolicy + Send>> = Vec::new(alloc);
    policies.push(Box::new(alloc, DenyNth::new(OPENING + nth))?)?;
    kernel_store(alloc, 256, policies)
}

/// What became of a put.
#[derive(Clone, Copy, Debug, PartialEq, Eq)]
enum End {
    Made,
    /// The store has the pairs that it had.
    Refused,
    /// The pairs are others than the answer tells.
    Wrong,
}

// How a put ended, by its answer and by the pairs before it and behind it.
fn put_on<M: Memory>(alloc: Global, m: &mut M, key: &[u8], value: &[u8]) -> Result<End, Fail>
    requires stands { IsStanding (M.state m.old) }
    requires key { length key.now ≤ 65536 }
    requires value { length value.now ≤ 1048576 }
    ensures stands { IsStanding (M.state m.new) }
{
    let before = list_of(alloc, m)?;
    let answer = put(m, key, value);
    let behind = list_of(alloc, m)?;
    Ok(match answer {
        Err(_) if are_same(&before, &behind) => End::Refused,
        Ok(()) if has_more(&before, &behind, key, value) => End::Made,
        _ => End::Wrong,
    })
}

// How the first put of a store ended, and the same one once more.
fn put_twice<M: Memory>(alloc: Global, m: &mut M) -> Result<(End, End), Fail>
    requires stands { IsStanding (M.state m.old) }
{
    let first = put_on(alloc, m, b"a", b"1")?;
    Ok((first, put_on(alloc, m, b"a", b"1")?))
}

// The same in a kernel that refuses a request.
fn put_twice_refusing(alloc: Global, nth: u64) -> Result<(End, End), Fail>
    requires few { nth ≤ 65536 }
{
    let mut kernel = refusing(alloc, nth)?;
    put_twice(alloc, &mut kernel)
}

#[test]
fn a_put_that_is_refused_leaves_the_pairs(rt: HostRuntime) -> Result<(), Fail> {
    // A page of buckets and one of blocks, with a middle and a leaf table above each.
    for nth in 1..7 {
        let ends = put_twice_refusing(rt.alloc(), nth)?;
        assert_eq!(rt; ends, (End::Refused, End::Made), "request {nth}");
    }
    assert_eq!(rt; put_twice_refusing(rt.alloc(), 7)?, (End::Made, End::Made));
    Ok(())
}

// A put of a value of another class behind a first put, and how long the value is then.
fn put_into_another_class<M: Memory>(alloc: Global, m: &mut M) -> Result<(End, Option<u32>), Fail>
    requires stands { IsStanding (M.state m.old) }
{
    put(m, b"a", b"1")?;
    let value = vec![in alloc; b'x'; 20_000]?;
    let end = put_on(alloc, m, b"a", &value)?;
    Ok((end, get(m, b"a", &mut [])))
}

// The same in a kernel that refuses a request. The first put makes six.
fn another_class_refusing(alloc: Global, nth: u64) -> Result<(End, Option<u32>), Fail>
    requires few { nth ≤ 65536 }
{
    let mut kernel = refusing(alloc, nth)?;
    put_into_another_class(alloc, &mut kernel)
}

#[test]
fn a_put_into_another_class_that_is_refused_leaves_the_pairs(rt: HostRuntime) -> Result<(), Fail> {
    // The new block begins behind the old one, on the same page, and goes on over four more.
    for nth in 7..11 {
        let refused = another_class_refusing(rt.alloc(), nth)?;
        assert_eq!(rt; refused, (End::Refused, Some(1)), "request {nth}");
    }
    let made = another_class_refusing(rt.alloc(), 11)?;
    assert_eq!(rt; made, (End::Made, Some(20_000)));
    Ok(())
}

// Puts the pair of a number, and once more where that is refused.
fn put_number<M: Memory>(m: &mut M, number: u32) -> Result<(), Refused>
    requires stands { IsStanding (M.state m.old) }
    ensures stands { IsStanding (M.state m.new) }
{
    let (key, value) = pair_of(number);
    if put(m, &key, &value).is_ok() {
        return Ok(());
    }
    put(m, &key, &value)
}

// Puts the pairs of the numbers below this one, and each that is refused once more.
fn fill_again<M: Memory>(m: &mut M, count: u32) -> Result<(), Refused>
    requires stands { IsStanding (M.state m.old) }
    ensures stands { IsStanding (M.state m.new) }
{
    for number in 0..count {
        put_number(m, number)?;
    }
    Ok(())
}

/// How the put ended that is due to double the array, how many buckets there are behind it, and
/// whether the store has just the pairs that were put.
#[derive(Clone, Copy, Debug, PartialEq, Eq)]
struct Doubling {
    end: End,
    buckets: u64,
    is_whole: bool,
}

// The 513th put.
fn put_the_513th<M: Memory>(alloc: Global, m: &mut M) -> Result<Doubling, Fail>
    requires stands { IsStanding (M.state m.old) }
{
    fill_again(m, 512)?;
    let (key, value) = pair_of(512);
    let end = put_on(alloc, m, &key, &value)?;
    let pairs = if end == End::Made { 513 } else { 512 };
    let list = list_of(alloc, m)?;
    Ok(Doubling {
        end,
        buckets: word_at(m, BUCKETS)?,
        is_whole: has_pairs(&list, pairs),
    })
}

// The same where this request behind the opening is refused, and how many frames are held then.
fn doubling_refusing(alloc: Global, nth: u64) -> Result<(Doubling, u32), Fail>
    requires few { nth ≤ 65536 }
{
    let mut kernel = refusing(alloc, nth)?;
    let doubling = put_the_513th(alloc, &mut kernel);
    let held = kernel.held();
    doubling.map(|doubling| (doubling, held))
}

#[test]
fn a_doubling_that_is_refused_is_no_refusal_of_the_put(rt: HostRuntime) -> Result<(), Fail> {
    for nth in 1..17 {
        // Behind 512 puts 14 frames are held: 5 of the opening, 6 of the first put, and 3 pages of
        // blocks.
        let (end, buckets, held) = match nth {
            // The block of the 513th pair begins a page.
            10 => (End::Refused, 512, 14),
            // A middle table, a leaf table, and the two pages of the new array, all given back.
            11..15 => (End::Made, 512, 15),
            // Those four are held, and the old array's page and its two tables no longer.
            _ => (End::Made, 1024, 16),
        };
        let expected = Doubling {
            end,
            buckets,
            is_whole: true,
        };
        assert_eq!(rt;
            doubling_refusing(rt.alloc(), nth)?,
            (expected, held),
            "request {nth}"
        );
    }
    Ok(())
}
