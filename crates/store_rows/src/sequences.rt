//! Made sequences of calls on a store, compared after each call with an ordered map of std.
ghost use Rattle.std.specs.Prelude.{◌<◌, ◌≤◌, length};
ghost use Rattle.store_meaning.specs.Standing.{IsStanding};

use crate::dice::{Dice, TEXT, key_of};
use crate::kernels::kernel_store;
use crate::{flat_store, list_of};
use frame_pool::{DenyNth, FramePolicy};
use page_hash::{clear, get, len, put, remove};
use std::alloc::Global;
use std::collections::BTreeMap;
use std::test::Fail;
use vm_base::{Memory, NoMemory};

const SEQUENCES: u64 = 2000;

type Pairs = BTreeMap<Vec<u8>, Vec<u8>>;

/// How long a sequence is, and how many keys its calls take.
#[derive(Clone, Copy, Debug)]
struct Size {
    calls: u32,
    keys: u64,
}

// Most sequences have few keys, so that a call often meets a pair. Some have more than buckets.
fn size_of(seed: u64) -> Size
    ensures some { 0 < result.keys }
    ensures few { result.keys ≤ 1000 }
{
    if seed % 500 == 0 {
        Size {
            calls: 2000,
            keys: 1000,
        }
    } else {
        Size {
            calls: 30,
            keys: 12,
        }
    }
}

/// What a call on a store came to, beside the same one on a map.
#[derive(Clone, Copy, Debug)]
enum Called {
    Same,
    Other,
    /// A put that was refused, and is none of the map.
    Refused,
}

// Makes one call on a store and on a map.
fn call_both<M: Memory>(
    alloc: Global,
    m: &mut M,
    map: &mut Pairs,
    dice: &mut Dice,
    text: &[u8; TEXT],
    keys: u64,
) -> Result<Called, NoMemory>
    requires stands { IsStanding (M.state m.old) }
    requires some { 0 < keys }
    requires few { keys ≤ 1024 }
    ensures stands { IsStanding (M.state m.new) }
{
    let key = dice.key(text, keys);
    match dice.below(64) {
        0..40 => {
            let value = dice.value(text);
            if put(m, key, value).is_err() {
                return Ok(Called::Refused);
            }
            map.insert(Vec::from_slice(alloc, key)?, Vec::from_slice(alloc, value)?)?;
        }
        40..60 => {
            if remove(m, key) != map.remove(key).is_some() {
                return Ok(Called::Other);
            }
        }
        60 => {
            clear(m);
            map.clear();
        }
        _ => {}
    }
    Ok(Called::Same)
}

// Whether a store has for a key what a map has.
fn has_same<M: Memory>(m: &mut M, map: &Pairs, key: &[u8], buf: &mut [u8; TEXT]) -> bool
    requires stands { IsStanding (M.state m.old) }
    requires key { length key.now ≤ 512 }
    ensures stands { IsStanding (M.state m.new) }
{
    match (get(m, key, buf), map.get(key)) {
        (None, None) => true,
        (Some(length), Some(value)) => {
            length as usize == value.len() && buf.starts_with(value.as_slice())
        }
        _ => false,
    }
}

// Whether a store and a map have the same for twelve keys, from this one on.
fn have_same<M: Memory>(m: &mut M, map: &Pairs, first: usize, text: &[u8; TEXT]) -> bool
    requires stands { IsStanding (M.state m.old) }
    requires few { first ≤ 1000 }
    ensures stands { IsStanding (M.state m.new) }
{
    let mut buf = [0; TEXT];
    for number in first..first + 12 {
        if !has_same(m, map, key_of(text, number), &mut buf) {
            return false;
        }
    }
    true
}

// Whether a store and a map have as many pairs, and the same for twelve keys, from a drawn one on.
fn agree<M: Memory>(m: &mut M, map: &Pairs, dice: &mut Dice, text: &[u8; TEXT], keys: u64) -> bool
    requires stands { IsStanding (M.state m.old) }
    requires some { 0 < keys }
    requires few { keys ≤ 1000 }
    ensures stands { IsStanding (M.state m.new) }
{
    let first = dice.below(keys) as usize;
    let are_same = have_same(m, map, first, text);
    let count = len(m);
    are_same && count == map.len() as u64
}

// Whether a store lists just the pairs of a map, in their order.
fn lists_same<M: Memory>(alloc: Global, m: &mut M, map: &Pairs) -> Result<bool, Fail>
    requires stands { IsStanding (M.state m.old) }
    ensures stands { IsStanding (M.state m.new) }
{
    let list = list_of(alloc, m)?;
    let mut place = 0usize;
    for (key, value) in map.iter() {
        if place >= list.len()
            || list.key(place) != key.as_slice()
            || list.value(place) != value.as_slice()
        {
            return Ok(false);
        }
        place += 1;
    }
    Ok(place == list.len())
}

// Runs a sequence, and answers how many puts were refused, where store and map agreed behind each
// call.
fn run<M: Memory>(alloc: Global, m: &mut M, seed: u64) -> Result<Option<u64>, Fail>
    requires stands { IsStanding (M.state m.old) }
{
    let size = size_of(seed);
    let mut dice = Dice::new(seed);
    let text = dice.text();
    let mut map = BTreeMap::new(alloc);
    let mut refused = 0u64;
    for _ in 0..size.calls {
        match call_both(alloc, m, &mut map, &mut dice, &text, size.keys)? {
            Called::Same => {}
            Called::Other => return Ok(None),
            Called::Refused => refused = refused.saturating_add(1),
        }
        if !agree(m, &map, &mut dice, &text, size.keys) {
            return Ok(None);
        }
    }
    let is_listed = lists_same(alloc, m, &map)?;
    Ok(is_listed.then_some(refused))
}

// The frames that a sequence may have.
fn frames_of(seed: u64) -> u16 {
    if size_of(seed).keys > 100 { 2048 } else { 96 }
}

// A sequence on a flat memory. It has no policy: every third one has few pages.
fn run_on_flat(alloc: Global, seed: u64) -> Result<Option<u64>, Fail> {
    let pages = if seed % 3 == 0 { 3 } else { frames_of(seed) };
    let mut flat = flat_store(alloc, u32::from(pages))?;
    run(alloc, &mut flat, seed)
}

#[test]
fn sequences_on_flat_memories_do_what_they_do_to_an_ordered_map(
    rt: HostRuntime,
) -> Result<(), Fail> {
    let mut refused = 0u64;
    for seed in 0..SEQUENCES {
        let Some(some) = run_on_flat(rt.alloc(), seed)? else {
            return Err(Fail::from(seed));
        };
        refused = refused.saturating_add(some);
    }
    // So many that most of those memories refused some.
    assert!(rt; refused > SEQUENCES);
    Ok(())
}

// For every third sequence three policies, each of which refuses a request behind the opening.
fn policies_of(alloc: Global, seed: u64) -> Result<Vec<Box<dyn FramePolicy + Send>>, NoMemory> {
    let mut policies: Vec<Box<dyn FramePolicy + Send>> = Vec::new(alloc);
    if seed % 3 == 0 {
        for nth in [6 + seed % 7, 10 + seed % 11, 14 + seed % 13] {
            policies.push(Box::new(alloc, DenyNth::new(nth))?)?;
        }
    }
    Ok(policies)
}

// A sequence on a kernel.
fn run_on_kernel(alloc: Global, seed: u64) -> Result<Option<u64>, Fail> {
    let policies = policies_of(alloc, seed)?;
    let mut kernel = kernel_store(alloc, frames_of(seed), policies)?;
    run(alloc, &mut kernel, seed)
}

#[test]
fn sequences_on_kernels_do_what_they_do_to_an_ordered_map(rt: HostRuntime) -> Result<(), Fail> {
    let mut refused = 0u64;
    for seed in 0..SEQUENCES {
        let Some(some) = run_on_kernel(rt.alloc(), seed)? else {
            return Err(Fail::from(seed));
        };
        refused = refused.saturating_add(some);
    }
    // More than one in each of those sequences.
    assert!(rt; refused > SEQUENCES / 3);
    Ok(())
}
