//! Pairs in rising order of keys.
ghost use Rattle.std.specs.Prelude.{◌≡◌, ◌<◌, ◌≤◌, ◌==◌, [], ◌∷◌, ◌++◌, length, slice_index_or, OnOk, OnErr};
ghost use Rattle.image_text.specs.Pairs.{pairs_between, ArePairEnds, pair_start};

use crate::pair_end::PairEnd;
use std::alloc::Global;
use std::marker::Model;
use vm_base::NoMemory;

/// Pairs of a key and a value with strictly rising keys. Contracts see the list of pairs.
#[derive(Debug, Drop)]
pub struct PairList {
    bytes: Vec<u8>,
    ends: Vec<PairEnd>,
}

impl Model for PairList {
    ghost use Rattle.std.specs.Prelude.{List, ℕ, length};
    ghost use Rattle.image_text.specs.Pairs.{pairs_between, ArePairEnds};
    ghost use Rattle.image_text.specs.Image.{HasImage};

    ghost Value = { List (List ℕ × List ℕ) };

    ghost view = { λ p. pairs_between 0 p.bytes.items p.ends.items };

    ghost invariant = { λ p. ArePairEnds 0 p.ends.items (length p.bytes.items)
        × HasImage (pairs_between 0 p.bytes.items p.ends.items) };
}

impl PairList {
    ghost use Rattle.image_text.specs.Image.{IsBehind, HasImage};

    /// A list without pairs, which takes no memory yet.
    pub fn new(alloc: Global) -> Self
        ensures { result ≡ [] }
    {
        PairList {
            bytes: Vec::new(alloc),
            ends: Vec::new(alloc),
        }
    }

    /// Adds a pair behind the others. After `NoMemory` the list is as it was.
    pub fn push(&mut self, key: &[u8], value: &[u8]) -> Result<(), NoMemory>
        requires fewer { length self.old < 268435456 }
        requires greater { IsBehind self.old key.now }
        requires key_fits { length key.now ≤ 65536 }
        requires value_fits { length value.now ≤ 1048576 }
        ensures added { OnOk result (self.new ≡ self.old ++ (key.now, value.now) ∷ []) }
        ensures no_memory { OnErr result (self.new ≡ self.old) }
    {
        self.ends.reserve(1)?;
        self.bytes.reserve(key.len() + value.len())?;
        self.bytes.extend_from_slice(key)?;
        let key = self.bytes.len();
        self.bytes.extend_from_slice(value)?;
        let value = self.bytes.len();
        self.ends.push_reserved(PairEnd { key, value });
        Ok(())
    }

    /// How many pairs there are.
    pub fn len(&self) -> usize
        ensures count { result ≡ length self.now }
        ensures image { HasImage self.now }
    {
        self.ends.len()
    }

    pub fn is_empty(&self) -> bool
        ensures { result ≡ (length self.now == 0) }
    {
        self.ends.is_empty()
    }

    /// The key at a place, counted from 0.
    pub fn key(&self, i: usize) -> &[u8]
        requires { i < length self.now }
        ensures key { result.now ≡ (slice_index_or self.now i ([], [])).0 }
        ensures fits { length result.now ≤ 65536 }
    {
        key_at(&self.bytes, &self.ends, i)
    }

    /// The value at a place, counted from 0.
    pub fn value(&self, i: usize) -> &[u8]
        requires { i < length self.now }
        ensures value { result.now ≡ (slice_index_or self.now i ([], [])).1 }
        ensures fits { length result.now ≤ 1048576 }
    {
        value_at(&self.bytes, &self.ends, i)
    }

    /// The key at a place and the value behind it, as they lie in the buffer.
    pub(crate) fn key_and_value(&self, i: usize) -> &[u8]
        requires { i < length self.now }
        ensures { let pair = slice_index_or self.now i ([], []) in result.now ≡ pair.0 ++ pair.1 }
    {
        pair_at(&self.bytes, &self.ends, i)
    }
}

/// Where a pair begins: where the one before it ends.
fn start_of(ends: &[PairEnd], i: usize) -> usize
    requires { i < length ends.now }
    ensures { result ≡ pair_start 0 ends.now i }
{
    if i == 0 { 0 } else { ends[i - 1].value }
}

/// The key at a place, of the pairs that end at these places of a buffer.
fn key_at<'a>(bytes: &'a [u8], ends: &[PairEnd], i: usize) -> &'a [u8]
    requires places { ArePairEnds 0 ends.now (length bytes.now) }
    requires within { i < length ends.now }
    ensures { result.now ≡ (slice_index_or (pairs_between 0 bytes.now ends.now) i ([], [])).0 }
{
    let start = start_of(ends, i);
    let end = ends[i].key;
    &bytes[start..end]
}

/// The value at a place, of the pairs that end at these places of a buffer.
fn value_at<'a>(bytes: &'a [u8], ends: &[PairEnd], i: usize) -> &'a [u8]
    requires places { ArePairEnds 0 ends.now (length bytes.now) }
    requires within { i < length ends.now }
    ensures { result.now ≡ (slice_index_or (pairs_between 0 bytes.now ends.now) i ([], [])).1 }
{
    let start = ends[i].key;
    let end = ends[i].value;
    &bytes[start..end]
}

/// The key and the value at a place, of the pairs that end at these places of a buffer.
fn pair_at<'a>(bytes: &'a [u8], ends: &[PairEnd], i: usize) -> &'a [u8]
    requires places { ArePairEnds 0 ends.now (length bytes.now) }
    requires within { i < length ends.now }
    ensures { let pair = slice_index_or (pairs_between 0 bytes.now ends.now) i ([], []) in
        result.now ≡ pair.0 ++ pair.1 }
{
    let start = start_of(ends, i);
    let end = ends[i].value;
    &bytes[start..end]
}
