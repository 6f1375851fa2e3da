//! What is found first from a place on.
ghost use Rattle.std.specs.Prelude.{◌≡◌, ◌+◌, ◌*◌, ◌/◌, ◌<◌, ◌≤◌, ◌^◌, ℕ, IsTrue, None, length, max};
ghost use Rattle.table_levels.specs.First.{IsFirst};
ghost use Rattle.table_levels.specs.Tables.{entry_at};
ghost use Rattle.table_levels.specs.Walks.{entry_in, middle_at, slot_of, levels_of, NamesUppers, AreNamed, AreDirectory};
ghost use Rattle.table_levels.specs.Links.{AreInUse};

use crate::directory::place_of;
use crate::table::{ENTRIES, entry};
use vm_base::Frame;

/// How many entries are looked at together.
const BLOCK: usize = 8;

/// How many entries are passed over together: most tables name little, so most of a walk is over
/// zeros, and one compare of many bytes costs far less than one for each block.
const STRETCH: usize = 64;

/// How many middle tables there may be.
const MIDDLES: u32 = 1 << 18;

/// How many cells there may be.
const CELLS: u32 = 1 << 27;

/// The first entry of a table from an index on, if the table is there.
pub(crate) fn first_entry(table: &Option<Frame>, from: usize) -> Option<(usize, u32)>
    ensures { IsFirst 512 (entry_in table.now) from result }
{
    match table {
        Some(table) => first_in(table, from),
        None => None,
    }
}

/// The first entry of a table that is there. It goes stretch after stretch.
fn first_in(table: &Frame, from: usize) -> Option<(usize, u32)>
    ensures { IsFirst 512 (entry_at table.now.bytes) from result }
{
    for stretch in from / STRETCH..ENTRIES / STRETCH {
        if let Some(found) = first_in_stretch(table, from, stretch) {
            return Some(found);
        }
    }
    None
}

/// The first entry of a stretch that is not below an index. It goes block after block.
fn first_in_stretch(table: &Frame, from: usize, stretch: usize) -> Option<(usize, u32)>
    requires { stretch < 8 }
    ensures { IsFirst (64 * stretch + 64) (entry_at table.now.bytes)
        (max from (64 * stretch)) result }
{
    let begin = STRETCH * stretch;
    if is_bare_stretch(table, begin) {
        return None;
    }
    for block in from.max(begin) / BLOCK..(begin + STRETCH) / BLOCK {
        if let Some(found) = first_in_block(table, from.max(begin), block) {
            return Some(found);
        }
    }
    None
}

/// The first entry of a block that is not below an index.
fn first_in_block(table: &Frame, from: usize, block: usize) -> Option<(usize, u32)>
    requires { block < 64 }
    ensures { IsFirst (8 * block + 8) (entry_at table.now.bytes) (max from (8 * block)) result }
{
    let begin = BLOCK * block;
    if is_bare(table, begin) {
        return None;
    }
    for i in from.max(begin)..begin + BLOCK {
        if let Some(number) = entry(table, i) {
            return Some((i, number));
        }
    }
    None
}

/// Whether the eight entries from an index on are all zero, and so name nothing.
fn is_bare(table: &Frame, begin: usize) -> bool
    requires { begin + 8 ≤ 512 }
    ensures { IsTrue result → (k : ℕ) → begin ≤ k → k < begin + 8
        → entry_at table.now.bytes k ≡ None }
{
    let bytes: &[u8] = table.bytes();
    let zeros: &[u8] = &[0; 8 * BLOCK];
    &bytes[8 * begin..8 * (begin + BLOCK)] == zeros
}

/// Whether the 64 entries from an index on are all zero, and so name nothing.
fn is_bare_stretch(table: &Frame, begin: usize) -> bool
    requires { begin + 64 ≤ 512 }
    ensures { IsTrue result → (k : ℕ) → begin ≤ k → k < begin + 64
        → entry_at table.now.bytes k ≡ None }
{
    let bytes: &[u8] = table.bytes();
    let zeros: &[u8] = &[0; 8 * STRETCH];
    &bytes[8 * begin..8 * (begin + STRETCH)] == zeros
}

/// The first middle table from an index on, by its index in all and its place.
fn first_middle(top: &Option<Frame>, uppers: &[Option<Frame>], from: u32) -> Option<(u32, u32)>
    requires places { length uppers.now ≡ 512 }
    requires names { NamesUppers top.now uppers.now }
    requires named { AreNamed top.now uppers.now }
    requires used { AreInUse uppers.now }
    ensures { IsFirst (2 ^ 18) (middle_at top.now uppers.now) from result }
{
    if from >= MIDDLES {
        return None;
    }
    let upper = from as usize / ENTRIES;
    if let Some((i, place)) = first_entry(&uppers[upper], from as usize % ENTRIES) {
        return Some(((upper * ENTRIES + i) as u32, place));
    }
    let (next, _) = first_entry(top, upper + 1)?;
    let (i, place) = first_entry(&uppers[next], 0)?;
    Some(((next * ENTRIES + i) as u32, place))
}

/// The first cell of its middle table from a cell on, with its slot.
fn first_beside(
    top: &Option<Frame>,
    uppers: &[Option<Frame>],
    middles: &[Option<Frame>],
    from: u32,
) -> Option<(u32, u32)>
    requires cell { from < 2 ^ 27 }
    requires directory { AreDirectory (levels_of top.now uppers.now middles.now) }
    ensures { IsFirst ((from / 512 + 1) * 512) (slot_of (levels_of top.now uppers.now middles.now)) from result }
{
    let place = place_of(top, uppers, from / ENTRIES as u32)?;
    let index = from as usize / ENTRIES;
    let (i, slot) = first_entry(&middles[place as usize], from as usize % ENTRIES)?;
    Some(((index * ENTRIES + i) as u32, slot))
}

/// The first cell from a cell on, with its slot.
pub(crate) fn first_slot(
    top: &Option<Frame>,
    uppers: &[Option<Frame>],
    middles: &[Option<Frame>],
    from: u32,
) -> Option<(u32, u32)>
    requires { AreDirectory (levels_of top.now uppers.now middles.now) }
    ensures { IsFirst (2 ^ 27) (slot_of (levels_of top.now uppers.now middles.now)) from result }
{
    if from >= CELLS {
        return None;
    }
    if let Some(found) = first_beside(top, uppers, middles, from) {
        return Some(found);
    }
    let (index, place) = first_middle(top, uppers, from / ENTRIES as u32 + 1)?;
    let (i, slot) = first_entry(&middles[place as usize], 0)?;
    Some((index * ENTRIES as u32 + i as u32, slot))
}
