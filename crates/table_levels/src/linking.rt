//! Tables put on the way to a cell.
ghost use Rattle.std.specs.Prelude.{◌≡◌, ◌≢◌, ◌+◌, ◌/◌, ◌<◌, ◌^◌, ◌∷◌, [], ℕ, None, Some, IsSome, is_some, not, length};
ghost use Rattle.std.specs.Option.{option_or};
ghost use Rattle.table_levels.specs.Walks.{entry_in, table_at, middle_at, middle_of, slot_of, tables_at, levels_of, NamesUppers, AreNamed, AreDirectory};
ghost use Rattle.table_levels.specs.Fresh.{IsFresh, HasFresh};
ghost use Rattle.table_levels.specs.Links.{SetsIn, PutsMiddle, AddsMiddle, AddsTable, CountsMore, LinksCell, wanted_at, wanted_for};

use crate::directory::place_of;
use crate::frames::Fresh;
use crate::table::{ENTRIES, set_entry};
use vm_base::Frame;

/// Names a number in an entry of a table that is there, or takes the entry out.
pub(crate) fn set_in(place: &mut Option<Frame>, i: usize, number: Option<u32>)
    requires inside { i < 512 }
    requires there { IsSome place.old }
    ensures there { IsSome place.new }
    ensures set { SetsIn place.old place.new i number }
{
    match place {
        Some(frame) => set_entry(frame, i, number),
        None => {}
    }
}

/// Puts a fresh table at a place, if there is one.
fn put_if_some(place: &mut Option<Frame>, fresh: Option<Frame>)
    ensures { place.new ≡ option_or fresh place.old }
{
    match fresh {
        Some(frame) => *place = Some(frame),
        None => {}
    }
}

/// Names the middle table of 512 cells, by the fresh tables above it.
fn link_upper(
    top: &mut Option<Frame>,
    uppers: &mut Vec<Option<Frame>>,
    index: u32,
    fresh_top: Option<Frame>,
    fresh_upper: Option<Frame>,
    middle: u32,
)
    requires index { index < 2 ^ 18 }
    requires places { length uppers.old.items ≡ 512 }
    requires names { NamesUppers top.old uppers.old.items }
    requires named { AreNamed top.old uppers.old.items }
    requires top_fresh { IsFresh (not (is_some top.old)) fresh_top }
    requires upper_fresh { IsFresh (not (is_some (entry_in top.old (index / 512)))) fresh_upper }
    ensures added { AddsMiddle top.old uppers.old.items top.new uppers.new.items index middle }
    ensures places { length uppers.new.items ≡ 512 }
    ensures counted { CountsMore top.old top.new fresh_top fresh_upper uppers.old.items uppers.new.items }
{
    let upper = index as usize / ENTRIES;
    put_if_some(top, fresh_top);
    set_in(top, upper, Some(upper as u32));
    put_if_some(&mut uppers[upper], fresh_upper);
    set_in(&mut uppers[upper], index as usize % ENTRIES, Some(middle));
}

/// Names the slot of a cell in its middle table, which may be fresh.
fn link_middle(
    middles: &mut Vec<Option<Frame>>,
    place: usize,
    fresh: Option<Frame>,
    i: usize,
    slot: u32,
)
    requires place { place < length middles.old.items }
    requires inside { i < 512 }
    requires there { IsSome (option_or fresh (table_at middles.old.items place)) }
    requires free { IsSome fresh → table_at middles.old.items place ≡ None }
    ensures put { PutsMiddle middles.old.items middles.new.items place fresh i slot }
    ensures places { length middles.new.items ≡ length middles.old.items }
    ensures counted { tables_at middles.new.items ≡ tables_at middles.old.items + tables_at (fresh ∷ []) }
{
    put_if_some(&mut middles[place], fresh);
    set_in(&mut middles[place], i, Some(slot));
}

/// A place without a table.
fn free_place(places: &[Option<Frame>]) -> usize
    requires { tables_at places.now < length places.now }
    ensures inside { result < length places.now }
    ensures free { table_at places.now result ≡ None }
{
    for i in 0..places.len() {
        if places[i].is_none() {
            return i;
        }
    }
    0
}

/// Puts fresh tables on the way to a cell that has no middle table, and the slot at its end.
fn link_cell(
    top: &mut Option<Frame>,
    uppers: &mut Vec<Option<Frame>>,
    middles: &mut Vec<Option<Frame>>,
    cell: u32,
    slot: u32,
    fresh: Fresh,
)
    requires cell { cell < 2 ^ 27 }
    requires directory { AreDirectory (levels_of top.old uppers.old.items middles.old.items) }
    requires absent { middle_of (levels_of top.old uppers.old.items middles.old.items) (cell / 512) ≡ None }
    requires fewer { tables_at middles.old.items < 512 }
    requires fresh { HasFresh (wanted_at top.old (cell / 512 / 512)) fresh }
    ensures linked { LinksCell (levels_of top.old uppers.old.items middles.old.items) (levels_of top.new uppers.new.items middles.new.items) cell slot }
    ensures upper_counted { AddsTable uppers.old.items uppers.new.items fresh.upper }
{
    let Fresh {
        top: fresh_top,
        upper,
        middle,
    } = fresh;
    let free = free_place(middles);
    link_upper(
        top,
        uppers,
        cell / ENTRIES as u32,
        fresh_top,
        upper,
        free as u32,
    );
    link_middle(middles, free, middle, cell as usize % ENTRIES, slot);
}

/// Puts fresh tables on the way to a cell, as far as they are missing, and the slot at its end.
pub(crate) fn link(
    top: &mut Option<Frame>,
    uppers: &mut Vec<Option<Frame>>,
    middles: &mut Vec<Option<Frame>>,
    cell: u32,
    slot: u32,
    fresh: Fresh,
)
    requires cell { cell < 2 ^ 27 }
    requires directory { AreDirectory (levels_of top.old uppers.old.items middles.old.items) }
    requires absent { slot_of (levels_of top.old uppers.old.items middles.old.items) cell ≡ None }
    requires fewer { tables_at middles.old.items < 512 }
    requires fresh { HasFresh (wanted_for (levels_of top.old uppers.old.items middles.old.items) cell) fresh }
    ensures linked { LinksCell (levels_of top.old uppers.old.items middles.old.items) (levels_of top.new uppers.new.items middles.new.items) cell slot }
    ensures upper_counted { AddsTable uppers.old.items uppers.new.items fresh.upper }
{
    match place_of(top, uppers, cell / ENTRIES as u32) {
        Some(middle) => {
            drop(fresh);
            link_middle(
                middles,
                middle as usize,
                None,
                cell as usize % ENTRIES,
                slot,
            );
        }
        None => link_cell(top, uppers, middles, cell, slot, fresh),
    }
}
