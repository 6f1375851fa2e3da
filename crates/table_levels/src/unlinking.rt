//! Tables taken off the way to a cell.
ghost use Rattle.std.specs.Prelude.{◌≡◌, ◌+◌, ◌/◌, ◌<◌, ◌^◌, ◌∷◌, [], None, IsSome, length};
ghost use Rattle.table_levels.specs.Requests.{wanted_tables};
ghost use Rattle.table_levels.specs.Walks.{middle_at, slot_of, tables_at, levels_of, NamesUppers, AreNamed, AreDirectory};
ghost use Rattle.table_levels.specs.Links.{SetsIn, IsInUse, DropsMiddle, AddsTable, CountsMore, UnlinksCell, wanted_at};

use crate::directory::place_of;
use crate::linking::set_in;
use crate::search::first_entry;
use crate::table::ENTRIES;
use vm_base::Frame;

/// Tables that no cell needs any more.
#[derive(Drop)]
pub(crate) struct Unused {
    pub top: Option<Frame>,
    pub upper: Option<Frame>,
    pub middle: Option<Frame>,
}

impl Unused {
    /// No table.
    fn none() -> Unused
        ensures tables { tables_at (result.top ∷ result.upper ∷ result.middle ∷ []) ≡ 0 }
        ensures upper { result.upper ≡ None }
    {
        Unused {
            top: None,
            upper: None,
            middle: None,
        }
    }

    /// How many they are.
    pub(crate) fn count(&self) -> u32
        ensures { result ≡ tables_at (self.now.top ∷ self.now.upper ∷ self.now.middle ∷ []) }
    {
        u32::from(self.top.is_some())
            + u32::from(self.upper.is_some())
            + u32::from(self.middle.is_some())
    }
}

/// Takes an entry out of a table, and the table out of its place where no other entry is left.
fn take_entry(place: &mut Option<Frame>, i: usize) -> Option<Frame>
    requires inside { i < 512 }
    requires there { IsSome place.old }
    ensures taken { SetsIn place.old place.new i None }
    ensures used { IsInUse place.new }
    ensures counted { tables_at (place.new ∷ []) + tables_at (result ∷ []) ≡ 1 }
{
    set_in(place, i, None);
    match first_entry(place, 0) {
        Some(_) => None,
        None => place.take(),
    }
}

/// Takes the name of a middle table out of its upper table. The tables above it that are left
/// without an entry come out, the top table first.
fn unlink_middle(
    top: &mut Option<Frame>,
    uppers: &mut Vec<Option<Frame>>,
    index: u32,
) -> (Option<Frame>, Option<Frame>)
    requires index { index < 2 ^ 18 }
    requires places { length uppers.old.items ≡ 512 }
    requires names { NamesUppers top.old uppers.old.items }
    requires named { AreNamed top.old uppers.old.items }
    requires there { IsSome (middle_at top.old uppers.old.items index) }
    ensures dropped { DropsMiddle top.old uppers.old.items top.new uppers.new.items index }
    ensures places { length uppers.new.items ≡ 512 }
    ensures counted { CountsMore top.new top.old result.0 result.1 uppers.new.items uppers.old.items }
    ensures unused { tables_at (result.0 ∷ result.1 ∷ []) + 1 ≡ length (wanted_tables (wanted_at top.new (index / 512))) }
{
    let upper = index as usize / ENTRIES;
    match take_entry(&mut uppers[upper], index as usize % ENTRIES) {
        Some(unused) => (take_entry(top, upper), Some(unused)),
        None => (None, None),
    }
}

/// Takes out the slot of a cell that is there, and the tables on the way that it alone needed.
pub(crate) fn unlink(
    top: &mut Option<Frame>,
    uppers: &mut Vec<Option<Frame>>,
    middles: &mut Vec<Option<Frame>>,
    cell: u32,
) -> Unused
    requires cell { cell < 2 ^ 27 }
    requires directory { AreDirectory (levels_of top.old uppers.old.items middles.old.items) }
    requires there { IsSome (slot_of (levels_of top.old uppers.old.items middles.old.items) cell) }
    ensures unlinked { UnlinksCell (levels_of top.old uppers.old.items middles.old.items) (levels_of top.new uppers.new.items middles.new.items) cell (tables_at (result.top ∷ result.upper ∷ result.middle ∷ [])) }
    ensures upper_counted { AddsTable uppers.new.items uppers.old.items result.upper }
{
    let index = cell / ENTRIES as u32;
    let Some(place) = place_of(top, uppers, index) else {
        return Unused::none();
    };
    match take_entry(&mut middles[place as usize], cell as usize % ENTRIES) {
        Some(middle) => {
            let (top, upper) = unlink_middle(top, uppers, index);
            Unused {
                top,
                upper,
                middle: Some(middle),
            }
        }
        None => Unused::none(),
    }
}
