//! Frames for tables, taken and given back.
ghost use Rattle.std.specs.Prelude.{◌≡◌, ◌+◌, ◌≤◌, ◌++◌, ◌∷◌, [], None, IfOk, length, replicate};
ghost use Rattle.vm_base.specs.declared.frame_request.Want.TheVariants.{Top, Upper, Middle};
ghost use Rattle.vm_base.specs.Deals.{LeadsAlong, Counts};
ghost use Rattle.table_levels.specs.Requests.{wanted_if, wanted_lower, wanted_tables, returned, Asks, AddsFrames};
ghost use Rattle.table_levels.specs.Fresh.{IsFresh, AreFresh, HasFresh};
ghost use Rattle.table_levels.specs.Walks.{tables_at};

use crate::unlinking::Unused;
use vm_base::{Allot, Frame, Refused, Want};

/// Which tables are missing on the way to a cell.
#[derive(Clone, Copy)]
pub(crate) struct Wanted {
    pub top: bool,
    pub upper: bool,
    pub middle: bool,
}

impl Wanted {
    /// How many they are.
    pub(crate) fn count(&self) -> u32
        ensures { result ≡ length (wanted_tables self.now) }
    {
        u32::from(self.top) + u32::from(self.upper) + u32::from(self.middle)
    }
}

/// The frames for them.
#[derive(Drop)]
pub(crate) struct Fresh {
    pub top: Option<Frame>,
    pub upper: Option<Frame>,
    pub middle: Option<Frame>,
}

/// Takes the frames that are wanted, or none of them.
pub(crate) fn take_fresh<A: Allot>(wanted: Wanted, allot: &mut A) -> Result<Fresh, Refused>
    requires { A.grants allot.old ≡ None }
    ensures fresh { IfOk result (HasFresh wanted) }
    ensures requests { Asks A.goes (A.state allot.old) (wanted_tables wanted) result (A.state allot.new) }
    ensures counts { Counts A.refused (A.state allot.old) result (A.state allot.new) }
    ensures out { AddsFrames A.out (A.state allot.old) (length (wanted_tables wanted)) result (A.state allot.new) }
    ensures untold { A.grants allot.new ≡ A.grants allot.old }
{
    let top = take_if(wanted.top, Want::Top, allot)?;
    match take_lower(wanted, allot) {
        Ok((upper, middle)) => Ok(Fresh { top, upper, middle }),
        Err(refused) => {
            give_back(top, allot);
            Err(refused)
        }
    }
}

/// Takes the frames for an upper and a middle table, or none of them.
fn take_lower<A: Allot>(
    wanted: Wanted,
    allot: &mut A,
) -> Result<(Option<Frame>, Option<Frame>), Refused>
    requires { A.grants allot.old ≡ None }
    ensures fresh { IfOk result (AreFresh wanted) }
    ensures requests { Asks A.goes (A.state allot.old) (wanted_lower wanted) result (A.state allot.new) }
    ensures counts { Counts A.refused (A.state allot.old) result (A.state allot.new) }
    ensures out { AddsFrames A.out (A.state allot.old) (length (wanted_lower wanted)) result (A.state allot.new) }
    ensures untold { A.grants allot.new ≡ A.grants allot.old }
{
    let upper = take_if(wanted.upper, Want::Upper, allot)?;
    match take_if(wanted.middle, Want::Middle, allot) {
        Ok(middle) => Ok((upper, middle)),
        Err(refused) => {
            give_back(upper, allot);
            Err(refused)
        }
    }
}

/// Takes a frame where it is wanted.
fn take_if<A: Allot>(is_wanted: bool, want: Want, allot: &mut A) -> Result<Option<Frame>, Refused>
    requires { A.grants allot.old ≡ None }
    ensures fresh { IfOk result (IsFresh is_wanted) }
    ensures requests { Asks A.goes (A.state allot.old) (wanted_if is_wanted want) result (A.state allot.new) }
    ensures counts { Counts A.refused (A.state allot.old) result (A.state allot.new) }
    ensures out { AddsFrames A.out (A.state allot.old) (length (wanted_if is_wanted want)) result (A.state allot.new) }
    ensures untold { A.grants allot.new ≡ A.grants allot.old }
{
    if !is_wanted {
        return Ok(None);
    }
    Ok(Some(allot.take(want)?))
}

/// One for a table that is there.
pub(crate) fn count_of(table: &Option<Frame>) -> u32
    ensures { result ≡ tables_at (table.now ∷ []) }
{
    match table {
        Some(_) => 1,
        None => 0,
    }
}

/// Gives a table back, if it is there.
pub(crate) fn give_back<A: Allot>(table: Option<Frame>, allot: &mut A)
    requires { tables_at (table ∷ []) ≤ A.out (A.state allot.old) }
    ensures given { LeadsAlong A.goes (A.state allot.old) (returned (tables_at (table ∷ []))) (A.state allot.new) }
    ensures out { A.out (A.state allot.new) + tables_at (table ∷ []) ≡ A.out (A.state allot.old) }
    ensures unrefused { A.refused (A.state allot.new) ≡ A.refused (A.state allot.old) }
    ensures untold { A.grants allot.new ≡ A.grants allot.old }
{
    match table {
        Some(frame) => allot.give(frame),
        None => {}
    }
}

/// Gives back tables that no cell needs any more, the middle table first.
pub(crate) fn give_unused<A: Allot>(unused: Unused, allot: &mut A)
    requires { tables_at (unused.top ∷ unused.upper ∷ unused.middle ∷ []) ≤ A.out (A.state allot.old) }
    ensures given { LeadsAlong A.goes (A.state allot.old) (returned (tables_at (unused.top ∷ unused.upper ∷ unused.middle ∷ []))) (A.state allot.new) }
    ensures out { A.out (A.state allot.new) + tables_at (unused.top ∷ unused.upper ∷ unused.middle ∷ []) ≡ A.out (A.state allot.old) }
    ensures unrefused { A.refused (A.state allot.new) ≡ A.refused (A.state allot.old) }
    ensures untold { A.grants allot.new ≡ A.grants allot.old }
{
    give_back(unused.middle, allot);
    give_back(unused.upper, allot);
    give_back(unused.top, allot);
}

/// Gives back the tables of all places, which are free then. They are so many, and no place behind
/// the last of them is looked at.
pub(crate) fn give_all<A: Allot>(places: &mut Vec<Option<Frame>>, tables: u32, allot: &mut A)
    requires counted { tables ≡ tables_at places.old.items }
    requires lent { tables_at places.old.items ≤ A.out (A.state allot.old) }
    ensures free { places.new.items ≡ replicate (length places.old.items) None }
    ensures given { LeadsAlong A.goes (A.state allot.old) (returned (tables_at places.old.items)) (A.state allot.new) }
    ensures out { A.out (A.state allot.new) + tables_at places.old.items ≡ A.out (A.state allot.old) }
    ensures unrefused { A.refused (A.state allot.new) ≡ A.refused (A.state allot.old) }
    ensures untold { A.grants allot.new ≡ A.grants allot.old }
{
    let mut given = 0;
    for i in 0..places.len() {
        if given == tables {
            return;
        }
        let table = places[i].take();
        given += count_of(&table);
        give_back(table, allot);
    }
}
