//! Tables copied, level by level.
ghost use Rattle.std.specs.Prelude.{◌≡◌, ◌+◌, ◌++◌, ◌∷◌, [], None, IfOk, OnOk, OnErr, length, replicate};
ghost use Rattle.vm_base.specs.declared.frame_request.Want.TheVariants.{Upper, Middle};
ghost use Rattle.vm_base.specs.Deals.{Counts};
ghost use Rattle.table_levels.specs.Requests.{Asks, AddsFrames};
ghost use Rattle.table_levels.specs.Copies.{Copies, HasRoom, table_bytes_in};
ghost use Rattle.table_levels.specs.Walks.{tables_at};

use crate::frames::{count_of, give_all};
use vm_base::{Allot, Frame, Refused, Want};

/// How many tables there are below the top table.
#[derive(Clone, Copy)]
pub(crate) struct LowerTables {
    pub uppers: u32,
    pub middles: u32,
}

/// A copy of a table in a frame that is asked for, if the table is there.
pub(crate) fn copy_of<A: Allot>(
    table: &Option<Frame>,
    want: Want,
    allot: &mut A,
) -> Result<Option<Frame>, Refused>
    requires { A.grants allot.old ≡ None }
    ensures copied { IfOk result (λ copy. table_bytes_in copy ≡ table_bytes_in table.now) }
    ensures requests { Asks A.goes (A.state allot.old) (replicate (tables_at (table.now ∷ [])) want) result (A.state allot.new) }
    ensures counts { Counts A.refused (A.state allot.old) result (A.state allot.new) }
    ensures out { AddsFrames A.out (A.state allot.old) (tables_at (table.now ∷ [])) result
        (A.state allot.new) }
    ensures untold { A.grants allot.new ≡ A.grants allot.old }
{
    let Some(source) = table else {
        return Ok(None);
    };
    let mut frame = allot.take(want)?;
    frame.bytes_mut().copy_from_slice(source.bytes());
    Ok(Some(frame))
}

/// Copies the tables of a level, each to the place that it has, or none of them. They are so many,
/// and no place behind the last of them is looked at.
fn copy_level<A: Allot>(
    places: &mut Vec<Option<Frame>>,
    tables: &[Option<Frame>],
    count: u32,
    want: Want,
    allot: &mut A,
) -> Result<(), Refused>
    requires room { HasRoom places.old.items tables.now count }
    requires untold { A.grants allot.old ≡ None }
    ensures copied { OnOk result (Copies places.new.items tables.now) }
    ensures kept { OnErr result (places.new.items ≡ places.old.items) }
    ensures requests { Asks A.goes (A.state allot.old) (replicate (tables_at tables.now) want) result (A.state allot.new) }
    ensures counts { Counts A.refused (A.state allot.old) result (A.state allot.new) }
    ensures out { AddsFrames A.out (A.state allot.old) (tables_at tables.now) result
        (A.state allot.new) }
    ensures untold { A.grants allot.new ≡ A.grants allot.old }
{
    let mut copied = 0;
    for i in 0..tables.len() {
        if copied == count {
            return Ok(());
        }
        match copy_of(&tables[i], want, allot) {
            Ok(copy) => {
                copied += count_of(&copy);
                places[i] = copy;
            }
            Err(refused) => {
                give_all(places, copied, allot);
                return Err(refused);
            }
        }
    }
    Ok(())
}

/// Copies the upper tables and then the middle tables, or none of them.
pub(crate) fn copy_lower<A: Allot>(
    uppers: &mut Vec<Option<Frame>>,
    middles: &mut Vec<Option<Frame>>,
    upper_tables: &[Option<Frame>],
    middle_tables: &[Option<Frame>],
    counts: LowerTables,
    allot: &mut A,
) -> Result<(), Refused>
    requires room_uppers { HasRoom uppers.old.items upper_tables.now counts.uppers }
    requires room_middles { HasRoom middles.old.items middle_tables.now counts.middles }
    requires untold { A.grants allot.old ≡ None }
    ensures copied_uppers { OnOk result (Copies uppers.new.items upper_tables.now) }
    ensures copied_middles { OnOk result (Copies middles.new.items middle_tables.now) }
    ensures kept_uppers { OnErr result (uppers.new.items ≡ uppers.old.items) }
    ensures kept_middles { OnErr result (middles.new.items ≡ middles.old.items) }

    // What the allot was asked for, and what it has afterwards.
    ensures requests { Asks A.goes (A.state allot.old) (replicate (tables_at upper_tables.now) Upper ++ replicate (tables_at middle_tables.now) Middle) result (A.state allot.new) }
    ensures counts { Counts A.refused (A.state allot.old) result (A.state allot.new) }
    ensures out { AddsFrames A.out (A.state allot.old) (tables_at upper_tables.now + tables_at middle_tables.now) result (A.state allot.new) }
    ensures untold { A.grants allot.new ≡ A.grants allot.old }
{
    copy_level(uppers, upper_tables, counts.uppers, Want::Upper, allot)?;
    match copy_level(middles, middle_tables, counts.middles, Want::Middle, allot) {
        Ok(()) => Ok(()),
        Err(refused) => {
            give_all(uppers, counts.uppers, allot);
            Err(refused)
        }
    }
}
