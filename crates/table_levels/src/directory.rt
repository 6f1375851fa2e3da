//! The tables above the leaf tables, seen as a finite map from cells to slots.
ghost use Rattle.std.specs.Prelude.{◌≡◌, ◌+◌, ◌-◌, ◌<◌, ◌≤◌, ◌^◌, None, Some, IfOk, OnOk, OnErr, replicate, length};
ghost use Rattle.table_levels.specs.Walks.{entry_in, middle_at, NamesUppers};
ghost use Rattle.std.specs.FinMap as map;
ghost use Rattle.vm_base.specs.Deals.{LeadsAlong, Counts};
ghost use Rattle.table_levels.specs.Cells.{first_from, tables_of, middle_tables_of};
ghost use Rattle.table_levels.specs.Requests.{missing_tables, directory_wants, returned, Asks, AddsFrames};

use crate::copying::{LowerTables, copy_lower, copy_of};
use crate::frames::{Wanted, count_of, give_all, give_back, give_unused, take_fresh};
use crate::linking::link;
use crate::search::first_slot;
use crate::table::{ENTRIES, entry};
use crate::unlinking::unlink;
use std::alloc::Global;
use std::marker::Model;
use vm_base::{Allot, Frame, NoMemory, Refused, Want};

/// How many cells a directory may have.
const MOST_CELLS: usize = 512;

/// A directory, seen as a finite map from cells to slots. An upper table lies at the place of its
/// index in the top table, a middle table at a place that was free.
#[derive(Debug, Drop)]
pub struct Directory {
    top: Option<Frame>,
    uppers: Vec<Option<Frame>>,
    middles: Vec<Option<Frame>>,
    tables: u32,
    /// How many of the tables are upper ones. A walk over the places of a level ends once it has
    /// met as many tables as there are.
    upper_tables: u32,
}

impl Model for Directory {
    ghost use Rattle.std.specs.Prelude.{ℕ};
    ghost use Rattle.std.specs.Ordering.{nat_cmp};
    ghost use Rattle.std.specs.Coded.{coded_ℕ};
    ghost use Rattle.std.specs.FinMap.{FinMap, code};
    ghost use Rattle.table_levels.specs.Walks.{directory_cells, IsCounted};

    ghost Value = { FinMap nat_cmp ℕ };

    ghost coded = { code coded_ℕ coded_ℕ };

    ghost view = { λ d. directory_cells (record { top = d.top; uppers = d.uppers.items; middles = d.middles.items }) };

    ghost invariant = { λ d. IsCounted (record { top = d.top; uppers = d.uppers.items; middles = d.middles.items }) d.tables d.upper_tables };
}

impl Directory {
    /// A directory without cells, with the room that it may need.
    pub fn new(alloc: Global) -> Result<Directory, NoMemory>
        ensures { IfOk result (λ directory. directory ≡ map.empty) }
    {
        Ok(Directory {
            top: None,
            uppers: empty_places(alloc)?,
            middles: empty_places(alloc)?,
            tables: 0,
            upper_tables: 0,
        })
    }

    /// How many frames the tables take. It is there for a caller who has no allot that counts, and
    /// for tests: the program has the number of frames that are out from its pool.
    pub fn tables(&self) -> u32
        ensures { result ≡ tables_of self.now }
    {
        self.tables
    }

    /// How many of them are middle tables.
    fn middle_tables(&self) -> u32
        ensures { result ≡ middle_tables_of self.now }
    {
        self.tables - self.upper_tables - count_of(&self.top)
    }

    /// The slot of a cell.
    pub fn find(&self, cell: u32) -> Option<u32>
        requires { cell < 2 ^ 27 }
        ensures { result ≡ map.get self.now cell }
    {
        let middle = place_of(&self.top, &self.uppers, cell / ENTRIES as u32)?;
        named_by(&self.middles[middle as usize], cell as usize % ENTRIES)
    }

    /// Adds a cell with its slot. It asks for the missing top, upper and middle table in this
    /// order. After `Refused` what was granted has been given back, and the directory is as it was.
    pub fn insert<A: Allot>(&mut self, cell: u32, slot: u32, allot: &mut A) -> Result<(), Refused>
        requires cell { cell < 2 ^ 27 }
        requires absent { map.get self.old cell ≡ None }
        requires fewer { map.len self.old < 512 }
        requires lent { tables_of self.old ≤ A.out (A.state allot.old) }
        requires untold { A.grants allot.old ≡ None }
        ensures added { OnOk result (self.new ≡ map.insert self.old cell slot) }
        ensures kept { OnErr result (self.new ≡ self.old) }

        // What the allot was asked for, and what it has afterwards.
        ensures requests { Asks A.goes (A.state allot.old) (missing_tables (map.keys self.old) cell) result (A.state allot.new) }
        ensures counts { Counts A.refused (A.state allot.old) result (A.state allot.new) }
        ensures out { A.out (A.state allot.new) + tables_of self.old ≡ A.out (A.state allot.old) + tables_of self.new }
        ensures untold { A.grants allot.new ≡ A.grants allot.old }
    {
        let index = cell / ENTRIES as u32;
        let wanted = Wanted {
            top: self.top.is_none(),
            upper: named_by(&self.top, index as usize / ENTRIES).is_none(),
            middle: place_of(&self.top, &self.uppers, index).is_none(),
        };
        let fresh = take_fresh(wanted, allot)?;
        self.tables += wanted.count();
        self.upper_tables += count_of(&fresh.upper);
        link(
            &mut self.top,
            &mut self.uppers,
            &mut self.middles,
            cell,
            slot,
            fresh,
        );
        Ok(())
    }

    /// The lowest cell that is there and not below this one, with its slot.
    pub fn at_or_after(&self, cell: u32) -> Option<(u32, u32)>
        ensures { result ≡ first_from self.now cell }
    {
        first_slot(&self.top, &self.uppers, &self.middles, cell)
    }

    /// Takes a cell out, where it is there. Each table that is left without an entry is given
    /// back, the middle table first.
    pub fn remove<A: Allot>(&mut self, cell: u32, allot: &mut A)
        requires cell { cell < 2 ^ 27 }
        requires lent { tables_of self.old ≤ A.out (A.state allot.old) }
        ensures removed { self.new ≡ map.remove self.old cell }
        ensures shrunk { tables_of self.new ≤ tables_of self.old }

        // What the allot got back, and what it has afterwards.
        ensures given { LeadsAlong A.goes (A.state allot.old) (returned (tables_of self.old - tables_of self.new)) (A.state allot.new) }
        ensures out { A.out (A.state allot.new) + tables_of self.old ≡ A.out (A.state allot.old) + tables_of self.new }
        ensures unrefused { A.refused (A.state allot.new) ≡ A.refused (A.state allot.old) }
        ensures untold { A.grants allot.new ≡ A.grants allot.old }
    {
        if self.find(cell).is_none() {
            return;
        }
        let unused = unlink(&mut self.top, &mut self.uppers, &mut self.middles, cell);
        self.tables -= unused.count();
        self.upper_tables -= count_of(&unused.upper);
        give_unused(unused, allot);
    }

    /// Copies another directory into an empty one. It asks for the top table, then for the upper
    /// tables, then for the middle tables. After `Refused` what was granted has been given back.
    pub fn copy_from<A: Allot>(&mut self, other: &Directory, allot: &mut A) -> Result<(), Refused>
        requires empty { self.old ≡ map.empty }
        requires untold { A.grants allot.old ≡ None }
        ensures copied { OnOk result (self.new ≡ other.now) }
        ensures kept { OnErr result (self.new ≡ self.old) }

        // What the allot was asked for, and what it has afterwards.
        ensures requests { Asks A.goes (A.state allot.old) (directory_wants (map.keys other.now)) result (A.state allot.new) }
        ensures counts { Counts A.refused (A.state allot.old) result (A.state allot.new) }
        ensures out { AddsFrames A.out (A.state allot.old) (tables_of other.now) result (A.state allot.new) }
        ensures untold { A.grants allot.new ≡ A.grants allot.old }
    {
        let top = copy_of(&other.top, Want::Top, allot)?;
        let counts = LowerTables {
            uppers: other.upper_tables,
            middles: other.middle_tables(),
        };
        match copy_lower(
            &mut self.uppers,
            &mut self.middles,
            &other.uppers,
            &other.middles,
            counts,
            allot,
        ) {
            Ok(()) => {
                self.top = top;
                self.tables = other.tables;
                self.upper_tables = other.upper_tables;
                Ok(())
            }
            Err(refused) => {
                give_back(top, allot);
                Err(refused)
            }
        }
    }

    /// Gives all tables back. The directory is empty then.
    pub fn release<A: Allot>(&mut self, allot: &mut A)
        requires lent { tables_of self.old ≤ A.out (A.state allot.old) }
        ensures empty { self.new ≡ map.empty }

        // What the allot got back, and what it has afterwards.
        ensures given { LeadsAlong A.goes (A.state allot.old) (returned (tables_of self.old)) (A.state allot.new) }
        ensures out { A.out (A.state allot.new) + tables_of self.old ≡ A.out (A.state allot.old) }
        ensures unrefused { A.refused (A.state allot.new) ≡ A.refused (A.state allot.old) }
        ensures untold { A.grants allot.new ≡ A.grants allot.old }
    {
        let middle_tables = self.middle_tables();
        give_all(&mut self.middles, middle_tables, allot);
        give_all(&mut self.uppers, self.upper_tables, allot);
        give_back(self.top.take(), allot);
        self.tables = 0;
        self.upper_tables = 0;
    }
}

/// The entry of a table, if the table is there.
pub(crate) fn named_by(table: &Option<Frame>, i: usize) -> Option<u32>
    requires { i < 512 }
    ensures { result ≡ entry_in table.now i }
{
    entry(table.as_ref()?, i)
}

/// The place of the middle table of 512 cells, by its index in all.
pub(crate) fn place_of(top: &Option<Frame>, uppers: &[Option<Frame>], index: u32) -> Option<u32>
    requires index { index < 2 ^ 18 }
    requires places { length uppers.now ≡ 512 }
    requires there { NamesUppers top.now uppers.now }
    ensures { result ≡ middle_at top.now uppers.now index }
{
    let upper = index as usize / ENTRIES;
    named_by(top, upper)?;
    named_by(&uppers[upper], index as usize % ENTRIES)
}

/// Places for as many tables as a directory may have on a level.
fn empty_places(alloc: Global) -> Result<Vec<Option<Frame>>, NoMemory>
    ensures { IfOk result (λ places. places.items ≡ replicate 512 None) }
{
    let mut places = Vec::with_capacity(alloc, MOST_CELLS)?;
    for _made in 0..MOST_CELLS {
        places.push_reserved(None);
    }
    Ok(places)
}
