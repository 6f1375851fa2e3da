//! Pages that leave the parent's side of a cell.
ghost use Rattle.std.specs.Prelude.{◌≡◌, ◌+◌, ◌≤◌, None, IsSome, false, true};
ghost use Rattle.kernel_meaning.specs.Leaves.{has_present};
ghost use Rattle.kernel_meaning.specs.CellAccount.{Clear};
ghost use Rattle.leaf_cell.specs.CellView.{AreUnjoined, held_of};
ghost use Rattle.leaf_cell.specs.Clearing.{IsLeft, gone_if};
ghost use Rattle.leaf_cell.specs.Inside.{table_of};
ghost use Rattle.leaf_cell.specs.Writable.{without_writable};
ghost use Rattle.leaf_cell.specs.Standing.{MadeAct};
ghost use Rattle.leaf_cell.specs.Touching.{IsCleared};

use crate::cell::Cell;
use crate::leaf_table::{CELL_PAGES, LeafTable};
use crate::lookups::covers_in;
use crate::release::release_range;
use vm_base::Allot;

impl Cell {
    /// Takes the parent's pages of a range out. The frames that the parent alone names go back, and
    /// with the last page its leaf table. Where the range has no page nothing changes.
    pub fn clear<A: Allot>(&mut self, first: u16, pages: u16, allot: &mut A)
        requires range { first + pages ≤ CELL_PAGES }
        requires unjoined { has_present self.old.leaves.parent first pages ≡ true → AreUnjoined self.old.leaves.kept }
        requires held { held_of self.old ≤ A.out (A.state allot.old) }
        requires untold { A.grants allot.old ≡ None }
        ensures made { MadeAct A.goes (A.state allot.old) (A.state allot.new) (Clear first pages) self.old self.new None }
        ensures held { A.out (A.state allot.new) + held_of self.old ≡ A.out (A.state allot.old) + held_of self.new }
        ensures untold { A.grants allot.new ≡ None }
        ensures unrefused { A.refused (A.state allot.new) ≡ A.refused (A.state allot.old) }
        ensures cleared { IsCleared first pages self.old self.new }
        ensures writable { self.new.writable ≡ without_writable first pages self.old.writable }
        ensures unchanged { has_present self.old.leaves.parent first pages ≡ false → (self.new ≡ self.old) × (A.state allot.new ≡ A.state allot.old) }
    {
        if covers_in(&self.parent, first, pages) {
            self.clear_present(first, pages, allot);
        }
    }

    /// Takes the pages of a range out, of which one is present.
    fn clear_present<A: Allot>(&mut self, first: u16, pages: u16, allot: &mut A)
        requires range { first + pages ≤ CELL_PAGES }
        requires present { has_present self.old.leaves.parent first pages ≡ true }
        requires unjoined { AreUnjoined self.old.leaves.kept }
        requires held { held_of self.old ≤ A.out (A.state allot.old) }
        requires untold { A.grants allot.old ≡ None }
        ensures made { MadeAct A.goes (A.state allot.old) (A.state allot.new) (Clear first pages) self.old self.new None }
        ensures held { A.out (A.state allot.new) + held_of self.old ≡ A.out (A.state allot.old) + held_of self.new }
        ensures untold { A.grants allot.new ≡ None }
        ensures unrefused { A.refused (A.state allot.new) ≡ A.refused (A.state allot.old) }
        ensures cleared { IsCleared first pages self.old self.new }
        ensures writable { self.new.writable ≡ without_writable first pages self.old.writable }
    {
        release_range(
            &self.parent,
            &self.snapshot,
            &mut self.frames,
            first,
            pages,
            allot,
        );
        clear_table(&mut self.parent, first, pages, allot);
    }
}

/// Takes the pages of a range out of the table, and the table too where it has no page left.
fn clear_table<A: Allot>(parent: &mut Option<LeafTable>, first: u16, pages: u16, allot: &mut A)
    requires range { first + pages ≤ CELL_PAGES }
    requires there { IsSome parent.old }
    requires out { 1 ≤ A.out (A.state allot.old) }
    requires untold { A.grants allot.old ≡ None }
    ensures left { IsLeft A.goes (A.state allot.old) (A.state allot.new) (table_of parent.old) first pages parent.new }
    ensures out { A.out (A.state allot.new) + gone_if parent.new ≡ A.out (A.state allot.old) }
    ensures untold { A.grants allot.new ≡ None }
    ensures unrefused { A.refused (A.state allot.new) ≡ A.refused (A.state allot.old) }
{
    if let Some(table) = parent.take() {
        *parent = left_table(table, first, pages, allot);
    }
}

/// The table without the pages of a range, and its frame goes back where it has no page left.
fn left_table<A: Allot>(
    table: LeafTable,
    first: u16,
    pages: u16,
    allot: &mut A,
) -> Option<LeafTable>
    requires range { first + pages ≤ CELL_PAGES }
    requires out { 1 ≤ A.out (A.state allot.old) }
    requires untold { A.grants allot.old ≡ None }
    ensures left { IsLeft A.goes (A.state allot.old) (A.state allot.new) table first pages result }
    ensures out { A.out (A.state allot.new) + gone_if result ≡ A.out (A.state allot.old) }
    ensures untold { A.grants allot.new ≡ None }
    ensures unrefused { A.refused (A.state allot.new) ≡ A.refused (A.state allot.old) }
{
    let mut left = table;
    left.clear(first, pages);
    let is_empty = !left.has_pages();
    if is_empty {
        allot.give(left.into_frame());
        None
    } else {
        Some(left)
    }
}
