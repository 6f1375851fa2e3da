//! What the parent's pages may be used for.
ghost use Rattle.std.specs.Prelude.{◌≡◌, ◌+◌, ◌<◌, ◌≤◌, slice_set, Some, None, true};
ghost use Rattle.kernel_meaning.specs.Leaves.{has_present};
ghost use Rattle.kernel_meaning.specs.CellAccount.{Protect};
ghost use Rattle.leaf_cell.specs.CellView.{AreUnjoined};
ghost use Rattle.leaf_cell.specs.Inside.{AreWritable, own_places};
ghost use Rattle.leaf_cell.specs.Permissions.{allowed, is_unshared, table_allowed, with_allowed};
ghost use Rattle.leaf_cell.specs.Standing.{MadeAct};

use crate::cell::Cell;
use crate::leaf_table::{BLOCK, CELL_PAGES, LeafTable};
use crate::lookups::names_place;
use crate::snapshot::Snapshot;
use vm_base::{Allot, Perm};

impl Cell {
    /// Gives the parent's pages of a range a permission. Their entries tell it: a page may be
    /// written to where writing is allowed and no snapshot's own table names its frame. No page
    /// comes, goes or changes, and nothing is asked of the allot.
    pub fn protect<A: Allot>(&mut self, first: u16, pages: u16, perm: Perm, allot: &mut A)
        requires range { first + pages ≤ CELL_PAGES }
        requires unjoined { has_present self.old.leaves.parent first pages ≡ true → AreUnjoined self.old.leaves.kept }
        ensures made { MadeAct A.goes (A.state allot.old) (A.state allot.new) (Protect first pages perm) self.old self.new None }
        ensures cell { self.new ≡ record self.old { writable = allowed perm first pages self.old } }
        ensures allot { allot.new ≡ allot.old }
    {
        let _ = allot;
        let is_writable = perm == Perm::ReadWrite;
        allow_range(&mut self.parent, &self.snapshot, first, pages, is_writable);
    }

    /// The page may be written to from now on.
    pub(crate) fn allow_page(&mut self, page: u16)
        requires page { page < CELL_PAGES }
        requires unshared { is_unshared self.old.leaves page ≡ true }
        ensures { self.new ≡ record self.old { writable = slice_set self.old.writable page true } }
    {
        allow_range(&mut self.parent, &self.snapshot, page, 1, true);
    }
}

/// Whether the pages of a range may be written to, but for those that a snapshot's own table names.
/// It goes block after block, and passes over a block without a page.
pub(crate) fn allow_range(
    parent: &mut Option<LeafTable>,
    snapshot: &Option<Snapshot>,
    first: u16,
    pages: u16,
    is_writable: bool,
)
    requires range { first + pages ≤ CELL_PAGES }
    requires writable { AreWritable parent.old (own_places snapshot.now) }
    ensures { parent.new ≡ with_allowed is_writable (own_places snapshot.now) first pages parent.old }
{
    if let Some(table) = parent {
        let blocks = pages / BLOCK;
        for block in 0..blocks {
            allow_block(table, snapshot, first + BLOCK * block, is_writable);
        }
        let done = BLOCK * blocks;
        allow_pages(table, snapshot, first + done, pages - done, is_writable);
    }
}

/// The same for a block of pages of a table.
fn allow_block(table: &mut LeafTable, snapshot: &Option<Snapshot>, first: u16, is_writable: bool)
    requires range { first + 8 ≤ CELL_PAGES }
    requires writable { AreWritable (Some table.old) (own_places snapshot.now) }
    ensures { table.new ≡ table_allowed is_writable (own_places snapshot.now) first 8 table.old }
{
    if table.is_bare(first) {
        return;
    }
    allow_pages(table, snapshot, first, BLOCK, is_writable);
}

/// The same for any pages of a table, one after another.
fn allow_pages(
    table: &mut LeafTable,
    snapshot: &Option<Snapshot>,
    first: u16,
    pages: u16,
    is_writable: bool,
)
    requires range { first + pages ≤ CELL_PAGES }
    requires writable { AreWritable (Some table.old) (own_places snapshot.now) }
    ensures { table.new
        ≡ table_allowed is_writable (own_places snapshot.now) first pages table.old }
{
    for page in first..first + pages {
        if let Some(place) = table.get(page) {
            let is_alone = !names_place(snapshot, page, place);
            table.set(page, place, is_writable && is_alone);
        }
    }
}
