//! The changes of a cell, with the leaf copies that come before them.
ghost use Rattle.std.specs.Prelude.{◌≡◌, ◌+◌, ◌<◌, ◌≤◌, None, false, true, OnErr};
ghost use Rattle.kernel_meaning.specs.Leaves.{has_present, version_at};
ghost use Rattle.kernel_meaning.specs.CellAccount.{Clear, Protect, Touch};
ghost use Rattle.leaf_cell.specs.CellView.{held_of};
ghost use Rattle.leaf_cell.specs.Permissions.{allowed};
ghost use Rattle.leaf_cell.specs.Standing.{MadeAct};
ghost use Rattle.leaf_cell.specs.States.{refused_count};
ghost use Rattle.leaf_cell.specs.Touching.{IsCleared};
ghost use Rattle.leaf_cell.specs.Writable.{without_writable};
ghost use Rattle.kernel_meaning.specs.CellActs.{before_change};
ghost use Rattle.share_cell.specs.Parts.{MadeWithin};
ghost use Rattle.mark_cell.specs.Changes.{BehindCopies, CopiesJoined, TouchEnds};

use crate::marks::sync;
use leaf_cell::Cell;
use share_cell::unshare;
use vm_base::{Allot, Perm, Refused};

/// Gives the parent a page of its own, which may then be stored to. First each leaf that is joined
/// is copied. Refused only at an absent page; the leaf copies stay then, and nothing else.
pub fn touch_page<A: Allot>(cell: &mut Cell, page: u16, allot: &mut A) -> Result<(), Refused>
    requires page { page < 512 }
    requires held { held_of cell.old ≤ A.out (A.state allot.old) }
    requires untold { A.grants allot.old ≡ None }
    ensures made { MadeAct A.goes (A.state allot.old) (A.state allot.new) (Touch page) cell.old
        cell.new (refused_count result) }
    ensures held { A.out (A.state allot.new) + held_of cell.old
        ≡ A.out (A.state allot.old) + held_of cell.new }
    ensures untold { A.grants allot.new ≡ None }
    ensures ends { BehindCopies (A.refused (A.state allot.old)) cell.old
        (TouchEnds page (A.refused (A.state allot.new)) cell.new result) }
    ensures absent { OnErr result (version_at cell.old.leaves.parent page ≡ None) }
{
    // A leaf is joined only where the parent has its table.
    if cell.has_pages() {
        copy_joined(cell, allot);
    }
    cell.touch(page, allot)
}

/// Takes the parent's pages of a range out. Where one of them is present, first each leaf that is
/// joined is copied; where none is nothing changes.
pub fn clear_pages<A: Allot>(cell: &mut Cell, first: u16, pages: u16, allot: &mut A)
    requires range { first + pages ≤ 512 }
    requires held { held_of cell.old ≤ A.out (A.state allot.old) }
    requires untold { A.grants allot.old ≡ None }
    ensures made { MadeAct A.goes (A.state allot.old) (A.state allot.new) (Clear first pages)
        cell.old cell.new None }
    ensures held { A.out (A.state allot.new) + held_of cell.old
        ≡ A.out (A.state allot.old) + held_of cell.new }
    ensures untold { A.grants allot.new ≡ None }
    ensures cleared { has_present cell.old.leaves.parent first pages ≡ true
        → BehindCopies (A.refused (A.state allot.old)) cell.old (λ count between.
        IsCleared first pages between cell.new
        × (cell.new.writable ≡ without_writable first pages between.writable)
        × (A.refused (A.state allot.new) ≡ count)) }
    ensures unchanged { has_present cell.old.leaves.parent first pages ≡ false
        → (cell.new ≡ cell.old) × (A.state allot.new ≡ A.state allot.old) }
{
    if cell.covers(first, pages) {
        copy_joined(cell, allot);
    }
    cell.clear(first, pages, allot);
}

/// Gives the parent's pages of a range a permission. Where one of them is present, first each leaf
/// that is joined is copied; where none is nothing changes.
pub fn protect_pages<A: Allot>(cell: &mut Cell, first: u16, pages: u16, perm: Perm, allot: &mut A)
    requires range { first + pages ≤ 512 }
    requires held { held_of cell.old ≤ A.out (A.state allot.old) }
    requires untold { A.grants allot.old ≡ None }
    ensures made { MadeAct A.goes (A.state allot.old) (A.state allot.new) (Protect first pages perm)
        cell.old cell.new None }
    ensures held { A.out (A.state allot.new) + held_of cell.old
        ≡ A.out (A.state allot.old) + held_of cell.new }
    ensures untold { A.grants allot.new ≡ None }
    ensures protected { has_present cell.old.leaves.parent first pages ≡ true
        → BehindCopies (A.refused (A.state allot.old)) cell.old (λ count between.
        (cell.new ≡ record between { writable = allowed perm first pages between })
        × (A.refused (A.state allot.new) ≡ count)) }
    ensures unchanged { has_present cell.old.leaves.parent first pages ≡ false
        → (cell.new ≡ cell.old) × (A.state allot.new ≡ A.state allot.old) }
{
    if cell.covers(first, pages) {
        copy_joined(cell, allot);
        cell.protect(first, pages, perm, allot);
    }
}

/// Copies each leaf that is joined, as before a change: those that snapshots share, and then those
/// that are marked.
fn copy_joined<A: Allot>(cell: &mut Cell, allot: &mut A)
    requires held { held_of cell.old ≤ A.out (A.state allot.old) }
    requires untold { A.grants allot.old ≡ None }
    ensures made { MadeWithin A.goes (A.state allot.old) (A.state allot.new) before_change cell.old
        cell.new }
    ensures held { A.out (A.state allot.new) + held_of cell.old
        ≡ A.out (A.state allot.old) + held_of cell.new }
    ensures untold { A.grants allot.new ≡ None }
    ensures copied { CopiesJoined (A.refused (A.state allot.old)) (A.refused (A.state allot.new))
        cell.old cell.new }
{
    unshare(cell, allot);
    sync(cell, allot);
}
