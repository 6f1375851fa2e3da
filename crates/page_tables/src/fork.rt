//! Snapshots made and dropped.
ghost use Rattle.std.specs.Prelude.{◌≡◌, ℕ, ◌+◌, ◌≤◌, ◌++◌, ◌∷◌, [], IsSome, OnOk, OnErr, None, Some, length, cond, not, replicate};
ghost use Rattle.std.specs.FinMap.{empty, keys};
ghost use Rattle.vm_base.specs.declared.fork_mode.Mode.TheVariants as mode;
ghost use Rattle.vm_base.specs.declared.frame_request.Want.TheVariants as want;
ghost use Rattle.vm_base.specs.Deals.{Counts};
ghost use Rattle.kernel_meaning.specs.EventRequests.{snapshot_forked, snapshot_dropped};
ghost use Rattle.kernel_meaning.specs.Leaves.{share};
ghost use Rattle.kernel_meaning.specs.FrameLaw.{is_used};
ghost use Rattle.kernel_meaning.specs.CellAccount.{CellAccount};
ghost use Rattle.leaf_cell.specs.CellView.{held_of, without_snapshot};
ghost use Rattle.leaf_cell.specs.Standing.{StandsFor};
ghost use Rattle.table_levels.specs.Cells.{tables_of};
ghost use Rattle.table_levels.specs.Requests.{Asks, directory_wants};
ghost use Rattle.page_tables.specs.Sides.{Sides};
ghost use Rattle.page_tables.specs.Standing.{TablesStandFor, living_number, slot_count};
ghost use Rattle.page_tables.specs.Held.{frames_in, frames_of, shares_in};
ghost use Rattle.page_tables.specs.Forking.{Becomes, AllBecome, HaveAccounts, AreAlone, AreFreed, owner_if_used, is_forked, forked_count, forked_leaves, forked_state, same_leaves, same_state, dropped_state, fork_refusal, forked_bits, same_bits, HaveBits, BitsAfterFork, snapshots_with, snapshots_without, MadeOfSnapshots};
ghost use Rattle.page_tables.specs.Permissions.{KeepsWriting, WritesAfterFork};
ghost use Rattle.page_tables.specs.Returning.{Returning};

use crate::slot::Slot;
use crate::tables::{PageTables, SnapshotTables};
use leaf_cell::Cell;
use table_levels::Directory;
use vm_base::{Allot, Refused};

impl PageTables {
    /// Forks: a snapshot has the parent's pages as they are now, with a directory and leaf tables
    /// of its own, for which frames are asked in this order. After a refusal what was granted has
    /// been given back, and there is no snapshot.
    pub fn fork<A: Allot>(&mut self, number: u32, allot: &mut A) -> Result<(), Refused>
        requires alone { self.old.snapshot ≡ None }
        requires stands { ∥ ((sides : Sides) × TablesStandFor self.old sides) ∥₁ }
        requires lent { frames_of self.old ≤ A.out (A.state allot.old) }
        requires untold { A.grants allot.old ≡ None }
        ensures made { MadeOfSnapshots A.goes (A.state allot.old) (A.state allot.new) (snapshot_forked number mode.Eager) (snapshots_with number) self.old self.new (fork_refusal result) }
        ensures counts { Counts A.refused (A.state allot.old) result (A.state allot.new) }
        ensures held { A.out (A.state allot.new) + frames_of self.old ≡ A.out (A.state allot.old) + frames_of self.new }
        ensures untold { A.grants allot.new ≡ None }
        ensures slots { slot_count self.new ≡ slot_count self.old }
        ensures lives { OnOk result (living_number self.new.snapshot ≡ Some number) }
        ensures kept { OnErr result (self.new.snapshot ≡ None) }
        ensures writable { WritesAfterFork result self.old self.new }
    {
        match self.spare.take() {
            Some(mut directory) => {
                match fork_into(
                    &self.directory,
                    &mut directory,
                    &mut self.slots,
                    number,
                    allot,
                ) {
                    Ok(()) => {
                        self.snapshot = Some(SnapshotTables { number, directory });
                        Ok(())
                    }
                    Err(refused) => {
                        self.spare = Some(directory);
                        Err(refused)
                    }
                }
            }
            None => unreachable!("a directory waits while no snapshot lives"),
        }
    }

    /// Drops the snapshot that lives. Its leaf tables and the pages that only it names go back, and
    /// so do the tables of its directory.
    pub fn drop_snapshot<A: Allot>(&mut self, allot: &mut A)
        requires lives { IsSome self.old.snapshot }
        requires stands { ∥ ((sides : Sides) × TablesStandFor self.old sides) ∥₁ }
        requires lent { frames_of self.old ≤ A.out (A.state allot.old) }
        requires untold { A.grants allot.old ≡ None }
        ensures made { (number : ℕ) → living_number self.old.snapshot ≡ Some number → MadeOfSnapshots A.goes (A.state allot.old) (A.state allot.new) (snapshot_dropped number) (snapshots_without number) self.old self.new None }
        ensures unrefused { A.refused (A.state allot.new) ≡ A.refused (A.state allot.old) }
        ensures held { A.out (A.state allot.new) + frames_of self.old ≡ A.out (A.state allot.old) + frames_of self.new }
        ensures untold { A.grants allot.new ≡ None }
        ensures slots { slot_count self.new ≡ slot_count self.old }
        ensures gone { self.new.snapshot ≡ None }
        ensures writable { KeepsWriting self.old self.new }
    {
        match self.snapshot.take() {
            Some(mut tables) => {
                drop_cells(&mut self.slots, tables.number, allot);
                tables.directory.release(allot);
                free_unused(&mut self.slots);
                self.spare = Some(tables.directory);
            }
            None => unreachable!("a snapshot lives"),
        }
    }
}

/// Copies the directory into an empty one, and forks the cells, or does nothing.
fn fork_into<A: Allot>(
    parent: &Directory,
    child: &mut Directory,
    slots: &mut Vec<Slot>,
    number: u32,
    allot: &mut A,
) -> Result<(), Refused>
    requires empty { child.old ≡ empty }
    requires alone { AreAlone slots.old.items }
    requires known { ∥ HaveAccounts slots.old.items ∥₁ }
    requires lent { frames_in slots.old.items ≤ A.out (A.state allot.old) }
    requires untold { A.grants allot.old ≡ None }
    ensures copied { OnOk result (child.new ≡ parent.now) }
    ensures forked { OnOk result (AllBecome (forked_leaves number) (forked_state number) slots.old.items slots.new.items) }
    ensures kept { OnErr result (child.new ≡ empty) }
    ensures undone { OnErr result (AllBecome same_leaves same_state slots.old.items slots.new.items) }
    ensures bits { BitsAfterFork result slots.old.items slots.new.items }

    // What the allot was asked for, and what it has afterwards.
    ensures requests { Asks A.goes (A.state allot.old) (directory_wants (keys parent.now) ++ replicate (forked_count slots.old.items) want.Leaf) result (A.state allot.new) }
    ensures counts { Counts A.refused (A.state allot.old) result (A.state allot.new) }
    ensures held { A.out (A.state allot.new) + frames_in slots.old.items ≡ A.out (A.state allot.old) + frames_in slots.new.items + tables_of child.new }
    ensures untold { A.grants allot.new ≡ None }
    ensures even { frames_in slots.old.items + shares_in slots.new.items ≡ shares_in slots.old.items + frames_in slots.new.items }
{
    match child.copy_from(parent, allot) {
        Ok(()) => {}
        Err(refused) => return Err(refused),
    }
    match fork_cells(slots, number, allot) {
        Ok(()) => Ok(()),
        Err(refused) => {
            child.release(allot);
            Err(refused)
        }
    }
}

/// Forks each cell in which the parent has a page, or none of them.
fn fork_cells<A: Allot>(slots: &mut Vec<Slot>, number: u32, allot: &mut A) -> Result<(), Refused>
    requires alone { AreAlone slots.old.items }
    requires known { ∥ HaveAccounts slots.old.items ∥₁ }
    requires lent { frames_in slots.old.items ≤ A.out (A.state allot.old) }
    requires untold { A.grants allot.old ≡ None }
    ensures forked { OnOk result (AllBecome (forked_leaves number) (forked_state number) slots.old.items slots.new.items) }
    ensures undone { OnErr result (AllBecome same_leaves same_state slots.old.items slots.new.items) }
    ensures bits { BitsAfterFork result slots.old.items slots.new.items }
    ensures requests { Asks A.goes (A.state allot.old) (replicate (forked_count slots.old.items) want.Leaf) result (A.state allot.new) }
    ensures counts { Counts A.refused (A.state allot.old) result (A.state allot.new) }
    ensures held { A.out (A.state allot.new) + frames_in slots.old.items ≡ A.out (A.state allot.old) + frames_in slots.new.items }
    ensures untold { A.grants allot.new ≡ None }
    ensures even { frames_in slots.old.items + shares_in slots.new.items ≡ shares_in slots.old.items + frames_in slots.new.items }
{
    for i in 0..slots.len() {
        match fork_slot(&mut slots[i], number, allot) {
            Ok(()) => {}
            Err(refused) => {
                drop_cells(slots, number, allot);
                return Err(refused);
            }
        }
    }
    Ok(())
}

/// Forks the cell, where the parent has a page there.
fn fork_slot<A: Allot>(slot: &mut Slot, number: u32, allot: &mut A) -> Result<(), Refused>
    requires alone { slot.old.cell.leaves.kept ≡ [] }
    requires known { ∥ ((account : CellAccount) × StandsFor slot.old.cell account) ∥₁ }
    requires lent { held_of slot.old.cell ≤ A.out (A.state allot.old) }
    requires untold { A.grants allot.old ≡ None }
    ensures forked { OnOk result (Becomes (forked_leaves number) (forked_state number) slot.old slot.new) }
    ensures kept { OnErr result (slot.new ≡ slot.old) }
    ensures bits { OnOk result (slot.new.cell.writable ≡ forked_bits slot.old) }
    ensures requests { Asks A.goes (A.state allot.old) (replicate (cond (is_forked slot.old) 1 0) want.Leaf) result (A.state allot.new) }
    ensures counts { Counts A.refused (A.state allot.old) result (A.state allot.new) }
    ensures held { A.out (A.state allot.new) + held_of slot.old.cell ≡ A.out (A.state allot.old) + held_of slot.new.cell }
    ensures untold { A.grants allot.new ≡ None }
    ensures even { held_of slot.old.cell + share slot.new.cell.leaves ≡ share slot.old.cell.leaves + held_of slot.new.cell }
{
    if !slot.cell.has_pages() {
        return Ok(());
    }
    slot.cell.tell_share();
    let answer = slot.cell.fork_eager(number, allot);
    slot.cell.tell_share();
    answer
}

/// Drops the snapshot at each cell.
fn drop_cells<A: Allot>(slots: &mut Vec<Slot>, number: u32, allot: &mut A)
    requires known { ∥ HaveAccounts slots.old.items ∥₁ }
    requires lent { frames_in slots.old.items ≤ A.out (A.state allot.old) }
    requires untold { A.grants allot.old ≡ None }
    ensures dropped { AllBecome (without_snapshot number) (dropped_state number) slots.old.items slots.new.items }
    ensures bits { HaveBits same_bits slots.old.items slots.new.items }
    ensures returned { Returning A.goes (A.state allot.old) (A.state allot.new) slots.old.items slots.new.items }
    ensures unrefused { A.refused (A.state allot.new) ≡ A.refused (A.state allot.old) }
    ensures held { A.out (A.state allot.new) + frames_in slots.old.items ≡ A.out (A.state allot.old) + frames_in slots.new.items }
    ensures untold { A.grants allot.new ≡ None }
    ensures even { frames_in slots.old.items + shares_in slots.new.items ≡ shares_in slots.old.items + frames_in slots.new.items }
{
    for i in 0..slots.len() {
        drop_slot(&mut slots[i], number, allot);
    }
}

/// Drops the snapshot at the cell.
fn drop_slot<A: Allot>(slot: &mut Slot, number: u32, allot: &mut A)
    requires known { ∥ ((account : CellAccount) × StandsFor slot.old.cell account) ∥₁ }
    requires lent { held_of slot.old.cell ≤ A.out (A.state allot.old) }
    requires untold { A.grants allot.old ≡ None }
    ensures dropped { Becomes (without_snapshot number) (dropped_state number) slot.old slot.new }
    ensures bits { slot.new.cell.writable ≡ same_bits slot.old }
    ensures returned { Returning A.goes (A.state allot.old) (A.state allot.new) (slot.old ∷ []) (slot.new ∷ []) }
    ensures unrefused { A.refused (A.state allot.new) ≡ A.refused (A.state allot.old) }
    ensures held { A.out (A.state allot.new) + held_of slot.old.cell ≡ A.out (A.state allot.old) + held_of slot.new.cell }
    ensures untold { A.grants allot.new ≡ None }
    ensures even { held_of slot.old.cell + share slot.new.cell.leaves ≡ share slot.old.cell.leaves + held_of slot.new.cell }
{
    slot.cell.tell_share();
    slot.cell.drop_snap(number, allot);
    slot.cell.tell_share();
}

/// Takes the owners of cells that nobody has any more.
fn free_unused(slots: &mut Vec<Slot>)
    ensures { AreFreed slots.old.items slots.new.items }
{
    for i in 0..slots.len() {
        free_if_unused(&mut slots[i]);
    }
}

/// Takes the owner of a cell that nobody has any more.
pub(crate) fn free_if_unused(slot: &mut Slot)
    ensures cell { slot.new.cell ≡ slot.old.cell }
    ensures owner { slot.new.owner ≡ owner_if_used slot.old }
{
    if is_unused(&slot.cell) {
        slot.owner = None;
    }
}

/// Whether nobody has a cell.
fn is_unused(cell: &Cell) -> bool
    ensures { result ≡ not (is_used cell.now.leaves) }
{
    !cell.has_pages() && cell.snap(0).is_none()
}
