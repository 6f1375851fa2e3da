//! The calls about the snapshot: forked from the parent, copied, read and dropped.
ghost use Rattle.std.specs.Prelude.{◌≡◌, ◌+◌, ◌<◌, ◌≤◌, ◌^◌, length, Err};
ghost use Rattle.vm_base.specs.declared.fork_mode.Mode.TheVariants.{Eager};
ghost use Rattle.vm_base.specs.TwoSides.{snap_read_of};
ghost use Rattle.kernel_meaning.specs.Leaves.{holds_number};
ghost use Rattle.trace_core.specs.KernelState.{Machine, KernelState};
ghost use Rattle.trace_core.specs.EventMeaning.{fork_end, copy_end_of, drop_end};
ghost use Rattle.trace_core.specs.KernelStanding.{IsKernel, KernelStands, EventRan, kept_number};
ghost use Rattle.trace_core.specs.CallAnswers.{fork_outcome};
ghost use Rattle.page_tables.specs.Permissions.{KeepsWriting};
ghost use Rattle.trace_core.specs.Writing.{WritesAfterSnapshot};
ghost use Rattle.trace_core.specs.SnapshotAnswers.{snap_read_answer, KeepsUnlessLost};

use crate::parts::{Parts, SnapshotAreas, Standing};
use crate::writing::{first_outside, page_count};
use leaf_cell::LeafState;
use page_tables::PAGE_BYTES;
use trace_events::Outcome;

// The fork
//
// What it is for. A snapshot reads what the parent had at one moment, whatever the parent does
// later. A save writes its image from one.
//
// How it goes. The snapshot gets the parent's areas, a directory of its own with the same cells,
// and in each cell a leaf table that names the parent's frames. No page is copied. From then on a
// touch of the parent copies a page before it changes it, and tells it by the entries of both
// tables who names a frame.
//
// What if a frame is refused. The tables of the directory are asked for first, then the leaves in
// rising order of cells. At the first refusal all that was granted goes back, in both, and there is
// no snapshot. The number is not used up. The parent's pages may have to be touched again before
// they are stored to, since the bit for writing was taken from the cells that had been forked.
//
// Limits. All leaf tables are copied here, so it costs a frame and a copy for each cell; one
// snapshot lives at a time.
impl Parts {
    /// Forks the snapshot of this number, which has the parent's areas and pages as they are now.
    /// It asks for the tables of the snapshot's directory, and for a leaf table for each cell in
    /// which the parent has a page. One snapshot may live at a time. After a refusal there is none,
    /// and what was granted has gone back.
    pub fn fork(&mut self, number: u32) -> Result<(), ForkRefusal>
        requires stands { ∥ IsKernel (⟦<Parts as Standing>⟧.parts self.old) ∥₁ }
        ensures ran { (machine : Machine) (state : KernelState) → KernelStands (⟦<Parts as Standing>⟧.parts self.old) machine state
            → EventRan (⟦<Parts as Standing>⟧.parts self.old) (⟦<Parts as Standing>⟧.parts self.new) machine (λ answers. fork_end machine state answers number Eager) (fork_outcome result) }
        ensures full { result ≡ Err ForkRefusal.TooMany → ⟦<Parts as Standing>⟧.parts self.new ≡ ⟦<Parts as Standing>⟧.parts self.old }
        ensures writable { WritesAfterSnapshot result (⟦<Parts as Standing>⟧.parts self.old).tables (⟦<Parts as Standing>⟧.parts self.new).tables }
    {
        if self.snapshot.is_some() {
            return Err(ForkRefusal::TooMany);
        }
        match self.tables.fork(number, &mut self.supply) {
            Ok(()) => {
                self.snapshot = Some(SnapshotAreas {
                    number,
                    areas: self.areas.copy(),
                    refused: 0,
                });
                self.last = number;
                Ok(())
            }
            Err(refused) => Err(ForkRefusal::NoFrame(refused.at)),
        }
    }

    /// Copies what the snapshot shares with the parent at a cell, both by their numbers. An eager
    /// fork shares no leaf table, so there is nothing to copy, and no frame is asked for; but a
    /// cell that the snapshot has lost is told.
    pub fn copy(&mut self, number: u32, cell: u32) -> Outcome
        requires cell { cell < 2 ^ 27 }
        requires stands { ∥ IsKernel (⟦<Parts as Standing>⟧.parts self.old) ∥₁ }
        ensures ran { (machine : Machine) (state : KernelState) → KernelStands (⟦<Parts as Standing>⟧.parts self.old) machine state
            → EventRan (⟦<Parts as Standing>⟧.parts self.old) (⟦<Parts as Standing>⟧.parts self.new) machine (λ answers. copy_end_of state answers number cell) result }
        ensures same { ⟦<Parts as Standing>⟧.parts self.new ≡ ⟦<Parts as Standing>⟧.parts self.old }
    {
        if !is_live(&self.snapshot, number) {
            return Outcome::NoSnap;
        }
        match self.tables.state(number, cell) {
            LeafState::Lost(at) => Outcome::Lost(at),
            _ => Outcome::Nothing,
        }
    }

    /// Drops the snapshot of this number, and gives back what it alone holds.
    pub fn drop_snapshot(&mut self, number: u32) -> Outcome
        requires stands { ∥ IsKernel (⟦<Parts as Standing>⟧.parts self.old) ∥₁ }
        ensures ran { (machine : Machine) (state : KernelState) → KernelStands (⟦<Parts as Standing>⟧.parts self.old) machine state
            → EventRan (⟦<Parts as Standing>⟧.parts self.old) (⟦<Parts as Standing>⟧.parts self.new) machine (λ answers. drop_end state answers number) result }
        ensures writable { KeepsWriting (⟦<Parts as Standing>⟧.parts self.old).tables (⟦<Parts as Standing>⟧.parts self.new).tables }
    {
        if !is_live(&self.snapshot, number) {
            return Outcome::NoSnap;
        }
        self.tables.drop_snapshot(&mut self.supply);
        self.snapshot = None;
        Outcome::Done
    }

    /// Reads a range of the snapshot of this number as it was at its fork. A lost cell is met only
    /// behind those below it, so some of the buffer may be filled then.
    pub fn snap_read(&self, number: u32, addr: u64, buf: &mut [u8]) -> Result<(), SnapshotFault>
        requires some { 0 < length buf.old }
        requires range { addr + length buf.old ≤ 2 ^ 48 }
        requires stands { ∥ IsKernel (⟦<Parts as Standing>⟧.parts self.now) ∥₁ }
        ensures read { (machine : Machine) (state : KernelState) → KernelStands (⟦<Parts as Standing>⟧.parts self.now) machine state
            → snap_read_of state.world number addr (length buf.old) ≡ snap_read_answer result buf.new }
        ensures kept { KeepsUnlessLost result buf.old buf.new }
    {
        let Some(kept) = &self.snapshot else {
            return Err(SnapshotFault::NotLive);
        };
        if kept.number != number {
            return Err(SnapshotFault::NotLive);
        }
        let first = addr / PAGE_BYTES;
        let count = page_count(addr, buf.len() as u64);
        if let Some(page) = first_outside(&kept.areas, first, count) {
            return Err(SnapshotFault::NoArea(page));
        }
        match self.tables.snap_read(number, addr, buf) {
            Ok(()) => Ok(()),
            Err(lost) => Err(SnapshotFault::Lost(lost.at)),
        }
    }
}

/// No snapshot was forked.
#[derive(Clone, Copy, Debug, PartialEq, Eq)]
pub(crate) enum ForkRefusal {
    /// No frame was left for a table of it: the refused requests of the parent, this one counted.
    NoFrame(u64),
    /// One lives already.
    TooMany,
}

/// A snapshot can't be read there.
#[derive(Clone, Copy, Debug, PartialEq, Eq)]
pub(crate) enum SnapshotFault {
    /// No snapshot of that number lives.
    NotLive,
    /// The lowest page of the range that lay in no area at the fork.
    NoArea(u64),
    /// The snapshot has lost a cell of the range: the parent's count of refused requests when it
    /// lost the lowest one.
    Lost(u64),
}

// Whether the snapshot of this number lives.
fn is_live(snapshot: &Option<SnapshotAreas>, number: u32) -> bool
    ensures { result ≡ holds_number (kept_number snapshot.now) number }
{
    match snapshot {
        Some(kept) => kept.number == number,
        None => false,
    }
}
