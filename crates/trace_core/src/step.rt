//! One event of a run after another.
ghost use Rattle.std.specs.Prelude.{◌≡◌, ℕ, ◌+◌, ◌<◌, ◌≤◌, ◌^◌, List, [], ◌∷◌, ◌++◌, IfOk, OnErr, Err};
ghost use Rattle.trace_events.specs.declared.event.Event.{Event};
ghost use Rattle.trace_events.specs.declared.event.Event.TheVariants as event;
ghost use Rattle.trace_events.specs.declared.outcome.Outcome.{Outcome};
ghost use Rattle.trace_events.specs.EventBounds.{IsWithinBounds};
ghost use Rattle.kernel_meaning.specs.RefusedRequests.{PolicySum};
ghost use Rattle.trace_core.specs.KernelState.{Machine, KernelState};
ghost use Rattle.trace_core.specs.EventMeaning.{snap_read_outcome};
ghost use Rattle.trace_core.specs.CallAnswers.{area_outcome, fork_outcome};
ghost use Rattle.trace_core.specs.SnapshotAnswers.{snap_refusal};
ghost use Rattle.trace_core.specs.KernelStanding.{IsKernel, KernelStands};
ghost use Rattle.trace_core.specs.KernelRun.{Ran, HasRun};

use crate::parts::{Parts, Standing};
use crate::snapshots::{ForkRefusal, SnapshotFault};
use area_list::AreaFault;
use std::alloc::Global;
use trace_events::{Event, Outcome};
use vm_base::{Bytes, NoMemory};

impl Parts {
    /// Runs an event whose fields lie within their bounds. After `NoMemory` nothing has happened.
    pub fn step(&mut self, alloc: Global, event: &Event) -> Result<Outcome, NoMemory>
        requires within { IsWithinBounds event.now }
        requires stands { ∥ IsKernel (⟦<Parts as Standing>⟧.parts self.old) ∥₁ }
        ensures ran { IfOk result (Ran (⟦<Parts as Standing>⟧.parts self.old) (⟦<Parts as Standing>⟧.parts self.new) event.now) }

        // A run goes on by this event and its answer, whatever was run before.
        ensures run { IfOk result (λ outcome. (machine : Machine) (last : ℕ) (policies : PolicySum) (events : List Event) (outcomes : List Outcome)
            → HasRun (⟦<Parts as Standing>⟧.parts self.old) machine last policies events outcomes
            → HasRun (⟦<Parts as Standing>⟧.parts self.new) machine last policies (events ++ event.now ∷ []) (outcomes ++ outcome ∷ [])) }
        ensures kept { OnErr result (⟦<Parts as Standing>⟧.parts self.new ≡ ⟦<Parts as Standing>⟧.parts self.old) }
    {
        self.run_event(alloc, event)
    }

    fn run_event(&mut self, alloc: Global, event: &Event) -> Result<Outcome, NoMemory>
        requires within { IsWithinBounds event.now }
        requires stands { ∥ IsKernel (⟦<Parts as Standing>⟧.parts self.old) ∥₁ }
        ensures ran { IfOk result (Ran (⟦<Parts as Standing>⟧.parts self.old) (⟦<Parts as Standing>⟧.parts self.new) event.now) }
        ensures kept { OnErr result (⟦<Parts as Standing>⟧.parts self.new ≡ ⟦<Parts as Standing>⟧.parts self.old) }
    {
        match event {
            Event::Map { first, pages, perm } => Ok(area_outcome(self.map(*first, *pages, *perm))),
            Event::Unmap { first, pages } => Ok(area_outcome(self.unmap(*first, *pages))),
            Event::Protect { first, pages, perm } => {
                Ok(area_outcome(self.protect(*first, *pages, *perm)))
            }
            Event::Read { addr, len } => self.read_event(alloc, *addr, *len),
            Event::Write { addr, bytes } => Ok(self.write(*addr, bytes.as_slice())),
            Event::Fill { addr, len, byte } => self.fill(alloc, *addr, *len, *byte),
            Event::Fork { number, .. } => Ok(fork_outcome(self.fork(*number))),
            Event::Copy { number, cell } => Ok(self.copy(*number, *cell)),
            Event::Drop { number } => Ok(self.drop_snapshot(*number)),
            Event::SnapRead { number, addr, len } => {
                self.snap_read_event(alloc, *number, *addr, *len)
            }
            Event::Frames => Ok(self.frames()),
            Event::ListAreas => self.list_areas(alloc),
            Event::Refuse { nth } => Ok(self.refuse(*nth)),
        }
    }

    fn read_event(&self, alloc: Global, addr: u64, len: u32) -> Result<Outcome, NoMemory>
        requires some { 0 < len }
        requires range { addr + len ≤ 2 ^ 48 }
        requires stands { ∥ IsKernel (⟦<Parts as Standing>⟧.parts self.now) ∥₁ }
        ensures ran { IfOk result (Ran (⟦<Parts as Standing>⟧.parts self.now) (⟦<Parts as Standing>⟧.parts self.now) (event.Read addr len)) }
    {
        let mut buf = vec![in alloc; 0; len as usize]?;
        match self.read(addr, &mut buf) {
            Ok(()) => Ok(bytes_outcome(buf)),
            Err(refused) => Ok(Outcome::NoArea(refused.page)),
        }
    }

    fn snap_read_event(
        &self,
        alloc: Global,
        number: u32,
        addr: u64,
        len: u32,
    ) -> Result<Outcome, NoMemory>
        requires some { 0 < len }
        requires range { addr + len ≤ 2 ^ 48 }
        requires stands { ∥ IsKernel (⟦<Parts as Standing>⟧.parts self.now) ∥₁ }
        ensures ran { IfOk result (Ran (⟦<Parts as Standing>⟧.parts self.now) (⟦<Parts as Standing>⟧.parts self.now) (event.SnapRead number addr len)) }
    {
        let mut buf = vec![in alloc; 0; len as usize]?;
        match self.snap_read(number, addr, &mut buf) {
            Ok(()) => Ok(bytes_outcome(buf)),
            Err(fault) => Ok(fault_outcome(fault)),
        }
    }
}

// The answer of a change of areas.
fn area_outcome(answer: Result<(), AreaFault>) -> Outcome
    ensures { result ≡ area_outcome answer }
{
    match answer {
        Ok(()) => Outcome::Done,
        Err(AreaFault::NoArea(page)) => Outcome::NoArea(page),
        Err(AreaFault::Overlap(page)) => Outcome::Overlap(page),
        Err(AreaFault::AreasFull) => Outcome::AreasFull,
    }
}

// The answer of a fork.
fn fork_outcome(answer: Result<(), ForkRefusal>) -> Outcome
    ensures { result ≡ fork_outcome answer }
{
    match answer {
        Ok(()) => Outcome::Done,
        Err(ForkRefusal::NoFrame(at)) => Outcome::NoFrame(at),
        Err(ForkRefusal::TooMany) => Outcome::TooMany,
    }
}

// The answer of a read, which is the buffer that was read into.
fn bytes_outcome(bytes: Vec<u8>) -> Outcome
    ensures { result ≡ Outcome.Bytes bytes.items }
{
    Outcome::Bytes(Bytes::from_vec(bytes))
}

// The answer of a read of a snapshot that is refused.
fn fault_outcome(fault: SnapshotFault) -> Outcome
    ensures { result ≡ snap_read_outcome (Err (snap_refusal fault)) }
{
    match fault {
        SnapshotFault::NotLive => Outcome::NoSnap,
        SnapshotFault::NoArea(page) => Outcome::NoArea(page),
        SnapshotFault::Lost(at) => Outcome::Lost(at),
    }
}
