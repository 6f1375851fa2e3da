//! The kernel: its parts, which stand for the state of a run.
ghost use Rattle.std.specs.Prelude.{◌≡◌, ◌≤◌, ◌+◌, IfOk, OnErr, List, ℕ, map, [], ◌∷◌, ◌++◌, length};
ghost use Rattle.vm_base.specs.MemoryState.{own_of};
ghost use Rattle.std.specs.Option.{ForSome};
ghost use Rattle.trace_events.specs.declared.event.Event.{Event};
ghost use Rattle.trace_events.specs.declared.outcome.Outcome.{Outcome};
ghost use Rattle.trace_events.specs.EventBounds.{IsWithinBounds, IsAboveLast};
ghost use Rattle.kernel_meaning.specs.FrameLaw.{held_frames};
ghost use Rattle.kernel_meaning.specs.RefusedRequests.{PolicySum};
ghost use Rattle.frame_pool.specs.Policies.{standing};
ghost use Rattle.trace_core.specs.SupplyState.{supply_state_of, opening_supply, policy_sum};
ghost use Rattle.trace_core.specs.KernelState.{Machine, KernelState, opening_state};
ghost use Rattle.trace_core.specs.KernelRun.{Ran, HasRun, last_behind};
ghost use Rattle.trace_core.specs.KernelStanding.{KernelStands};
ghost use Rattle.trace_core.specs.KernelWent.{AreGiven};
ghost use Rattle.trace_core.specs.KernelSeen.{KernelNotes, IsKernelNoted, IsNoted, NotesHold, AreSlotsUsed, AreKeptUsed, HasReached, parts_of, notes_of, kernel_memory, opening_memory, enough_of};

use crate::notes::Notes;
use crate::parts::{Parts, Standing};
use frame_pool::FramePolicy;
use std::alloc::Global;
use std::snapshot::Snapshot;
use trace_events::{Event, Outcome};
use vm_base::{Memory, NoMemory, Process};

/// A parent and its snapshot over counted frames. It stands for the state of a run at each moment.
#[derive(Drop)]
pub struct Kernel {
    pub(crate) parts: Parts,
    pub(crate) notes: Notes,
    /// The parts stand for the state of a run on some machine, whatever the pool's policies are.
    ghost stood: { ∥ IsKernelNoted (parts_of parts) (notes_of notes) ∥₁ },
    /// What is noted of the snapshot that lives, and of refusals, holds.
    ghost held: { NotesHold (parts_of parts) (notes_of notes) },
    /// A slot is used by a cell of the parent or of the snapshot that lives.
    ghost slotted: { AreSlotsUsed (parts_of parts) (notes_of notes) },
    /// Each cell of the snapshot that lives uses a slot.
    ghost housed: { AreKeptUsed (parts_of parts) (notes_of notes) },
    /// Once a request was refused, as many frames were had or asked for as are enough.
    ghost reached: { HasReached (parts_of parts) (notes_of notes) },
    /// The number of a snapshot that lives was given out.
    ghost given: { AreGiven (parts_of parts) },
    /// Where it is told how many are enough, no policy may refuse a request.
    ghost plain: { ForSome notes.enough.value (λ enough. length parts.supply.pool.policies.items ≡ 0) },
}

impl Standing for Kernel {
    ghost parts = { λ kernel. record {
      areas = kernel.parts.areas;
      tables = kernel.parts.tables;
      supply = supply_state_of (record {
        made = kernel.parts.supply.pool.stack.made;
        free = kernel.parts.supply.pool.stack.free;
        asks = kernel.parts.supply.pool.asks;
        policies = map (λ b. (FramePolicy-box b).told b.value) kernel.parts.supply.pool.policies.items;
      }) kernel.parts.supply.asker kernel.parts.supply.refused kernel.parts.supply.pending;
      snapshot = kernel.parts.snapshot;
      last = kernel.parts.last;
    } };
}

/// What clauses may know of the notes of a value with a kernel in it.
pub trait Noting {
    ghost notes: { Self → KernelNotes };
}

impl Noting for Kernel {
    ghost notes = { λ kernel. notes_of kernel.notes };
}

impl Kernel {
    /// A parent without areas or pages, over so many frames, with room for so many cells, and with
    /// policies that may refuse requests for frames. The last snapshot had this number, which is 0
    /// before the first. It fails only for want of memory.
    pub fn new(
        alloc: Global,
        frames: u32,
        cells: u32,
        last: u32,
        policies: Vec<Box<dyn FramePolicy + Send>>,
    ) -> Result<Kernel, NoMemory>
        requires cells { cells ≤ 512 }
        ensures stands { IfOk result (λ kernel. KernelStands (⟦<Kernel as Standing>⟧.parts kernel)
            (record { frames = frames; slots = cells; limit = 1 }) (opening_state last)) }

        // All frames are there, under the policies that are not done.
        ensures supply { IfOk result (λ kernel. (⟦<Kernel as Standing>⟧.parts kernel).supply
            ≡ opening_supply frames (standing (map (λ policy. told policy) policies.items))) }

        // A run begins, under these policies.
        ensures begins { IfOk result (λ kernel. HasRun (⟦<Kernel as Standing>⟧.parts kernel)
            (record { frames = frames; slots = cells; limit = 1 }) last
            (policy_sum (standing (map (λ policy. told policy) policies.items))) [] []) }

        // No child lives.
        ensures children { IfOk result (λ kernel. ⟦<Kernel as Process>⟧.children (⟦<Kernel as Process>⟧.beside kernel)
            ≡ record { numbers = []; live = 0; last = last; limit = 1 }) }

        // It holds no page, and tells how many frames are enough where there is no policy.
        ensures memory { IfOk result (λ kernel. ⟦<Kernel as Memory>⟧.state kernel ≡ opening_memory frames cells (enough_of frames (length policies.items))) }
    {
        let enough = enough_of(frames, policies.len());
        let parts = Parts::new(alloc, frames, cells, last, policies)?;
        let notes = Notes::new(&parts.tables, enough);
        Ok(Kernel { parts, notes })
    }

    /// Runs an event whose fields lie within their bounds; a fork's number lies above the last one.
    /// After `NoMemory` nothing has happened.
    pub fn step(&mut self, alloc: Global, event: &Event) -> Result<Outcome, NoMemory>
        requires within { IsWithinBounds event.now }
        requires numbered { IsAboveLast (⟦<Kernel as Standing>⟧.parts self.old).last event.now }
        ensures ran { IfOk result (Ran (⟦<Kernel as Standing>⟧.parts self.old) (⟦<Kernel as Standing>⟧.parts self.new) event.now) }

        // A run goes on by this event and its answer, whatever was run before.
        ensures run { IfOk result (λ outcome. (machine : Machine) (last : ℕ) (policies : PolicySum) (events : List Event) (outcomes : List Outcome)
            → HasRun (⟦<Kernel as Standing>⟧.parts self.old) machine last policies events outcomes
            → HasRun (⟦<Kernel as Standing>⟧.parts self.new) machine last policies (events ++ event.now ∷ []) (outcomes ++ outcome ∷ [])) }
        ensures kept { OnErr result (⟦<Kernel as Standing>⟧.parts self.new ≡ ⟦<Kernel as Standing>⟧.parts self.old) }

        // The last number is a fork's own exactly where the fork succeeds.
        ensures last { IfOk result (λ outcome. (⟦<Kernel as Standing>⟧.parts self.new).last
            ≡ last_behind event.now outcome (⟦<Kernel as Standing>⟧.parts self.old).last) }

        // What is noted of it.
        ensures noted { IfOk result (λ outcome. IsNoted (⟦<Kernel as Standing>⟧.parts self.old).tables event.now outcome
            (⟦<Kernel as Standing>⟧.parts self.new).tables (⟦<Kernel as Standing>⟧.parts self.new).supply.refused
            (⟦<Kernel as Noting>⟧.notes self.old) (⟦<Kernel as Noting>⟧.notes self.new)) }
        ensures unnoted { OnErr result (⟦<Kernel as Noting>⟧.notes self.new ≡ ⟦<Kernel as Noting>⟧.notes self.old) }
    {
        let before = Snapshot::of(&self.parts.tables);
        let answer = self.parts.step(alloc, event);
        let refused = self.parts.refused();
        self.notes
            .answered(&before, event, &answer, &self.parts.tables, refused);
        answer
    }

    /// How many frames are out of the pool: those of the tables and of the pages, each counted
    /// once.
    pub fn held(&self) -> u32
        ensures held { (machine : Machine) (state : KernelState) → KernelStands (⟦<Kernel as Standing>⟧.parts self.now) machine state
            → result ≡ held_frames state.leaves }

        // Where no snapshot lives, they are those of the parent's own memory.
        ensures alone { (⟦<Kernel as Process>⟧.children (⟦<Kernel as Process>⟧.beside self.now)).live ≡ 0
            → result ≡ own_of (⟦<Kernel as Memory>⟧.state self.now).mem }
    {
        self.parts.held()
    }

    /// How many frames are left in the pool.
    pub fn free(&self) -> u32
        ensures free { (machine : Machine) (state : KernelState) → KernelStands (⟦<Kernel as Standing>⟧.parts self.now) machine state
            → result + held_frames state.leaves ≡ machine.frames }
    {
        self.parts.free()
    }

    /// How many requests of the parent were refused.
    pub fn refused(&self) -> u64
        ensures refused { (machine : Machine) (state : KernelState) → KernelStands (⟦<Kernel as Standing>⟧.parts self.now) machine state
            → result ≡ state.world.refused }
    {
        self.parts.refused()
    }
}

// How many frames are enough, of so many that were made, under so many policies.
fn enough_of(frames: u32, policies: usize) -> Option<u64>
    ensures { result ≡ enough_of frames policies }
{
    if policies == 0 {
        Some(u64::from(frames) / 2 + 1)
    } else {
        None
    }
}
