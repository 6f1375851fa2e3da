//! What the kernel tells of itself, and the request that is named to be refused.
ghost use Rattle.std.specs.Prelude.{◌≡◌, ◌+◌, ◌<◌, IfOk};
ghost use Rattle.kernel_meaning.specs.FrameLaw.{held_frames};
ghost use Rattle.trace_events.specs.declared.event.Event.TheVariants as event;
ghost use Rattle.trace_events.specs.declared.outcome.Outcome.TheVariants as outcome;
ghost use Rattle.trace_core.specs.KernelState.{Machine, KernelState};
ghost use Rattle.trace_core.specs.KernelStanding.{KernelStands};
ghost use Rattle.trace_core.specs.KernelRun.{Ran};

use crate::parts::{Parts, Standing};
use std::alloc::Global;
use trace_events::{AreaRow, Outcome};
use vm_base::NoMemory;

impl Parts {
    /// How many frames are out of the pool: those of the tables and of the pages, each counted
    /// once.
    pub fn held(&self) -> u32
        ensures held { (machine : Machine) (state : KernelState) → KernelStands (⟦<Parts as Standing>⟧.parts self.now) machine state
            → result ≡ held_frames state.leaves }
    {
        self.supply.held()
    }

    /// How many frames are left in the pool.
    pub fn free(&self) -> u32
        ensures free { (machine : Machine) (state : KernelState) → KernelStands (⟦<Parts as Standing>⟧.parts self.now) machine state
            → result + held_frames state.leaves ≡ machine.frames }
    {
        self.supply.free()
    }

    /// How many requests of the parent were refused.
    pub fn refused(&self) -> u64
        ensures refused { (machine : Machine) (state : KernelState) → KernelStands (⟦<Parts as Standing>⟧.parts self.now) machine state
            → result ≡ state.world.refused }
        ensures count { result ≡ (⟦<Parts as Standing>⟧.parts self.now).supply.refused }
    {
        self.supply.refused()
    }

    /// The frames that are out and those that are left.
    pub fn frames(&self) -> Outcome
        ensures ran { Ran (⟦<Parts as Standing>⟧.parts self.now) (⟦<Parts as Standing>⟧.parts self.now) event.Frames result }
    {
        Outcome::Held {
            held: self.held(),
            free: self.free(),
        }
    }

    /// The parent's areas as they are now.
    pub fn list_areas(&self, alloc: Global) -> Result<Outcome, NoMemory>
        ensures ran { IfOk result (Ran (⟦<Parts as Standing>⟧.parts self.now) (⟦<Parts as Standing>⟧.parts self.now) event.ListAreas) }
    {
        let row = AreaRow::new(alloc, self.areas.list())?;
        Ok(Outcome::AreaRow(row))
    }

    /// Names the nth request for a frame from here on, counted from 1, to be refused.
    pub fn refuse(&mut self, nth: u32) -> Outcome
        requires some { 0 < nth }
        ensures ran { Ran (⟦<Parts as Standing>⟧.parts self.old) (⟦<Parts as Standing>⟧.parts self.new) (event.Refuse nth) result }
        ensures others { ⟦<Parts as Standing>⟧.parts self.new ≡ record (⟦<Parts as Standing>⟧.parts self.old) { supply = (⟦<Parts as Standing>⟧.parts self.new).supply } }
    {
        self.supply.refuse(nth);
        Outcome::Done
    }
}
