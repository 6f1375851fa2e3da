//! Where the kernel's frames come from.
ghost use Rattle.std.specs.Prelude.{◌≡◌, ◌+◌, ◌-◌, ◌^◌, ◌≤◌, map, Some, IfOk};
ghost use Rattle.vm_base.specs.Counts.{next_count};
ghost use Rattle.frame_pool.specs.Policies.{standing};
ghost use Rattle.trace_core.specs.SupplyState.{SupplyState, supply_state_of, opening_supply, is_next, pending_behind, SupplyGoes};

use frame_pool::{FramePolicy, Pool};
use std::alloc::Global;
use vm_base::{Allot, Asker, Frame, NoMemory, Refused, Want};

/// A pool, and who asks it. One of the requests that follow may be named to be refused: the pool
/// is not asked for that one.
#[derive(Drop)]
pub struct Supply {
    pool: Pool,
    // How many frames the pool made.
    frames: u32,
    asker: Asker,
    // Of this asker.
    refused: u64,
    // Counted from 1, which is the next request.
    pending: Option<u32>,

    ghost all: { pool.stack.made ≡ frames },
    ghost counted: { refused ≤ 2 ^ 64 - 1 },
}

impl Supply {
    /// Of so many frames, all of them in the pool, with policies that may refuse a request. The
    /// parent asks, and was not refused yet. It fails only for want of memory.
    pub fn new(
        alloc: Global,
        frames: u32,
        policies: Vec<Box<dyn FramePolicy + Send>>,
    ) -> Result<Supply, NoMemory>
        ensures { IfOk result (λ supply. ⟦<Supply as Allot>⟧.state supply
            ≡ opening_supply frames (standing (map (λ policy. told policy) policies.items))) }
    {
        Ok(Supply {
            pool: Pool::new(alloc, frames, policies)?,
            frames,
            asker: Asker::Parent,
            refused: 0,
            pending: None,
        })
    }

    /// Names the nth request that follows, counted from 1, to be refused. It takes the place of one
    /// that is still to come.
    pub fn refuse(&mut self, nth: u32)
        ensures { ⟦<Supply as Allot>⟧.state self.new
            ≡ record (⟦<Supply as Allot>⟧.state self.old) { pending = Some nth } }
    {
        self.pending = Some(nth);
    }

    /// From here on this asker asks, which was refused so often before. Answers how often the one
    /// that asked until now was refused.
    pub fn ask_as(&mut self, asker: Asker, refused: u64) -> u64
        ensures before { result ≡ (⟦<Supply as Allot>⟧.state self.old).refused }
        ensures asks { ⟦<Supply as Allot>⟧.state self.new
            ≡ record (⟦<Supply as Allot>⟧.state self.old) { asker = asker; refused = refused } }
    {
        let before = self.refused;
        self.asker = asker;
        self.refused = refused;
        before
    }

    /// How many frames are out.
    pub fn held(&self) -> u32
        ensures { result ≡ (⟦<Supply as Allot>⟧.state self.now).out }
    {
        self.frames - self.pool.free()
    }

    /// How many frames are in the pool.
    pub fn free(&self) -> u32
        ensures { result + (⟦<Supply as Allot>⟧.state self.now).out
            ≡ (⟦<Supply as Allot>⟧.state self.now).made }
    {
        self.pool.free()
    }

    /// How often the one that asks was refused.
    pub fn refused(&self) -> u64
        ensures { result ≡ (⟦<Supply as Allot>⟧.state self.now).refused }
    {
        self.refused
    }
}

impl Allot for Supply {
    ghost State = { SupplyState };

    ghost state = { λ supply. supply_state_of (record {
      made = supply.pool.stack.made;
      free = supply.pool.stack.free;
      asks = supply.pool.asks;
      policies = map (λ b. (FramePolicy-box b).told b.value) supply.pool.policies.items;
    }) supply.asker supply.refused supply.pending };

    ghost refused = { λ state. state.refused };

    ghost out = { λ state. state.out };

    ghost goes = { SupplyGoes };

    fn take(&mut self, want: Want) -> Result<Frame, Refused> {
        let is_named = names_next(self.pending);
        self.pending = behind_one(self.pending);
        if is_named {
            return Err(one_more(&mut self.refused));
        }
        match self.pool.take(self.asker, want) {
            Ok(frame) => Ok(frame),
            Err(_) => Err(one_more(&mut self.refused)),
        }
    }

    fn give(&mut self, frame: Frame) {
        self.pool.give(frame);
    }
}

// Whether the request that comes next is the one that is named.
fn names_next(pending: Option<u32>) -> bool
    ensures { result ≡ is_next pending }
{
    pending == Some(1)
}

// Which request is named when one more was made.
fn behind_one(pending: Option<u32>) -> Option<u32>
    ensures { result ≡ pending_behind pending }
{
    match pending {
        Some(nth) if nth > 1 => Some(nth - 1),
        _ => None,
    }
}

// The asker was refused once more.
fn one_more(refused: &mut u64) -> Refused
    ensures counted { refused.new ≡ next_count refused.old }
    ensures at { result.at ≡ refused.new }
{
    *refused = refused.saturating_add(1);
    Refused { at: *refused }
}
