//! The pool.
ghost use Rattle.std.specs.Prelude.{◌≡◌, ◌↔◌, ◌+◌, ◌<◌, ◌≤◌, ◌^◌, [], ◌∷◌, ◌++◌, ℕ, length, map, IfOk, OnErr, IsErrOf};
ghost use Rattle.std.specs.List.{range_with_len};
ghost use Rattle.vm_base.specs.FlatMemory.{zero_page};
ghost use Rattle.frame_pool.specs.Frames.{PoolView, KeepsFrames, TakesOut, IsDenied};
ghost use Rattle.frame_pool.specs.Policies.{standing};

use crate::ask::Ask;
use crate::frame_stack::FrameStack;
use crate::policy::FramePolicy;
use crate::turns::{ask_standing, drop_done};
use std::alloc::Global;
use vm_base::{Asker, Frame, NoMemory, Want};

/// Why a pool refused a frame.
#[derive(Clone, Copy, Debug, PartialEq, Eq)]
pub enum Why {
    /// No frame was there, and no policy was asked.
    Empty,
    /// The policy at this place of the list, from 0 and as the list stood before, denied.
    Denied(u32),
}

/// Frames that were made at opening, and the policies that are asked before one goes out. They are
/// of one type, which for a [`Pool`] is a box.
#[derive(Drop)]
pub struct PoolOf<P> {
    stack: FrameStack,
    asks: u64,
    policies: Vec<P>,
    /// No more frames are in the pool than were made.
    pub ghost within: { length stack.free ≤ stack.made },
    ghost few: { length policies.items < 2 ^ 32 },
}

/// A pool of boxed policies, which may be of several types.
pub type Pool = PoolOf<Box<dyn FramePolicy + Send>>;

/// What may be known of a value with a pool in it.
pub trait Seen {
    ghost seen: { Self → PoolView };
}

impl<P: FramePolicy> Seen for PoolOf<P> {
    ghost seen = { λ pool. record { made = pool.stack.made; free = pool.stack.free; asks = pool.asks; policies = map P.told pool.policies.items } };
}

impl<P: FramePolicy> PoolOf<P> {
    /// Makes so many frames, numbered from 0. Policies that are done are dropped.
    pub fn new(alloc: Global, frames: u32, policies: Vec<P>) -> Result<PoolOf<P>, NoMemory>
        ensures { IfOk result (λ pool. ⟦<PoolOf<P> as Seen>⟧.seen pool ≡ record { made = frames; free = range_with_len 0 frames; asks = 0; policies = standing (map P.told policies.items) }) }
    {
        let mut policies = policies;
        drop_done(&mut policies);
        if policies.len() > u32::MAX as usize {
            return Err(NoMemory);
        }
        Ok(PoolOf {
            stack: FrameStack::new(alloc, frames)?,
            asks: 0,
            policies,
        })
    }

    /// How many frames are in the pool.
    pub fn free(&self) -> u32
        ensures count { result ≡ length (⟦<PoolOf<P> as Seen>⟧.seen self.now).free }
        ensures bound { result ≤ (⟦<PoolOf<P> as Seen>⟧.seen self.now).made }
    {
        self.stack.len()
    }

    /// Takes a frame of zeros, where one is there and each policy grants it.
    pub fn take(&mut self, asker: Asker, want: Want) -> Result<Frame, Why>
        ensures taken { IfOk result (λ frame. TakesOut asker want frame (⟦<PoolOf<P> as Seen>⟧.seen self.old) (⟦<PoolOf<P> as Seen>⟧.seen self.new)) }
        ensures zeros { IfOk result (λ frame. frame.bytes ≡ zero_page) }
        // No frame moved, whatever the reason.
        ensures kept { OnErr result (KeepsFrames (⟦<PoolOf<P> as Seen>⟧.seen self.old) (⟦<PoolOf<P> as Seen>⟧.seen self.new)) }
        ensures empty { IsErrOf result Why.Empty ↔ ((⟦<PoolOf<P> as Seen>⟧.seen self.old).free ≡ []) }
        ensures unasked { IsErrOf result Why.Empty → ⟦<PoolOf<P> as Seen>⟧.seen self.new ≡ ⟦<PoolOf<P> as Seen>⟧.seen self.old }
        ensures denied { (place : ℕ) → IsErrOf result (Why.Denied place) → IsDenied asker want place (⟦<PoolOf<P> as Seen>⟧.seen self.old) (⟦<PoolOf<P> as Seen>⟧.seen self.new) }
    {
        let free = self.stack.len();
        if free == 0 {
            return Err(Why::Empty);
        }
        self.asks = self.asks.saturating_add(1);
        let ask = Ask {
            asker,
            want,
            free,
            place: self.asks,
        };
        if let Err(place) = ask_standing(&mut self.policies, ask) {
            return Err(Why::Denied(place));
        }
        match self.stack.pop() {
            Some(frame) => Ok(frame),
            None => Err(Why::Empty),
        }
    }

    /// Puts a frame back, and makes its bytes zeros.
    pub fn give(&mut self, frame: Frame)
        requires { length (⟦<PoolOf<P> as Seen>⟧.seen self.old).free < (⟦<PoolOf<P> as Seen>⟧.seen self.old).made }
        ensures { ⟦<PoolOf<P> as Seen>⟧.seen self.new ≡ record (⟦<PoolOf<P> as Seen>⟧.seen self.old) { free = (⟦<PoolOf<P> as Seen>⟧.seen self.old).free ++ frame.number ∷ [] } }
    {
        self.stack.push(frame);
    }
}

#[cfg(test)]
mod tests {
    use super::*;
    use crate::deny_nth::DenyNth;
    use std::test::Fail;

    #[test]
    fn a_policy_that_is_done_leaves_the_list(rt: HostRuntime) -> Result<(), Fail> {
        let mut policies: Vec<Box<dyn FramePolicy + Send>> = Vec::new(rt.alloc());
        policies.push(Box::new(rt.alloc(), DenyNth::new(2))?)?;
        let mut pool = Pool::new(rt.alloc(), 8, policies)?;
        assert_eq!(rt; pool.free(), 8);
        for (refusal, free, left) in [(None, 7, 1), (Some(Why::Denied(0)), 7, 0), (None, 6, 0)] {
            assert_eq!(rt; pool.take(Asker::Parent, Want::Page).err(), refusal);
            assert_eq!(rt; pool.free(), free);
            assert_eq!(rt; pool.policies.len(), left);
        }
        for _ in 0..6 {
            assert_eq!(rt; pool.take(Asker::Parent, Want::Page).err(), None);
        }
        assert_eq!(rt; pool.free(), 0);
        assert_eq!(rt;
            pool.take(Asker::Parent, Want::Page).err(),
            Some(Why::Empty)
        );
        Ok(())
    }
}
