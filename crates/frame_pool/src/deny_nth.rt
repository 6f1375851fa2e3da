//! A policy that denies one request.
ghost use Rattle.std.specs.Prelude.{◌≡◌, ◌<◌, ◌==◌, not, false, IsTrue};
ghost use Rattle.vm_base.specs.Counts.{next_count};
ghost use Rattle.frame_pool.specs.Policies.{Grants, Denies};
ghost use Rattle.frame_pool.specs.OneDenial.{told_of};

use crate::ask::Ask;
use crate::policy::FramePolicy;
use std::marker::Model;

/// Denies one of the asks that reach it, and is then done.
#[derive(Debug, Drop)]
pub struct DenyNth {
    nth: u64,
    reached: u64,
}

impl Model for DenyNth {
    ghost use Rattle.frame_pool.specs.OneDenial.{OneDenial};

    ghost Value = { OneDenial };

    ghost view = { λ policy. record { nth = policy.nth; reached = policy.reached } };
}

impl DenyNth {
    /// Denies the nth ask that reaches it, counted from 1.
    pub fn new(nth: u64) -> DenyNth
        requires { 0 < nth }
        ensures { result ≡ record { nth = nth; reached = 0 } }
    {
        DenyNth { nth, reached: 0 }
    }
}

impl FramePolicy for DenyNth {
    ghost use Rattle.frame_pool.specs.OneDenial.{told_of};

    ghost told = { told_of };

    fn grant(&mut self, ask: Ask) -> bool
        requires { (told_of self.old).done ≡ false }
        ensures granted { IsTrue result → Grants ask (told_of self.old) (told_of self.new) }
        ensures denied { result ≡ false → Denies ask (told_of self.old) (told_of self.new) }

        // The ask that is denied is the one that it was made for.
        ensures reached { self.new ≡ record self.old { reached = next_count self.old.reached } }
        ensures nth { result ≡ not (self.new.reached == self.new.nth) }
    {
        self.reached = self.reached.saturating_add(1);
        self.reached != self.nth
    }

    fn done(&self) -> bool {
        self.nth <= self.reached
    }
}
