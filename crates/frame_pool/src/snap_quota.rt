//! A policy that bounds what snapshots may ask for.
ghost use Rattle.std.specs.Prelude.{◌≡◌, false, IsTrue};
ghost use Rattle.frame_pool.specs.Policies.{Grants, Denies};
ghost use Rattle.frame_pool.specs.Quotas.{quota_told, quota_grants, after_quota};

use crate::ask::Ask;
use crate::policy::FramePolicy;
use std::marker::Model;
use vm_base::Asker;

/// Grants so many asks of all snapshots together and denies those that follow. It spares the
/// parent and is never done.
#[derive(Debug, Drop)]
pub struct SnapQuota {
    // The asks of snapshots that it still grants.
    room: u64,
    reached: u64,
    denied: u64,
}

impl Model for SnapQuota {
    ghost use Rattle.frame_pool.specs.Quotas.{Quota};

    ghost Value = { Quota };

    ghost view = { λ policy. record { room = policy.room; reached = policy.reached; denied = policy.denied } };
}

impl SnapQuota {
    /// Grants the first `limit` asks of snapshots.
    pub fn new(limit: u64) -> SnapQuota
        ensures { result ≡ record { room = limit; reached = 0; denied = 0 } }
    {
        SnapQuota {
            room: limit,
            reached: 0,
            denied: 0,
        }
    }
}

impl FramePolicy for SnapQuota {
    ghost use Rattle.frame_pool.specs.Quotas.{quota_told};

    ghost told = { quota_told };

    fn grant(&mut self, ask: Ask) -> bool
        requires { (quota_told self.old).done ≡ false }
        ensures granted { IsTrue result → Grants ask (quota_told self.old) (quota_told self.new) }
        ensures denied { result ≡ false → Denies ask (quota_told self.old) (quota_told self.new) }

        // The first asks of snapshots are granted, and no more of them.
        ensures first { result ≡ quota_grants ask.asker self.old }
        ensures after { self.new ≡ after_quota ask.asker self.old }
    {
        self.reached = self.reached.saturating_add(1);
        match ask.asker {
            Asker::Parent => true,
            Asker::Snapshot(_) if self.room > 0 => {
                self.room -= 1;
                true
            }
            Asker::Snapshot(_) => {
                self.denied = self.denied.saturating_add(1);
                false
            }
        }
    }

    fn done(&self) -> bool {
        false
    }
}
