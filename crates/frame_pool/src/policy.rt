//! Who may deny a frame that is there.
ghost use Rattle.std.specs.Prelude.{◌≡◌, false, IsTrue};
ghost use Rattle.frame_pool.specs.Policies.{PolicyView, Grants, Denies};

use crate::ask::Ask;

/// A rule that a pool asks before it hands out a frame.
pub trait FramePolicy: Drop {
    /// What may be known of it: how often it was asked and has denied, how many denials may still
    /// come where it tells so, whether it spares the parent, whether it is done, and what it would
    /// answer to each ask.
    ghost told: { Self → PolicyView };

    /// Whether the request is granted. A policy that is done is never asked.
    fn grant(&mut self, ask: Ask) -> bool
        requires { (told self.old).done ≡ false }
        ensures granted { IsTrue result → Grants ask (told self.old) (told self.new) }
        ensures denied { result ≡ false → Denies ask (told self.old) (told self.new) };

    /// Whether it will deny nothing any more. A pool drops it then.
    fn done(&self) -> bool
        ensures { result ≡ (told self.now).done };
}
