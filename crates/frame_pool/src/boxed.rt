//! A boxed policy is a policy.
use crate::ask::Ask;
use crate::policy::FramePolicy;

impl FramePolicy for Box<dyn FramePolicy + Send> {
    ghost told = { λ b. (FramePolicy-box b).told b.value };

    fn grant(&mut self, ask: Ask) -> bool {
        (**self).grant(ask)
    }

    fn done(&self) -> bool {
        (**self).done()
    }
}
