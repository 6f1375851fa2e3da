//! The frames of the modelled machine: made at opening, taken and given back, with policies that
//! may deny a request.
//!
//! The main type is [`Pool`]: `pool.take(Asker::Parent, Want::Page)` gives a frame of zeros or says
//! [`Why`] not. A caller may rely on one sentence: a request is refused exactly where no frame is
//! there or a policy that was asked denied it. The README beside this crate goes on from here.
#![tactic(auto)]

mod ask;
mod boxed;
mod deny_nth;
mod frame_stack;
mod laws;
mod one_pool;
mod policy;
mod snap_quota;
mod turns;

pub use ask::Ask;
pub use deny_nth::DenyNth;
pub use laws::each_frame_is_at_one_place;
pub use one_pool::{Pool, PoolOf, Seen, Why};
pub use policy::FramePolicy;
pub use snap_quota::SnapQuota;
