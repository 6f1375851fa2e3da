//! The kernel on frames: what its events mean, and where its frames come from.
//!
//! The main types are [`Kernel`], a parent and its snapshot over counted frames, and [`Supply`], a
//! pool with the one that asks it: `kernel.step(alloc, &event)` runs an event and answers its
//! outcome. A kernel is also a memory, a process whose one child is a [`SoloChild`], and the nest
//! of that child. A caller may rely on one sentence: what events answer and leave one after
//! another is what the definitions say of them, with the requests for frames that they make, each
//! refused as the policies allow. README.md goes on.
#![tactic(auto)]

mod accounts;
mod kernel;
mod laws;
mod mappings;
mod memory;
mod nest;
mod notes;
mod parts;
mod process;
mod snapshots;
mod step;
mod supply;
mod writing;

pub use kernel::{Kernel, Noting};
pub use laws::{a_run_is_told_by_its_refused_requests, a_supply_answers_as_it_may};
pub use parts::Standing;
pub use process::SoloChild;
pub use supply::Supply;
