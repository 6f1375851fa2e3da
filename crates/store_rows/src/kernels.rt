//! Kernels in which a store has begun.
ghost use Rattle.std.specs.Prelude.{IfOk};
ghost use Rattle.store_meaning.specs.Standing.{IsStanding};

use crate::{STORE_CELLS, store_in};
use frame_pool::FramePolicy;
use std::alloc::Global;
use std::test::Fail;
use trace_core::Kernel;
use vm_base::Memory;

/// A store without pairs in the parent of a new kernel of so many frames, whose policies may refuse
/// requests for frames.
pub fn kernel_store(
    alloc: Global,
    frames: u16,
    policies: Vec<Box<dyn FramePolicy + Send>>,
) -> Result<Kernel, Fail>
    ensures stands { IfOk result (λ kernel. IsStanding (⟦<Kernel as Memory>⟧.state kernel)) }
{
    let kernel = Kernel::new(alloc, u32::from(frames), STORE_CELLS, 0, policies)?;
    Ok(store_in(kernel)?)
}
