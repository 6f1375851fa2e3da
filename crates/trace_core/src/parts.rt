//! The parts of a kernel: the parent's areas, the page tables, and where frames come from.
ghost use Rattle.std.specs.Prelude.{◌≡◌, ◌≤◌, ◌<◌, IfOk, length, map, [], None, vec_capacity};
ghost use Rattle.frame_pool.specs.Policies.{standing};
ghost use Rattle.page_tables.specs.Permissions.{LetsNoneWrite};
ghost use Rattle.trace_core.specs.declared.parts.TheConstants.{MOST_PAGES};
ghost use Rattle.trace_core.specs.SupplyState.{supply_state_of, opening_supply, policy_sum};
ghost use Rattle.trace_core.specs.KernelState.{opening_state};
ghost use Rattle.trace_core.specs.KernelRun.{HasRun};
ghost use Rattle.trace_core.specs.KernelStanding.{KernelParts, KernelStands, copies_refused_in};

use crate::supply::Supply;
use area_list::Areas;
use frame_pool::FramePolicy;
use page_tables::{PAGE_BYTES, PageTables};
use std::alloc::Global;
use vm_base::NoMemory;

/// The most bytes that one call touches, as the trait `Memory` has it.
pub(crate) const MOST_BYTES: u64 = 4_194_304;

/// The most pages that so many bytes may meet.
pub(crate) const MOST_PAGES: usize = (MOST_BYTES / PAGE_BYTES) as usize + 1;

/// What the kernel keeps of the snapshot that lives, beside its page tables.
#[derive(Drop)]
pub(crate) struct SnapshotAreas {
    pub(crate) number: u32,
    pub(crate) areas: Areas,
    /// Its refused copies.
    pub(crate) refused: u64,
}

/// A parent and its snapshot over counted frames. What they stand for is told by whoever has them.
#[derive(Drop)]
pub(crate) struct Parts {
    pub(crate) areas: Areas,
    pub(crate) tables: PageTables,
    pub(crate) supply: Supply,
    pub(crate) snapshot: Option<SnapshotAreas>,
    pub(crate) last: u32,
    /// Room for the pages that one touch adds.
    pub(crate) added: Vec<u64>,

    ghost room: { MOST_PAGES ≤ vec_capacity added },
    ghost numbered: { last ≤ 4294967295 },
    /// All is copied at a fork, so no copy of the snapshot was ever refused.
    ghost uncopied: { copies_refused_in snapshot ≡ 0 },
}

/// What clauses may know of a value with a kernel in it.
pub trait Standing {
    ghost parts: { Self → KernelParts };
}

impl Standing for Parts {
    ghost parts = { λ kernel. record {
      areas = kernel.areas;
      tables = kernel.tables;
      supply = supply_state_of (record {
        made = kernel.supply.pool.stack.made;
        free = kernel.supply.pool.stack.free;
        asks = kernel.supply.pool.asks;
        policies = map (λ b. (FramePolicy-box b).told b.value) kernel.supply.pool.policies.items;
      }) kernel.supply.asker kernel.supply.refused kernel.supply.pending;
      snapshot = kernel.snapshot;
      last = kernel.last;
    } };
}

impl Parts {
    /// A parent without areas or pages, over so many frames, with room for so many cells, and with
    /// policies that may refuse requests for frames. The last snapshot had this number, which is 0
    /// before the first. It fails only for want of memory.
    pub fn new(
        alloc: Global,
        frames: u32,
        cells: u32,
        last: u32,
        policies: Vec<Box<dyn FramePolicy + Send>>,
    ) -> Result<Parts, NoMemory>
        requires cells { cells ≤ 512 }
        ensures stands { IfOk result (λ kernel. KernelStands (⟦<Parts as Standing>⟧.parts kernel)
            (record { frames = frames; slots = cells; limit = 1 }) (opening_state last)) }

        ensures alone { IfOk result (λ parts. parts.snapshot ≡ None) }
        ensures unwritten { IfOk result (λ kernel. LetsNoneWrite (⟦<Parts as Standing>⟧.parts kernel).tables) }

        // All frames are there, under the policies that are not done.
        ensures supply { IfOk result (λ kernel. (⟦<Parts as Standing>⟧.parts kernel).supply
            ≡ opening_supply frames (standing (map (λ policy. told policy) policies.items))) }

        // A run begins, under these policies.
        ensures begins { IfOk result (λ kernel. HasRun (⟦<Parts as Standing>⟧.parts kernel)
            (record { frames = frames; slots = cells; limit = 1 }) last
            (policy_sum (standing (map (λ policy. told policy) policies.items))) [] []) }
    {
        let supply = Supply::new(alloc, frames, policies)?;
        let tables = PageTables::new(alloc, cells)?;
        let added = Vec::with_capacity(alloc, MOST_PAGES)?;
        Ok(Parts {
            areas: Areas::new(),
            tables,
            supply,
            snapshot: None,
            last,
            added,
        })
    }
}
