//! The calls of the parent that take pages out of its areas, and that change what pages may be
//! used for.
ghost use Rattle.std.specs.Prelude.{◌≡◌, ℕ, ◌+◌, ◌<◌, ◌≤◌, ◌^◌, OnOk, OnErr};
ghost use Rattle.vm_base.specs.FlatStep.{unmap_of, protect_of};
ghost use Rattle.page_tables.specs.Permissions.{may_write, may_write_after, StopsWriting};
ghost use Rattle.kernel_meaning.specs.EventRequests.{pages_unmapped, pages_protected};
ghost use Rattle.trace_core.specs.KernelState.{Machine, KernelState};
ghost use Rattle.trace_core.specs.EventMeaning.{begun, areas_changed};
ghost use Rattle.trace_core.specs.CallAnswers.{area_outcome};
ghost use Rattle.trace_core.specs.KernelStanding.{IsKernel, KernelStands, EventRan};

use crate::parts::{Parts, Standing};
use area_list::AreaFault;
use vm_base::Perm;

impl Parts {
    /// Takes pages out of the areas, with the frames that no side needs then. Pages that lie in no
    /// area are passed over. It is refused only where more areas would be left than may be, and
    /// then nothing has changed.
    pub fn unmap(&mut self, first: u64, pages: u64) -> Result<(), AreaFault>
        requires some { 0 < pages }
        requires within { first + pages ≤ 2 ^ 36 }
        requires stands { ∥ IsKernel (⟦<Parts as Standing>⟧.parts self.old) ∥₁ }
        ensures ran { (machine : Machine) (state : KernelState) → KernelStands (⟦<Parts as Standing>⟧.parts self.old) machine state
            → EventRan (⟦<Parts as Standing>⟧.parts self.old) (⟦<Parts as Standing>⟧.parts self.new) machine
            (λ answers. areas_changed state (unmap_of state.world.parent first pages) (pages_unmapped first pages (begun state answers))) (area_outcome result) }
        ensures refused { OnErr result (⟦<Parts as Standing>⟧.parts self.new ≡ ⟦<Parts as Standing>⟧.parts self.old) }
        ensures writable { OnOk result (StopsWriting first pages (⟦<Parts as Standing>⟧.parts self.old).tables (⟦<Parts as Standing>⟧.parts self.new).tables) }
        ensures beside { ((⟦<Parts as Standing>⟧.parts self.new).snapshot ≡ (⟦<Parts as Standing>⟧.parts self.old).snapshot) × ((⟦<Parts as Standing>⟧.parts self.new).last ≡ (⟦<Parts as Standing>⟧.parts self.old).last) }
    {
        self.areas.unmap(first, pages)?;
        self.tables.unmap(first, pages, &mut self.supply);
        Ok(())
    }

    /// Gives pages of the areas another permission, or says why not, and the entries of those that
    /// are present tell it. They keep their bytes and their frames, and no frame is asked for: no
    /// leaf table is shared that would have to be copied before.
    pub fn protect(&mut self, first: u64, pages: u64, perm: Perm) -> Result<(), AreaFault>
        requires some { 0 < pages }
        requires within { first + pages ≤ 2 ^ 36 }
        requires stands { ∥ IsKernel (⟦<Parts as Standing>⟧.parts self.old) ∥₁ }
        ensures ran { (machine : Machine) (state : KernelState) → KernelStands (⟦<Parts as Standing>⟧.parts self.old) machine state
            → EventRan (⟦<Parts as Standing>⟧.parts self.old) (⟦<Parts as Standing>⟧.parts self.new) machine
            (λ answers. areas_changed state (protect_of state.world.parent first pages perm) (pages_protected first pages (begun state answers))) (area_outcome result) }
        ensures refused { OnErr result (⟦<Parts as Standing>⟧.parts self.new ≡ ⟦<Parts as Standing>⟧.parts self.old) }
        ensures writable { OnOk result ((page : ℕ) → may_write (⟦<Parts as Standing>⟧.parts self.new).tables page
            ≡ may_write_after perm first pages (⟦<Parts as Standing>⟧.parts self.old).tables page) }
        ensures beside { ((⟦<Parts as Standing>⟧.parts self.new).snapshot ≡ (⟦<Parts as Standing>⟧.parts self.old).snapshot) × ((⟦<Parts as Standing>⟧.parts self.new).last ≡ (⟦<Parts as Standing>⟧.parts self.old).last) }
    {
        self.areas.protect(first, pages, perm)?;
        self.tables.protect(first, pages, perm, &mut self.supply);
        Ok(())
    }
}
