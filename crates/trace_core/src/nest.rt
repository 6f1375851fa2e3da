//! The kernel as the nest of its snapshot.
ghost use Rattle.std.specs.Prelude.{◌≡◌};

use crate::kernel::Kernel;
use crate::process::SoloChild;
use crate::snapshots::SnapshotFault;
use vm_base::{CopyFault, Housing, Nest, SnapFault, Step};

impl Nest for Kernel {
    ghost use Rattle.std.specs.Prelude.{map};
    ghost use Rattle.trace_core.specs.KernelWent.{KernelWent};
    ghost use Rattle.trace_core.specs.WentOn.{went-none, went-on};
    ghost use Rattle.trace_core.specs.KernelSeen.{BesideChild, beside_of, kernel_memory, nest_of, parts_of, parts_with, notes_of};
    ghost use Rattle.trace_core.specs.KernelStanding.{number_among};
    ghost use Rattle.kernel_meaning.specs.Leaves.{holds_number};

    type Child = SoloChild;

    ghost Beside = { BesideChild };

    ghost beside = { λ kernel child. record {
      memory = kernel_memory (parts_of kernel.parts) (notes_of kernel.notes);
      beside = beside_of (parts_of kernel.parts) (notes_of kernel.notes);
      number = child.number;
    } };

    ghost lives = { λ beside. holds_number (number_among beside.beside.snapshot) beside.number };

    ghost born = { λ beside. beside.beside.born };

    ghost refused = { λ beside. beside.memory.refused };

    ghost nested = { λ kernel child. nest_of (parts_of kernel.parts) (notes_of kernel.notes) child.number };

    ghost went = { λ old new. KernelWent
        (parts_with old.parts (map (λ b. (FramePolicy-box b).told b.value) old.parts.supply.pool.policies.items)) (notes_of old.notes)
        (parts_with new.parts (map (λ b. (FramePolicy-box b).told b.value) new.parts.supply.pool.policies.items)) (notes_of new.notes) };

    ghost went_none = { λ p. went-none _ (notes_of p.notes) p.given };

    ghost went_on = { λ p q r one two. went-on _ _ _ _ _ _ p.given q.given one two };

    fn child_read(
        &mut self,
        child: &mut SoloChild,
        addr: u64,
        buf: &mut [u8],
    ) -> Result<(), SnapFault> {
        if buf.is_empty() {
            return Ok(());
        }
        match self.parts.snap_read(child.number, addr, buf) {
            Ok(()) => Ok(()),
            Err(SnapshotFault::NoArea(page)) => Err(SnapFault::NoArea(page)),
            Err(SnapshotFault::Lost(at)) => Err(SnapFault::Lost { at }),
            Err(SnapshotFault::NotLive) => unreachable!("the child lives"),
        }
    }

    /// Each cell is copied at the fork, so none is left to be copied; but one may be lost.
    fn child_copy(&mut self, child: &mut SoloChild) -> Result<Step, CopyFault> {
        match self.parts.tables.lowest_loss(child.number) {
            Some(lost) => Err(CopyFault::Lost { at: lost.at }),
            None => Ok(Step::AllDone),
        }
    }
}

impl Housing for Kernel {
    ghost use Rattle.trace_core.specs.KernelSeen.{parts_of, notes_of};
    ghost use Rattle.trace_core.specs.Housed.{same_memory, same_beside, same_child, used_there, lives_numbered, went_child, lost_since, used_kept, none_refused};
    ghost use Rattle.std.proofs.Common.{refl};

    ghost state_beside = { λ p q c d same. same_memory same };

    ghost aside_beside = { λ p q c d same. same_beside same };

    ghost child_beside = { λ p q c d same. same_child same };

    ghost refused_beside = { λ p c. refl };

    ghost born_beside = { λ p c. refl };

    ghost kept_nested = { λ p c. refl };

    ghost found_since = { λ p c lives cell at found. p.held.since c.number cell at found };

    ghost used_there = { λ p cell used. used_there (parts_of p.parts) (notes_of p.notes) p.slotted cell used };

    ghost went_nest = { λ p q went. went };

    ghost went_child = { λ p q c went lived lives. went_child _ _ _ _ p.given went.children c.number lived lives };

    ghost lost_since = { λ p q c went lived lives cell at before there. lost_since _ _ _ _ p.given went.children c.number lived lives cell at before there };

    ghost used_kept = { λ p c cell lives listed. used_kept (parts_of p.parts) (notes_of p.notes) p.housed c.number lives cell listed };

    ghost copies_reached = { λ p c lives refused. none_refused (parts_of p.parts) p.parts.uncopied refused };

    ghost lives_numbered = { λ p c. lives_numbered p.parts.snapshot c.number };
}
