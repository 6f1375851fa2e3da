//! The process as the nest of its child.
ghost use Rattle.std.specs.Prelude.{◌≡◌};

use crate::flat::Flat;
use crate::process::FlatChild;
use vm_base::{CopyFault, Housing, Nest, SnapFault, Step};

impl Nest for Flat {
    ghost use Rattle.flat_memory.specs.FlatSeen.{BesideChild, FlatWent, memory_of, beside_of, nest_of, is_child};
    ghost use Rattle.flat_memory.specs.SideSeen.{mem_of};
    ghost use Rattle.flat_memory.specs.FlatLaws.{went-none, went-on};

    type Child = FlatChild;

    ghost Beside = { BesideChild };

    ghost beside = { λ flat child. record {
      memory = memory_of flat.sides;
      beside = beside_of flat.sides;
      number = child.number;
    } };

    ghost lives = { λ beside. is_child beside.beside.child beside.number };

    ghost born = { λ beside. beside.beside.born };

    ghost refused = { λ beside. beside.memory.refused };

    ghost nested = { λ flat child. nest_of (mem_of flat.sides.kept) };

    ghost went = { λ old new. FlatWent (beside_of old.sides) (beside_of new.sides) };

    ghost went_none = { λ p. went-none (beside_of p.sides) };

    ghost went_on = { λ p q r one two.
        went-on (beside_of p.sides) (beside_of q.sides) (beside_of r.sides) one two };

    fn child_read(
        &mut self,
        _child: &mut FlatChild,
        addr: u64,
        buf: &mut [u8],
    ) -> Result<(), SnapFault> {
        match self.sides.kept.read(addr, buf) {
            Ok(()) => Ok(()),
            Err(page) => Err(SnapFault::NoArea(page)),
        }
    }

    /// All pages are copied at the fork, so none is left to be copied.
    fn child_copy(&mut self, _child: &mut FlatChild) -> Result<Step, CopyFault> {
        Ok(Step::AllDone)
    }
}

impl Housing for Flat {
    ghost use Rattle.std.proofs.Common.{refl};
    ghost use Rattle.flat_memory.specs.FlatSeen.{beside_of};
    ghost use Rattle.flat_memory.specs.FlatLaws.{same_memory, same_beside, same_child, none_found, used_there, went_child, used_kept, lives_numbered};

    ghost state_beside = { λ p q c d same. same_memory same };

    ghost aside_beside = { λ p q c d same. same_beside same };

    ghost child_beside = { λ p q c d same. same_child same };

    ghost refused_beside = { λ p c. refl };

    ghost born_beside = { λ p c. refl };

    ghost kept_nested = { λ p c. refl };

    ghost found_since = { λ p c lives cell at found. absurd (none_found cell at found) };

    ghost used_there = { λ p cell used. used_there p.sides cell used };

    ghost went_nest = { λ p q went. went };

    ghost went_child = { λ p q c went lived lives.
        went_child p.sides q.sides p.holds went c.number lived lives };

    ghost lost_since = { λ p q c went lived lives cell at before found.
        absurd (none_found cell at found) };

    ghost used_kept = { λ p c cell lives listed. used_kept p.sides c.number lives cell listed };

    ghost copies_reached = { λ p c lives refused. tt };

    ghost lives_numbered = { λ p c. lives_numbered p.sides.child c.number };
}
