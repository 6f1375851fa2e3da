//! The process and its child.
ghost use Rattle.std.specs.Prelude.{◌≡◌, length};
ghost use Rattle.flat_memory.specs.FlatSeen.{numbers_of};

use crate::flat::Flat;
use vm_base::{ForkFault, Mode, Process};

/// A child, by its number. It must be spent: `reap` takes it.
#[derive(Debug)]
pub struct FlatChild {
    pub(crate) number: u32,
}

impl Process for Flat {
    ghost use Rattle.std.specs.Prelude.{Some};
    ghost use Rattle.flat_memory.specs.FlatSeen.{BesideMemory, beside_of, children_of, remains_of};

    type Child = FlatChild;

    type Gone = FlatChild;

    ghost Beside = { BesideMemory };

    ghost beside = { λ flat. beside_of flat.sides };

    // A process has one child, and children tell no process from another.
    ghost Home = { Unit {0} };

    ghost home = { λ beside. tt };

    ghost children = { λ beside. children_of beside };

    ghost kept = { λ beside child. beside.kept };

    ghost born = { λ beside child. Some beside.born };

    ghost child_number = { λ child. child.number };

    ghost child_home = { λ child. tt };

    ghost gone_home = { λ gone. tt };

    ghost remains = { λ gone. remains_of gone.number };

    ghost beside_memory = { λ p q same. same };

    /// Whatever the mode, all pages are copied at once.
    fn fork(&mut self, _mode: Mode) -> Result<FlatChild, ForkFault> {
        match self.sides.fork() {
            Ok(number) => Ok(FlatChild { number }),
            Err(fault) => Err(fault),
        }
    }

    fn reap(&mut self, gone: FlatChild) {
        let FlatChild { number: _ } = gone;
        self.sides.child = None;
    }

    fn number(child: &FlatChild) -> u32
        ensures { result ≡ child.now.number }
    {
        child.number
    }

    fn live(&self) -> u32 {
        live_count(&self.sides.child)
    }

    fn last(&self) -> u32 {
        self.sides.last
    }

    fn limit(&self) -> u32 {
        1
    }
}

// How many children live.
fn live_count(child: &Option<u32>) -> u32
    ensures { result ≡ length (numbers_of child.now) }
{
    match child {
        Some(_) => 1,
        None => 0,
    }
}
