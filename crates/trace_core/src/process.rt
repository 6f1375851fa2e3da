//! The kernel as a process: the snapshot that lives is its one child.
ghost use Rattle.std.specs.Prelude.{◌≡◌, length};
ghost use Rattle.trace_core.specs.CallAnswers.{child_answer};
ghost use Rattle.trace_core.specs.KernelSeen.{spent_fault, live_numbers};

use crate::kernel::Kernel;
use crate::parts::SnapshotAreas;
use crate::snapshots::ForkRefusal;
use vm_base::{ForkFault, Mode, Process};

/// A snapshot of a kernel, by its number. It must be spent: `reap` takes it, and drops the
/// snapshot.
#[derive(Debug)]
pub struct SoloChild {
    pub(crate) number: u32,
}

impl Process for Kernel {
    ghost use Rattle.std.specs.Prelude.{Some};
    ghost use Rattle.trace_core.specs.KernelSeen.{BesideMemory, beside_of, parts_of, notes_of, children_among, memory_among, remains_of};

    type Child = SoloChild;

    type Gone = SoloChild;

    ghost Beside = { BesideMemory };

    ghost beside = { λ kernel. beside_of (parts_of kernel.parts) (notes_of kernel.notes) };

    // A kernel has one child, and children tell no kernel from another.
    ghost Home = { Unit {0} };

    ghost home = { λ beside. tt };

    ghost children = { λ beside. children_among beside.snapshot beside.last };

    ghost kept = { λ beside child. memory_among beside.snapshot beside.forked };

    ghost born = { λ beside child. Some beside.born };

    ghost child_number = { λ child. child.number };

    ghost child_home = { λ child. tt };

    ghost gone_home = { λ gone. tt };

    ghost remains = { λ gone. remains_of gone.number };

    ghost beside_memory = { λ p q same. same };

    /// Whatever the mode, the snapshot has all leaf tables of its own at once.
    fn fork(&mut self, _mode: Mode) -> Result<SoloChild, ForkFault> {
        let Some(number) = self.parts.last.checked_add(1) else {
            return Err(no_number(&self.parts.snapshot));
        };
        let answer = self.parts.fork(number);
        let refused = self.parts.refused();
        self.notes
            .fork_answered(&answer, &self.parts.tables, refused);
        child_answer(answer, number)
    }

    fn reap(&mut self, gone: SoloChild) {
        let SoloChild { number } = gone;
        let _ = self.parts.drop_snapshot(number);
    }

    fn number(child: &SoloChild) -> u32
        ensures { result ≡ child.now.number }
    {
        child.number
    }

    fn live(&self) -> u32 {
        live_count(&self.parts.snapshot)
    }

    fn last(&self) -> u32 {
        self.parts.last
    }

    fn limit(&self) -> u32 {
        1
    }
}

// Why there is no fork where the last number was given out: a snapshot lives, or else no number is
// left.
fn no_number(snapshot: &Option<SnapshotAreas>) -> ForkFault
    ensures { result ≡ spent_fault snapshot.now }
{
    match snapshot {
        Some(_) => ForkFault::TooMany,
        None => ForkFault::NumbersSpent,
    }
}

// How many snapshots live.
fn live_count(snapshot: &Option<SnapshotAreas>) -> u32
    ensures { result ≡ length (live_numbers snapshot.now) }
{
    match snapshot {
        Some(_) => 1,
        None => 0,
    }
}

// What a fork of the child of this number answers.
fn child_answer(answer: Result<(), ForkRefusal>, number: u32) -> Result<SoloChild, ForkFault>
    ensures { result ≡ child_answer answer number }
{
    match answer {
        Ok(()) => Ok(SoloChild { number }),
        Err(ForkRefusal::NoFrame(at)) => Err(ForkFault::NoFrame { at }),
        Err(ForkRefusal::TooMany) => Err(ForkFault::TooMany),
    }
}
