//! The kernel: a parent's memory, and the snapshot that a fork copied whole.
ghost use Rattle.std.specs.Prelude.{◌≡◌, ◌≤◌, ◌==◌, if◌then◌else◌, IfOk, OnOk, OnErr, Some, None, []};
ghost use Rattle.std.specs.Option.{option_copied};
ghost use Rattle.std.specs.FinMap.{get, len as count};
ghost use Rattle.vm_base.specs.TwoSides.{opening_world, forked, snap_read_of};
ghost use Rattle.plain_kernel.specs.KernelStep.{outcome_of, world_after, plain_snap_read_outcome, IsServed, IsInFirstCell};
ghost use Rattle.plain_kernel.specs.PlainAnswers.{bytes_outcome_of, done_outcome_of, fault_outcome_of};

use crate::event::Event;
use crate::memory::{Memory, MemoryFault};
use crate::outcome::Outcome;
use std::alloc::Global;
use std::marker::Model;
use vm_base::{Bytes, NoMemory, Perm};

/// The most frames that a run in the first cell can need: on each side a directory of three tables,
/// one leaf table, and the 512 pages of the first cell.
pub const MOST_FRAMES: u32 = 2 * (3 + 1 + 512);

/// The memory of the parent at a fork.
#[derive(Debug, Drop)]
struct Snapshot {
    number: u32,
    memory: Memory,
}

impl Snapshot {
    /// Its memory, if this is its number.
    fn numbered(&self, number: u32) -> Option<&Memory>
        ensures { option_copied result ≡ if number == self.now.number then Some self.now.memory else None }
    {
        if number == self.number {
            Some(&self.memory)
        } else {
            None
        }
    }
}

/// A parent and its snapshot, and contracts see it as the world of the two.
#[derive(Debug, Drop)]
pub struct Kernel {
    parent: Memory,
    snapshot: Option<Snapshot>,
    last: u32,
}

impl Model for Kernel {
    ghost use Rattle.vm_base.specs.TwoSides.{World};
    ghost use Rattle.vm_base.specs.Codes.{world_code};

    ghost Value = { World };

    ghost coded = { world_code };

    ghost use Rattle.std.specs.Prelude.{[]};
    ghost use Rattle.plain_kernel.specs.Sides.{snapshots_of, copies_of};

    ghost view = { λ kernel. record {
      parent = kernel.parent;
      snapshots = snapshots_of kernel.snapshot;
      losses = [];
      last = kernel.last;
      refused = 0;
      refused_copies = copies_of kernel.snapshot;
    } };
}

impl Kernel {
    /// No area and no snapshot. With as many frames as any run can need, none is ever refused.
    pub fn new(alloc: Global, frames: u32) -> Result<Kernel, NoMemory>
        requires { MOST_FRAMES ≤ frames }
        ensures { IfOk result (λ kernel. kernel ≡ opening_world 0) }
    {
        prove!(frames >= MOST_FRAMES);
        let parent = Memory::new(alloc)?;
        Ok(Kernel {
            parent,
            snapshot: None,
            last: 0,
        })
    }

    /// Runs one event. After `NoMemory` nothing has changed.
    pub fn step(&mut self, alloc: Global, event: &Event) -> Result<Outcome, NoMemory>
        requires { IsServed self.old event.now }
        ensures outcome { IfOk result (λ outcome. outcome ≡ outcome_of self.old event.now) }
        ensures world { OnOk result (self.new ≡ world_after self.old event.now) }
        ensures no_memory { OnErr result (self.new ≡ self.old) }
    {
        match event {
            Event::Map { first, pages, perm } => {
                self.parent.map(*first, *pages, *perm);
                Ok(Outcome::Done)
            }
            Event::Read { addr, len } => bytes_outcome(
                self.parent.read(alloc, *addr, u64::from(*len)),
            ),
            Event::Write { addr, bytes } => {
                done_outcome(self.parent.write(alloc, *addr, bytes.as_slice()))
            }
            Event::Fork { number, .. } => self.fork(alloc, *number),
            Event::SnapRead { number, addr, len } => self.snap_read(alloc, *number, *addr, *len),
        }
    }

    /// Copies the parent's whole memory.
    fn fork(&mut self, alloc: Global, number: u32) -> Result<Outcome, NoMemory>
        requires { count self.old.snapshots ≡ 0 }
        ensures done { IfOk result (λ outcome. outcome ≡ Outcome.Done) }
        ensures world { OnOk result (self.new ≡ forked self.old number) }
        ensures no_memory { OnErr result (self.new ≡ self.old) }
    {
        let memory = self.parent.copy(alloc)?;
        self.snapshot = Some(Snapshot { number, memory });
        self.last = number;
        Ok(Outcome::Done)
    }

    /// Reads the snapshot of this number.
    fn snap_read(
        &self,
        alloc: Global,
        number: u32,
        addr: u64,
        len: u32,
    ) -> Result<Outcome, NoMemory>
        requires { IsInFirstCell addr len }
        ensures { IfOk result (λ outcome. outcome ≡ plain_snap_read_outcome (snap_read_of self.now number addr len)) }
    {
        match self.kept(number) {
            Some(memory) => bytes_outcome(memory.read(alloc, addr, len as u64)),
            None => Ok(Outcome::NoSnap),
        }
    }

    /// The memory at the fork of this number.
    fn kept(&self, number: u32) -> Option<&Memory>
        ensures found { option_copied result ≡ get self.now.snapshots number }
        ensures whole { self.now.losses ≡ [] }
    {
        match &self.snapshot {
            Some(snapshot) => snapshot.numbered(number),
            None => None,
        }
    }
}

/// The answer of a read.
fn bytes_outcome(read: Result<Bytes, MemoryFault>) -> Result<Outcome, NoMemory>
    ensures { result ≡ bytes_outcome_of read }
{
    match read {
        Ok(bytes) => Ok(Outcome::Bytes(bytes)),
        Err(fault) => fault_outcome(fault),
    }
}

/// The answer of a write.
fn done_outcome(written: Result<(), MemoryFault>) -> Result<Outcome, NoMemory>
    ensures { result ≡ done_outcome_of written }
{
    match written {
        Ok(()) => Ok(Outcome::Done),
        Err(fault) => fault_outcome(fault),
    }
}

/// The answer of a refusal.
fn fault_outcome(fault: MemoryFault) -> Result<Outcome, NoMemory>
    ensures { result ≡ fault_outcome_of fault }
{
    match fault {
        MemoryFault::NoArea(page) => Ok(Outcome::NoArea(page)),
        MemoryFault::NoWrite(page) => Ok(Outcome::NoWrite(page)),
        MemoryFault::NoMemory => Err(NoMemory),
    }
}
