//! The two sides of a process by flat copies, and what it counts.
ghost use Rattle.std.specs.Prelude.{◌≡◌, ◌+◌, ◌≤◌, ◌^◌, Ok};
ghost use Rattle.vm_base.specs.FlatStep.{touch_of};
ghost use Rattle.vm_base.specs.MemoryCalls.{touched};
ghost use Rattle.flat_memory.specs.SideSeen.{mem_of};
ghost use Rattle.flat_memory.specs.FlatSeen.{TouchEnds, ForkEnds};
ghost use Rattle.std.specs.FinMap.{len as count};

use crate::side::Side;
use noted_value::{Note, note_down};
use std::snapshot::Snapshot;
use vm_base::{Fault, ForkFault};

/// A memory, the copy that its child has, and what is counted.
#[derive(Drop)]
pub(crate) struct Sides {
    pub(crate) memory: Side,
    /// What the child has, where one lives.
    pub(crate) kept: Side,
    /// The number of the child that lives.
    pub(crate) child: Option<u32>,
    /// The number that was given out last.
    pub(crate) last: u32,
    /// Refused touches for want of room.
    pub(crate) refused: u64,
    /// The most frames that the memory has had or asked for, as a memory that shares none counts
    /// them. Clauses alone read it.
    pub(crate) most: Snapshot<u64>,
    /// The refused touches as the child was forked. Clauses alone read it.
    pub(crate) born: Snapshot<u64>,
}

/// A touch of a range asks for all frames that it wants.
#[derive(Drop)]
struct Asked<'a> {
    memory: &'a Side,
    addr: u64,
    len: u64,
}

impl<'a> Note for Asked<'a> {
    ghost use Rattle.flat_memory.specs.FlatSeen.{most_asked};

    type Value = u64;

    ghost note = { λ most asked. most_asked most asked.memory.now asked.addr asked.len };
}

impl Sides {
    /// Touches a range of the memory.
    pub(crate) fn touch(&mut self, addr: u64, len: u64) -> Result<(), Fault>
        requires { addr + len ≤ 2 ^ 48 }
        ensures { TouchEnds self.old self.new addr len result }
    {
        match self.memory.judge(addr, len) {
            Ok(()) => self.touch_granted(addr, len),
            Err(fault) => Err(fault),
        }
    }

    /// Copies the memory to a child, and tells its number. No number is used up where there is
    /// none.
    pub(crate) fn fork(&mut self) -> Result<u32, ForkFault>
        requires { count self.old.memory.pages.present ≤ self.old.kept.pages.room }
        ensures { ForkEnds self.old self.new result }
    {
        if self.child.is_some() {
            return Err(ForkFault::TooMany);
        }
        let Some(number) = self.last.checked_add(1) else {
            return Err(ForkFault::NumbersSpent);
        };
        self.kept.copy_from(&self.memory);
        self.child = Some(number);
        self.last = number;
        self.born = Snapshot::of(&self.refused);
        Ok(number)
    }

    // Touches a range that the areas grant.
    fn touch_granted(&mut self, addr: u64, len: u64) -> Result<(), Fault>
        requires within { addr + len ≤ 2 ^ 48 }
        requires granted { touch_of (mem_of self.old.memory) addr len ≡ Ok
            (touched (mem_of self.old.memory) addr len) }
        ensures { TouchEnds self.old self.new addr len result }
    {
        let asked = Asked {
            memory: &self.memory,
            addr,
            len,
        };
        note_down(&mut self.most, &asked);
        if let Some(page) = self.memory.lacking(addr, len) {
            self.refused = self.refused.saturating_add(1);
            return Err(Fault::NoFrame {
                at: self.refused,
                page,
            });
        }
        self.memory.touch(addr, len);
        Ok(())
    }
}
