//! A memory, and how often it was called.
ghost use Rattle.std.specs.Prelude.{◌≡◌};
ghost use Rattle.vm_base.specs.Counts.{next_count};

use vm_base::{Fault, Memory, Perm};

/// How many calls of each kind there were, and 2^64 - 1 where there were more.
#[derive(Clone, Copy, Debug, PartialEq, Eq)]
pub struct CallCounts {
    pub reads: u64,
    pub touches: u64,
    pub stores: u64,
    pub maps: u64,
    pub unmaps: u64,
    pub protects: u64,
}

impl CallCounts {
    /// No call yet.
    pub const NONE: CallCounts = CallCounts {
        reads: 0,
        touches: 0,
        stores: 0,
        maps: 0,
        unmaps: 0,
        protects: 0,
    };
}

/// A memory, and how often it was called. It is that memory to whoever calls it.
#[derive(Drop)]
pub struct Counted<M: Memory> {
    pub memory: M,
    pub calls: CallCounts,
}

impl<M: Memory> Counted<M> {
    /// A memory on which no call was counted yet.
    pub fn new(memory: M) -> Counted<M>
        ensures memory { result.memory ≡ memory }
        ensures calls { result.calls ≡ CallCounts.NONE }
    {
        Counted {
            memory,
            calls: CallCounts::NONE,
        }
    }

    /// The counts since they were taken last, or since the beginning.
    pub fn take_calls(&mut self) -> CallCounts
        ensures told { result ≡ self.old.calls }
        ensures calls { self.new.calls ≡ CallCounts.NONE }
        ensures memory { self.new.memory ≡ self.old.memory }
    {
        let told = self.calls;
        self.calls = CallCounts::NONE;
        told
    }
}

impl<M: Memory> Memory for Counted<M> {
    ghost Aside = { M.Aside };

    ghost aside = { λ it. M.aside it.memory };

    ghost state = { λ it. M.state it.memory };

    ghost went = { λ old new. M.went old.memory new.memory };

    ghost went_none = { λ p. M.went_none p.memory };

    ghost went_on = { λ p q r one two. M.went_on p.memory q.memory r.memory one two };

    fn read(&mut self, addr: u64, buf: &mut [u8]) -> Result<(), Fault> {
        count(&mut self.calls.reads);
        self.memory.read(addr, buf)
    }

    fn touch(&mut self, addr: u64, len: u64) -> Result<(), Fault> {
        count(&mut self.calls.touches);
        self.memory.touch(addr, len)
    }

    fn store(&mut self, addr: u64, bytes: &[u8]) {
        count(&mut self.calls.stores);
        self.memory.store(addr, bytes);
    }

    fn map(&mut self, first: u64, pages: u64, perm: Perm) -> Result<(), Fault> {
        count(&mut self.calls.maps);
        self.memory.map(first, pages, perm)
    }

    fn unmap(&mut self, first: u64, pages: u64) -> Result<(), Fault> {
        count(&mut self.calls.unmaps);
        self.memory.unmap(first, pages)
    }

    fn protect(&mut self, first: u64, pages: u64, perm: Perm) -> Result<(), Fault> {
        count(&mut self.calls.protects);
        self.memory.protect(first, pages, perm)
    }
}

// One call more.
fn count(calls: &mut u64)
    ensures { calls.new ≡ next_count calls.old }
{
    *calls = calls.saturating_add(1);
}
