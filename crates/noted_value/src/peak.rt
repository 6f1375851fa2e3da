//! How a caller keeps a number that only clauses read: a count, and the most that it ever was.
ghost use Rattle.std.specs.Prelude.{◌≡◌, ◌+◌, ◌≤◌, max};

use crate::choice::{Choice, chosen};
use crate::note::{Note, note_down, noted};
use std::snapshot::Snapshot;

/// A count that was reached.
#[derive(Drop)]
struct Reached(u32);

impl Note for Reached {
    ghost use Rattle.std.specs.Prelude.{max};

    type Value = u32;

    ghost note = { λ most reached. max most reached.0 };
}

/// A count, and the most that it ever was.
#[derive(Drop)]
pub struct Peak {
    count: u32,
    most: Snapshot<u32>,
    ghost covered: { count ≤ most.value },
}

impl Peak {
    pub fn new(count: u32) -> Peak
        ensures count { result.count ≡ count }
        ensures most { result.most.value ≡ count }
    {
        let most = Snapshot::of(&count);
        Peak { count, most }
    }

    pub fn count(&self) -> u32
        ensures { result ≡ self.now.count }
    {
        self.count
    }

    pub fn set(&mut self, count: u32)
        ensures count { self.new.count ≡ count }
        ensures covers { count ≤ self.new.most.value }
        ensures keeps { self.old.most.value ≤ self.new.most.value }
        ensures most { self.new.most.value ≡ max self.old.most.value count }
    {
        note_down(&mut self.most, &Reached(count));
        self.count = count;
    }
}

/// The same of a snapshot that is passed on, about a number that is borrowed.
pub fn raised(from: Snapshot<u32>, by: &u32) -> Snapshot<u32>
    ensures { result.value ≡ max from.value by.now }
{
    noted(from, &Reached(*by))
}

/// What is taken from a number. Not every number can be what is left.
#[derive(Drop)]
struct Taken(u32);

impl Choice for Taken {
    ghost use Rattle.std.specs.Prelude.{◌≡◌, ◌+◌};

    type Value = u32;

    ghost holds = { λ old taken left. old ≡ left + taken.0 };
}

/// The caller's one line of proof names what is left.
pub fn lowered(from: Snapshot<u32>, by: u32) -> Snapshot<u32>
    requires { by ≤ from.value }
    ensures { from.value ≡ result.value + by }
{
    chosen(from, &Taken(by))
}
