//! What contracts alone know of a kernel. No code reads it, and it takes no bytes.
ghost use Rattle.std.specs.Prelude.{◌≡◌, ℕ, IfOk, OnErr};
ghost use Rattle.vm_base.specs.declared.fork_mode.Mode.TheVariants.{Eager};
ghost use Rattle.trace_events.specs.declared.event.Event.TheVariants.{Fork};
ghost use Rattle.page_tables.specs.declared.tables.PageTables.{PageTables};
ghost use Rattle.trace_core.specs.CallAnswers.{fork_outcome};
ghost use Rattle.trace_core.specs.KernelSeen.{most_behind_touch, IsNoted, is_new_fork, enough_behind, notes_of};

use crate::snapshots::ForkRefusal;
use noted_value::{Note, note_down};
use page_tables::PageTables;
use std::snapshot::Snapshot;
use trace_events::{Event, Outcome};
use vm_base::{Fault, NoMemory};

/// The most frames of the kernel's own that it has had, or that a touch has asked for; for the
/// snapshot that lives, the page tables at its fork and the refused requests then; and how many
/// frames are enough, where that is told.
#[derive(Drop)]
pub(crate) struct Notes {
    pub(crate) most: Snapshot<u64>,
    pub(crate) forked: Snapshot<PageTables>,
    pub(crate) born: Snapshot<u64>,
    pub(crate) enough: Snapshot<Option<u64>>,
}

/// An event that was answered, over the tables before it.
#[derive(Drop)]
struct Answered<'a> {
    before: &'a Snapshot<PageTables>,
    event: &'a Event,
    outcome: &'a Outcome,
}

impl<'a> Note for Answered<'a> {
    ghost use Rattle.trace_core.specs.KernelSeen.{most_behind};

    type Value = u64;

    ghost note = { λ most it. most_behind it.before.now.value it.event.now it.outcome.now most };
}

/// A touch of a range of bytes that was answered, over the tables before it.
#[derive(Drop)]
struct Touched<'a> {
    before: &'a Snapshot<PageTables>,
    addr: u64,
    len: u64,
    answer: &'a Result<(), Fault>,
}

impl<'a> Note for Touched<'a> {
    ghost use Rattle.trace_core.specs.KernelSeen.{most_behind_touch};

    type Value = u64;

    ghost note = { λ most it. most_behind_touch it.before.now.value it.addr it.len most it.answer.now };
}

impl Notes {
    /// The notes of a kernel that has had no frame.
    pub(crate) fn new(tables: &PageTables, enough: Option<u64>) -> Notes
        ensures most { result.most.value ≡ 0 }
        ensures born { result.born.value ≡ 0 }
        ensures enough { result.enough.value ≡ enough }
    {
        Notes {
            most: Snapshot::of(&0),
            forked: Snapshot::of(tables),
            born: Snapshot::of(&0),
            enough: Snapshot::of(&enough),
        }
    }

    /// An event was answered, and the tables and the refused requests are these behind it. Where it
    /// wanted memory nothing has happened.
    pub(crate) fn answered(
        &mut self,
        before: &Snapshot<PageTables>,
        event: &Event,
        answer: &Result<Outcome, NoMemory>,
        tables: &PageTables,
        refused: u64,
    )
        ensures ok { IfOk answer.now (λ outcome. IsNoted before.now.value event.now outcome tables.now refused
            (notes_of self.old) (notes_of self.new)) }
        ensures err { OnErr answer.now (self.new ≡ self.old) }
    {
        if let Ok(outcome) = answer {
            self.ran(before, event, outcome, tables, refused);
        }
    }

    /// An event ran and had this outcome, and the tables and the refused requests are these behind
    /// it.
    pub(crate) fn ran(
        &mut self,
        before: &Snapshot<PageTables>,
        event: &Event,
        outcome: &Outcome,
        tables: &PageTables,
        refused: u64,
    )
        ensures { IsNoted before.now.value event.now outcome.now tables.now refused (notes_of self.old) (notes_of self.new) }
    {
        let answered = Answered {
            before,
            event,
            outcome,
        };
        note_down(&mut self.most, &answered);
        if is_new_fork(event, outcome) {
            self.forked(tables, refused);
        }
        self.named(event);
    }

    /// A fork was answered, and the tables and the refused requests are these behind it.
    pub(crate) fn fork_answered(
        &mut self,
        answer: &Result<(), ForkRefusal>,
        tables: &PageTables,
        refused: u64,
    )
        ensures { (before : PageTables) (number : ℕ) → IsNoted before (Fork number Eager) (fork_outcome answer.now) tables.now refused
            (notes_of self.old) (notes_of self.new) }
    {
        if let Ok(()) = answer {
            self.forked(tables, refused);
        }
    }

    /// A touch of a range of bytes was answered.
    pub(crate) fn touched(
        &mut self,
        before: &Snapshot<PageTables>,
        addr: u64,
        len: u64,
        answer: &Result<(), Fault>,
    )
        ensures most { self.new.most.value ≡ most_behind_touch before.now.value addr len self.old.most.value answer.now }
        ensures forked { self.new.forked.value ≡ self.old.forked.value }
        ensures born { self.new.born.value ≡ self.old.born.value }
        ensures enough { self.new.enough.value ≡ self.old.enough.value }
    {
        let touched = Touched {
            before,
            addr,
            len,
            answer,
        };
        note_down(&mut self.most, &touched);
    }

    /// A snapshot was forked, and the tables are these behind it.
    pub(crate) fn forked(&mut self, tables: &PageTables, refused: u64)
        ensures most { self.new.most.value ≡ self.old.most.value }
        ensures forked { self.new.forked.value ≡ tables.now }
        ensures born { self.new.born.value ≡ refused }
        ensures enough { self.new.enough.value ≡ self.old.enough.value }
    {
        self.forked = Snapshot::of(tables);
        self.born = Snapshot::of(&refused);
    }

    // Where a request is named to be refused, it is no longer told how many frames are enough.
    fn named(&mut self, event: &Event)
        ensures enough { self.new.enough.value ≡ enough_behind event.now self.old.enough.value }
        ensures most { self.new.most.value ≡ self.old.most.value }
        ensures forked { self.new.forked.value ≡ self.old.forked.value }
        ensures born { self.new.born.value ≡ self.old.born.value }
    {
        if let Event::Refuse { .. } = event {
            self.enough = Snapshot::of(&None);
        }
    }
}

// A snapshot was forked.
fn is_new_fork(event: &Event, outcome: &Outcome) -> bool
    ensures { result ≡ is_new_fork event.now outcome.now }
{
    matches!((event, outcome), (Event::Fork { .. }, Outcome::Done))
}
