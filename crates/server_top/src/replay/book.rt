//! The commands on an ordered map of std. A snapshot is a copy of all its pairs.
ghost use Rattle.std.specs.Prelude.{◌≡◌, ◌^◌, ◌<◌, [], length, IfOk, OnErr, None};
ghost use Rattle.std.specs.FinMap.{empty};
ghost use Rattle.service_meaning.specs.MapMachine.{answer, command_answer};
ghost use Rattle.server_top.specs.ReplayPromise.{replay_serves};
ghost use Rattle.server_top.specs.ReplayRun.{book_state, AreStorable, GivesReply, IsServable};

use crate::replay::pairs::{copy_pairs, set_pair, value_of};
use image_text::PairList;
use resp_text::{ErrorKind, Reply, Request};
use service_meaning::Command;
use std::alloc::Global;
use std::collections::BTreeMap;
use vm_base::NoMemory;

/// The pairs at a fork, under the number of the snapshot.
#[derive(Debug, Drop)]
pub(crate) struct Snapshot {
    pub(crate) number: u32,
    pub(crate) pairs: PairList,
}

/// The pairs, and the one snapshot that may live.
#[derive(Drop)]
pub(crate) struct Book {
    pub(crate) pairs: BTreeMap<Vec<u8>, Vec<u8>>,
    /// The number of the last snapshot, 0 before the first.
    pub(crate) last: u32,
    pub(crate) snapshot: Option<Snapshot>,
}

impl Book {
    /// A book without pairs, before the first snapshot.
    pub(crate) fn new(alloc: Global) -> Self
        ensures pairs { book_state result ≡ record {
          service = record {
            pairs = empty;
            live = [];
            last = 0;
            limit = 1;
            serves = replay_serves;
          };
          snapshot = None;
        } }
    {
        Book {
            pairs: BTreeMap::new(alloc),
            last: 0,
            snapshot: None,
        }
    }

    /// Answers a request. After `NoMemory` the book is as it was.
    pub(crate) fn execute(&mut self, alloc: Global, request: &Request) -> Result<Reply, NoMemory>
        requires servable { IsServable request.now }
        requires storable { AreStorable (2 ^ 28) (book_state self.old).service.pairs }
        ensures given { IfOk result (λ reply. let old = book_state self.old in
            GivesReply old (answer old.service request.now) reply (book_state self.new)) }
        ensures no_memory { OnErr result (book_state self.new ≡ book_state self.old) }
    {
        match Command::named(request.word(0)) {
            Some(Command::Set) => self.set(alloc, request),
            Some(Command::Get) => self.get(alloc, request),
            Some(Command::BgSave) => self.save(alloc, request),
            _ => Ok(Reply::Error(ErrorKind::Unknown)),
        }
    }

    /// SET: the second word stands for the third.
    fn set(&mut self, alloc: Global, request: &Request) -> Result<Reply, NoMemory>
        requires some { 0 < length request.now }
        ensures given { IfOk result (λ reply. let old = book_state self.old in
            GivesReply old (command_answer old.service Command.Set request.now)
            reply (book_state self.new)) }
        ensures no_memory { OnErr result (book_state self.new ≡ book_state self.old) }
    {
        if let Some(kind) = Command::Set.fault(request) {
            return Ok(Reply::Error(kind));
        }
        set_pair(alloc, &mut self.pairs, request.word(1), request.word(2))?;
        Ok(Reply::Ok)
    }

    /// GET: what the second word stands for.
    fn get(&self, alloc: Global, request: &Request) -> Result<Reply, NoMemory>
        requires { 0 < length request.now }
        ensures { IfOk result (λ reply. let kept = book_state self.now in
            GivesReply kept (command_answer kept.service Command.Get request.now) reply kept) }
    {
        if let Some(kind) = Command::Get.fault(request) {
            return Ok(Reply::Error(kind));
        }
        match value_of(alloc, &self.pairs, request.word(1))? {
            Some(value) => Ok(Reply::Bulk(value)),
            None => Ok(Reply::Null),
        }
    }

    /// BGSAVE: a snapshot with the next number is started.
    fn save(&mut self, alloc: Global, request: &Request) -> Result<Reply, NoMemory>
        requires some { 0 < length request.now }
        requires storable { AreStorable (2 ^ 28) (book_state self.old).service.pairs }
        ensures given { IfOk result (λ reply. let old = book_state self.old in
            GivesReply old (command_answer old.service Command.BgSave request.now)
            reply (book_state self.new)) }
        ensures no_memory { OnErr result (book_state self.new ≡ book_state self.old) }
    {
        if let Some(kind) = Command::BgSave.fault(request) {
            return Ok(Reply::Error(kind));
        }
        if self.snapshot.is_some() {
            return Ok(Reply::Error(ErrorKind::InProgress));
        }
        let Some(number) = self.last.checked_add(1) else {
            return Ok(Reply::Error(ErrorKind::Spent));
        };
        let pairs = copy_pairs(alloc, &self.pairs)?;
        self.last = number;
        self.snapshot = Some(Snapshot { number, pairs });
        Ok(Reply::Started(number))
    }
}
