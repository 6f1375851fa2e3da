//! A reader of requests, which is fed bytes in pieces.
ghost use Rattle.std.specs.Prelude.{◌≡◌, ◌+◌, ◌<◌, ◌≤◌, ◌^◌, ◌↔◌, List, ℕ, [], ◌++◌, length, drop, take, Option, Some, None, Err, IsNone, IfSome, IfOk, IfErr, OnOk, OnErr, IsErrOf, option_to_list};
ghost use Rattle.resp_text.specs.Grammar.{IsItem, IsStream, IsWholeItem};
ghost use Rattle.resp_text.specs.Pieces.{StandsBehind, Reads, EndsItem, BeginsRequests, BeginsBytes};

use crate::fault::{FeedFault, ProtocolKind};
use crate::queue::Queue;
use crate::request::Request;
use crate::scan::{Outcome, Scan, scan_item};
use crate::spelled::request_of;
use std::alloc::Global;
use std::marker::Model;
use vm_base::NoMemory;

/// How far some bytes were read.
#[derive(Clone, Copy, Debug)]
pub(crate) struct Reached {
    /// Where the reader stands.
    pub(crate) scan: Scan,
    /// How many of the bytes are whole items.
    pub(crate) whole: usize,
    /// How many of the bytes were read.
    pub(crate) end: usize,
    /// The part in which the next byte breaks the stream, where it does.
    pub(crate) kind: Option<ProtocolKind>,
}

/// Adds the request that a whole item is. A skipped item is none.
fn push_item(alloc: Global, queue: &mut Queue, text: &[u8]) -> Result<(), NoMemory>
    requires { IsWholeItem text.now }
    ensures added { OnOk result ((item : Option (List (List ℕ))) × IsItem text.now item
        × (queue.new ≡ queue.old ++ option_to_list item)) }
    ensures no_memory { OnErr result (queue.new ≡ queue.old) }
{
    if text[1] == b'0' || text[1] == b'-' {
        return Ok(());
    }
    let request = request_of(alloc, text)?;
    queue.push(request)?;
    Ok(())
}

/// Reads items, of which the first begins with the first byte.
fn read_items(alloc: Global, queue: &mut Queue, bytes: &[u8]) -> Result<Reached, NoMemory>
    ensures read { IfOk result (Reads queue.old queue.new bytes.now) }
    ensures no_memory { OnErr result (BeginsRequests queue.old queue.new) }
{
    let mut whole = 0;
    'items: loop {
        let (_, behind) = bytes.split_at(whole);
        if let Some(taken) = queue.push_front_of(behind)? {
            whole += taken;
            continue 'items;
        }
        match scan_item(Scan::START, behind) {
            Outcome::End(taken) => {
                let (text, _) = behind.split_at(taken);
                push_item(alloc, queue, text)?;
                whole += taken;
            }
            Outcome::Open(scan) => {
                let end = bytes.len();
                return Ok(Reached {
                    scan,
                    whole,
                    end,
                    kind: None,
                });
            }
            Outcome::Broken { at, scan, kind } => {
                let end = whole + at;
                return Ok(Reached {
                    scan,
                    whole,
                    end,
                    kind: Some(kind),
                });
            }
        }
    }
}

/// Reads on in an item that began in an earlier piece. What was read of it stands in `rest`, also
/// where it is whole now, and its request then waits.
fn end_item(
    alloc: Global,
    queue: &mut Queue,
    rest: &mut Vec<u8>,
    scan: Scan,
    piece: &[u8],
) -> Result<Outcome, NoMemory>
    requires { StandsBehind scan rest.old.items }
    ensures ended { IfOk result (EndsItem queue.old queue.new
        rest.old.items rest.new.items piece.now) }
    ensures no_memory { OnErr result (queue.new ≡ queue.old) }
    ensures no_memory_rest { OnErr result (BeginsBytes rest.old.items rest.new.items) }
{
    let outcome = scan_item(scan, piece);
    match outcome {
        Outcome::End(taken) => {
            let (front, _) = piece.split_at(taken);
            rest.extend_from_slice(front)?;
            push_item(alloc, queue, rest)?;
        }
        Outcome::Open(_) => rest.extend_from_slice(piece)?,
        Outcome::Broken { at, .. } => {
            let (front, _) = piece.split_at(at);
            rest.extend_from_slice(front)?;
        }
    }
    Ok(outcome)
}

/// Leaves those bytes of a list that lie between two places in `rest`, in place of what it had.
fn keep_between(rest: &mut Vec<u8>, bytes: &[u8], from: usize, to: usize) -> Result<(), NoMemory>
    requires order { from ≤ to }
    requires within { to ≤ length bytes.now }
    ensures kept { OnOk result (rest.new.items ≡ drop from (take to bytes.now)) }
    ensures no_memory { OnErr result (rest.new.items ≡ rest.old.items) }
{
    let (front, _) = bytes.split_at(to);
    let (_, kept) = front.split_at(from);
    let gone = rest.len();
    rest.extend_from_slice(kept)?;
    rest.rotate_left(gone);
    rest.truncate(kept.len());
    Ok(())
}

/// Reads a piece behind the bytes in `rest`, and leaves there those of the item that it ends in.
fn read_piece(
    alloc: Global,
    queue: &mut Queue,
    rest: &mut Vec<u8>,
    scan: Scan,
    piece: &[u8],
) -> Result<Reached, NoMemory>
    requires stands { StandsBehind scan rest.old.items }
    requires small { length rest.old.items + length piece.now < 2 ^ 63 }
    ensures read { IfOk result
        (Reads queue.old queue.new (rest.old.items ++ piece.now)) }
    ensures kept { IfOk result (λ reached. rest.new.items
        ≡ drop reached.whole (take reached.end (rest.old.items ++ piece.now))) }
    ensures no_memory { OnErr result (BeginsRequests queue.old queue.new) }
    ensures no_memory_rest { OnErr result (BeginsBytes rest.old.items rest.new.items) }
{
    let had = rest.len();
    match end_item(alloc, queue, rest, scan, piece)? {
        Outcome::Open(scan) => {
            let end = had + piece.len();
            Ok(Reached {
                scan,
                whole: 0,
                end,
                kind: None,
            })
        }
        Outcome::Broken { at, scan, kind } => {
            let end = had + at;
            Ok(Reached {
                scan,
                whole: 0,
                end,
                kind: Some(kind),
            })
        }
        Outcome::End(taken) => {
            let (_, behind) = piece.split_at(taken);
            let reached = read_items(alloc, queue, behind)?;
            keep_between(rest, behind, reached.whole, reached.end)?;
            let gone = had + taken;
            Ok(Reached {
                whole: gone + reached.whole,
                end: gone + reached.end,
                ..reached
            })
        }
    }
}

/// A reader of requests. Contracts see what it has: the requests that wait, the bytes of the item
/// that is not whole yet, how many bytes stand before those, and where the bytes broke.
#[derive(Debug, Drop)]
pub struct Requests {
    alloc: Global,
    queue: Queue,
    /// The bytes behind the last whole item.
    rest: Vec<u8>,
    /// Where the reader stands behind them.
    scan: Scan,
    /// How many bytes stand before them.
    before: u64,
    /// What every feed answers once the bytes broke.
    fault: Option<FeedFault>,
}

impl Model for Requests {
    ghost use Rattle.resp_text.specs.Reading.{Reading};
    ghost use Rattle.resp_text.specs.Pieces.{StandsBehind};

    ghost Value = { Reading };

    ghost view = { λ r. record {
      waiting = r.queue;
      rest = r.rest.items;
      before = r.before;
      fault = r.fault;
    } };

    ghost invariant = { λ r. StandsBehind r.scan r.rest.items };
}

impl Requests {
    ghost use Rattle.resp_text.specs.Reading.{unfed_reading, StandsForBytes, FeedsOn, WasFed, FeedsBehind};

    /// A reader that was fed nothing. It takes no memory yet.
    pub fn new(alloc: Global) -> Self
        ensures nothing { result ≡ unfed_reading }
        ensures stands { StandsForBytes result [] [] }
        ensures unfed { WasFed result [] [] }
    {
        Requests {
            alloc,
            queue: Queue::new(alloc),
            rest: Vec::new(alloc),
            scan: Scan::START,
            before: 0,
            fault: None,
        }
    }

    /// Takes the next piece of the stream. A request waits as soon as its last byte was fed.
    /// After a break the requests before it still wait, and nothing more is taken.
    pub fn feed(&mut self, piece: &[u8]) -> Result<(), FeedFault>
        requires { self.old.before + length self.old.rest + length piece.now < 2 ^ 63 }
        // Whatever bytes were fed before and whatever requests were given.
        ensures fed { (taken : List ℕ) (given : List (List (List ℕ))) →
            self.old.fault ≡ None → StandsForBytes self.old taken given →
            FeedsOn self.old self.new (taken ++ piece.now) given result }
        ensures broken { IfSome self.old.fault (λ fault.
            (result ≡ Err fault) × (self.new ≡ self.old)) }
        // Both at once, so that a caller's loop keeps one fact, whatever the pieces.
        ensures pieces { (fed : List ℕ) (given : List (List (List ℕ))) →
            WasFed self.old fed given →
            FeedsBehind self.old self.new fed piece.now given result }
        ensures no_memory { IsErrOf result FeedFault.NoMemory → self.old.fault ≡ None →
            self.new ≡ self.old }
        ensures count { self.new.before + length self.new.rest
            ≤ self.old.before + length self.old.rest + length piece.now }
    {
        if let Some(fault) = self.fault {
            return Err(fault);
        }
        let (had, kept) = (self.queue.len(), self.rest.len());
        let (queue, rest) = (&mut self.queue, &mut self.rest);
        let reached = match read_piece(self.alloc, queue, rest, self.scan, piece) {
            Ok(reached) => reached,
            Err(NoMemory) => {
                self.queue.truncate(had);
                self.rest.truncate(kept);
                return Err(FeedFault::NoMemory);
            }
        };
        let place = self.before + reached.end as u64;
        self.scan = reached.scan;
        self.before += reached.whole as u64;
        match reached.kind {
            None => Ok(()),
            Some(kind) => {
                let fault = FeedFault::Protocol { place, kind };
                self.fault = Some(fault);
                Err(fault)
            }
        }
    }

    /// The next request that is whole, in the order of the bytes.
    pub fn next(&mut self) -> Option<Request>
        ensures first { self.old.waiting ≡ option_to_list result ++ self.new.waiting }
        ensures none { IsNone result ↔ (self.old.waiting ≡ []) }
        ensures others { self.new ≡ record self.old { waiting = self.new.waiting } }
        ensures given { (taken : List ℕ) (given : List (List (List ℕ))) →
            StandsForBytes self.old taken given →
            StandsForBytes self.new taken (given ++ option_to_list result) }
        ensures pieces { (fed : List ℕ) (given : List (List (List ℕ))) →
            WasFed self.old fed given → WasFed self.new fed (given ++ option_to_list result) }
    {
        self.queue.pop()
    }

    /// Takes a request back that is done with, so that one that is read later takes its room. At
    /// most 512 small ones are kept, and contracts see nothing of them.
    pub fn give_back(&mut self, request: Request)
        ensures { self.new ≡ self.old }
    {
        self.queue.give_back(request);
    }

    /// How many bytes were taken behind the last whole item, be it a request or a skipped one.
    pub fn rest(&self) -> u64
        ensures value { result ≡ length self.now.rest }
        // It is 0 exactly where all that was taken is whole items.
        ensures whole { (taken : List ℕ) (given : List (List (List ℕ))) →
            StandsForBytes self.now taken given →
            ((result ≡ 0) ↔ ((requests : List (List (List ℕ))) × IsStream taken requests)) }
    {
        self.rest.len() as u64
    }
}
