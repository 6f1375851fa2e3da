//! The requests of one session, run through: their replies are written, and the snapshot that was
//! started is saved behind the last of them.
ghost use Rattle.std.specs.Prelude.{◌≡◌, ◌≤◌, ◌^◌, length, IfOk, IsErrOf, OnErr, OnOk};
ghost use Rattle.std.specs.List.{AllByRecursion};
ghost use Rattle.io_face.specs.Faults.{Rose};
ghost use Rattle.resp_text.specs.Grammar.{IsStream};
ghost use Rattle.server_top.specs.ReplayPromise.{IsNoStream, RanReplay, RanStream, ServedAll, ServedSome};
ghost use Rattle.server_top.specs.ReplayRun.{IsServable, Reports, ReportsSome};
ghost use Rattle.server_top.specs.RunPromise.{usage_of};

mod book;
mod pairs;
mod save;
mod serve;

use crate::replay::book::{Book, Snapshot};
use crate::replay::save::{report_line, save};
use crate::replay::serve::serve;
use crate::run::{RunError, write_text};
use crate::status::Status;
use io_face::{Folder, ReadAllError, Sink, Source, read_all};
use resp_text::{FeedFault, Requests};
use std::alloc::Global;
use vm_base::Bytes;

/// The most bytes of a stream of requests.
const REPLAY_LIMIT: usize = 1 << 28;

/// Why bytes are no requests that can be served.
#[derive(Clone, Copy, Debug)]
enum ReadError {
    /// The bytes are no list of whole items.
    Broken,
    NoMemory,
}

/// Reads a stream of requests, answers them, and saves the snapshot that was started.
pub(crate) fn replay<I: Source, O: Sink, F: Folder>(
    alloc: Global,
    input: &mut I,
    output: &mut O,
    files: &mut F,
) -> Status
    ensures ran { RanReplay (record {
      left = I.left input.old;
      left_after = I.left input.new;
      outside = record {
        written = O.written output.old;
        written_after = O.written output.new;
        files = F.files files.old;
        files_after = F.files files.new;
        faults = F.faults files.old;
        faults_after = F.faults files.new;
      };
    }) result }
    ensures words { usage_of result ≡ None }
    ensures read_fault { result ≡ Status.ReadFault → Rose (I.faults input.old) (I.faults input.new) }
    ensures write_fault { result ≡ Status.WriteFault → Rose (O.faults output.old) (O.faults output.new) }
    ensures input_faults { I.faults input.old ≤ I.faults input.new }
    ensures output_faults { O.faults output.old ≤ O.faults output.new }
    ensures folder_faults { F.faults files.old ≤ F.faults files.new }
{
    match read_all(alloc, input, REPLAY_LIMIT) {
        Ok(text) => replay_text(alloc, text, output, files),
        Err(ReadAllError::TooLong) => Status::TooLong,
        Err(ReadAllError::ReadFault) => Status::ReadFault,
        Err(ReadAllError::NoMemory) => Status::NoMemory,
    }
}

/// The requests of a whole stream, which wait in the order of the bytes. The text is let go.
fn read_requests(alloc: Global, text: Bytes) -> Result<Requests, ReadError>
    requires { length text ≤ 2 ^ 28 }
    ensures stream { IfOk result (λ requests. IsStream text requests.waiting) }
    ensures servable { IfOk result (λ requests. AllByRecursion IsServable requests.waiting) }
    ensures few { IfOk result (λ requests. length requests.waiting ≤ 2 ^ 28) }
    ensures broken { IsErrOf result ReadError.Broken → IsNoStream text }
{
    let mut requests = Requests::new(alloc);
    match requests.feed(text.as_slice()) {
        Ok(()) => {}
        Err(FeedFault::Protocol { .. }) => return Err(ReadError::Broken),
        Err(FeedFault::NoMemory) => return Err(ReadError::NoMemory),
    }
    if requests.rest() == 0 {
        Ok(requests)
    } else {
        Err(ReadError::Broken)
    }
}

/// Answers the requests of a text, and saves the snapshot that was started.
fn replay_text<O: Sink, F: Folder>(
    alloc: Global,
    text: Bytes,
    output: &mut O,
    files: &mut F,
) -> Status
    requires { length text ≤ 2 ^ 28 }
    ensures ran { RanStream text (record {
      written = O.written output.old;
      written_after = O.written output.new;
      files = F.files files.old;
      files_after = F.files files.new;
      faults = F.faults files.old;
      faults_after = F.faults files.new;
    }) result }
    ensures write_fault { result ≡ Status.WriteFault → Rose (O.faults output.old) (O.faults output.new) }
    ensures output_faults { O.faults output.old ≤ O.faults output.new }
    ensures folder_faults { F.faults files.old ≤ F.faults files.new }
{
    let mut requests = match read_requests(alloc, text) {
        Ok(requests) => requests,
        Err(ReadError::Broken) => return Status::Protocol { place: 0 },
        Err(ReadError::NoMemory) => return Status::NoMemory,
    };
    match replay_requests(alloc, &mut requests, output, files) {
        Ok(()) => Status::Done,
        Err(RunError::WriteFault) => Status::WriteFault,
        Err(RunError::NoMemory) => Status::NoMemory,
    }
}

/// Answers all requests that wait, and saves the snapshot that was started. After an error a
/// prefix of the replies and of the report was written.
fn replay_requests<O: Sink, F: Folder>(
    alloc: Global,
    requests: &mut Requests,
    output: &mut O,
    files: &mut F,
) -> Result<(), RunError>
    requires servable { AllByRecursion IsServable requests.old.waiting }
    requires few { length requests.old.waiting ≤ 2 ^ 28 }
    ensures all { OnOk result (ServedAll (record {
      written = O.written output.old;
      written_after = O.written output.new;
      files = F.files files.old;
      files_after = F.files files.new;
      faults = F.faults files.old;
      faults_after = F.faults files.new;
    }) requests.old.waiting) }
    ensures some { OnErr result (ServedSome (record {
      written = O.written output.old;
      written_after = O.written output.new;
      files = F.files files.old;
      files_after = F.files files.new;
      faults = F.faults files.old;
      faults_after = F.faults files.new;
    }) requests.old.waiting) }
    ensures cause { IsErrOf result RunError.WriteFault
        → Rose (O.faults output.old) (O.faults output.new) }
    ensures output_faults { O.faults output.old ≤ O.faults output.new }
    ensures folder_faults { F.faults files.old ≤ F.faults files.new }
{
    let mut book = Book::new(alloc);
    serve(alloc, requests, &mut book, output)?;
    match &book.snapshot {
        Some(snapshot) => report_save(alloc, snapshot, output, files),
        None => Ok(()),
    }
}

/// Saves a snapshot, and writes the line of the save.
fn report_save<O: Sink, F: Folder>(
    alloc: Global,
    snapshot: &Snapshot,
    output: &mut O,
    files: &mut F,
) -> Result<(), RunError>
    ensures all { OnOk result (Reports snapshot.now (record {
      written = O.written output.old;
      written_after = O.written output.new;
      files = F.files files.old;
      files_after = F.files files.new;
      faults = F.faults files.old;
      faults_after = F.faults files.new;
    })) }
    ensures some { OnErr result (ReportsSome snapshot.now (record {
      written = O.written output.old;
      written_after = O.written output.new;
      files = F.files files.old;
      files_after = F.files files.new;
      faults = F.faults files.old;
      faults_after = F.faults files.new;
    })) }
    ensures cause { IsErrOf result RunError.WriteFault
        → Rose (O.faults output.old) (O.faults output.new) }
    ensures output_faults { O.faults output.old ≤ O.faults output.new }
    ensures folder_faults { F.faults files.old ≤ F.faults files.new }
{
    let saved = save(alloc, snapshot, files);
    let line = report_line(alloc, snapshot.number, saved)?;
    write_text(output, line.as_bytes())
}
