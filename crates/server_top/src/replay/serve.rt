//! Requests, answered one after another, with their replies written.
ghost use Rattle.std.specs.Prelude.{◌≡◌, ◌+◌, ◌≤◌, ◌^◌, ◌++◌, length, IfErr, IfOk, OnErr, OnOk, IsErrOf};
ghost use Rattle.std.specs.List.{AllByRecursion};
ghost use Rattle.io_face.specs.Faults.{Rose};
ghost use Rattle.io_face.specs.Told.{Adds, AddsPrefix};
ghost use Rattle.resp_text.specs.Replies.{text_of_reply};
ghost use Rattle.server_top.specs.ReplayRun.{kept_after, kept_behind, book_state, replies_from, reply_to, AreStorable, IsServable};
ghost use Rattle.std.specs.FinMap.{len};

use crate::replay::book::Book;
use crate::run::{PIECE, RunError, write_text};
use io_face::Sink;
use resp_text::{Request, Requests, reply_text};
use std::alloc::Global;
use vm_base::Bytes;

/// Answers all requests that wait, in their order, and writes the replies. After an error a
/// prefix of the replies was written.
pub(crate) fn serve<O: Sink>(
    alloc: Global,
    requests: &mut Requests,
    book: &mut Book,
    output: &mut O,
) -> Result<(), RunError>
    requires servable { AllByRecursion IsServable requests.old.waiting }
    requires storable { AreStorable (2 ^ 28) (book_state book.old).service.pairs }
    requires few { len (book_state book.old).service.pairs + length requests.old.waiting ≤ 2 ^ 28 }
    ensures ok { OnOk result (Adds (O.written output.old) (O.written output.new)
        (replies_from (book_state book.old) requests.old.waiting)) }
    ensures kept { OnOk result
        (book_state book.new ≡ kept_behind (book_state book.old) requests.old.waiting) }
    ensures err { OnErr result (AddsPrefix (O.written output.old) (O.written output.new)
        (replies_from (book_state book.old) requests.old.waiting)) }
    ensures faults { O.faults output.old ≤ O.faults output.new }
    ensures cause { IsErrOf result RunError.WriteFault
        → Rose (O.faults output.old) (O.faults output.new) }
{
    let mut replies = Bytes::new(alloc);
    while let Some(request) = requests.next() {
        push_reply(alloc, book, &request, &mut replies)?;
        if replies.as_slice().len() >= PIECE {
            write_text(output, replies.as_slice())?;
            replies.clear();
        }
    }
    write_text(output, replies.as_slice())
}

/// Answers one request, and appends the text of its reply.
fn push_reply(
    alloc: Global,
    book: &mut Book,
    request: &Request,
    replies: &mut Bytes,
) -> Result<(), RunError>
    requires servable { IsServable request.now }
    requires storable { AreStorable (2 ^ 28) (book_state book.old).service.pairs }
    ensures kept { OnOk result
        (book_state book.new ≡ kept_after (book_state book.old) request.now) }
    ensures text { OnOk result
        (replies.new ≡ replies.old ++ text_of_reply (reply_to (book_state book.old) request.now)) }
    ensures no_memory { IfErr result (λ error. error ≡ RunError.NoMemory) }
{
    let reply = book.execute(alloc, request)?;
    reply_text(&reply, replies)?;
    Ok(())
}
