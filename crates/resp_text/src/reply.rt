//! Replies, and how each is printed.
ghost use Rattle.std.specs.Prelude.{◌≡◌, [], ◌++◌, OnOk, OnErr};

use crate::fault::ProtocolKind;
use itoa::Buffer;
use std::alloc::Global;
use vm_base::{Bytes, NoMemory};

/// What was wrong with a request.
#[derive(Clone, Copy, Debug, PartialEq, Eq)]
pub enum ErrorKind {
    Unknown,
    Arity,
    LongKey,
    LongValue,
    NotNumber,
    Overflow,
    BadIndex,
    NoFrame,
    InProgress,
    Spent,
    ForkRefused,
}

/// The answer to a request.
#[derive(Debug, Drop)]
pub enum Reply {
    Ok,
    Pong,
    /// A save was started, with this number.
    Started(u32),
    /// An array without elements.
    Empty,
    /// No value.
    Null,
    Number(i64),
    Bulk(Bytes),
    Error(ErrorKind),
}

impl Reply {
    /// The room of a bulk reply that was written, emptied for the next one; else new room. What a
    /// caller fills for each reply is so taken from the allocator once.
    pub fn into_room(self, alloc: Global) -> Bytes
        ensures { result ≡ [] }
    {
        match self {
            Reply::Bulk(mut bytes) => {
                bytes.clear();
                bytes
            }
            _ => Bytes::new(alloc),
        }
    }
}

ghost use Rattle.resp_text.specs.Replies.{error_text, protocol_error, text_of_break, text_of_reply, AppendsFront};
ghost use Rattle.resp_text.specs.Grammar.{line_end};

impl ErrorKind {
    /// The text of the error, without the `-` before and the line end behind it.
    pub fn text(self) -> &'static [u8]
        ensures { result.now ≡ error_text self }
    {
        match self {
            ErrorKind::Unknown => b"ERR unknown command",
            ErrorKind::Arity => b"ERR wrong number of arguments",
            ErrorKind::LongKey => b"ERR key is too long",
            ErrorKind::LongValue => b"ERR value is too long",
            ErrorKind::NotNumber => b"ERR value is not an integer or out of range",
            ErrorKind::Overflow => b"ERR increment or decrement would overflow",
            ErrorKind::BadIndex => b"ERR DB index is out of range",
            ErrorKind::NoFrame => b"OOM no frame for this value",
            ErrorKind::InProgress => b"ERR Background save already in progress",
            ErrorKind::Spent => b"ERR No snapshot number left",
            ErrorKind::ForkRefused => b"ERR Background save refused, no frame",
        }
    }
}

impl ProtocolKind {
    /// What is told of a break in this part, without the `-` before and the line end behind it.
    pub fn text(self) -> &'static [u8]
        ensures { result.now ≡ protocol_error self }
    {
        match self {
            ProtocolKind::Start => b"ERR Protocol error: expected '*'",
            ProtocolKind::Count => b"ERR Protocol error: invalid multibulk length",
            ProtocolKind::Dollar => b"ERR Protocol error: expected '$'",
            ProtocolKind::Length => b"ERR Protocol error: invalid bulk length",
            ProtocolKind::Ending => b"ERR Protocol error: expected line end",
        }
    }
}

/// Appends what is sent where a stream breaks: the last reply of a session.
pub fn break_text(kind: ProtocolKind, out: &mut Bytes) -> Result<(), NoMemory>
    ensures whole { OnOk result (out.new ≡ out.old ++ text_of_break kind) }
    ensures front { OnErr result (AppendsFront out.old out.new (text_of_break kind)) }
{
    push_line(out, b"-", kind.text())
}

/// Appends the bytes of a reply.
pub fn reply_text(reply: &Reply, out: &mut Bytes) -> Result<(), NoMemory>
    ensures whole { OnOk result (out.new ≡ out.old ++ text_of_reply reply.now) }
    ensures front { OnErr result (AppendsFront out.old out.new (text_of_reply reply.now)) }
{
    match reply {
        Reply::Ok => out.push_all(b"+OK\r\n"),
        Reply::Pong => out.push_all(b"+PONG\r\n"),
        Reply::Started(_) => out.push_all(b"+Background saving started\r\n"),
        Reply::Empty => out.push_all(b"*0\r\n"),
        Reply::Null => out.push_all(b"$-1\r\n"),
        Reply::Number(value) => push_line(out, b":", Buffer::new().format(*value).as_bytes()),
        Reply::Bulk(bytes) => push_bulk(out, bytes.as_slice()),
        Reply::Error(kind) => push_line(out, b"-", kind.text()),
    }
}

/// Appends a line: its first bytes, the rest of it, and a line end.
fn push_line(out: &mut Bytes, first: &[u8], rest: &[u8]) -> Result<(), NoMemory>
    ensures whole { OnOk result (out.new ≡ out.old ++ (first.now ++ rest.now ++ line_end)) }
    ensures front { OnErr result
        (AppendsFront out.old out.new (first.now ++ rest.now ++ line_end)) }
{
    out.push_all(first)?;
    out.push_all(rest)?;
    out.push_all(b"\r\n")
}

/// Appends a bulk string: the line of `$` and its length, its bytes, and a line end.
fn push_bulk(out: &mut Bytes, bytes: &[u8]) -> Result<(), NoMemory>
    ensures whole { OnOk result (out.new ≡ out.old ++ text_of_reply (Reply.Bulk bytes.now)) }
    ensures front { OnErr result
        (AppendsFront out.old out.new (text_of_reply (Reply.Bulk bytes.now))) }
{
    push_line(out, b"$", Buffer::new().format(bytes.len()).as_bytes())?;
    out.push_all(bytes)?;
    out.push_all(b"\r\n")
}
