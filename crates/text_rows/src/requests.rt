//! Streams and replies whose answers come from the protocol's tables.
ghost use Rattle.std.specs.Prelude.{◌+◌, ◌<◌, ◌≤◌, ◌^◌, length};

use resp_text::{ErrorKind, FeedFault, ProtocolKind, Reply, Requests, break_text, reply_text};
use std::alloc::{AllocError, Global};
use std::test::Fail;
use vm_base::Bytes;

/// What a reader made of some bytes: how many requests they have, where they break, and how many
/// bytes were read behind the last whole item.
#[derive(Clone, Copy, Debug, PartialEq, Eq)]
struct Fed {
    requests: usize,
    fault: Option<FeedFault>,
    rest: u64,
}

/// Feeds the bytes in pieces of one size. There are fewer than 9 requests.
fn outcome_of(alloc: Global, bytes: &[u8], size: usize) -> Fed
    requires small { size < 1000 }
    requires some { 0 < size }
{
    let mut reader = Requests::new(alloc);
    let mut fault = None;
    let mut at = 0;
    while at < bytes.len() {
        let (_, behind) = bytes.split_at(at);
        let (piece, _) = behind.split_at(size.min(behind.len()));
        fault = reader.feed(piece).err();
        at += piece.len();
    }
    let rest = reader.rest();
    let mut requests = 0;
    for i in 1..10 {
        if reader.next().is_some() {
            requests = i;
        }
    }
    Fed {
        requests,
        fault,
        rest,
    }
}

fn broken(place: u64, kind: ProtocolKind, requests: usize, rest: u64) -> Fed {
    Fed {
        requests,
        fault: Some(FeedFault::Protocol { place, kind }),
        rest,
    }
}

#[test]
fn streams_are_read_whatever_the_pieces(rt: HostRuntime) {
    // The bytes, how many requests they have, and how many bytes stand behind the last whole item.
    let cases: [(&[u8], usize, u64); 8] = [
        (
            b"*3\r\n$3\r\nSET\r\n$0\r\n\r\n$0\r\n\r\n*1\r\n$6\r\nBGSAVE\r\n",
            2,
            0,
        ),
        (b"*0\r\n*2\r\n$3\r\nGET\r\n$1\r\nx\r\n*-1\r\n", 1, 0),
        (b"*3\r\n$3\r\nSE", 0, 10),
        (b"*0\r\n*1024\r\n", 0, 7),
        (b"*1\r\n$1048576\r\n", 0, 14),
        (b"*1\r\n$1\r\na\r\n*-1\r\n*", 1, 1),
        (b"*1\r\n$0\r\n\r", 0, 9),
        (b"", 0, 0),
    ];
    for (bytes, requests, rest) in cases {
        let fed = Fed {
            requests,
            fault: None,
            rest,
        };
        for size in [1, 2, 3, 7, 100] {
            assert_eq!(rt;
                outcome_of(rt.alloc(), bytes, size),
                fed,
                "in pieces of {size}"
            );
        }
    }
}

#[test]
fn each_broken_request_is_refused_at_its_byte(rt: HostRuntime) -> Result<(), Fail> {
    use ProtocolKind::{Count, Dollar, Ending, Length, Start};
    // The bytes, the place and the kind of the break, how many requests stand before it, and how
    // many bytes were read behind the last whole item.
    let cases: [(&[u8], u64, ProtocolKind, usize, u64); 55] = [
        // The first byte of an item, also behind a request and behind a skipped item.
        (b"\n", 0, Start, 0, 0),
        (b"PING\r\n", 0, Start, 0, 0),
        (b" *1\r\n", 0, Start, 0, 0),
        (b"*1\r\n$4\r\nPING\r\n\n", 14, Start, 1, 0),
        (b"*0\r\n$4\r\n", 4, Start, 0, 0),
        (b"*-1\r\n-1\r\n", 5, Start, 0, 0),
        // The number of words: no digit, a sign, a leading zero, past 1,024, a bare line end.
        (b"*\r\n", 1, Count, 0, 1),
        (b"*x\r\n", 1, Count, 0, 1),
        (b"* 1\r\n", 1, Count, 0, 1),
        (b"*+1\r\n", 1, Count, 0, 1),
        (b"*-2\r\n", 2, Count, 0, 2),
        (b"*-\r\n", 2, Count, 0, 2),
        (b"*-10\r\n", 3, Count, 0, 3),
        (b"*-1\n", 3, Count, 0, 3),
        (b"*-1\r\r\n", 4, Count, 0, 4),
        (b"*00\r\n", 2, Count, 0, 2),
        (b"*01\r\n", 2, Count, 0, 2),
        (b"*0\n", 2, Count, 0, 2),
        (b"*0\r*1\r\n", 3, Count, 0, 3),
        (b"*1\n", 2, Count, 0, 2),
        (b"*1 \r\n", 2, Count, 0, 2),
        (b"*1\r$1\r\n", 3, Count, 0, 3),
        (b"*1x\r\n", 2, Count, 0, 2),
        (b"*1025\r\n", 4, Count, 0, 4),
        (b"*2000\r\n", 4, Count, 0, 4),
        (b"*10240\r\n", 5, Count, 0, 5),
        (b"*18446744073709551617\r\n", 4, Count, 0, 4),
        // The first byte of a word.
        (b"*1\r\n:4\r\n", 4, Dollar, 0, 4),
        (b"*1\r\n\r\n", 4, Dollar, 0, 4),
        (b"*1\r\n4\r\nPING\r\n", 4, Dollar, 0, 4),
        (b"*2\r\n$1\r\na\r\n*1\r\n", 11, Dollar, 0, 11),
        // The length of a word: the same rules, and past 1,048,576.
        (b"*1\r\n$\r\n", 5, Length, 0, 5),
        (b"*1\r\n$x\r\n", 5, Length, 0, 5),
        (b"*1\r\n$ 4\r\n", 5, Length, 0, 5),
        (b"*1\r\n$-1\r\n", 5, Length, 0, 5),
        (b"*1\r\n$-5\r\n", 5, Length, 0, 5),
        (b"*1\r\n$+4\r\n", 5, Length, 0, 5),
        (b"*1\r\n$04\r\n", 6, Length, 0, 6),
        (b"*1\r\n$00\r\n", 6, Length, 0, 6),
        (b"*1\r\n$0\n", 6, Length, 0, 6),
        (b"*1\r\n$4\n", 6, Length, 0, 6),
        (b"*1\r\n$4\rPING\r\n", 7, Length, 0, 7),
        (b"*1\r\n$4 \r\n", 6, Length, 0, 6),
        (b"*1\r\n$1048577\r\n", 11, Length, 0, 11),
        (b"*1\r\n$2000000\r\n", 11, Length, 0, 11),
        (b"*1\r\n$10485760\r\n", 12, Length, 0, 12),
        (
            b"*3\r\n$3\r\nSET\r\n$1\r\nk\r\n$1048577\r\n",
            27,
            Length,
            0,
            27,
        ),
        // The line end behind a word's bytes, also of a word that is longer than it says.
        (b"*1\r\n$1\r\na\n", 9, Ending, 0, 9),
        (b"*1\r\n$1\r\nab\r\n", 9, Ending, 0, 9),
        (b"*1\r\n$1\r\na\r*", 10, Ending, 0, 10),
        (b"*1\r\n$1\r\na\r\r\n", 10, Ending, 0, 10),
        (b"*1\r\n$2\r\na\r\n*1\r\n", 10, Ending, 0, 10),
        (b"*1\r\n$0\r\n$0\r\n", 8, Ending, 0, 8),
        (b"*1\r\n$0\r\n\n", 8, Ending, 0, 8),
        (b"*0\r\n*1\r\n$3\r\nGET\n", 15, Ending, 0, 11),
    ];
    for (bytes, place, kind, requests, rest) in cases {
        let fed = broken(place, kind, requests, rest);
        for size in [1, 2, 3, 7, 100] {
            assert_eq!(rt;
                outcome_of(rt.alloc(), bytes, size),
                fed,
                "in pieces of {size}"
            );
        }
    }
    // All words of a request together: one byte more than 2,097,152 breaks at its length.
    let text = long_request(rt.alloc(), b"$1\r\nx\r\n")?;
    let fed = broken(2_097_181, Length, 0, 2_097_181);
    for size in [1, 999] {
        assert_eq!(rt;
            outcome_of(rt.alloc(), &text, size),
            fed,
            "in pieces of {size}"
        );
    }
    Ok(())
}

#[test]
fn the_words_of_a_request_are_its_bytes(rt: HostRuntime) -> Result<(), Fail> {
    let mut reader = Requests::new(rt.alloc());
    reader.feed(b"*4\r\n$3\r\nset\r\n$0\r\n\r\n$2\r\n\r\n\r\n$1\r\n")?;
    assert!(rt; reader.next().is_none());
    reader.feed(b"\xff\r\n")?;
    let request = reader.next().ok_or("the request is whole")?;
    assert!(rt; reader.next().is_none());
    let words: [&[u8]; 4] = [b"set", b"", b"\r\n", b"\xff"];
    assert_eq!(rt; request.len(), 4);
    for (i, word) in words.into_iter().enumerate() {
        if i < request.len() {
            assert_eq!(rt; request.word(i), word);
        }
    }
    Ok(())
}

/// The words of the next request once a text is fed, each behind a line feed. The request is handed
/// back.
fn words_of_next(alloc: Global, reader: &mut Requests, text: &[u8]) -> Result<Bytes, Fail>
    requires { reader.old.before + length reader.old.rest + length text.now < 2 ^ 63 }
    ensures { reader.new.before + length reader.new.rest
        ≤ reader.old.before + length reader.old.rest + length text.now }
{
    reader.feed(text)?;
    let request = reader.next().ok_or("a request waits")?;
    let mut words = Bytes::new(alloc);
    for i in 0..request.len() {
        words.push_all(b"\n")?;
        words.push_all(request.word(i))?;
    }
    reader.give_back(request);
    Ok(words)
}

#[test]
fn a_request_that_was_handed_back_leaves_nothing_in_the_next(rt: HostRuntime) -> Result<(), Fail> {
    let mut reader = Requests::new(rt.alloc());
    let text = b"*3\r\n$3\r\nSET\r\n$2\r\nkk\r\n$4\r\nlong\r\n";
    let words = words_of_next(rt.alloc(), &mut reader, text)?;
    assert_eq!(rt; words.as_slice(), b"\nSET\nkk\nlong".as_slice());
    let words = words_of_next(rt.alloc(), &mut reader, b"*1\r\n$0\r\n\r\n")?;
    assert_eq!(rt; words.as_slice(), b"\n".as_slice());
    let text = b"*3\r\n$3\r\nSET\r\n$1\r\na\r\n$0\r\n\r\n";
    let words = words_of_next(rt.alloc(), &mut reader, text)?;
    assert_eq!(rt; words.as_slice(), b"\nSET\na\n".as_slice());
    assert!(rt; reader.next().is_none());
    Ok(())
}

#[test]
fn a_reply_that_was_written_leaves_empty_room(rt: HostRuntime) -> Result<(), Fail> {
    let mut bytes = Bytes::new(rt.alloc());
    bytes.push_all(b"value")?;
    for reply in [Reply::Bulk(bytes), Reply::Null] {
        let mut room = reply.into_room(rt.alloc());
        assert_eq!(rt; room.as_slice(), b"".as_slice());
        room.push_all(b"x")?;
        assert_eq!(rt; room.as_slice(), b"x".as_slice());
    }
    Ok(())
}

/// The text of two words of a mebibyte each, and what stands behind them.
fn long_request(alloc: Global, last: &[u8]) -> Result<Vec<u8>, AllocError> {
    let mut text = Vec::from_slice(alloc, b"*3\r\n$1048576\r\n")?;
    text.resize(14 + MEBIBYTE, b'x')?;
    text.extend_from_slice(b"\r\n$1048576\r\n")?;
    text.resize(26 + 2 * MEBIBYTE, b'x')?;
    text.extend_from_slice(b"\r\n")?;
    text.extend_from_slice(last)?;
    Ok(text)
}

const MEBIBYTE: usize = 1_048_576;

#[test]
fn a_request_has_two_mebibytes_and_no_more(rt: HostRuntime) -> Result<(), Fail> {
    let text = long_request(rt.alloc(), b"$0\r\n\r\n")?;
    let mut reader = Requests::new(rt.alloc());
    assert_eq!(rt; reader.feed(&text), Ok(()));
    assert!(rt; reader.next().is_some());
    let text = long_request(rt.alloc(), b"$1\r\nx\r\n")?;
    let mut reader = Requests::new(rt.alloc());
    let kind = ProtocolKind::Length;
    let place = 29 + 2 * 1_048_576;
    assert_eq!(rt;
        reader.feed(&text),
        Err(FeedFault::Protocol { place, kind })
    );
    assert!(rt; reader.next().is_none());
    Ok(())
}

#[test]
fn each_reply_has_its_text(rt: HostRuntime) -> Result<(), Fail> {
    let mut bytes = Bytes::new(rt.alloc());
    bytes.push_all(b"a\r\nb")?;
    let cases: [(Reply, &[u8]); 20] = [
        (Reply::Ok, b"+OK\r\n"),
        (Reply::Pong, b"+PONG\r\n"),
        (Reply::Started(7), b"+Background saving started\r\n"),
        (Reply::Empty, b"*0\r\n"),
        (Reply::Null, b"$-1\r\n"),
        (Reply::Number(0), b":0\r\n"),
        (Reply::Number(i64::MIN), b":-9223372036854775808\r\n"),
        (Reply::Bulk(Bytes::new(rt.alloc())), b"$0\r\n\r\n"),
        (Reply::Bulk(bytes), b"$4\r\na\r\nb\r\n"),
        (
            Reply::Error(ErrorKind::Unknown),
            b"-ERR unknown command\r\n",
        ),
        (
            Reply::Error(ErrorKind::Arity),
            b"-ERR wrong number of arguments\r\n",
        ),
        (
            Reply::Error(ErrorKind::LongKey),
            b"-ERR key is too long\r\n",
        ),
        (
            Reply::Error(ErrorKind::LongValue),
            b"-ERR value is too long\r\n",
        ),
        (
            Reply::Error(ErrorKind::NotNumber),
            b"-ERR value is not an integer or out of range\r\n",
        ),
        (
            Reply::Error(ErrorKind::Overflow),
            b"-ERR increment or decrement would overflow\r\n",
        ),
        (
            Reply::Error(ErrorKind::BadIndex),
            b"-ERR DB index is out of range\r\n",
        ),
        (
            Reply::Error(ErrorKind::NoFrame),
            b"-OOM no frame for this value\r\n",
        ),
        (
            Reply::Error(ErrorKind::InProgress),
            b"-ERR Background save already in progress\r\n",
        ),
        (
            Reply::Error(ErrorKind::Spent),
            b"-ERR No snapshot number left\r\n",
        ),
        (
            Reply::Error(ErrorKind::ForkRefused),
            b"-ERR Background save refused, no frame\r\n",
        ),
    ];
    for (reply, text) in &cases {
        let mut out = Bytes::new(rt.alloc());
        out.push_all(b"> ")?;
        reply_text(reply, &mut out)?;
        let (_, printed) = out.as_slice().split_at(2);
        assert_eq!(rt; printed, *text);
    }
    Ok(())
}

#[test]
fn each_break_has_its_text(rt: HostRuntime) -> Result<(), Fail> {
    let cases: [(ProtocolKind, &[u8]); 5] = [
        (
            ProtocolKind::Start,
            b"-ERR Protocol error: expected '*'\r\n",
        ),
        (
            ProtocolKind::Count,
            b"-ERR Protocol error: invalid multibulk length\r\n",
        ),
        (
            ProtocolKind::Dollar,
            b"-ERR Protocol error: expected '$'\r\n",
        ),
        (
            ProtocolKind::Length,
            b"-ERR Protocol error: invalid bulk length\r\n",
        ),
        (
            ProtocolKind::Ending,
            b"-ERR Protocol error: expected line end\r\n",
        ),
    ];
    for (kind, text) in cases {
        let mut out = Bytes::new(rt.alloc());
        break_text(kind, &mut out)?;
        assert_eq!(rt; out.as_slice(), text);
    }
    Ok(())
}
