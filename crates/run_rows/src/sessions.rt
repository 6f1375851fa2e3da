//! Sessions through the top call, over a source, a sink and a folder in memory.
use io_face::{Folder, MemFolder, MemSink, MemSource, Source};
use server_top::{Status, run_plain};
use std::alloc::Global;
use std::test::Fail;
use vm_base::{Bytes, NoMemory};

/// SET, BGSAVE, SET, BGSAVE and GET of one key.
const BACKGROUND_SAVE: &[u8] = b"*3\r\n$3\r\nSET\r\n$1\r\nk\r\n$1\r\n1\r\n*1\r\n$6\r\nBGSAVE\r\n\
*3\r\n$3\r\nSET\r\n$1\r\nk\r\n$1\r\n2\r\n*1\r\n$6\r\nBGSAVE\r\n*2\r\n$3\r\nGET\r\n$1\r\nk\r\n";

/// Its replies.
const REPLIES: &[u8] = b"+OK\r\n+Background saving started\r\n+OK\r\n\
-ERR Background save already in progress\r\n$1\r\n2\r\n";

/// The image of the first BGSAVE.
const IMAGE: &[u8] = b"AFIMAGE1\0\0\0\0\0\0\0\x01\0\0\0\x01\0\0\0\x01k1AFEND\0\0\0\0\0\0\0\x01";

/// How a session ended, and what it wrote and published.
#[derive(Drop)]
struct Ended {
    status: Status,
    written: MemSink,
    files: MemFolder,
}

/// Runs a session that is read in pieces of at most this size, with these writes and these calls
/// of the folder failing, where an image has so much room.
fn session(
    alloc: Global,
    input: &[u8],
    piece: usize,
    failing_writes: &[u64],
    failing_calls: &[u64],
    room: usize,
) -> Result<Ended, NoMemory> {
    let cuts = vec![in alloc; piece; input.len()]?;
    let input = Vec::from_slice(alloc, input)?;
    let mut source = MemSource::new(input, cuts, Vec::new(alloc));
    let mut written = MemSink::new(alloc, 1 << 20, Vec::from_slice(alloc, failing_writes)?)?;
    let fails = Vec::from_slice(alloc, failing_calls)?;
    let mut files = MemFolder::new(alloc, Vec::new(alloc), room, fails)?;
    let words = command_words(alloc)?;
    let status = run_plain(
        alloc,
        &words,
        &mut source,
        &mut written,
        &mut files,
        Vec::new(alloc),
    );
    Ok(Ended {
        status,
        written,
        files,
    })
}

fn command_words(alloc: Global) -> Result<Vec<Bytes>, NoMemory> {
    let texts: [&[u8]; 3] = [b"replay", b"--every", b"0"];
    let mut words = Vec::new(alloc);
    for text in texts {
        let mut word = Bytes::new(alloc);
        word.push_all(text)?;
        words.push(word)?;
    }
    Ok(words)
}

/// The bytes of the first image, where one was published.
fn image_in(alloc: Global, files: &mut MemFolder) -> Result<Vec<u8>, Fail> {
    let mut image = vec![in alloc; 0; 100]?;
    let mut size = 0;
    if let Ok(Some(mut input)) = files.load("save-1.img") {
        size = input.read(&mut image).unwrap_or(0);
        files.close(input);
    }
    image.truncate(size);
    Ok(image)
}

/// The text is the replies and then this line.
fn is_replies_and(text: &[u8], line: &[u8]) -> bool {
    text.strip_prefix(REPLIES) == Some(line)
}

#[test]
fn an_image_has_the_pairs_at_its_fork(rt: HostRuntime) -> Result<(), Fail> {
    let alloc = rt.alloc();
    for piece in [1, 7, 4096] {
        let mut ended = session(alloc, BACKGROUND_SAVE, piece, &[], &[], 100)?;
        assert!(rt; ended.status == Status::Done);
        assert!(rt; is_replies_and(ended.written.written(), b"save 1 ok 1\n"));
        let image = image_in(alloc, &mut ended.files)?;
        assert_eq!(rt; image.as_slice(), IMAGE);
    }
    Ok(())
}

#[test]
fn a_save_that_fails_is_told_and_publishes_nothing(rt: HostRuntime) -> Result<(), Fail> {
    let alloc = rt.alloc();
    for (call, room) in [(1, 100), (2, 100), (3, 38)] {
        let mut ended = session(alloc, BACKGROUND_SAVE, 4096, &[], &[call], room)?;
        assert!(rt; ended.status == Status::Done);
        assert!(rt; is_replies_and(ended.written.written(), b"save 1 fault\n"));
        let image = image_in(alloc, &mut ended.files)?;
        assert!(rt; image.is_empty());
    }
    Ok(())
}

#[test]
fn a_write_that_fails_ends_the_session(rt: HostRuntime) -> Result<(), Fail> {
    let alloc = rt.alloc();
    for (call, size, published) in [(1, 0, false), (2, REPLIES.len(), true)] {
        let mut ended = session(alloc, BACKGROUND_SAVE, 4096, &[call], &[], 100)?;
        assert!(rt; ended.status == Status::WriteFault);
        assert_eq!(rt; ended.written.written().len(), size);
        let image = image_in(alloc, &mut ended.files)?;
        assert_eq!(rt; image.is_empty(), !published);
    }
    Ok(())
}

/// Whether a session writes just this.
fn writes(alloc: Global, input: &[u8], text: &[u8]) -> Result<bool, NoMemory> {
    let ended = session(alloc, input, 4096, &[], &[], 100)?;
    Ok(ended.status == Status::Done && ended.written.written() == text)
}

/// Whether a session ends as a broken one, with nothing written.
fn is_broken(alloc: Global, input: &[u8]) -> Result<bool, NoMemory> {
    let ended = session(alloc, input, 4096, &[], &[], 100)?;
    let nothing = ended.written.written().is_empty();
    Ok(ended.status == Status::Protocol { place: 0 } && nothing)
}

#[test]
fn each_request_has_its_reply(rt: HostRuntime) -> Result<(), Fail> {
    let alloc = rt.alloc();
    let cases: [(&[u8], &[u8]); 7] = [
        (b"", b""),
        (b"*0\r\n*-1\r\n", b""),
        (b"*1\r\n$4\r\nPING\r\n", b"-ERR unknown command\r\n"),
        (b"*2\r\n$3\r\ngEt\r\n$0\r\n\r\n", b"$-1\r\n"),
        (
            b"*1\r\n$3\r\nget\r\n",
            b"-ERR wrong number of arguments\r\n",
        ),
        (
            b"*3\r\n$3\r\nset\r\n$0\r\n\r\n$2\r\n\r\n\r\n*2\r\n$3\r\nget\r\n$0\r\n\r\n",
            b"+OK\r\n$2\r\n\r\n\r\n",
        ),
        (
            b"*1\r\n$6\r\nbgsave\r\n",
            b"+Background saving started\r\nsave 1 ok 0\n",
        ),
    ];
    for (input, text) in cases {
        assert!(rt; writes(alloc, input, text)?);
    }
    let mut long_key = Vec::from_slice(alloc, b"*2\r\n$3\r\nGET\r\n$65537\r\n")?;
    long_key.extend_from_slice(&vec![in alloc; b'k'; 65537]?)?;
    long_key.extend_from_slice(b"\r\n")?;
    assert!(rt; writes(alloc, &long_key, b"-ERR key is too long\r\n")?);
    Ok(())
}

#[test]
fn a_broken_stream_writes_nothing(rt: HostRuntime) -> Result<(), Fail> {
    let cases: [&[u8]; 7] = [
        b"\n",
        b"PING\r\n",
        b"*01\r\n$4\r\nPING\r\n",
        b"*1\n$4\r\nPING\r\n",
        b"*1\r\n$04\r\nPING\r\n",
        b"*1\r\n$4\r\nPING\r",
        b"*1\r\n$4\r\nPI",
    ];
    for input in cases {
        assert!(rt; is_broken(rt.alloc(), input)?);
    }
    Ok(())
}
