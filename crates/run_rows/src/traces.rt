//! Whole runs through the top call, over a source and a sink in memory.
use crate::rows::{FAULTY_TEXTS, ROWS};
use frame_pool::{DenyNth, FramePolicy};
use io_face::{MemFolder, MemSink, MemSource};
use server_top::{Status, run_plain};
use std::alloc::Global;
use std::test::Fail;
use vm_base::{Bytes, NoMemory};

/// The script that maps, writes, forks, writes again and reads both sides.
const BOTH_SIDES: &[u8] = b"machine 2048\nmap 100000 2 rw\nwrite 100000 6162\nfork 1 eager\n\
write 100000 7a\nread 100000 2\nsread 1 100000 2\nsread 2 100000 1\n";

/// Its lines.
const BOTH_SIDES_LINES: &[u8] = b"ok\nok\nok\nok\n7a62\n6162\nnosnap\n";

/// How a run ended, and what it wrote and read.
#[derive(Drop)]
struct Ended {
    status: Status,
    written: MemSink,
    left: MemSource,
}

fn words(alloc: Global, texts: &[&[u8]]) -> Result<Vec<Bytes>, NoMemory> {
    let mut words = Vec::new(alloc);
    for text in texts {
        let mut word = Bytes::new(alloc);
        word.push_all(text)?;
        words.push(word)?;
    }
    Ok(words)
}

/// Runs the words on an input that is read in pieces of at most this size, with these reads and
/// writes failing, where no policy is asked.
fn run(
    alloc: Global,
    texts: &[&[u8]],
    input: &[u8],
    piece: usize,
    failing_reads: &[u64],
    failing_writes: &[u64],
) -> Result<Ended, NoMemory> {
    let cuts = vec![in alloc; piece; input.len()]?;
    let mut left = MemSource::new(
        Vec::from_slice(alloc, input)?,
        cuts,
        Vec::from_slice(alloc, failing_reads)?,
    );
    let mut written = MemSink::new(alloc, 1 << 20, Vec::from_slice(alloc, failing_writes)?)?;
    let words = words(alloc, texts)?;
    let mut files = MemFolder::new(alloc, Vec::new(alloc), 0, Vec::new(alloc))?;
    let status = run_plain(
        alloc,
        &words,
        &mut left,
        &mut written,
        &mut files,
        Vec::new(alloc),
    );
    Ok(Ended {
        status,
        written,
        left,
    })
}

/// Whether the script prints just these lines, where the policies deny these asks.
fn prints(alloc: Global, script: &[u8], lines: &[u8], denied: &[u64]) -> Result<bool, NoMemory> {
    let mut policies: Vec<Box<dyn FramePolicy + Send>> = Vec::new(alloc);
    for nth in denied {
        policies.push(Box::new(alloc, DenyNth::new((*nth).max(1)))?)?;
    }
    let mut left = MemSource::new(
        Vec::from_slice(alloc, script)?,
        Vec::new(alloc),
        Vec::new(alloc),
    );
    let mut written = MemSink::new(alloc, 1 << 20, Vec::new(alloc))?;
    let words = words(alloc, &[b"trace"])?;
    let mut files = MemFolder::new(alloc, Vec::new(alloc), 0, Vec::new(alloc))?;
    let status = run_plain(alloc, &words, &mut left, &mut written, &mut files, policies);
    Ok(status == Status::Done && written.written() == lines && left.left().is_empty())
}

#[test]
fn each_script_prints_its_lines(rt: HostRuntime) -> Result<(), Fail> {
    for (script, lines) in ROWS {
        assert!(rt; prints(rt.alloc(), script, lines, &[])?);
    }
    Ok(())
}

#[test]
fn a_policy_denies_the_asks_that_reach_it(rt: HostRuntime) -> Result<(), Fail> {
    let cases: [(&[u64], &[u8], &[u8]); 4] = [
        (
            &[1],
            b"machine 64\nmap 100000 2 rw\nwrite 100000 61\nframes\nwrite 100000 61\nframes\n",
            b"ok\nnoframe 1\nheld 0 free 64\nok\nheld 5 free 59\n",
        ),
        // The ask behind one that was denied is the second that reaches the other policy.
        (
            &[5, 1],
            b"machine 64\nmap 100000 2 rw\nwrite 100000 61\nframes\nwrite 100000 61\nframes\n",
            b"ok\nnoframe 1\nheld 0 free 64\nnoframe 2\nheld 0 free 64\n",
        ),
        (
            &[10],
            b"machine 64\nmap 100000 2 rw\nwrite 100000 6162\nfork 1 eager\nwrite 100000 7a\n\
              read 100000 2\nsread 1 100000 2\nframes\ndrop 1\nframes\n",
            b"ok\nok\nok\nok\n7a62\nlost 1\nheld 8 free 56\nok\nheld 5 free 59\n",
        ),
        // A request that a line refuses reaches no policy.
        (
            &[1],
            b"machine 64\nmap 0 1 rw\nrefuse 1\nwrite 0 61\nwrite 0 61\nwrite 0 61\nframes\n",
            b"ok\nok\nnoframe 1\nnoframe 2\nok\nheld 5 free 59\n",
        ),
    ];
    for (denied, script, lines) in cases {
        assert!(rt; prints(rt.alloc(), script, lines, denied)?);
    }
    Ok(())
}

#[test]
fn a_script_prints_its_lines_however_it_is_cut(rt: HostRuntime) -> Result<(), Fail> {
    for piece in [1, 7, 4096] {
        let run = run(rt.alloc(), &[b"trace"], BOTH_SIDES, piece, &[], &[])?;
        assert!(rt; run.status == Status::Done);
        assert_eq!(rt; run.written.written(), BOTH_SIDES_LINES);
        assert!(rt; run.left.left().is_empty());
    }
    Ok(())
}

#[test]
fn a_list_of_areas_that_is_full_stays_as_it_is(rt: HostRuntime) -> Result<(), Fail> {
    let mut script = format!(in rt.alloc(); "machine 8\nmap 100000 3 rw\n")?;
    let mut lines = format!(in rt.alloc(); "ok\n")?;
    let mut areas = format!(in rt.alloc(); "areas ")?;
    for area in 0..127u32 {
        let line = format!(in rt.alloc(); "map {:x} 1 rw\n", area * 0x2000)?;
        script.push_str(&line)?;
        lines.push_str("ok\n")?;
        let row = format!(in rt.alloc(); "{:x} 1 rw, ", area * 0x2000)?;
        areas.push_str(&row)?;
    }
    areas.push_str("100000 3 rw\n")?;
    script.push_str("map 200000 1 rw\nunmap 101000 1\nareas\nunmap 0 1\nmap 200000 1 rw\n")?;
    lines.push_str("areasfull\nareasfull\n")?;
    lines.push_str(&areas)?;
    lines.push_str("ok\nok\n")?;
    assert!(rt; prints(rt.alloc(), script.as_bytes(), lines.as_bytes(), &[])?);
    Ok(())
}

/// Whether a run on the text ends as a bad script at the line, with nothing written.
fn is_bad_at(alloc: Global, text: &[u8], line: u64) -> Result<bool, NoMemory> {
    let run = run(alloc, &[b"trace"], text, 65536, &[], &[])?;
    Ok(run.status == Status::BadScript { line } && run.written.written().is_empty())
}

#[test]
fn a_text_that_is_no_script_is_told_at_its_first_fault(rt: HostRuntime) -> Result<(), Fail> {
    let alloc = rt.alloc();
    for (text, line) in FAULTY_TEXTS {
        assert!(rt; is_bad_at(alloc, text, line)?);
    }
    let mut ninth_line = Vec::from_slice(alloc, BOTH_SIDES)?;
    ninth_line.extend_from_slice(b"read 1000000000000 1\n")?;
    assert!(rt; is_bad_at(alloc, &ninth_line, 9)?);
    let long_number = vec![in alloc; b'7'; 1000]?;
    assert!(rt; is_bad_at(alloc, &long_number, 1)?);
    let mut long_line = Vec::from_slice(alloc, b"machine 2048\nwrite 0 ")?;
    long_line.extend_from_slice(&vec![in alloc; b'6'; 1 << 20]?)?;
    assert!(rt; is_bad_at(alloc, &long_line, 2)?);
    Ok(())
}

#[test]
fn each_word_is_judged_at_its_place(rt: HostRuntime) -> Result<(), Fail> {
    let cases: [(&[&[u8]], u64); 5] = [
        (&[], 0),
        (&[b"tracy"], 0),
        (&[b""], 0),
        (&[b"trace", b"trace"], 1),
        (&[b"Trace", b"trace"], 0),
    ];
    for (texts, place) in cases {
        let run = run(rt.alloc(), texts, BOTH_SIDES, 4096, &[], &[])?;
        assert!(rt; run.status == Status::Usage { place });
        assert_eq!(rt; run.left.left(), BOTH_SIDES);
        assert!(rt; run.written.written().is_empty());
    }
    Ok(())
}

#[test]
fn a_failing_stream_ends_the_run(rt: HostRuntime) -> Result<(), Fail> {
    let cases: [(&[u64], &[u64], Status); 5] = [
        (&[1], &[], Status::ReadFault),
        (&[3], &[1], Status::ReadFault),
        (&[], &[1], Status::WriteFault),
        (&[], &[2], Status::Done),
        (&[1000], &[], Status::Done),
    ];
    for (failing_reads, failing_writes, status) in cases {
        let run = run(
            rt.alloc(),
            &[b"trace"],
            BOTH_SIDES,
            50,
            failing_reads,
            failing_writes,
        )?;
        assert!(rt; run.status == status);
        assert_eq!(rt; run.written.written().is_empty(), status != Status::Done);
    }
    Ok(())
}

#[test]
fn lines_are_written_in_pieces(rt: HostRuntime) -> Result<(), Fail> {
    let script = b"machine 2048\nmap 0 16 rw\nread 0 65536\nread 0 1\n";
    for (failing_writes, status, size) in [
        (&[][..], Status::Done, 131_079),
        (&[2][..], Status::WriteFault, 131_076),
        (&[1][..], Status::WriteFault, 0),
    ] {
        let run = run(rt.alloc(), &[b"trace"], script, 4096, &[], failing_writes)?;
        assert!(rt; run.status == status);
        assert_eq!(rt; run.written.written().len(), size);
    }
    Ok(())
}

#[test]
fn an_input_past_its_limit_is_too_long(rt: HostRuntime) -> Result<(), Fail> {
    let alloc = rt.alloc();
    for (size, status) in [
        ((1 << 24) + 1, Status::TooLong),
        (1 << 24, Status::BadScript { line: 2 }),
    ] {
        let text = vec![in alloc; b'#'; size]?;
        let mut input = MemSource::new(text, Vec::new(alloc), Vec::new(alloc));
        let mut output = MemSink::new(alloc, 16, Vec::new(alloc))?;
        let words = words(alloc, &[b"trace"])?;
        let mut files = MemFolder::new(alloc, Vec::new(alloc), 0, Vec::new(alloc))?;
        let ended = run_plain(
            alloc,
            &words,
            &mut input,
            &mut output,
            &mut files,
            Vec::new(alloc),
        );
        assert!(rt; ended == status);
        assert!(rt; output.written().is_empty());
    }
    Ok(())
}
