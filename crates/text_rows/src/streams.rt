//! Reads and writes through the traits' bounds, with cuts and faults at each place.
use io_face::{
    Failed, Folder, MemFolder, MemSink, MemSource, ReadAllError, Sink, Source, read_all, write_all,
};
use std::alloc::Global;
use std::test::Fail;

// A sink that tells nothing and takes one byte at a time.
#[derive(Drop)]
struct OneByOne {
    taken: Vec<u8>,
    writes_left: u64,
    faults: u64,
}

impl Sink for OneByOne {
    ghost faults = { λ s. s.faults };

    fn write(&mut self, piece: &[u8]) -> Result<usize, Failed> {
        let Some(first) = piece.first() else {
            return Ok(0);
        };
        if self.writes_left == 0 || self.taken.push(*first).is_err() {
            self.faults = self.faults.saturating_add(1);
            return Err(Failed);
        }
        self.writes_left -= 1;
        Ok(1)
    }
}

// A source that tells nothing, gives one byte at a time and counts its reads.
#[derive(Drop)]
struct CountedReads {
    bytes_left: u64,
    failing_read: u64,
    reads: u64,
    faults: u64,
}

impl Source for CountedReads {
    ghost faults = { λ s. s.faults };

    fn read(&mut self, buf: &mut [u8]) -> Result<usize, Failed> {
        self.reads = self.reads.saturating_add(1);
        if self.reads == self.failing_read {
            self.faults = self.faults.saturating_add(1);
            return Err(Failed);
        }
        if self.bytes_left == 0 {
            return Ok(0);
        }
        self.bytes_left -= 1;
        buf[0] = b'a';
        Ok(1)
    }
}

#[test]
fn a_source_is_read_to_its_end_or_to_what_stops_it(rt: HostRuntime) -> Result<(), Fail> {
    let too_long = Err(ReadAllError::TooLong);
    let fault = Err(ReadAllError::ReadFault);
    let cases: [(&[usize], &[u64], usize, Result<(), ReadAllError>, usize); 9] = [
        (&[], &[], 4, Ok(()), 0),
        (&[1, 1, 1, 1, 1], &[], 4, Ok(()), 0),
        (&[0, 3], &[], usize::MAX, Ok(()), 0),
        (&[], &[], 3, too_long, 0),
        (&[], &[], 0, too_long, 3),
        (&[1, 1, 1, 1], &[], 2, too_long, 1),
        (&[], &[1], 9, fault, 4),
        (&[1, 2], &[3], 9, fault, 1),
        (&[], &[2], 9, fault, 0),
    ];
    for (cuts, fails, limit, answer, left) in cases {
        let bytes = Vec::from_slice(rt.alloc(), b"a\x00\xff\n")?;
        let cuts = Vec::from_slice(rt.alloc(), cuts)?;
        let mut source = MemSource::new(bytes, cuts, Vec::from_slice(rt.alloc(), fails)?);
        match read_all(rt.alloc(), &mut source, limit) {
            Ok(text) => assert_eq!(rt; text.as_slice(), b"a\x00\xff\n".as_slice()),
            Err(error) => assert!(rt; answer == Err(error), "limit {limit}"),
        }
        assert_eq!(rt; source.left().len(), left, "limit {limit}");
        assert_eq!(rt; source.faults() == 1, answer == fault, "limit {limit}");
    }
    Ok(())
}

#[test]
fn nothing_is_read_behind_the_end_or_an_error(rt: HostRuntime) -> Result<(), Fail> {
    let too_long = Err(ReadAllError::TooLong);
    let fault = Err(ReadAllError::ReadFault);
    let cases: [(u64, u64, usize, Result<usize, ReadAllError>, u64); 7] = [
        (0, 0, 4, Ok(0), 1),
        (3, 0, 4, Ok(3), 4),
        (3, 0, 3, Ok(3), 4),
        (5, 0, 3, too_long, 4),
        (1, 0, 0, too_long, 1),
        (5, 1, 9, fault, 1),
        (5, 6, 9, fault, 6),
    ];
    for (bytes_left, failing_read, limit, answer, reads) in cases {
        let mut source = CountedReads {
            bytes_left,
            failing_read,
            reads: 0,
            faults: 0,
        };
        let text = read_all(rt.alloc(), &mut source, limit);
        assert!(rt;
            text.map(|text| text.as_slice().len()) == answer,
            "limit {limit}"
        );
        assert_eq!(rt; source.reads, reads, "limit {limit}");
    }
    Ok(())
}

#[test]
fn a_text_is_written_whole_or_up_to_a_fault(rt: HostRuntime) -> Result<(), Fail> {
    let cases: [(usize, &[u64], &[u8], u64); 4] = [
        (8, &[], b"ok\n7a62\n", 0),
        (7, &[], b"ok\n", 1),
        (8, &[1], b"7a62\n", 1),
        (0, &[1, 1], b"", 2),
    ];
    for (room, fails, written, faults) in cases {
        let mut sink = MemSink::new(rt.alloc(), room, Vec::from_slice(rt.alloc(), fails)?)?;
        let _ = write_all(&mut sink, b"ok\n");
        let _ = write_all(&mut sink, b"7a62\n");
        assert_eq!(rt; sink.written(), written);
        assert_eq!(rt; sink.faults(), faults);
    }
    Ok(())
}

#[test]
fn a_sink_may_take_one_byte_at_a_time(rt: HostRuntime) -> Result<(), Fail> {
    let cases: [(u64, &[u8]); 3] = [(9, b"saved"), (4, b"save"), (0, b"")];
    for (writes_left, taken) in cases {
        let mut sink = OneByOne {
            taken: Vec::new(rt.alloc()),
            writes_left,
            faults: 0,
        };
        assert_eq!(rt; write_all(&mut sink, b"saved").is_ok(), taken.len() == 5);
        assert_eq!(rt; sink.taken.as_slice(), taken);
    }
    Ok(())
}

// Saves a text under a name.
fn save<F: Folder>(folder: &mut F, name: &str, text: &[u8]) -> Result<(), Failed> {
    let mut out = folder.create(name)?;
    if let Err(fault) = write_all(&mut out, text) {
        folder.abandon(out);
        return Err(fault);
    }
    folder.publish(out, name)
}

// Whether a folder has just this text under a name.
fn has<F: Folder>(alloc: Global, folder: &mut F, name: &str, text: &[u8]) -> bool {
    let Ok(Some(mut input)) = folder.load(name) else {
        return false;
    };
    let loaded = read_all(alloc, &mut input, text.len());
    folder.close(input);
    loaded.is_ok_and(|loaded| loaded.as_slice() == text)
}

#[test]
fn a_file_is_published_whole_or_not_at_all(rt: HostRuntime) -> Result<(), Fail> {
    let name_64 = "0123456789abcdef0123456789abcdef0123456789abcdef0123456789abcdef";
    let name_65 = "0123456789abcdef0123456789abcdef0123456789abcdef0123456789abcdef.";
    let cases: [(&str, usize, &[u64], bool); 6] = [
        ("save-1.img", 5, &[], true),
        (name_64, 9, &[4], true),
        (name_65, 9, &[], false),
        ("save-1.img", 4, &[], false),
        ("save-1.img", 5, &[1], false),
        ("save-1.img", 5, &[2], false),
    ];
    for (name, room, fails, is_saved) in cases {
        let fails = Vec::from_slice(rt.alloc(), fails)?;
        let mut folder = MemFolder::new(rt.alloc(), Vec::new(rt.alloc()), room, fails)?;
        assert_eq!(rt; save(&mut folder, name, b"saved").is_ok(), is_saved);
        assert_eq!(rt; folder.faults() == 0, is_saved);
        assert_eq!(rt; has(rt.alloc(), &mut folder, name, b"saved"), is_saved);
    }
    Ok(())
}
