//! Which texts are scripts, at which line the others break, and what outcomes print, case by case.
use area_list::Area;
use std::alloc::Global;
use std::test::Fail;
use trace_events::{AreaRow, Event, Outcome};
use trace_text::{ScriptFault, outcome_text, read_script};
use vm_base::{Bytes, Mode, Perm};

fn breaks_at(alloc: Global, text: &[u8], line: u64) -> bool {
    match read_script(alloc, text) {
        Ok(_) => false,
        Err(fault) => fault == ScriptFault::Bad { line },
    }
}

#[test]
fn a_fault_is_told_at_the_first_line_that_breaks_a_rule(rt: HostRuntime) {
    let cases: [(&[u8], u64); 47] = [
        (b"", 1),
        (b"\n", 2),
        (b"#\n", 2),
        (b"#", 2),
        (b"\n\n", 3),
        (b"# a\n\n#b", 4),
        (b"machine 7", 1),
        (b"machine 65537", 1),
        (b"machine 8 0", 1),
        (b"machine 8 513", 1),
        (b"machine 08", 1),
        (b"machine 8 01", 1),
        (b"machine 8 0256", 1),
        (b"machine", 1),
        (b"machine ", 1),
        (b"machine 8 ", 1),
        (b"machine  8", 1),
        (b" machine 8", 1),
        (b"machine\t8", 1),
        (b"machine 8 1 1", 1),
        (b"machine 8\r\n", 1),
        (b"Machine 8", 1),
        (b"machines 8", 1),
        (b"machine a", 1),
        (b"machine +8", 1),
        (b"machine 4294967304", 1),
        (b"machine 18446744073709551624", 1),
        (b"read 0 1\nmachine 8", 1),
        (b" ", 1),
        (b"\x00", 1),
        (b"\n#\nmachine 7", 3),
        (b"\n# machine 8\n#\n\n", 5),
        (b"machine 8\nmachine 8", 2),
        (b"machine 8\nmachine 8 256", 2),
        (b"machine 8\n ", 2),
        (b"machine 8\n #", 2),
        (b"machine 8\n\x00", 2),
        (b"machine 8\n\r\n", 2),
        (b"machine 8\n\n#x\nframe", 4),
        (b"machine 8\nframes\n\n#\nareas \nareas", 5),
        (b"machine 8\nread 0 1\nmachine 8\nread 0 0", 3),
        (b"machine 8\nfork 1 eager\nfork 1 eager", 3),
        (b"machine 8\nfork 2 eager\n\nfork 1 eager\n", 4),
        (b"machine 8\nfork 1 eager\ndrop 1\nfork 1 eager\n", 4),
        (
            b"machine 8\nfork 4294967295 eager\nfork 4294967295 eager",
            3,
        ),
        (b"machine 8\nfork 4294967295 eager\nfork 1 eager\n", 3),
        (
            b"machine 8\nmap fffffffff000 1 rw\nwrite ffffffffffff 7a\nread ffffffffffff 1\n\
              frames\nmap 1000000000000 1 rw\n",
            6,
        ),
    ];
    for (text, line) in cases {
        assert!(rt; breaks_at(rt.alloc(), text, line));
    }
}

// Each line breaks one bound or one rule of spelling.
const FAULTY_LINES: [&[u8]; 110] = [
    b"map 0 0 rw",
    b"map 0 68719476737 rw",
    b"map 1000 68719476736 rw",
    b"map 0 281474976710656 rw",
    b"map 1 1 rw",
    b"map fff 1 rw",
    b"map 1000000000000 1 rw",
    b"map 10000000000000000 1 rw",
    b"map 00 1 rw",
    b"map 01000 1 rw",
    b"map F000 1 rw",
    b"map g000 1 rw",
    b"map 0x0 1 rw",
    b"map 0 01 rw",
    b"map 0 +1 rw",
    b"map 0 a rw",
    b"map 0 1 w",
    b"map 0 1 R",
    b"map 0 1 rwx",
    b"map 0 1 ",
    b"map 0 1",
    b"map 0 1 rw rw",
    b"map 0 1 rw ",
    b"map  0 1 rw",
    b"map 0  1 rw",
    b"map\t0 1 rw",
    b"map 0 1 rw\r",
    b"map",
    b"map ",
    b" map 0 1 rw",
    b"maps 0 1 rw",
    b"Map 0 1 rw",
    b"unmap 0 0",
    b"unmap 1000 68719476736",
    b"unmap 800 1",
    b"unmap 0",
    b"unmap 0 1 rw",
    b"protect 0 0 r",
    b"protect 1000 68719476736 r",
    b"protect fffffffff001 1 r",
    b"protect 0 1 x",
    b"protect 0 1",
    b"read 0 0",
    b"read 0 65537",
    b"read 0 4294967297",
    b"read ffffffffffff 2",
    b"read ffffffff0001 65536",
    b"read 1000000000000 1",
    b"read 00 1",
    b"read A 1",
    b"read 0 -1",
    b"read 0 1a",
    b"read 0 01",
    b"read 0",
    b"read 0 1 1",
    b"read",
    b"write 0",
    b"write 0 ",
    b"write 0 6",
    b"write 0 616",
    b"write 0 6A",
    b"write 0 A6",
    b"write 0 6g",
    b"write 0 61 62",
    b"write  61",
    b"write ffffffffffff 6162",
    b"write 1000000000000 61",
    b"fill 0 0 61",
    b"fill 0 2097153 61",
    b"fill 0 4294967297 61",
    b"fill ffffffffffff 2 61",
    b"fill 1000000000000 1 61",
    b"fill 0 1 6",
    b"fill 0 1 616",
    b"fill 0 1 6161",
    b"fill 0 1 6A",
    b"fill 0 1 ",
    b"fill 0 1",
    b"fork 0 eager",
    b"fork 4294967296 eager",
    b"fork 4294967297 eager",
    b"fork 01 eager",
    b"fork 1",
    b"fork 1 ",
    b"fork 1 Eager",
    b"fork 1 eage",
    b"fork 1 ondemand",
    b"fork 1 async",
    b"fork 1 eager x",
    b"copy 0 0",
    b"copy 4294967296 0",
    b"copy 1 134217728",
    b"copy 1 00",
    b"copy 1",
    b"drop 0",
    b"drop 4294967296",
    b"drop a",
    b"drop",
    b"drop 1 1",
    b"sread 0 0 1",
    b"sread 4294967296 0 1",
    b"sread 1 0 0",
    b"sread 1 0 65537",
    b"sread 1 ffffffffffff 2",
    b"sread 1 0",
    b"frames 1",
    b"areas 1",
    b"refuse 0",
    b"refuse 4294967296",
    b"refuse 1 1",
];

#[test]
fn a_line_past_a_bound_or_spelled_otherwise_is_at_fault(rt: HostRuntime) -> Result<(), Fail> {
    for line in FAULTY_LINES {
        let mut text = Vec::from_slice(rt.alloc(), b"machine 8\n")?;
        text.extend_from_slice(line)?;
        assert!(rt; breaks_at(rt.alloc(), &text, 2));
        text.extend_from_slice(b"\nnothing\n")?;
        assert!(rt; breaks_at(rt.alloc(), &text, 2));
    }
    Ok(())
}

#[test]
fn a_text_within_the_rules_is_read(rt: HostRuntime) -> Result<(), Fail> {
    let cases: [(&[u8], u32, u32, usize); 14] = [
        (b"machine 8", 8, 256, 0),
        (b"machine 65536 512\n", 65_536, 512, 0),
        (b"machine 8 1\n\n", 8, 1, 0),
        (b"#c\n\nmachine 64 256\n# \n\nframes\n#end", 64, 256, 1),
        (
            b"machine 8\nmap 0 68719476736 rw\nmap fffffffff000 1 r\nunmap 0 68719476736\n\
              protect fffffffff000 1 rw\n",
            8,
            256,
            4,
        ),
        (
            b"machine 8\nread 0 65536\nread ffffffffffff 1\nread ffffffff0000 65536\n\
              write ffffffffffff 00\nfill 0 2097152 ff\nfill ffffffe00000 2097152 0a",
            8,
            256,
            6,
        ),
        (
            b"machine 8\nfork 1 eager\nfork 4294967295 eager\ncopy 4294967295 134217727\n\
              drop 4294967295\nsread 4294967295 ffffffffffff 1\nrefuse 4294967295\nareas",
            8,
            256,
            7,
        ),
        (
            b"machine 64\nmap 100000 2 rw\nwrite 100000 6162\nfork 1 eager\nrefuse 1\n\
              write 100000 7a\nread 100000 2\nsread 1 100000 2\nframes\ndrop 1\nframes\n",
            64,
            256,
            10,
        ),
        (
            b"machine 9\nmap 100000 2 rw\nwrite 100000 61\nfork 1 eager\nframes\n\
              write 101000 62\nread 101000 1\nsread 1 100000 1\ndrop 1\nwrite 101000 62\nframes\n",
            9,
            256,
            10,
        ),
        (
            b"machine 64\nmap 100000 1 rw\nmap 101000 1 r\nwrite 300000 61\nwrite 101000 61\n\
              write 100fff 6162\nunmap 101000 1\nwrite 100fff 6162\nread 100fff 1\nframes\n",
            64,
            256,
            9,
        ),
        (
            b"machine 8\nmap fffffffff000 1 rw\nwrite ffffffffffff 7a\nread ffffffffffff 1\nframes\n",
            8,
            256,
            4,
        ),
        (
            b"machine 64\nmap 100000 3 rw\nprotect 101000 1 r\nareas\nwrite 100000 61\n\
              write 101000 61\nwrite 102000 61\nprotect 101000 1 rw\nareas\nframes\n",
            64,
            256,
            9,
        ),
        (
            b"machine 8\nmap 100000 5 rw\nfill 100000 20480 61\nread 100000 2\nframes\n\
              fill 100000 16384 61\nread 103fff 1\nframes\n",
            8,
            256,
            7,
        ),
        (
            b"machine 64 1\nmap 0 1024 rw\nwrite 1fffff 61\nwrite 200000 61\nfill 1fffff 2 62\n\
              read 1fffff 1\nmap 1000 1 r\nfork 1 eager\nfork 2 eager\nsread 2 0 1\ndrop 2\n\
              copy 2 0\nsread 1 400000 1\n",
            64,
            1,
            12,
        ),
    ];
    for (text, frames, cells, events) in cases {
        let script = read_script(rt.alloc(), text)
            .ok()
            .ok_or("the text is a script")?;
        assert_eq!(rt; script.frames(), frames);
        assert_eq!(rt; script.cells(), cells);
        assert_eq!(rt; script.len(), events);
    }
    Ok(())
}

#[test]
fn a_script_of_many_areas_is_read(rt: HostRuntime) -> Result<(), Fail> {
    let mut text = format!(in rt.alloc(); "machine 8\nmap 100000 3 rw\n")?;
    for area in 0..127u32 {
        let line = format!(in rt.alloc(); "map {:x} 1 rw\n", area * 0x2000)?;
        text.push_str(&line)?;
    }
    text.push_str("map 200000 1 rw\nunmap 101000 1\nareas\nunmap 0 1\nmap 200000 1 rw\n")?;
    let script = read_script(rt.alloc(), text.as_bytes())
        .ok()
        .ok_or("the text is a script")?;
    assert_eq!(rt; script.len(), 133);
    Ok(())
}

#[test]
fn each_kind_of_line_gives_its_event(rt: HostRuntime) -> Result<(), Fail> {
    let text = b"machine 8\nmap 3000 2 rw\nunmap 4000 3\nprotect 5000 4 r\nread 3a 10\n\
                 write 3b 0aff\nfill 3c 11 b0\nfork 7 eager\ncopy 8 12\ndrop 9\nsread 10 3d 13\n\
                 frames\nareas\nrefuse 14\n";
    let script = read_script(rt.alloc(), text)
        .ok()
        .ok_or("the text is a script")?;
    assert_eq!(rt; script.len(), 13);
    for place in 0..script.len() {
        assert!(rt; is_expected(place, script.event(place)));
    }
    Ok(())
}

fn is_expected(place: usize, event: &Event) -> bool {
    match event {
        Event::Map { first, pages, perm } => {
            place == 0 && *first == 3 && *pages == 2 && *perm == Perm::ReadWrite
        }
        Event::Unmap { first, pages } => place == 1 && *first == 4 && *pages == 3,
        Event::Protect { first, pages, perm } => {
            place == 2 && *first == 5 && *pages == 4 && *perm == Perm::Read
        }
        Event::Read { addr, len } => place == 3 && *addr == 0x3a && *len == 10,
        Event::Write { addr, bytes } => {
            place == 4 && *addr == 0x3b && bytes.as_slice() == b"\x0a\xff".as_slice()
        }
        Event::Fill { addr, len, byte } => {
            place == 5 && *addr == 0x3c && *len == 11 && *byte == 0xb0
        }
        Event::Fork { number, mode } => place == 6 && *number == 7 && *mode == Mode::Eager,
        Event::Copy { number, cell } => place == 7 && *number == 8 && *cell == 12,
        Event::Drop { number } => place == 8 && *number == 9,
        Event::SnapRead { number, addr, len } => {
            place == 9 && *number == 10 && *addr == 0x3d && *len == 13
        }
        Event::Frames => place == 10,
        Event::ListAreas => place == 11,
        Event::Refuse { nth } => place == 12 && *nth == 14,
    }
}

#[test]
fn long_tokens_are_read_within_their_bounds_alone(rt: HostRuntime) -> Result<(), Fail> {
    let cases: [(&[u8], u8, usize, bool); 7] = [
        (b"write 0 ", b'a', 8192, true),
        (b"write 0 ", b'a', 8191, false),
        (b"write 0 ", b'a', 8194, false),
        (b"write 0 ", b'A', 8192, false),
        (b"read 0 ", b'9', 1000, false),
        (b"read 0 ", b'0', 1000, false),
        (b"drop ", b'1', 1_000_000, false),
    ];
    for (front, digit, count, read) in cases {
        let mut text = Vec::from_slice(rt.alloc(), b"machine 8\n")?;
        text.extend_from_slice(front)?;
        text.extend_from_slice(&vec![in rt.alloc(); digit; count]?)?;
        assert_eq!(rt; read_script(rt.alloc(), &text).is_ok(), read);
        assert_eq!(rt; breaks_at(rt.alloc(), &text, 2), !read);
    }
    Ok(())
}

#[test]
fn each_outcome_prints_its_line(rt: HostRuntime) -> Result<(), Fail> {
    let mut bytes = Bytes::new(rt.alloc());
    bytes.push_all(b"\x00a\xff")?;
    let areas = [
        Area {
            first: 0x100,
            pages: 1,
            perm: Perm::ReadWrite,
        },
        Area {
            first: 0x101,
            pages: 68_719_476_479,
            perm: Perm::Read,
        },
        Area {
            first: 0,
            pages: 2,
            perm: Perm::ReadWrite,
        },
    ];
    let outcomes = [
        Outcome::Done,
        Outcome::Bytes(bytes),
        Outcome::Bytes(Bytes::new(rt.alloc())),
        Outcome::Held {
            held: 0,
            free: 65_536,
        },
        Outcome::AreaRow(AreaRow::new(rt.alloc(), &[])?),
        Outcome::AreaRow(AreaRow::new(rt.alloc(), &areas[..1])?),
        Outcome::AreaRow(AreaRow::new(rt.alloc(), &areas)?),
        Outcome::Copied,
        Outcome::Nothing,
        Outcome::Refused(1),
        Outcome::Lost(10),
        Outcome::NoArea(0),
        Outcome::NoWrite(256),
        Outcome::Overlap(0xf_ffff_ffff_ffff),
        Outcome::NoArea(0xffff_ffff_ffff_ffff),
        Outcome::AreasFull,
        Outcome::CellsFull,
        Outcome::NoFrame(18_446_744_073_709_551_615),
        Outcome::TooMany,
        Outcome::NoSnap,
    ];
    let mut out = Bytes::new(rt.alloc());
    for outcome in &outcomes {
        outcome_text(rt.alloc(), outcome, &mut out)?;
    }
    let lines = b"ok\n0061ff\n\nheld 0 free 65536\nareas none\nareas 100000 1 rw\n\
                  areas 100000 1 rw, 101000 68719476479 r, 0 2 rw\ncopied\nnothing\nrefused 1\n\
                  lost 10\nnoarea 0\nnowrite 100000\noverlap fffffffffffff000\n\
                  noarea ffffffffffffffff000\nareasfull\ncellsfull\n\
                  noframe 18446744073709551615\ntoomany\nnosnap\n";
    assert_eq!(rt; out.as_slice(), lines.as_slice());
    Ok(())
}
