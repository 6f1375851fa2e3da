//! The folder over real files, and over files that write each call down.
use super::*;
use io_face::{Source, read_all, write_all};
use std::alloc::Allocator;
use std::cell::RefCell;
use std::fs::{Metadata, OpenOptions};
use std::io::{Read, Seek, SeekFrom};
use std::os::unix::fs::symlink;
use std::rc::Rc;
use std::test::Fail;

// Calls on files, a line for each, of which one may fail.
#[derive(Drop)]
struct Calls {
    // How many calls go well before one fails.
    well: u64,
    lines: String,
    // Whether there is a file of the path that is asked for.
    is_there: bool,
}

// A file or a file system that keeps no bytes, and writes its calls down.
#[derive(Drop)]
struct Recorder {
    calls: Rc<RefCell<Calls>>,
}

impl Recorder {
    fn new(alloc: Global, well: u64, is_there: bool) -> Result<Self, AllocError> {
        let lines = String::new(alloc);
        let calls = Calls {
            well,
            lines,
            is_there,
        };
        match Rc::new(alloc, RefCell::new(calls)) {
            Ok(calls) => Ok(Recorder { calls }),
            Err(_) => Err(AllocError),
        }
    }

    fn again(&self) -> Result<Self, AllocError> {
        Ok(Recorder {
            calls: self.calls.clone()?,
        })
    }

    // Writes words of a call down.
    fn add(&self, name: &str, words: &str) -> io::Result<()> {
        let Ok(mut calls) = self.calls.try_borrow_mut() else {
            return Err(io::Error::from(ErrorKind::Other));
        };
        calls.lines.push_str(name)?;
        calls.lines.push_str(words)?;
        Ok(())
    }

    // Writes the last words of a call down, and fails where it is to.
    fn note(&self, name: &str, words: &str) -> io::Result<()> {
        self.add(name, words)?;
        self.add("\n", "")?;
        let Ok(mut calls) = self.calls.try_borrow_mut() else {
            return Err(io::Error::from(ErrorKind::Other));
        };
        if calls.well == 0 {
            return Err(io::Error::from(ErrorKind::Other));
        }
        calls.well -= 1;
        Ok(())
    }

    fn set_there(&self, is_there: bool) -> io::Result<()> {
        match self.calls.try_borrow_mut() {
            Ok(mut calls) => {
                calls.is_there = is_there;
                Ok(())
            }
            Err(_) => Err(io::Error::from(ErrorKind::Other)),
        }
    }

    // Whether these calls were made, and no others.
    fn made(&self, lines: &str) -> bool {
        match self.calls.try_borrow() {
            Ok(calls) => calls.lines.as_str() == lines,
            Err(_) => false,
        }
    }
}

impl Read for Recorder {
    fn read(&mut self, _buf: &mut [u8]) -> io::Result<usize> {
        self.note("read", "")?;
        Ok(0)
    }
}

impl Write for Recorder {
    fn write(&mut self, buf: &[u8]) -> io::Result<usize> {
        self.note("write ", str::from_utf8(buf).unwrap_or("?"))?;
        Ok(buf.len())
    }

    fn flush(&mut self) -> io::Result<()> {
        Ok(())
    }
}

impl Seek for Recorder {
    fn seek(&mut self, _to: SeekFrom) -> io::Result<u64> {
        Err(io::Error::from(ErrorKind::Unsupported))
    }
}

impl Hold for Recorder {
    fn hold(&self) -> io::Result<()> {
        self.note("hold", "")
    }
}

impl OpenFile for Recorder {
    fn metadata(&self) -> io::Result<Metadata> {
        Ok(Metadata::of_file(0))
    }

    fn set_len(&self, _size: u64) -> io::Result<()> {
        self.note("set_len", "")
    }

    fn sync_all(&self) -> io::Result<()> {
        self.note("sync", "")
    }

    fn sync_data(&self) -> io::Result<()> {
        self.note("sync_data", "")
    }
}

impl Files for Recorder {
    type File = Recorder;

    type Dir = Recorder;

    fn open_file(&self, how: &OpenOptions, path: &str) -> io::Result<Recorder> {
        let changes = how.asks_append() || how.asks_truncate() || how.asks_create();
        if changes {
            self.note("change ", path)?;
        } else if how.asks_create_new() {
            self.note("create ", path)?;
            self.set_there(true)?;
        } else if how.asks_write() {
            self.note("reopen ", path)?;
        } else {
            self.note("open ", path)?;
        }
        Ok(self.again()?)
    }

    fn open_dir(&self, path: &str) -> io::Result<Recorder> {
        self.note("open_dir ", path)?;
        Ok(self.again()?)
    }

    fn metadata(&self, _path: &str) -> io::Result<Metadata> {
        Err(io::Error::from(ErrorKind::Unsupported))
    }

    fn symlink_metadata(&self, path: &str) -> io::Result<Metadata> {
        self.note("look ", path)?;
        match self.calls.try_borrow() {
            Ok(calls) if calls.is_there => Ok(Metadata::of_file(0)),
            Ok(_) => Err(io::Error::from(ErrorKind::NotFound)),
            Err(_) => Err(io::Error::from(ErrorKind::Other)),
        }
    }

    fn copy(&self, _from: &str, to: &str) -> io::Result<u64> {
        self.note("copy ", to)?;
        Ok(0)
    }

    fn rename(&self, from: &str, to: &str) -> io::Result<()> {
        self.add("rename ", from)?;
        self.note(" ", to)
    }

    fn remove_file(&self, path: &str) -> io::Result<()> {
        self.note("remove ", path)?;
        self.set_there(false)
    }

    fn create_dir(&self, path: &str) -> io::Result<()> {
        self.note("create_dir ", path)
    }

    fn remove_dir(&self, path: &str) -> io::Result<()> {
        self.note("remove_dir ", path)
    }

    fn remove_dir_all<B: Allocator>(&self, _alloc: B, path: &str) -> io::Result<()> {
        self.note("remove_dir_all ", path)
    }
}

// Makes an empty folder, in the one that the tests run in.
fn begin_in(rt: &(impl Files + Alloc), name: &str) -> io::Result<()> {
    let _ = fs::remove_dir_all(rt, name);
    fs::create_dir(rt, name)
}

fn save<F: Folder>(folder: &mut F, name: &str, text: &[u8]) -> Result<(), Failed> {
    let mut out = folder.create(name)?;
    match write_all(&mut out, text) {
        Ok(()) => folder.publish(out, name),
        Err(failed) => {
            folder.abandon(out);
            Err(failed)
        }
    }
}

// Whether a file of this name is there and holds just this text.
fn has<F: Folder>(alloc: Global, folder: &mut F, name: &str, text: &[u8]) -> bool {
    let Ok(Some(mut input)) = folder.load(name) else {
        return false;
    };
    let read = read_all(alloc, &mut input, 1 << 20);
    folder.close(input);
    read.is_ok_and(|bytes| bytes.as_slice() == text)
}

// Whether no file of this name is there.
fn lacks<F: Folder>(folder: &mut F, name: &str) -> bool {
    match folder.load(name) {
        Ok(Some(input)) => {
            folder.close(input);
            false
        }
        Ok(None) => true,
        Err(Failed) => false,
    }
}

// The calls of a save: those of a part that was left, and those of a new one.
const LEFT_CALLS: &str = "look a.img.part
reopen a.img.part
hold
look a.img.part
remove a.img.part
create a.img.part
hold
look a.img.part
write saved
sync
rename a.img.part a.img
";

const NEW_CALLS: &str = "look a.img.part
create a.img.part
hold
look a.img.part
write saved
sync
rename a.img.part a.img
";

// They are made up to the one that fails. Until a new part is held, a failure removes nothing; from
// then on it removes that part.
#[test]
fn a_save_makes_these_calls_in_this_order(rt: HostRuntime) -> Result<(), Fail> {
    for (calls, all, is_left) in [(NEW_CALLS, 7, false), (LEFT_CALLS, 11, true)] {
        for well in 0..=all {
            let files = Recorder::new(rt.alloc(), well, is_left)?;
            let mut folder = CurrentFolder::new(files.again()?, rt.alloc());
            assert_eq!(rt; save(&mut folder, "a.img", b"saved").is_ok(), well == all);
            assert_eq!(rt; folder.faults == 0, well == all);
            let mut lines = String::new(rt.alloc());
            let mut count: u64 = 0;
            for line in calls.lines() {
                if count <= well {
                    lines.push_str(line)?;
                    lines.push_str("\n")?;
                }
                count = count.saturating_add(1);
            }
            assert_eq!(rt; count, all);
            if well.saturating_add(3) >= all && well < all {
                lines.push_str("remove a.img.part\n")?;
            }
            assert!(rt; files.made(&lines), "call {well}");
        }
    }
    Ok(())
}

#[test]
fn an_abandoned_file_is_removed_and_never_renamed(rt: HostRuntime) -> Result<(), Fail> {
    let files = Recorder::new(rt.alloc(), 9, false)?;
    let mut folder = CurrentFolder::new(files.again()?, rt.alloc());
    let begun = folder.create("a.img");
    assert!(rt; begun.is_ok());
    if let Ok(mut out) = begun {
        assert!(rt; write_all(&mut out, b"half").is_ok());
        folder.abandon(out);
    }
    let begun = "look a.img.part\ncreate a.img.part\nhold\nlook a.img.part\n";
    let mut lines = String::from_str(rt.alloc(), begun)?;
    lines.push_str("remove a.img.part\n")?;
    assert!(rt; files.made(&lines));
    Ok(())
}

#[test]
fn a_file_is_opened_to_be_read_and_none_is_created(rt: HostRuntime) -> Result<(), Fail> {
    let files = Recorder::new(rt.alloc(), 9, true)?;
    let mut folder = CurrentFolder::new(files.again()?, rt.alloc());
    assert!(rt; has(rt.alloc(), &mut folder, "a.img", b""));
    assert!(rt; files.made("open a.img\nread\n"));
    Ok(())
}

// A killed run may leave a part behind, longer than the next one.
#[test]
fn a_left_part_is_no_file_and_stops_no_save(rt: HostRuntime) -> Result<(), Fail> {
    begin_in(&rt, "left")?;
    let mut folder = CurrentFolder::new(rt, rt.alloc());
    let begun = folder.create("left/save-1.img");
    assert!(rt; begun.is_ok());
    if let Ok(mut out) = begun {
        // It is dropped, and neither published nor abandoned.
        assert!(rt; write_all(&mut out, b"half of a longer image").is_ok());
    }
    assert!(rt;
        has(
            rt.alloc(),
            &mut folder,
            "left/save-1.img.part",
            b"half of a longer image"
        )
    );
    assert!(rt; lacks(&mut folder, "left/save-1.img"));
    assert!(rt; save(&mut folder, "left/save-1.img", b"saved").is_ok());
    assert!(rt; has(rt.alloc(), &mut folder, "left/save-1.img", b"saved"));
    assert!(rt; lacks(&mut folder, "left/save-1.img.part"));
    fs::remove_dir_all(&rt, "left")?;
    Ok(())
}

// Two runs in one folder: while one writes, the other's save is a fault and changes nothing.
#[test]
fn a_part_that_a_living_run_holds_stops_a_save(rt: HostRuntime) -> Result<(), Fail> {
    begin_in(&rt, "held")?;
    let mut first = CurrentFolder::new(rt, rt.alloc());
    let mut second = CurrentFolder::new(rt, rt.alloc());
    let begun = first.create("held/save-1.img");
    assert!(rt; begun.is_ok());
    if let Ok(mut out) = begun {
        assert!(rt; write_all(&mut out, b"the ").is_ok());
        assert!(rt; save(&mut second, "held/save-1.img", b"of the second").is_err());
        assert_eq!(rt; second.faults, 1);
        assert!(rt; write_all(&mut out, b"first").is_ok());
        assert!(rt; first.publish(out, "held/save-1.img").is_ok());
    }
    assert!(rt; has(rt.alloc(), &mut second, "held/save-1.img", b"the first"));
    // Once it is published, nobody holds the part.
    assert!(rt; save(&mut second, "held/save-1.img", b"of the second").is_ok());
    assert!(rt; has(rt.alloc(), &mut first, "held/save-1.img", b"of the second"));
    assert!(rt; lacks(&mut first, "held/save-1.img.part"));
    assert_eq!(rt; first.faults, 0);
    fs::remove_dir_all(&rt, "held")?;
    Ok(())
}

#[test]
fn no_link_is_followed_to_a_file(rt: HostRuntime) -> Result<(), Fail> {
    begin_in(&rt, "linked")?;
    let mut folder = CurrentFolder::new(rt, rt.alloc());
    assert!(rt; save(&mut folder, "linked/kept", b"kept").is_ok());
    symlink(&rt, "kept", "linked/there.part")?;
    symlink(&rt, "missing", "linked/nowhere.part")?;
    symlink(&rt, "/dev/full", "linked/full.part")?;
    let names = ["linked/there", "linked/nowhere", "linked/full"];
    for name in names {
        assert!(rt; save(&mut folder, name, b"saved").is_err());
        assert!(rt; lacks(&mut folder, name));
    }
    assert_eq!(rt; folder.faults, 3);
    assert!(rt; has(rt.alloc(), &mut folder, "linked/kept", b"kept"));
    assert!(rt; lacks(&mut folder, "linked/missing"));
    for link in [
        "linked/there.part",
        "linked/nowhere.part",
        "linked/full.part",
    ] {
        assert!(rt; fs::symlink_metadata(&rt, link)?.is_symlink());
    }
    fs::remove_dir_all(&rt, "linked")?;
    Ok(())
}

#[test]
fn a_published_file_is_loaded_again(rt: HostRuntime) -> Result<(), Fail> {
    begin_in(&rt, "published")?;
    let mut folder = CurrentFolder::new(rt, rt.alloc());
    let long = vec![in rt.alloc(); b'x'; 3 * ROOM]?;
    let cases: [(&str, &[u8]); 4] = [
        ("published/save-1.img", b"saved"),
        ("published/save-2.img", b""),
        ("published/save-1.img", b"saved again"),
        ("published/save-3.img", &long),
    ];
    for (name, text) in cases {
        assert!(rt; save(&mut folder, name, text).is_ok());
        assert!(rt; has(rt.alloc(), &mut folder, name, text));
    }
    for name in ["published/save-1.img.part", "published/save-4.img"] {
        assert!(rt; lacks(&mut folder, name));
    }
    assert_eq!(rt; folder.faults, 0);
    fs::remove_dir_all(&rt, "published")?;
    Ok(())
}

#[test]
fn an_abandoned_file_leaves_no_name(rt: HostRuntime) -> Result<(), Fail> {
    begin_in(&rt, "abandoned")?;
    let mut folder = CurrentFolder::new(rt, rt.alloc());
    let begun = folder.create("abandoned/save-1.img");
    assert!(rt; begun.is_ok());
    if let Ok(mut out) = begun {
        assert!(rt; write_all(&mut out, b"half").is_ok());
        folder.abandon(out);
    }
    // Only an empty folder is removed so.
    fs::remove_dir(&rt, "abandoned")?;
    assert_eq!(rt; folder.faults, 0);
    Ok(())
}

#[test]
fn a_file_that_cannot_be_saved_is_a_counted_fault(rt: HostRuntime) -> Result<(), Fail> {
    begin_in(&rt, "refused")?;
    fs::create_dir(&rt, "refused/taken")?;
    fs::create_dir(&rt, "refused/begun.part")?;
    let cases: [(&str, &[u8]); 4] = [
        ("missing/save-1.img", b"saved"),
        ("refused/save-\0.img", b"saved"),
        ("refused/taken", b"saved"),
        ("refused/begun", b"saved"),
    ];
    for (name, text) in cases {
        let mut folder = CurrentFolder::new(rt, rt.alloc());
        assert!(rt; save(&mut folder, name, text).is_err());
        assert_eq!(rt; folder.faults, 1);
    }
    fs::remove_dir(&rt, "refused/begun.part")?;
    fs::remove_dir(&rt, "refused/taken")?;
    fs::remove_dir(&rt, "refused")?;
    Ok(())
}

#[test]
fn a_folder_under_the_name_is_a_fault_of_the_file(rt: HostRuntime) -> Result<(), Fail> {
    begin_in(&rt, "folder")?;
    let mut folder = CurrentFolder::new(rt, rt.alloc());
    let opened = folder.load("folder");
    assert!(rt; matches!(opened, Ok(Some(_))));
    assert_eq!(rt; folder.faults, 0);
    if let Ok(Some(mut input)) = opened {
        assert!(rt; input.read(&mut [0; 8]).is_err());
        folder.close(input);
    }
    assert_eq!(rt; folder.faults, 1);
    fs::remove_dir(&rt, "folder")?;
    Ok(())
}
