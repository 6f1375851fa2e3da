//! A folder in memory, whose calls fail where its maker says.
ghost use Rattle.std.specs.Prelude.{length, replicate, ◌+◌, ◌≡◌, ◌<◌, ◌≤◌, ◌↔◌, [], ◌∷◌, None, Some, IfOk, IfSome, OnOk, OnErr, IsErr, reverse, map, vec_len, option_copied};
ghost use Rattle.std.specs.Option.{option_map};
ghost use Rattle.std.specs.String.{string_bytes, string_capacity};
ghost use Rattle.std.specs.FinMap.{from_entries};
ghost use Rattle.io_face.specs.Faults.{Rose};
ghost use Rattle.io_face.specs.Folder.{Loads, Publishes};
ghost use Rattle.std.specs.VecDeque.{deque_len, deque_capacity};
ghost use Rattle.io_face.specs.Memory.{text_of, file_entry, opened, IsLoaded, longest, empty_record, IsLoadRefused, IsCreateRefused, IsPublishRefused, after_refusal, after_load, after_create, after_publish, after_close, after_abandon};

use crate::calls::Calls;
use crate::failed::Failed;
use crate::folder::Folder;
use crate::mem_sink::MemSink;
use crate::mem_source::MemSource;
use std::alloc::{AllocError, Global};
use std::collections::VecDeque;
use std::marker::Model;
use vm_base::NoMemory;

/// How many files a folder in memory makes in its life.
const FILES: usize = 32;

/// The longest name of a file that is created or published, in bytes.
const LONGEST_NAME: usize = 64;

// A file and its name.
#[derive(Debug, Drop)]
struct Entry {
    name: String,
    text: Vec<u8>,
}

impl Model for Entry {
    ghost use Rattle.std.specs.Prelude.{length, List, ℕ};
    ghost use Rattle.std.specs.String.{string_bytes};

    ghost Value = { List ℕ × List ℕ };

    ghost view = { λ e. (string_bytes e.name, e.text.items) };
}

// Room for a name to come.
#[derive(Debug, Drop)]
struct NameRoom {
    text: String,
    ghost empty: { string_bytes text ≡ [] },
    ghost wide: { 64 ≤ string_capacity text },
}

impl NameRoom {
    fn new(alloc: Global) -> Result<Self, NoMemory> {
        Ok(NameRoom {
            text: String::with_capacity(alloc, LONGEST_NAME)?,
        })
    }

    // Moves the name in.
    fn filled(self, name: &str) -> String
        requires { length name.now ≤ 64 }
        ensures { string_bytes result ≡ name.now }
    {
        let NameRoom { mut text } = self;
        text.push_str(name).unwrap();
        text
    }
}

/// A folder whose files lie in memory. All memory that its calls need is taken when it is made.
#[derive(Debug, Drop)]
pub struct MemFolder {
    // The newest first.
    files: VecDeque<Entry>,
    // For the files to come.
    names: Vec<NameRoom>,
    sinks: Vec<MemSink>,
    room: usize,
    // Into which a file is copied when it is loaded, while none is out.
    buffer: Option<Vec<u8>>,
    alloc: Global,
    calls: Calls,
}

impl Model for MemFolder {
    ghost use Rattle.std.specs.Prelude.{length, ◌≡◌, ◌+◌, ◌≤◌, vec_len, vec_capacity, replicate};
    ghost use Rattle.std.specs.Option.{option_map};
    ghost use Rattle.std.specs.VecDeque.{deque_len, deque_capacity};
    ghost use Rattle.io_face.specs.Memory.{Shelf, empty_record};

    ghost Value = { Shelf };

    ghost view = { λ f. record {
      entries = f.files.items;
      creates = vec_len f.sinks;
      publishes = vec_len f.names;
      buffer = option_map vec_capacity f.buffer;
      room = f.room;
      calls = f.calls;
    } };

    ghost invariant = { λ f. (deque_len f.files + vec_len f.names ≤ deque_capacity f.files)
        × (f.sinks.items ≡ replicate (vec_len f.sinks) (empty_record f.room)) };
}

impl MemFolder {
    /// A folder of these files; where a name stands twice, the later file counts. Each file that is
    /// created later can hold `room` bytes, and there may be 32 of them. `fails` has the numbers of
    /// the calls that fail, counted from 1 over `load`, `create` and `publish`.
    pub fn new(
        alloc: Global,
        files: Vec<(String, Vec<u8>)>,
        room: usize,
        fails: Vec<u64>,
    ) -> Result<Self, NoMemory>
        ensures { IfOk result
            (λ folder. folder ≡ opened (map file_entry files.items) room fails.items) }
    {
        let files = newest_first(alloc, files)?;
        let buffer = Vec::with_capacity(alloc, longest(&files, room))?;
        Ok(MemFolder {
            files,
            names: empty_names(alloc)?,
            sinks: empty_sinks(alloc, room)?,
            room,
            buffer: Some(buffer),
            alloc,
            calls: Calls::new(fails),
        })
    }

    /// The bytes of the file of this name.
    pub fn file(&self, name: &str) -> Option<&[u8]>
        ensures { option_copied result ≡ text_of self.now.entries name.now }
    {
        find(&self.files, name)
    }

    /// How many calls failed, with the faults of the files that were taken back.
    pub fn faults(&self) -> u64
        ensures { result ≡ self.now.calls.faults }
    {
        self.calls.faults()
    }
}

// The bytes of the newest file of this name.
fn find<'a>(files: &'a VecDeque<Entry>, name: &str) -> Option<&'a [u8]>
    ensures { option_copied result ≡ text_of files.now.items name.now }
{
    for entry in files {
        if entry.name.as_str() == name {
            return Some(&entry.text);
        }
    }
    None
}

// The files in reverse order, with places for those to come.
fn newest_first(
    alloc: Global,
    mut files: Vec<(String, Vec<u8>)>,
) -> Result<VecDeque<Entry>, NoMemory>
    ensures items { IfOk result (λ q. q.items ≡ reverse (map file_entry files.items)) }
    ensures places { IfOk result (λ q. deque_len q + 32 ≤ deque_capacity q) }
{
    let mut entries = VecDeque::with_capacity(alloc, files.len() + FILES)?;
    while let Some((name, text)) = files.pop() {
        entries.push_back_reserved(Entry { name, text });
    }
    Ok(entries)
}

// The length of the longest file, and at least the room.
fn longest(files: &VecDeque<Entry>, room: usize) -> usize
    ensures { result ≡ longest room files.now.items }
{
    let mut most = room;
    for entry in files {
        most = most.max(entry.text.len());
    }
    most
}

// Room for each name to come.
fn empty_names(alloc: Global) -> Result<Vec<NameRoom>, NoMemory>
    ensures { IfOk result (λ names. vec_len names ≡ 32) }
{
    let mut names = Vec::with_capacity(alloc, FILES)?;
    while names.len() < FILES {
        names.push(NameRoom::new(alloc)?)?;
    }
    Ok(names)
}

// A sink for each file to come.
fn empty_sinks(alloc: Global, room: usize) -> Result<Vec<MemSink>, NoMemory>
    ensures count { IfOk result (λ sinks. vec_len sinks ≡ 32) }
    ensures empty { IfOk result
        (λ sinks. sinks.items ≡ replicate (vec_len sinks) (empty_record room)) }
{
    let mut sinks = Vec::with_capacity(alloc, FILES)?;
    while sinks.len() < FILES {
        sinks.push(MemSink::new(alloc, room, Vec::new(alloc))?)?;
    }
    Ok(sinks)
}

impl Folder for MemFolder {
    type In = MemSource;

    type Out = MemSink;

    ghost faults = { λ f. f.calls.faults };

    ghost files = { λ f. Some (from_entries f.entries) };

    fn load(&mut self, name: &str) -> Result<Option<MemSource>, Failed>
        ensures found { IfOk result
            (λ found. option_map (λ input. input.left) found ≡ text_of self.old.entries name.now) }
        ensures fresh { IfOk result (λ found. IfSome found (λ input. input.calls.faults ≡ 0)) }
        ensures loaded { IfOk result
            (λ found. IfSome found (λ input. IsLoaded self.old.buffer input)) }
        ensures ok { OnOk result (self.new ≡ after_load self.old name.now) }
        ensures refused { IsErr result ↔ IsLoadRefused self.old name.now }
        ensures err { OnErr result (self.new ≡ after_refusal self.old) }
        ensures faults { self.old.calls.faults ≤ self.new.calls.faults }
    {
        if self.calls.begin() {
            return Err(self.calls.fault());
        }
        let Some(mut buffer) = self.buffer.take() else {
            return Err(self.calls.fault());
        };
        let Some(text) = find(&self.files, name) else {
            self.buffer = Some(buffer);
            return Ok(None);
        };
        if buffer.capacity() < text.len() {
            self.buffer = Some(buffer);
            return Err(self.calls.fault());
        }
        buffer.clear();
        buffer.extend_from_slice(text).unwrap();
        let no_fails = Vec::new(self.alloc);
        Ok(Some(MemSource::new(buffer, Vec::new(self.alloc), no_fails)))
    }

    fn create(&mut self, name: &str) -> Result<MemSink, Failed>
        ensures created { IfOk result (λ out. out ≡ empty_record self.old.room) }
        ensures ok { OnOk result (self.new ≡ after_create self.old) }
        ensures refused { IsErr result ↔ IsCreateRefused self.old name.now }
        ensures err { OnErr result (self.new ≡ after_refusal self.old) }
        ensures faults { self.old.calls.faults ≤ self.new.calls.faults }
    {
        if self.calls.begin() || name.len() > LONGEST_NAME {
            return Err(self.calls.fault());
        }
        match self.sinks.pop() {
            Some(sink) => Ok(sink),
            None => Err(self.calls.fault()),
        }
    }

    fn publish(&mut self, out: MemSink, name: &str) -> Result<(), Failed>
        ensures ok { OnOk result (self.new ≡ after_publish self.old name.now out.written) }
        ensures refused { IsErr result ↔ IsPublishRefused self.old name.now }
        ensures err { OnErr result (self.new ≡ after_refusal self.old) }
        ensures faults { self.old.calls.faults ≤ self.new.calls.faults }
    {
        if self.calls.begin() || name.len() > LONGEST_NAME {
            return Err(self.calls.fault());
        }
        let Some(place) = self.names.pop() else {
            return Err(self.calls.fault());
        };
        let name = place.filled(name);
        let text = out.into_text();
        self.files.push_front_reserved(Entry { name, text });
        Ok(())
    }

    fn close(&mut self, input: MemSource)
        ensures after { self.new ≡ after_close self.old input }
        ensures faults { self.old.calls.faults ≤ self.new.calls.faults }
    {
        if input.faults() > 0 {
            let _ = self.calls.fault();
        }
        if self.buffer.is_none() {
            self.buffer = Some(input.into_bytes());
        }
    }

    fn abandon(&mut self, out: MemSink)
        ensures after { self.new ≡ after_abandon self.old out }
        ensures faults { self.old.calls.faults ≤ self.new.calls.faults }
    {
        if out.faults() > 0 {
            let _ = self.calls.fault();
        }
    }
}
