//! A request: a list of words in one buffer.
ghost use Rattle.std.specs.Prelude.{◌≡◌, ◌<◌, [], ◌∷◌, ◌++◌, ◌==◌, length, slice_index_or, OnOk, OnErr, IfOk};
ghost use Rattle.resp_text.specs.Words.{words_at, AreWithin};

use std::alloc::Global;
use std::marker::Model;
use vm_base::NoMemory;

/// Where a word lies in a buffer: its first byte, and the one behind its last.
#[derive(Clone, Copy, Debug)]
pub(crate) struct Span {
    pub(crate) start: usize,
    pub(crate) end: usize,
}

/// A list of words, and contracts see it as that list of lists of bytes.
#[derive(Debug, Drop)]
pub struct Request {
    /// The words with whatever stands between them.
    bytes: Vec<u8>,
    words: Vec<Span>,
}

impl Model for Request {
    ghost use Rattle.std.specs.Prelude.{List, ℕ, length};
    ghost use Rattle.resp_text.specs.Words.{words_at, AreWithin};

    ghost Value = { List (List ℕ) };

    ghost view = { λ r. words_at r.bytes.items r.words.items };

    ghost invariant = { λ r. AreWithin r.words.items (length r.bytes.items) };
}

impl Request {
    /// A request without words, which takes no memory yet.
    pub fn new(alloc: Global) -> Self
        ensures { result ≡ [] }
    {
        Request {
            bytes: Vec::new(alloc),
            words: Vec::new(alloc),
        }
    }

    /// A request without words, with room for so many words of so many bytes together.
    pub(crate) fn with_room(alloc: Global, words: usize, bytes: usize) -> Result<Self, NoMemory>
        ensures { IfOk result (λ request. request ≡ []) }
    {
        Ok(Request {
            bytes: Vec::with_capacity(alloc, bytes)?,
            words: Vec::with_capacity(alloc, words)?,
        })
    }

    /// Makes it the request whose words stand at these places of a text, whatever it was: one copy
    /// of the text, into room that fits it exactly where there was less.
    pub(crate) fn fill(&mut self, text: &[u8], spans: &[Span]) -> Result<(), NoMemory>
        requires { AreWithin spans.now (length text.now) }
        ensures { OnOk result (self.new ≡ words_at text.now spans.now) }
    {
        self.words.clear();
        self.bytes.clear();
        self.bytes.reserve_exact(text.len())?;
        self.words.reserve_exact(spans.len())?;
        self.bytes.extend_from_slice(text)?;
        self.words.extend_from_slice(spans)?;
        Ok(())
    }

    /// Adds a last word. After `NoMemory` the request is as it was.
    pub fn add(&mut self, word: &[u8]) -> Result<(), NoMemory>
        ensures added { OnOk result (self.new ≡ self.old ++ word.now ∷ []) }
        ensures no_memory { OnErr result (self.new ≡ self.old) }
    {
        self.words.reserve(1)?;
        let start = self.bytes.len();
        self.bytes.extend_from_slice(word)?;
        let end = self.bytes.len();
        self.words.push_reserved(Span { start, end });
        Ok(())
    }

    /// How many words there are.
    pub fn len(&self) -> usize
        ensures { result ≡ length self.now }
    {
        self.words.len()
    }

    pub fn is_empty(&self) -> bool
        ensures { result ≡ (length self.now == 0) }
    {
        self.words.is_empty()
    }

    /// The word at a place, counted from 0.
    pub fn word(&self, i: usize) -> &[u8]
        requires { i < length self.now }
        ensures { result.now ≡ slice_index_or self.now i [] }
    {
        word_at(&self.bytes, &self.words, i)
    }

    /// Whether it has room for at most so many bytes, and for at most so many words.
    pub(crate) fn has_room_within(&self, count: usize) -> bool {
        self.bytes.capacity() <= count && self.words.capacity() <= count
    }
}

/// The word at a place, of those at these places of a buffer.
fn word_at<'a>(bytes: &'a [u8], words: &[Span], i: usize) -> &'a [u8]
    requires spans { AreWithin words.now (length bytes.now) }
    requires within { i < length words.now }
    ensures { result.now ≡ slice_index_or (words_at bytes.now words.now) i [] }
{
    let span = words[i];
    &bytes[span.start..span.end]
}
