//! The requests that are whole and wait to be taken.
ghost use Rattle.std.specs.Prelude.{◌≡◌, ◌∷◌, ◌++◌, [], take, length, IsNone, OnOk, OnErr, IfOk, ◌↔◌, option_to_list};
ghost use Rattle.resp_text.specs.Fronts.{TakesFront};

use crate::front::front_request;
use crate::request::{Request, Span};
use std::alloc::Global;
use std::collections::VecDeque;
use std::marker::Model;
use vm_base::NoMemory;

/// How many requests are kept at most to be used again.
const MOST_SPARE: usize = 512;
/// The most bytes, and the most words, whose room is kept with such a request.
const SMALL: usize = 256;

/// The requests that wait, with the room of those that were handed back. Contracts see those that
/// wait.
#[derive(Debug, Drop)]
pub(crate) struct Queue {
    alloc: Global,
    waiting: VecDeque<Request>,
    /// Requests that were handed back, whatever their words: the next ones take their room.
    spare: Vec<Request>,
    /// The places of the words of the request that is being read.
    spans: Vec<Span>,
}

impl Model for Queue {
    ghost use Rattle.std.specs.Prelude.{List, ℕ};

    ghost Value = { List (List (List ℕ)) };

    ghost view = { λ q. q.waiting.items };
}

impl Queue {
    /// No requests. It takes no memory yet.
    pub(crate) fn new(alloc: Global) -> Self
        ensures { result ≡ [] }
    {
        Queue {
            alloc,
            waiting: VecDeque::new(alloc),
            spare: Vec::new(alloc),
            spans: Vec::new(alloc),
        }
    }

    /// Adds the request at the front of a text, where a whole one stands there, and tells how many
    /// bytes it has. `None` says nothing of the text.
    pub(crate) fn push_front_of(&mut self, text: &[u8]) -> Result<Option<usize>, NoMemory>
        ensures added { IfOk result (TakesFront self.old self.new text.now) }
        ensures no_memory { OnErr result (self.new ≡ self.old) }
    {
        let Some(taken) = front_request(text, &mut self.spans)? else {
            return Ok(None);
        };
        let (text, _) = text.split_at(taken);
        let mut request = match self.spare.pop() {
            Some(request) => request,
            None => Request::new(self.alloc),
        };
        request.fill(text, &self.spans)?;
        self.waiting.push_back(request)?;
        Ok(Some(taken))
    }

    /// Adds a last request.
    pub(crate) fn push(&mut self, request: Request) -> Result<(), NoMemory>
        ensures added { OnOk result (self.new ≡ self.old ++ request ∷ []) }
        ensures no_memory { OnErr result (self.new ≡ self.old) }
    {
        self.waiting.push_back(request)?;
        Ok(())
    }

    /// Takes the first request out.
    pub(crate) fn pop(&mut self) -> Option<Request>
        ensures first { self.old ≡ option_to_list result ++ self.new }
        ensures none { IsNone result ↔ (self.old ≡ []) }
    {
        self.waiting.pop_front()
    }

    /// Keeps a small request, so that the next one takes its room. Any other is let go, and so is
    /// one for which there is no place.
    pub(crate) fn give_back(&mut self, request: Request)
        ensures { self.new ≡ self.old }
    {
        if self.spare.len() < MOST_SPARE && request.has_room_within(SMALL) {
            let kept = self.spare.push(request);
            drop(kept);
        }
    }

    /// How many requests wait.
    pub(crate) fn len(&self) -> usize
        ensures { result ≡ length self.now }
    {
        self.waiting.len()
    }

    /// Keeps so many first requests.
    pub(crate) fn truncate(&mut self, count: usize)
        ensures { self.new ≡ take count self.old }
    {
        self.waiting.truncate(count);
    }
}
