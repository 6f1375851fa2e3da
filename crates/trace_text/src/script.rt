//! A script that was read.
ghost use Rattle.std.specs.Prelude.{◌≡◌, ◌<◌, length, get_or};
ghost use Rattle.trace_text.specs.SoFar.{script_parts, said};

use crate::machine::Machine;
use trace_events::Event;

/// A script: the frames and the slots of its machine, and its events in order.
#[derive(Debug, Drop)]
pub struct Script {
    machine: Machine,
    events: Vec<Event>,
}

impl Script {
    pub(crate) fn new(machine: Machine, events: Vec<Event>) -> Script
        ensures { script_parts result ≡ said machine events.items }
    {
        Script { machine, events }
    }

    /// The frames of the machine.
    pub fn frames(&self) -> u32
        ensures { result ≡ (script_parts self.now).frames }
    {
        self.machine.frames
    }

    /// The slots for cells.
    pub fn cells(&self) -> u32
        ensures { result ≡ (script_parts self.now).cells }
    {
        self.machine.cells
    }

    /// The number of events.
    pub fn len(&self) -> usize
        ensures { result ≡ length (script_parts self.now).events }
    {
        self.events.len()
    }

    /// The event at a place, counted from 0.
    pub fn event(&self, place: usize) -> &Event
        requires { place < length (script_parts self.now).events }
        ensures { result.now ≡ get_or (script_parts self.now).events place result.now }
    {
        &self.events[place]
    }
}
