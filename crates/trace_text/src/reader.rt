//! The reader of scripts.
ghost use Rattle.std.specs.Prelude.{◌≡◌, ◌∷◌, ◌+◌, ◌<◌, ◌^◌, length, None, IfOk, IfErr, IsSome, ok_or};
ghost use Rattle.trace_events.specs.declared.event.Event.{Event};
ghost use Rattle.trace_events.specs.EventBounds.{fork_number};
ghost use Rattle.trace_text.specs.ScriptGrammar.{IsScript, is_skipped, lines_of};
ghost use Rattle.trace_text.specs.SoFar.{GivesFound, RefusesText, ended, is_above, line_taken, next_event, no_lines_read, script_parts, script_of, so_far, with_kept_line};
ghost use Rattle.trace_text.specs.ScriptReading.{only_if};

use crate::fault::ScriptFault;
use crate::line::event_of;
use crate::machine::{Machine, machine_of};
use crate::script::Script;
use crate::tokens::parts_at;
use std::alloc::Global;
use trace_events::Event;
use vm_base::NoMemory;

/// The script that the text spells, all of the text.
pub fn read_script(alloc: Global, text: &[u8]) -> Result<Script, ScriptFault>
    ensures found { IfOk result (λ script. IsScript text.now (script_parts script)) }
    ensures refused { IfErr result (λ fault. RefusesText text.now fault) }
{
    script_of(alloc, text)
}

#[tactic(auto, unfolding(crate::specs::SoFar::script_of))]
fn script_of(alloc: Global, text: &[u8]) -> Result<Script, ScriptFault>
    ensures { GivesFound script_parts result (script_of text.now) }
{
    let mut reading = Reading::new(alloc);
    let mut rest = text;
    let mut at = 1;
    while !rest.is_empty() {
        let (line, after) = first_line(rest);
        reading.take_line(alloc, at, line)?;
        rest = after;
        at += 1;
    }
    reading.end(at)
}

// The first line of a text that has a byte, and what stands behind its line feed.
fn first_line(text: &[u8]) -> (&[u8], &[u8])
    requires { 0 < length text.now }
    ensures lines { lines_of text.now ≡ result.0.now ∷ lines_of result.1.now }
    ensures shorter { length result.1.now < length text.now }
{
    match parts_at(text, b'\n') {
        Some(parts) => parts,
        None => (text, &[]),
    }
}

fn is_skipped(line: &[u8]) -> bool
    ensures { result ≡ is_skipped line.now }
{
    matches!(line, [] | [b'#', ..])
}

// What was read of a script.
#[derive(Drop)]
struct Reading {
    machine: Option<Machine>,
    events: Vec<Event>,
    // The number of the last fork, 0 before the first.
    last_fork: u32,
}

impl Reading {
    fn new(alloc: Global) -> Reading
        ensures { so_far result ≡ no_lines_read }
    {
        Reading {
            machine: None,
            events: Vec::new(alloc),
            last_fork: 0,
        }
    }

    // Takes a line, which has the number `at`.
    #[tactic(auto, unfolding(crate::specs::SoFar::line_taken))]
    fn take_line(&mut self, alloc: Global, at: u64, line: &[u8]) -> Result<(), ScriptFault>
        ensures { GivesFound (λ _. so_far self.new) result
            (line_taken at (so_far self.old) line.now) }
    {
        if is_skipped(line) {
            return Ok(());
        }
        match self.machine {
            None => self.take_machine(at, line),
            Some(_) => self.take_event(alloc, at, line),
        }
    }

    fn take_machine(&mut self, at: u64, line: &[u8]) -> Result<(), ScriptFault>
        ensures { GivesFound (λ _. so_far self.new) result (ok_or (with_kept_line (so_far self.old) line.now None) at) }
    {
        let Some(machine) = machine_of(line) else {
            return Err(ScriptFault::Bad { line: at });
        };
        self.machine = Some(machine);
        Ok(())
    }

    fn take_event(&mut self, alloc: Global, at: u64, line: &[u8]) -> Result<(), ScriptFault>
        requires { IsSome self.old.machine }
        ensures { GivesFound (λ _. so_far self.new) result
            (ok_or (with_kept_line (so_far self.old) line.now self.old.machine) at) }
    {
        let Some(event) = next_event(alloc, self.last_fork, line)? else {
            return Err(ScriptFault::Bad { line: at });
        };
        self.last_fork = fork_number(&event).unwrap_or(self.last_fork);
        self.events.push(event)?;
        Ok(())
    }

    // Ends behind the last line, where a line of the number `at` would come.
    fn end(self, at: u64) -> Result<Script, ScriptFault>
        ensures { GivesFound script_parts result (ended at (so_far self)) }
    {
        match self.machine {
            Some(machine) => Ok(Script::new(machine, self.events)),
            None => Err(ScriptFault::Bad { line: at }),
        }
    }
}

// The event of a line that comes behind a fork of the number `last`.
#[tactic(auto, unfolding(crate::specs::SoFar::next_event))]
fn next_event(alloc: Global, last: u32, line: &[u8]) -> Result<Option<Event>, NoMemory>
    ensures { IfOk result (λ event. event ≡ next_event last line.now) }
{
    match event_of(alloc, line)? {
        Some(event) => Ok(if_above(last, event)),
        None => Ok(None),
    }
}

fn if_above(last: u32, event: Event) -> Option<Event>
    ensures { result ≡ only_if (is_above last (fork_number event)) event }
{
    match fork_number(&event) {
        Some(number) if number <= last => None,
        _ => Some(event),
    }
}

fn fork_number(event: &Event) -> Option<u32>
    ensures { result ≡ fork_number event.now }
{
    match event {
        Event::Fork { number, .. } => Some(*number),
        _ => None,
    }
}
