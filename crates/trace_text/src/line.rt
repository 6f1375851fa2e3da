//! The lines of a script, without their line feeds: one function for each kind of fields.
ghost use Rattle.std.specs.Prelude.{◌≡◌, ◌↔◌, IfOk, IsTrue, Some, None};
ghost use Rattle.trace_events.specs.EventBounds.{IsWithinBounds};
ghost use Rattle.trace_text.specs.ScriptReading.{spelled_area, copy_event, drop_event, event_of, fill_event, fork_event, is_within, lone_event, map_event, only_if, protect_event, read_event, refuse_event, snap_read_event, snapshot_event, unmap_event, word_event, write_event};

use crate::number::{byte, count, number};
use crate::tokens::{bytes_of, mode, page_at, parts_at, permission, range};
use std::alloc::Global;
use trace_events::Event;
use vm_base::{NoMemory, Perm};

/// The event of a line, if its fields lie within their bounds.
#[tactic(auto, unfolding(crate::specs::ScriptReading::event_of))]
pub(crate) fn event_of(alloc: Global, line: &[u8]) -> Result<Option<Event>, NoMemory>
    ensures { IfOk result (λ event. event ≡ event_of line.now) }
{
    let event = match parts_at(line, b' ') {
        Some((word, fields)) => word_event(alloc, word, fields)?,
        None => lone_event(line),
    };
    match event {
        Some(event) => Ok(if_within_bounds(event)),
        None => Ok(None),
    }
}

// Of the modes, those that may fork are within the bounds.
fn if_within_bounds(event: Event) -> Option<Event>
    ensures { result ≡ only_if (is_within event) event }
{
    event.is_within_bounds().then_some(event)
}

// The table of first words.
#[tactic(auto, unfolding(crate::specs::ScriptReading::word_event))]
fn word_event(alloc: Global, word: &[u8], fields: &[u8]) -> Result<Option<Event>, NoMemory>
    ensures { IfOk result (λ event. event ≡ word_event word.now fields.now) }
{
    if word == b"map".as_slice() {
        Ok(map_event(fields))
    } else if word == b"unmap".as_slice() {
        Ok(unmap_event(fields))
    } else if word == b"protect".as_slice() {
        Ok(protect_event(fields))
    } else if word == b"read".as_slice() {
        Ok(read_event(fields))
    } else if word == b"write".as_slice() {
        write_event(alloc, fields)
    } else if word == b"fill".as_slice() {
        Ok(fill_event(fields))
    } else if word == b"refuse".as_slice() {
        Ok(refuse_event(fields))
    } else {
        Ok(snapshot_event(word, fields))
    }
}

// The first words that name a snapshot.
#[tactic(auto, unfolding(crate::specs::ScriptReading::snapshot_event))]
fn snapshot_event(word: &[u8], fields: &[u8]) -> Option<Event>
    ensures { result ≡ snapshot_event word.now fields.now }
{
    if word == b"fork".as_slice() {
        fork_event(fields)
    } else if word == b"copy".as_slice() {
        copy_event(fields)
    } else if word == b"drop".as_slice() {
        drop_event(fields)
    } else if word == b"sread".as_slice() {
        snap_read_event(fields)
    } else {
        None
    }
}

#[tactic(auto, unfolding(crate::specs::ScriptReading::lone_event))]
fn lone_event(line: &[u8]) -> Option<Event>
    ensures { result ≡ lone_event line.now }
{
    if line == b"frames".as_slice() {
        Some(Event::Frames)
    } else if line == b"areas".as_slice() {
        Some(Event::ListAreas)
    } else {
        None
    }
}

#[tactic(auto, unfolding(crate::specs::ScriptReading::spelled_area))]
fn area(fields: &[u8]) -> Option<(u64, u64, Perm)>
    ensures { result ≡ spelled_area fields.now }
{
    let (address, others) = parts_at(fields, b' ')?;
    let (pages, perm) = parts_at(others, b' ')?;
    let first = page_at(address)?;
    let pages = number(pages, 10)?;
    let perm = permission(perm)?;
    Some((first, pages, perm))
}

#[tactic(auto, unfolding(crate::specs::ScriptReading::map_event))]
fn map_event(fields: &[u8]) -> Option<Event>
    ensures { result ≡ map_event fields.now }
{
    let (first, pages, perm) = area(fields)?;
    Some(Event::Map { first, pages, perm })
}

#[tactic(auto, unfolding(crate::specs::ScriptReading::protect_event))]
fn protect_event(fields: &[u8]) -> Option<Event>
    ensures { result ≡ protect_event fields.now }
{
    let (first, pages, perm) = area(fields)?;
    Some(Event::Protect { first, pages, perm })
}

#[tactic(auto, unfolding(crate::specs::ScriptReading::unmap_event))]
fn unmap_event(fields: &[u8]) -> Option<Event>
    ensures { result ≡ unmap_event fields.now }
{
    let (address, pages) = parts_at(fields, b' ')?;
    let first = page_at(address)?;
    let pages = number(pages, 10)?;
    Some(Event::Unmap { first, pages })
}

#[tactic(auto, unfolding(crate::specs::ScriptReading::read_event))]
fn read_event(fields: &[u8]) -> Option<Event>
    ensures { result ≡ read_event fields.now }
{
    let (addr, len) = range(fields)?;
    Some(Event::Read { addr, len })
}

#[tactic(auto, unfolding(crate::specs::ScriptReading::write_event))]
fn write_event(alloc: Global, fields: &[u8]) -> Result<Option<Event>, NoMemory>
    ensures { IfOk result (λ event. event ≡ write_event fields.now) }
{
    let Some((address, digits)) = parts_at(fields, b' ') else {
        return Ok(None);
    };
    let Some(addr) = number(address, 16) else {
        return Ok(None);
    };
    let Some(bytes) = bytes_of(alloc, digits)? else {
        return Ok(None);
    };
    Ok(Some(Event::Write { addr, bytes }))
}

#[tactic(auto, unfolding(crate::specs::ScriptReading::fill_event))]
fn fill_event(fields: &[u8]) -> Option<Event>
    ensures { result ≡ fill_event fields.now }
{
    let (address, others) = parts_at(fields, b' ')?;
    let (len, digits) = parts_at(others, b' ')?;
    let addr = number(address, 16)?;
    let len = count(len)?;
    let byte = byte(digits)?;
    Some(Event::Fill { addr, len, byte })
}

#[tactic(auto, unfolding(crate::specs::ScriptReading::fork_event))]
fn fork_event(fields: &[u8]) -> Option<Event>
    ensures { result ≡ fork_event fields.now }
{
    let (number, mode_name) = parts_at(fields, b' ')?;
    let number = count(number)?;
    let mode = mode(mode_name)?;
    Some(Event::Fork { number, mode })
}

#[tactic(auto, unfolding(crate::specs::ScriptReading::copy_event))]
fn copy_event(fields: &[u8]) -> Option<Event>
    ensures { result ≡ copy_event fields.now }
{
    let (number, cell) = parts_at(fields, b' ')?;
    let number = count(number)?;
    let cell = count(cell)?;
    Some(Event::Copy { number, cell })
}

#[tactic(auto, unfolding(crate::specs::ScriptReading::drop_event))]
fn drop_event(fields: &[u8]) -> Option<Event>
    ensures { result ≡ drop_event fields.now }
{
    let number = count(fields)?;
    Some(Event::Drop { number })
}

#[tactic(auto, unfolding(crate::specs::ScriptReading::snap_read_event))]
fn snap_read_event(fields: &[u8]) -> Option<Event>
    ensures { result ≡ snap_read_event fields.now }
{
    let (number, fields) = parts_at(fields, b' ')?;
    let number = count(number)?;
    let (addr, len) = range(fields)?;
    Some(Event::SnapRead { number, addr, len })
}

#[tactic(auto, unfolding(crate::specs::ScriptReading::refuse_event))]
fn refuse_event(fields: &[u8]) -> Option<Event>
    ensures { result ≡ refuse_event fields.now }
{
    let nth = count(fields)?;
    Some(Event::Refuse { nth })
}
