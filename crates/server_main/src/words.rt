//! The words that the program was called with.
ghost use Rattle.std.specs.Prelude.{◌≤◌};

use std::alloc::Global;
use std::env::FillError;
use std::rt::Env;
use vm_base::{Bytes, NoMemory};

/// Room for a word, in bytes, before it has to grow.
const ROOM: usize = 4096;

/// All words behind the program's name, byte for byte.
pub fn command_words(rt: &impl Env, alloc: Global) -> Result<Vec<Bytes>, NoMemory> {
    let mut words = Vec::new(alloc);
    let mut room = vec![in alloc; 0; ROOM]?;
    for place in 1..usize::MAX {
        match word_at(rt, alloc, place, &mut room)? {
            Some(word) => words.push(word)?,
            None => break,
        }
    }
    Ok(words)
}

/// The word at a place. The room is doubled until the word fits.
fn word_at(
    rt: &impl Env,
    alloc: Global,
    place: usize,
    room: &mut Vec<u8>,
) -> Result<Option<Bytes>, NoMemory> {
    for _ in 0..usize::BITS {
        match rt.arg(place, room) {
            Ok(size) => {
                let mut word = Bytes::new(alloc);
                word.push_all(&room[..size])?;
                return Ok(Some(word));
            }
            Err(FillError::NotPresent) => return Ok(None),
            Err(FillError::TooLong) => room.resize(room.len().saturating_mul(2), 0)?,
        }
    }
    Err(NoMemory)
}
