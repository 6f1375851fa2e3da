//! A whole request at the front of some bytes, read once.
ghost use Rattle.std.specs.Prelude.{◌≤◌, IfOk, IfSome};
ghost use Rattle.resp_text.specs.Fronts.{HasFrontLine, HasFrontWord, HasFrontRequest};

use crate::request::Span;
use crate::scan::{MOST_BYTES, MOST_LENGTH, MOST_WORDS, digit_behind};
use vm_base::NoMemory;

/// A line: its number, and how many bytes it has with its line end.
#[derive(Clone, Copy, Debug)]
pub(crate) struct Line {
    pub(crate) number: usize,
    pub(crate) length: usize,
}

/// The line at the front of a text, where a whole one stands there with this first byte and a
/// number that is at most so great.
fn front_line(text: &[u8], first: u8, most: u32) -> Option<Line>
    requires { most ≤ 1048576 }
    ensures { IfSome result (HasFrontLine text.now first most) }
{
    if text.is_empty() || text[0] != first {
        return None;
    }
    let (_, digits) = text.split_at(1);
    let mut number = 0;
    let mut at = 0;
    while at < digits.len() {
        match digit_behind(number, digits[at], most) {
            Some(next) => number = next,
            None => break,
        }
        at += 1;
    }
    if digits.len() < at + 2 || digits[at] != b'\r' || digits[at + 1] != b'\n' {
        return None;
    }
    // There is a digit, and a leading zero stands alone.
    if at == 0 || (at > 1 && digits[0] == b'0') {
        return None;
    }
    Some(Line {
        number: number as usize,
        length: at + 3,
    })
}

/// The place of the word at the front of a text, where a whole one stands there that has at most
/// so many bytes.
fn front_word(text: &[u8], room: u32) -> Option<Span>
    ensures { IfSome result (HasFrontWord text.now room) }
{
    let line = front_line(text, b'$', MOST_LENGTH.min(room))?;
    let end = line.length + line.number;
    if text.len() < end + 2 || text[end] != b'\r' || text[end + 1] != b'\n' {
        return None;
    }
    Some(Span {
        start: line.length,
        end,
    })
}

/// How many bytes the request at the front of a text has, where a whole one stands there: the
/// places of its words are then those left in the list. `None` says nothing of the text: an item
/// may be cut off, skipped or broken.
pub(crate) fn front_request(text: &[u8], spans: &mut Vec<Span>) -> Result<Option<usize>, NoMemory>
    ensures { IfOk result (λ front. IfSome front (HasFrontRequest text.now spans.new.items)) }
{
    spans.clear();
    let Some(line) = front_line(text, b'*', MOST_WORDS) else {
        return Ok(None);
    };
    if line.number == 0 {
        return Ok(None);
    }
    let mut at = line.length;
    let mut room = MOST_BYTES;
    while spans.len() < line.number {
        let (_, behind) = text.split_at(at);
        let Some(word) = front_word(behind, room) else {
            return Ok(None);
        };
        spans.push(Span {
            start: at + word.start,
            end: at + word.end,
        })?;
        room -= (word.end - word.start) as u32;
        at += word.end + 2;
    }
    Ok(Some(at))
}
