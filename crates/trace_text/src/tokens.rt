//! The tokens of a line.
ghost use Rattle.std.specs.Prelude.{◌≡◌, ◌*◌, ◌<◌, ◌^◌, IfOk, IfSome, option_map, length, position, ◌==◌};
ghost use Rattle.trace_text.specs.ScriptReading.{bytes_of, mode_of, only_if, page_at, parts_at, perm_of, range_of};

use crate::number::{are_digits, byte_spelled, count, number};
use memchr::memchr;
use std::alloc::Global;
use vm_base::{Bytes, Mode, NoMemory, Perm};

/// What stands before the first such byte, and what stands behind it.
pub(crate) fn parts_at(text: &[u8], byte: u8) -> Option<(&[u8], &[u8])>
    ensures { option_map (λ parts. (parts.0.now, parts.1.now)) result ≡ parts_at byte text.now }
{
    let at = first_place(text, byte)?;
    Some((&text[..at], &text[at + 1..]))
}

fn first_place(text: &[u8], byte: u8) -> Option<usize>
    ensures place { result ≡ position (λ other. other == byte) text.now }
    ensures within { IfSome result (λ at. at < length text.now) }
{
    memchr(byte, text)
}

/// The bytes that pairs of digits spell. Their room is made once, and they are copied nowhere.
pub(crate) fn bytes_of(alloc: Global, digits: &[u8]) -> Result<Option<Bytes>, NoMemory>
    ensures { IfOk result (λ bytes. bytes ≡ bytes_of digits.now) }
{
    if digits.len() % 2 != 0 {
        return Ok(None);
    }
    let mut list = vec![in alloc; 0; digits.len() / 2]?;
    let are_spelled = decode(digits, &mut list);
    Ok(are_spelled.then_some(Bytes::from_vec(list)))
}

// Whether all pairs spell a byte, and the bytes. It looks at each pair and never stops before the
// end, so that the compiler takes many pairs at a time.
fn decode(digits: &[u8], list: &mut [u8]) -> bool
    requires { length digits.now ≡ 2 * length list.old }
    ensures bytes { only_if result list.new ≡ bytes_of digits.now }
    ensures count { length list.new ≡ length list.old }
{
    let mut are_spelled = true;
    for i in 0..list.len() {
        let (high, low) = (digits[2 * i], digits[2 * i + 1]);
        are_spelled &= are_digits(high, low);
        list[i] = byte_spelled(high, low);
    }
    are_spelled
}

#[tactic(auto, unfolding(crate::specs::ScriptReading::perm_of))]
pub(crate) fn permission(token: &[u8]) -> Option<Perm>
    ensures { result ≡ perm_of token.now }
{
    if token == b"r".as_slice() {
        Some(Perm::Read)
    } else if token == b"rw".as_slice() {
        Some(Perm::ReadWrite)
    } else {
        None
    }
}

#[tactic(auto, unfolding(crate::specs::ScriptReading::mode_of))]
pub(crate) fn mode(token: &[u8]) -> Option<Mode>
    ensures { result ≡ mode_of token.now }
{
    if token == b"eager".as_slice() {
        Some(Mode::Eager)
    } else if token == b"ondemand".as_slice() {
        Some(Mode::OnDemand)
    } else if token == b"async".as_slice() {
        Some(Mode::Async)
    } else {
        None
    }
}

/// The page of a page address.
#[tactic(auto, unfolding(crate::specs::ScriptReading::page_at))]
pub(crate) fn page_at(token: &[u8]) -> Option<u64>
    ensures { result ≡ page_at token.now }
{
    let address = number(token, 16)?;
    (address % 4096 == 0).then_some(address / 4096)
}

/// An address and a length.
#[tactic(auto, unfolding(crate::specs::ScriptReading::range_of))]
pub(crate) fn range(fields: &[u8]) -> Option<(u64, u32)>
    ensures { result ≡ range_of fields.now }
{
    let (address, len) = parts_at(fields, b' ')?;
    let addr = number(address, 16)?;
    let len = count(len)?;
    Some((addr, len))
}
