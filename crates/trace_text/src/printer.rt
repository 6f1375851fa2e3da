//! The line that an outcome prints.
ghost use Rattle.std.specs.Prelude.{◌≡◌, ◌-◌, ◌*◌, ◌++◌, ◌≤◌, take, length, replicate, IfOk, OnOk, OnErr, codes};
ghost use Rattle.std.specs.Fmt.{decimal};
ghost use Rattle.std.specs.String.{string_bytes};
ghost use Rattle.hex.specs.Hex.{encode_lower};
ghost use Rattle.trace_text.specs.ScriptGrammar.{hexadecimal, perm_text};
ghost use Rattle.trace_text.specs.PrintedLines.{area_text, areas_text, next_area_text, outcome_line};

use area_list::Area;
use itoa::Buffer;
use std::alloc::Global;
use trace_events::Outcome;
use vm_base::{Bytes, NoMemory, Perm};

/// So many bytes of an answer are printed at once.
const PIECE: usize = 32;

/// Appends the line of the outcome. After `NoMemory` the text is as it was.
pub fn outcome_text(alloc: Global, outcome: &Outcome, out: &mut Bytes) -> Result<(), NoMemory>
    ensures ok { OnOk result (out.new ≡ out.old ++ outcome_line outcome.now) }
    ensures no_memory { OnErr result (out.new ≡ out.old) }
{
    match outcome {
        Outcome::Done => out.push_all(b"ok\n"),
        Outcome::Bytes(bytes) => bytes_text(bytes.as_slice(), out),
        Outcome::Held { held, free } => held_text(alloc, *held, *free, out),
        Outcome::AreaRow(row) => areas_text(alloc, row.list(), out),
        Outcome::Copied => out.push_all(b"copied\n"),
        Outcome::Nothing => out.push_all(b"nothing\n"),
        Outcome::Refused(at) => count_text(alloc, "refused ", *at, out),
        Outcome::Lost(at) => count_text(alloc, "lost ", *at, out),
        Outcome::NoArea(page) => page_text(alloc, "noarea ", *page, out),
        Outcome::NoWrite(page) => page_text(alloc, "nowrite ", *page, out),
        Outcome::Overlap(page) => page_text(alloc, "overlap ", *page, out),
        Outcome::AreasFull => out.push_all(b"areasfull\n"),
        Outcome::CellsFull => out.push_all(b"cellsfull\n"),
        Outcome::NoFrame(at) => count_text(alloc, "noframe ", *at, out),
        Outcome::TooMany => out.push_all(b"toomany\n"),
        Outcome::NoSnap => out.push_all(b"nosnap\n"),
    }
}

// The digits go straight into the text, piece by piece. Where the room of one is refused, those
// before it are cut off again.
fn bytes_text(bytes: &[u8], out: &mut Bytes) -> Result<(), NoMemory>
    ensures ok { OnOk result (out.new ≡ out.old ++ (encode_lower bytes.now ++ codes "\n")) }
    ensures no_memory { OnErr result (out.new ≡ out.old) }
{
    let before = out.as_slice().len();
    let answer = push_bytes(bytes, out);
    if answer.is_err() {
        out.truncate(before);
    }
    answer
}

// After `NoMemory` some of the digits may stand behind the text.
fn push_bytes(bytes: &[u8], out: &mut Bytes) -> Result<(), NoMemory>
    ensures ok { OnOk result (out.new ≡ out.old ++ (encode_lower bytes.now ++ codes "\n")) }
    ensures front { take (length out.old) out.new ≡ out.old }
{
    let mut rest = bytes;
    while rest.len() > PIECE {
        let (piece, others) = rest.split_at(PIECE);
        out.push_all(&line_of(piece)[..2 * PIECE])?;
        rest = others;
    }
    out.push_all(&line_of(rest)[..2 * rest.len() + 1])
}

// The digits of a piece, and line feeds behind them.
fn line_of(piece: &[u8]) -> [u8; 65]
    requires { length piece.now ≤ 32 }
    ensures { result ≡ encode_lower piece.now ++ replicate (65 - 2 * length piece.now) 10 }
{
    let mut line = [b'\n'; 2 * PIECE + 1];
    let printed = hex::encode_to_slice(piece, &mut line[..2 * piece.len()]);
    prove!(printed.is_ok());
    line
}

// Each of the other lines is made whole beside the text, so that one push alone can fail.
fn held_text(alloc: Global, held: u32, free: u32, out: &mut Bytes) -> Result<(), NoMemory>
    ensures ok { OnOk result
        (out.new ≡ out.old ++ (codes "held " ++ decimal held ++ codes " free " ++ decimal free ++ codes "\n")) }
    ensures no_memory { OnErr result (out.new ≡ out.old) }
{
    let line = format!(in alloc; "held {held} free {free}\n")?;
    out.push_all(line.as_bytes())
}

fn count_text(alloc: Global, word: &str, at: u64, out: &mut Bytes) -> Result<(), NoMemory>
    ensures ok { OnOk result (out.new ≡ out.old ++ (word.now ++ decimal at ++ codes "\n")) }
    ensures no_memory { OnErr result (out.new ≡ out.old) }
{
    let mut digits = Buffer::new();
    let mut line = Bytes::new(alloc);
    line.push_all(word.as_bytes())?;
    line.push_all(digits.format(at).as_bytes())?;
    line.push_all(b"\n")?;
    out.push_all(line.as_slice())
}

fn page_text(alloc: Global, word: &str, page: u64, out: &mut Bytes) -> Result<(), NoMemory>
    ensures ok { OnOk result
        (out.new ≡ out.old ++ (word.now ++ hexadecimal (page * 4096) ++ codes "\n")) }
    ensures no_memory { OnErr result (out.new ≡ out.old) }
{
    let address = address(alloc, page)?;
    let line = format!(in alloc; "{word}{address}\n")?;
    out.push_all(line.as_bytes())
}

// The address of a page's first byte may need more than 64 bits: its last three digits are zeros.
fn address(alloc: Global, page: u64) -> Result<String, NoMemory>
    ensures { IfOk result (λ digits. string_bytes digits ≡ hexadecimal (page * 4096)) }
{
    if page == 0 {
        Ok(format!(in alloc; "0")?)
    } else {
        Ok(format!(in alloc; "{page:x}000")?)
    }
}

fn areas_text(alloc: Global, areas: &[Area], out: &mut Bytes) -> Result<(), NoMemory>
    ensures ok { OnOk result (out.new ≡ out.old ++ (codes "areas " ++ areas_text areas.now ++ codes "\n")) }
    ensures no_memory { OnErr result (out.new ≡ out.old) }
{
    let mut line = Bytes::new(alloc);
    line.push_all(b"areas ")?;
    push_areas(alloc, areas, &mut line)?;
    line.push_all(b"\n")?;
    out.push_all(line.as_slice())
}

fn push_areas(alloc: Global, areas: &[Area], line: &mut Bytes) -> Result<(), NoMemory>
    ensures { OnOk result (line.new ≡ line.old ++ areas_text areas.now) }
{
    let Some((first, others)) = areas.split_first() else {
        return line.push_all(b"none");
    };
    push_area(alloc, first, line)?;
    for area in others {
        line.push_all(b", ")?;
        push_area(alloc, area, line)?;
    }
    Ok(())
}

fn push_area(alloc: Global, area: &Area, line: &mut Bytes) -> Result<(), NoMemory>
    ensures { OnOk result (line.new ≡ line.old ++ area_text area.now) }
{
    let address = address(alloc, area.first)?;
    let pages = area.pages;
    let letters = letters(area.perm);
    let text = format!(in alloc; "{address} {pages} {letters}")?;
    line.push_all(text.as_bytes())
}

fn letters(perm: Perm) -> &'static str
    ensures { result.now ≡ perm_text perm }
{
    match perm {
        Perm::Read => "r",
        Perm::ReadWrite => "rw",
    }
}
