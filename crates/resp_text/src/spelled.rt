//! The words of a request whose bytes are known to be one.
ghost use Rattle.std.specs.Prelude.{◌≡◌, ◌+◌, ◌<◌, ◌∷◌, List, ℕ, length, IfOk};
ghost use Rattle.resp_text.specs.Grammar.{AreWords, IsRequest};
ghost use Rattle.resp_text.specs.Lines.{HasLine, BeginsWithLine, BeginsWithWord};

use crate::front::Line;
use crate::request::Request;
use std::alloc::Global;
use vm_base::NoMemory;

/// The line at the front of a text.
fn line_of(text: &[u8]) -> Line
    requires { BeginsWithLine text.now }
    ensures { (n : ℕ) (digits more : List ℕ) → HasLine text.now n digits more →
        (result.number ≡ n) × (result.length ≡ length digits + 3) }
{
    let mut number = 0;
    let mut at = 1;
    while text[at] != b'\r' {
        number = number * 10 + usize::from(text[at] - b'0');
        at += 1;
    }
    Line {
        number,
        length: at + 2,
    }
}

/// The word at the front of a text, and what stands behind its line end.
fn first_word(text: &[u8]) -> (&[u8], &[u8])
    requires { BeginsWithWord text.now }
    ensures split { (word : List ℕ) (words : List (List ℕ)) →
        AreWords text.now (word ∷ words) →
        (result.0.now ≡ word) × AreWords result.1.now words }
    ensures shorter { length result.1.now < length text.now }
{
    let line = line_of(text);
    let (_, behind) = text.split_at(line.length);
    let (word, behind) = behind.split_at(line.number);
    let (_, behind) = behind.split_at(2);
    (word, behind)
}

/// The request that a whole item spells.
pub(crate) fn request_of(alloc: Global, text: &[u8]) -> Result<Request, NoMemory>
    requires { (words : List (List ℕ)) × IsRequest text.now words }
    ensures { IfOk result (λ request. IsRequest text.now request) }
{
    let line = line_of(text);
    let mut request = Request::with_room(alloc, line.number, text.len())?;
    let (_, mut rest) = text.split_at(line.length);
    while !rest.is_empty() {
        let (word, behind) = first_word(rest);
        request.add(word)?;
        rest = behind;
    }
    Ok(request)
}
