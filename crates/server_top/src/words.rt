//! The words of a top call.
ghost use Rattle.std.specs.Prelude.{◌≡◌, List, ℕ};
ghost use Rattle.server_top.specs.CommandWords.{end_of_plan, every_plan, is_word, plan_of, replay_plan};

use vm_base::Bytes;

/// The command that the words name.
#[derive(Clone, Copy, Debug, PartialEq, Eq)]
pub(crate) enum Plan {
    Trace,
    Replay,
}

/// The command of the words, or the place of the first word that is not accepted there.
pub(crate) fn read_words(words: &[Bytes]) -> Result<Plan, u64>
    ensures { result ≡ plan_of words.now }
{
    match words {
        [first, rest @ ..] if is_word(first, b"trace") => end_of_plan(1, Plan::Trace, rest),
        [first, rest @ ..] if is_word(first, b"replay") => replay_plan(rest),
        _ => Err(0),
    }
}

/// The words behind `replay`.
fn replay_plan(words: &[Bytes]) -> Result<Plan, u64>
    ensures { result ≡ replay_plan words.now }
{
    match words {
        [first, rest @ ..] if is_word(first, b"--every") => every_plan(rest),
        _ => Err(1),
    }
}

/// The words behind `--every`.
fn every_plan(words: &[Bytes]) -> Result<Plan, u64>
    ensures { result ≡ every_plan words.now }
{
    match words {
        [first, rest @ ..] if is_word(first, b"0") => end_of_plan(3, Plan::Replay, rest),
        _ => Err(2),
    }
}

/// The words behind the last word of a command, of which there may be none.
fn end_of_plan(place: u64, plan: Plan, words: &[Bytes]) -> Result<Plan, u64>
    ensures { result ≡ end_of_plan place plan words.now }
{
    match words {
        [] => Ok(plan),
        _ => Err(place),
    }
}

fn is_word(word: &Bytes, text: &[u8]) -> bool
    ensures { result ≡ is_word word.now text.now }
{
    word.as_slice() == text
}
