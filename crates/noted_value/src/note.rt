//! A new value that a function gives.
ghost use Rattle.std.specs.Prelude.{◌≡◌};

use crate::choice::{Choice, choose};
use std::snapshot::Snapshot;

/// What a note is about: which value follows one that was kept.
pub trait Note {
    /// What is kept.
    type Value;

    /// Of the old value and of what the note is about, the new value.
    ghost note: { Self.Value → Self → Self.Value };
}

/// The choice of the one value that a note gives.
#[derive(Drop)]
struct Exactly<'a, N>(&'a N);

impl<'a, N: Note> Choice for Exactly<'a, N> {
    ghost use Rattle.std.specs.Prelude.{◌≡◌};

    type Value = N::Value;

    ghost holds = { λ old exactly new. new ≡ N.note old exactly.0.now };
}

/// Gives what is kept the value that the note says.
pub fn note_down<N: Note>(kept: &mut Snapshot<N::Value>, about: &N)
    ensures { kept.new.value ≡ N.note kept.old.value about.now }
{
    choose(kept, &Exactly(about));
}

/// `note_down` of a snapshot that is passed on.
pub fn noted<N: Note>(from: Snapshot<N::Value>, about: &N) -> Snapshot<N::Value>
    ensures { result.value ≡ N.note from.value about.now }
{
    let mut kept = from;
    note_down(&mut kept, about);
    kept
}
