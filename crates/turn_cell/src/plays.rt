//! What each step on the table tells. These types are for the proofs alone.
ghost use Rattle.turn_cell.specs.Steps.{tried, gave, looked, numbering, numbered, guest, told, gathered, spent};

use crate::known::Known;
use crate::told::Told;
use atomic_table::{Join, Play, Split};
use std::marker::{Brand, PhantomData};

/// The entries that a turn adds, for the proof alone. A call at `Brand` picks them.
pub(crate) trait Adds<E> {
    ghost use Rattle.std.specs.Prelude.{List};

    ghost added: { List E };
}

impl<E> Adds<E> for Brand {
    ghost use Rattle.std.specs.Prelude.{[]};

    ghost added = { [] };
}

/// An exchange of the word takes the turn, or finds it taken.
pub(crate) struct Take;

impl<T: Told> Play<Option<T>, Known<T, T::Entry>> for Take {
    ghost then = { λ s m r n. tried T.opening T.stands T.seat_of m r n };
}

/// A store gives the turn back.
pub(crate) struct Give<W> {
    adds: PhantomData<W>,
}

impl<T: Told, W: Adds<T::Entry>> Play<Option<T>, Known<T, T::Entry>> for Give<W> {
    ghost then = { λ s m r n. gave W.added m n };
}

/// A turn that adds no entry.
pub(crate) struct Nothing;

impl<E> Adds<E> for Nothing {
    ghost use Rattle.std.specs.Prelude.{[]};

    ghost added = { [] };
}

/// The count of calls goes up, which tells nothing.
pub(crate) struct Call;

impl<T, E> Play<Option<T>, Known<T, E>> for Call {
    ghost use Rattle.std.specs.Prelude.{◌≡◌};

    ghost then = { λ s m r n. n ≡ m };
}

/// A seat is cut off that tells what this one has seen.
pub(crate) struct Ask;

impl<T, E> Split<Known<T, E>> for Ask {
    ghost left = { λ v. v };

    ghost right = { guest };
}

/// A seat is told what another has seen.
pub(crate) struct Hear;

impl<T, E> Join<Known<T, E>> for Hear {
    ghost both = { told };

    ghost spent = { spent };
}

/// A look, after which the seat has seen what it was told.
pub(crate) struct Look;

impl<T: Told> Play<Option<T>, Known<T, T::Entry>> for Look {
    ghost then = { λ s m r n. looked T.seat_of m n };
}

/// The maker gives the next number to a new seat.
pub(crate) struct Number;

impl<T, E> Split<Known<T, E>> for Number {
    ghost left = { numbering };

    ghost right = { numbered };
}

/// The maker takes in the seat of the next number.
pub(crate) struct Gather;

impl<T, E> Join<Known<T, E>> for Gather {
    ghost both = { gathered };

    ghost spent = { spent };
}
