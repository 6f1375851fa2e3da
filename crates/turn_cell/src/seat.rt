//! A seat, and the list of the seats that no one has.
ghost use Rattle.std.specs.Prelude.{◌≡◌, ◌<◌, ℕ, None, Some, length, slice_set, IfSome, MatchOption};
ghost use Rattle.turn_cell.specs.Seats.{IsSeatOf};
ghost use Rattle.turn_cell.specs.Lists.{IsList, IsSeatIn, IsLeastOf, HasNone, list_id, list_slots, slot_at};

use crate::cell::Place;
use crate::told::Told;

/// The right to take turns under one number. It knows the part of the history that it has seen,
/// and the entries that it made. It may go to another thread.
pub struct Seat<T: Told> {
    pub(crate) place: Place<T, T::Entry>,
    pub(crate) number: u32,
}

impl<T: Told> Seat<T> {
    /// From 0, below the number of seats that the cell was made with.
    pub fn number(&self) -> u32
        ensures { result ≡ self.now.number }
    {
        self.number
    }

    pub(crate) fn into_place(self) -> Place<T, T::Entry>
        ensures { result ≡ self.place }
    {
        let Self { place, number: _ } = self;
        place
    }
}

impl<T: Told> Drop for Seat<T> {
    fn drop(self) {
        let Self { place, number: _ } = self;
        drop(place);
    }
}

/// The seats of a cell that no one has.
pub struct SeatList<T: Told> {
    /// It gave the numbers, and takes the seats in at the end.
    pub(crate) maker: Place<T, T::Entry>,
    /// At each number its seat, where that is here.
    pub(crate) slots: Vec<Option<Seat<T>>>,
}

// The index of the first seat.
fn first_of<T: Told>(slots: &[Option<Seat<T>>]) -> Option<usize>
    ensures { MatchOption result
        (HasNone slots.now (length slots.now))
        (λ at. (at < length slots.now) × HasNone slots.now at × IsSeatIn slots.now at) }
{
    for at in 0..slots.len() {
        if slots[at].is_some() {
            return Some(at);
        }
    }
    None
}

impl<T: Told> SeatList<T> {
    /// The seat with the least number in the list, and `None` exactly where the list is empty.
    pub fn take(&mut self) -> Option<Seat<T>>
        requires list { IsList T.seat_of self.old }
        ensures list { IsList T.seat_of self.new }
        ensures cell { list_id self.new ≡ list_id self.old }
        ensures seat { IfSome result (λ s. IsSeatOf T.seat_of (list_id self.old) s) }
        ensures taken { MatchOption result
            ((self.new ≡ self.old) × ((n : ℕ) → slot_at self.old n ≡ None))
            (λ s. IsLeastOf self.old s
            × (list_slots self.new ≡ slice_set (list_slots self.old) s.number None)) }
    {
        let at = first_of(self.slots.as_slice())?;
        self.slots[at].take()
    }

    /// Puts a seat of this cell back. It takes no memory: there is a place for each number.
    pub fn put(&mut self, seat: Seat<T>)
        requires list { IsList T.seat_of self.old }
        requires seat { IsSeatOf T.seat_of (list_id self.old) seat }
        ensures list { IsList T.seat_of self.new }
        ensures cell { list_id self.new ≡ list_id self.old }
        ensures seats { list_slots self.new
            ≡ slice_set (list_slots self.old) seat.number (Some seat) }
    {
        let at = seat.number as usize;
        self.slots[at] = Some(seat);
    }

    pub(crate) fn into_parts(self) -> (Place<T, T::Entry>, Vec<Option<Seat<T>>>)
        ensures { (result.0 ≡ self.maker) × (result.1 ≡ self.slots) }
    {
        let Self { maker, slots } = self;
        (maker, slots)
    }
}

impl<T: Told> Drop for SeatList<T> {
    fn drop(self) {
        let Self { maker, slots } = self;
        drop(maker);
        drop(slots);
    }
}
