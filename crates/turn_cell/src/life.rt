//! How a lock is made and taken apart, and how one seat tells another.
ghost use Rattle.std.specs.Prelude.{◌≡◌, ◌<◌, [], ◌∷◌, length, vec_capacity, IfOk, IfErr, MatchResult, Some};
ghost use Rattle.turn_cell.specs.Rule.{first_view};
ghost use Rattle.turn_cell.specs.Seats.{IsSeatOf, WasTold, cell_id};
ghost use Rattle.turn_cell.specs.Lists.{IsList, IsNewList, IsWhole, IsWholeHistory, IsGathered, list_id, list_slots, start_id};

use crate::cell::{OneHistory, Place, Start, TurnCell};
use crate::known::Known;
use crate::plays::{Ask, Gather, Hear, Look, Number};
use crate::seat::{Seat, SeatList};
use crate::told::Told;
use atomic_table::{Refused, Shared, Table};
use std::alloc::Global;
use std::snapshot::Snapshot;
use std::sync::atomic::AtomicU64;

/// There was no memory.
#[derive(Debug, Clone, Copy, PartialEq, Eq, Drop)]
pub struct NoMemory;

/// The table as the seats step on it.
type Steps<T, E> = Shared<Option<T>, Known<T, E>, Start<T>, OneHistory<T>>;

// The one slot, with the value.
fn home_of<T>(alloc: Global, value: T) -> Result<Vec<Option<T>>, T>
    ensures { MatchResult result (λ v. v.items ≡ Some value ∷ []) (λ x. x ≡ value) }
{
    let Ok(mut home) = Vec::with_capacity(alloc, 1) else {
        return Err(value);
    };
    home.push_reserved(Some(value));
    Ok(home)
}

// The value out of the one slot.
fn value_of<T>(mut home: Vec<Option<T>>) -> T
    requires { (x : _) × (home.items ≡ Some x ∷ []) }
    ensures { home.items ≡ Some result ∷ [] }
{
    let value = home.pop();
    home.destroy_empty();
    match value {
        Some(Some(value)) => value,
        Some(None) | None => unreachable!(),
    }
}

// A seat for each number. There is room for them.
fn number_seats<T: Told>(
    shared: &Steps<T, T::Entry>,
    mut maker: Place<T, T::Entry>,
    mut slots: Vec<Option<Seat<T>>>,
    seats: u32,
) -> SeatList<T>
    requires table { (maker.table_id ≡ shared.now.table_id) × (0 < shared.now.table_id.words) }
    requires maker { maker.me ≡ (first_view shared.now.key, []) }
    requires seats { shared.now.key.seats ≡ seats }
    requires room { (slots.items ≡ []) × (vec_capacity slots ≡ seats) }
    ensures list { IsList T.seat_of result }
    ensures new { IsNewList result }
    ensures cell { list_id result ≡ start_id shared.now.table_id shared.now.key }
{
    for number in 0..seats {
        let place = shared.split_seat::<Number>(&mut maker);
        slots.push_reserved(Some(Seat { place, number }));
    }
    SeatList { maker, slots }
}

// The maker, with what each seat has seen and made.
fn gather_seats<T: Told>(
    shared: &Steps<T, T::Entry>,
    mut maker: Place<T, T::Entry>,
    mut slots: Vec<Option<Seat<T>>>,
) -> Place<T, T::Entry>
    requires table { (maker.table_id ≡ shared.now.table_id) × (0 < shared.now.table_id.words) }
    requires list { IsList T.seat_of (record { maker = maker; slots = slots }) }
    requires whole { IsWhole (record { maker = maker; slots = slots }) }
    ensures { IsGathered maker slots.items result }
{
    for number in 0..slots.len() {
        match slots[number].take() {
            Some(seat) => shared.join_seat::<Gather>(&mut maker, seat.into_place()),
            None => unreachable!(),
        }
    }
    maker
}

impl<T: Told> TurnCell<T> {
    /// Makes a lock with this value, and a seat for each number below `seats`. Where there is no
    /// memory the value comes back.
    pub fn new(
        alloc: Global,
        value: T,
        seats: u32,
    ) -> Result<(TurnCell<T>, SeatList<T>), (NoMemory, T)>
        requires seats { 0 < seats }
        requires value { T.stands (T.opening value) [] value }
        ensures list { IfOk result (λ r. IsList T.seat_of r.1 × (list_id r.1 ≡ cell_id r.0)) }
        ensures new { IfOk result (λ r. IsNewList r.1) }
        ensures opening { IfOk result (λ r. (cell_id r.0).first ≡ Some value) }
        ensures seats { IfOk result (λ r. (cell_id r.0).seats ≡ seats) }
        ensures refused { IfErr result (λ e. e.1 ≡ value) }
    {
        let Ok(slots) = Vec::with_capacity(alloc, seats as usize) else {
            return Err((NoMemory, value));
        };
        let about = Start {
            value: Snapshot::of(&value),
            seats,
        };
        let home = match home_of(alloc, value) {
            Ok(home) => home,
            Err(value) => return Err((NoMemory, value)),
        };
        match Table::new(alloc, &[0, 0], home, &about) {
            Ok((table, maker)) => {
                let list = number_seats(&table.shared, maker, slots, seats);
                let cell = TurnCell {
                    table,
                    asleep: AtomicU64::new(0),
                };
                Ok((cell, list))
            }
            Err(Refused { slots: home }) => Err((NoMemory, value_of(home))),
        }
    }

    /// Takes the lock apart, with all of its seats.
    pub fn close(self, seats: SeatList<T>) -> T
        requires list { IsList T.seat_of seats }
        requires cell { list_id seats ≡ cell_id self }
        requires whole { IsWhole seats }
        ensures { IsWholeHistory T.opening T.stands T.seat_of seats result }
    {
        let Self { table, asleep: _ } = self;
        let (maker, slots) = seats.into_parts();
        let maker = gather_seats(&table.shared, maker, slots);
        let mut closed = table.close_with(maker);
        let value = closed.take(0);
        closed.free();
        value.unwrap()
    }

    /// Lets `to` know what `from` has seen. It waits for nobody and takes no memory.
    pub fn tell(&self, from: &mut Seat<T>, to: &mut Seat<T>)
        requires from { IsSeatOf T.seat_of (cell_id self.now) from.old }
        requires to { IsSeatOf T.seat_of (cell_id self.now) to.old }
        ensures from { from.new ≡ from.old }
        ensures to { WasTold T.seat_of (cell_id self.now) from.old to.old to.new }
    {
        let shared = &self.table.shared;
        let guest = shared.split_seat::<Ask>(&mut from.place);
        shared.join_seat::<Hear>(&mut to.place, guest);
        shared.load::<Look>(&mut to.place, 0);
    }
}
