//! Turns: how one is taken, used and given back.
ghost use Rattle.std.specs.Prelude.{◌≡◌, ◌++◌, [], ◌∷◌, IfOk, IfErr, MatchResult};
ghost use Rattle.std.specs.Borrow.{sem, RestsIfErr};
ghost use Rattle.turn_cell.specs.History.{AllMadeBy};
ghost use Rattle.turn_cell.specs.Seats.{IsSeatOf, IsHeld, Began, WasBusy, GaveBack, Stands, LendsValue, cell_id, seen};
ghost use Rattle.turn_cell.specs.contracts.seat.Seat.{the_row as seat_row};

use crate::cell::TurnCell;
use crate::plays::{Adds, Call, Give, Nothing, Take};
use crate::seat::Seat;
use crate::sleep::CALLS;
use crate::told::{Note, Told};
use std::hint;
use std::marker::Brand;
use std::sync::Wait;
use std::sync::atomic::Ordering::SeqCst;

/// The word that is 0, or 1 more than the number of the seat that has the turn.
const HOLDER: usize = 0;

/// How often a seat looks at the word before it sleeps.
const LOOKS: u32 = 100;

/// Another seat had the turn when this one asked.
#[derive(Debug, Clone, Copy, PartialEq, Eq, Drop)]
pub struct Busy {
    /// The number of that seat.
    pub holder: u32,
}

/// One turn of a seat. It has the value until it is given back, which it must be.
pub struct Turn<'a, T: Told> {
    pub(crate) seat: &'a mut Seat<T>,
    pub(crate) cell: &'a TurnCell<T>,
    pub(crate) value: T,
}

impl<T: Told> TurnCell<T> {
    // One exchange of the word, and the value out of the slot.
    pub(crate) fn take(&self, seat: &mut Seat<T>) -> Result<T, Busy>
        requires { IsSeatOf T.seat_of (cell_id self.now) seat.old }
        ensures { MatchResult result
            (λ x. Began T.opening T.stands T.seat_of (cell_id self.now) seat.old seat.new x)
            (λ b. WasBusy T.seat_of (cell_id self.now) seat.old seat.new b.holder) }
    {
        let shared = &self.table.shared;
        let own = u64::from(seat.number) + 1;
        let found = shared.compare_exchange::<Take>(&mut seat.place, HOLDER, 0, own);
        if found != 0 {
            return Err(Busy {
                holder: (found - 1) as u32,
            });
        }
        let value = shared.exchange(&mut seat.place, 0, None);
        Ok(value.unwrap())
    }

    // Looks for a while, and then sleeps until the turn is given back.
    #[cold]
    fn wait<R: Wait>(&self, rt: &R, seat: &mut Seat<T>) -> T
        requires { IsSeatOf T.seat_of (cell_id self.now) seat.old }
        ensures { Began T.opening T.stands T.seat_of (cell_id self.now) seat.old seat.new result }
    {
        for _ in 0..LOOKS {
            if self.table.shared.peek(HOLDER) == 0 {
                if let Ok(value) = self.take(seat) {
                    return value;
                }
            }
            hint::spin_loop();
        }
        for _ in rt.forever() {
            // It says that it will sleep before it asks again, and sleeps only if no one called
            // since: so a turn that is given back after it asked calls it.
            let said = self.hear().say(self);
            match self.ask(seat, said) {
                Ok(value) => return value,
                Err(missed) => self.sleep(rt, missed),
            }
        }
        unreachable!()
    }

    // Calls one seat that sleeps, if there may be one.
    fn call(&self, seat: &mut Seat<T>)
        requires { seat.old.place.table_id ≡ self.now.table.shared.table_id }
        ensures { seat.new ≡ seat.old }
    {
        let shared = &self.table.shared;
        if self.asleep.load(SeqCst) != 0 && self.asleep.swap(0, SeqCst) != 0 {
            shared.fetch_add::<Call>(&mut seat.place, CALLS, 1);
            shared.wake_one(CALLS);
        }
    }

    fn take_or_wait<R: Wait>(&self, rt: &R, seat: &mut Seat<T>) -> T
        requires { IsSeatOf T.seat_of (cell_id self.now) seat.old }
        ensures { Began T.opening T.stands T.seat_of (cell_id self.now) seat.old seat.new result }
    {
        match self.take(seat) {
            Ok(value) => value,
            Err(_) => self.wait(rt, seat),
        }
    }

    /// Takes the turn, and waits while another seat has it.
    ///
    /// Where the lock is free it is one exchange of the word, and the value moves out of the slot.
    /// Else the seat looks at the word for a while. Then it says that it will sleep, asks once
    /// more, and parks on the count of calls as it was before it said so. Who gives the turn back
    /// and finds that a seat may sleep takes that word back, counts a call and wakes one seat; a
    /// seat that was called says again that it will sleep, since others may still. What would
    /// happen if the count were read after the word was given: a call in between would be missed.
    /// The three steps stand in `sleep.rt`, where each takes what the one before it made.
    pub fn turn<'a, R: Wait>(&'a self, rt: &R, seat: &'a mut Seat<T>) -> Turn<'a, T>
        requires seat { IsSeatOf T.seat_of (cell_id self.now) seat.old }
        ensures taken { Began T.opening T.stands T.seat_of (cell_id self.now)
            seat.old result.seat.now result.value }
        ensures cell { cell_id result.cell.now ≡ cell_id self.now }
        ensures same_reference { result.seat.ghost_name ≡ seat.entry.ghost_name }
    {
        let value = self.take_or_wait(rt, seat);
        Turn {
            seat,
            cell: self,
            value,
        }
    }
}

impl<T: Told> Seat<T> {
    /// Takes the turn where no seat has it. It waits for nobody.
    pub fn try_turn<'a>(&'a mut self, cell: &'a TurnCell<T>) -> Result<Turn<'a, T>, Busy>
        requires seat { IsSeatOf T.seat_of (cell_id cell.now) self.old }
        ensures* busy { sem 𝓛 (RestsIfErr (seat_row T.row T.Entry.row) self.entry
            (λ t. t.seat.ghost_name) result
            (λ n. IfErr result (λ b. WasBusy T.seat_of (cell_id cell.now) self.old n b.holder))) }
        ensures taken { IfOk result (λ t. Began T.opening T.stands T.seat_of (cell_id cell.now)
            self.old t.seat.now t.value) }
        ensures cell { IfOk result (λ t. cell_id t.cell.now ≡ cell_id cell.now) }
        ensures same_reference { IfOk result (λ t. t.seat.ghost_name ≡ self.entry.ghost_name) }
    {
        let value = cell.take(self)?;
        Ok(Turn {
            seat: self,
            cell,
            value,
        })
    }
}

impl<'a, T: Told> Turn<'a, T> {
    /// The value. As the turn begins, it stands for the history that the seat has seen now.
    pub fn value(&mut self) -> &mut T
        ensures* writes_back { sem 𝓛 (LendsValue T.row T.Entry.row T.Told self.entry result) }
        ensures value { result.now ≡ self.old.value }
    {
        &mut self.value
    }

    // The value into the slot, and one store of the word.
    fn give<W: Adds<T::Entry>>(self)
        requires held { IsHeld T.seat_of self }
        requires made { AllMadeBy T.seat_of self.seat.now.number W.added }
        requires value { Stands T.opening T.stands T.seat_of (cell_id self.cell.now)
            (seen self.seat.now ++ W.added) self.value }
        ensures { GaveBack T.seat_of (cell_id self.entry.cell.now)
            self.entry.seat.now W.added self.exit.0.now }
    {
        let Turn { seat, cell, value } = self;
        let shared = &cell.table.shared;
        match shared.exchange(&mut seat.place, 0, Some(value)) {
            None => {}
            Some(_) => unreachable!(),
        }
        shared.store::<Give<W>>(&mut seat.place, HOLDER, 0);
        cell.call(seat);
    }

    fn give_noted<N: Note<T>, W: Adds<T::Entry>>(self, note: &N)
        requires held { IsHeld T.seat_of self }
        requires number { T.seat_of (N.entry note.now) ≡ self.seat.now.number }
        requires added { W.added ≡ N.entry note.now ∷ [] }
        requires value { Stands T.opening T.stands T.seat_of (cell_id self.cell.now)
            (seen self.seat.now ++ N.entry note.now ∷ []) self.value }
        ensures { GaveBack T.seat_of (cell_id self.entry.cell.now)
            self.entry.seat.now (N.entry note.now ∷ []) self.exit.0.now }
    {
        let _ = note;
        self.give::<W>();
    }

    /// Gives the turn back with the entry of the note, for which the value stands too.
    pub fn back<N: Note<T>>(self, note: &N)
        requires held { IsHeld T.seat_of self }
        requires number { T.seat_of (N.entry note.now) ≡ self.seat.now.number }
        requires value { Stands T.opening T.stands T.seat_of (cell_id self.cell.now)
            (seen self.seat.now ++ N.entry note.now ∷ []) self.value }
        ensures { GaveBack T.seat_of (cell_id self.entry.cell.now)
            self.entry.seat.now (N.entry note.now ∷ []) self.exit.0.now }
    {
        self.give_noted::<N, Brand>(note);
    }

    /// Gives the turn back with no entry. The value stands for the history as it was.
    pub fn back_same(self)
        requires held { IsHeld T.seat_of self }
        requires value { Stands T.opening T.stands T.seat_of (cell_id self.cell.now)
            (seen self.seat.now) self.value }
        ensures { GaveBack T.seat_of (cell_id self.entry.cell.now)
            self.entry.seat.now [] self.exit.0.now }
    {
        self.give::<Nothing>();
    }
}
