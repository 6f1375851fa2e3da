//! The lock, and the rule that each step on its table keeps.
ghost use Rattle.std.specs.Prelude.{◌≡◌, ◌^◌, ◌<◌};

use crate::known::Known;
use crate::told::Told;
use atomic_table::{Table, TableRule};
use std::alloc::Global;
use std::marker::PhantomData;
use std::snapshot::Snapshot;
use std::sync::atomic::AtomicU64;

/// What the rule of a lock reads once: the value that it is made with, and how many seats it has.
pub struct Start<T> {
    pub value: Snapshot<T>,
    pub seats: u32,
}

impl<T> Drop for Start<T> {
    fn drop(self) {
        let Self { value, seats: _ } = self;
        drop(value);
    }
}

/// The rule: whenever the word is free, the value in the slot stands for the one history.
pub struct OneHistory<T> {
    value: PhantomData<T>,
}

impl<T: Told> TableRule<Option<T>, Known<T, T::Entry>, Start<T>> for OneHistory<T> {
    ghost use Rattle.turn_cell.specs.Rule.{Standing, first_view};

    ghost holds = { λ key s. Standing T.opening T.stands T.seat_of key s };

    ghost first = { λ key. first_view key };
}

/// A seat of the table, which has no bytes.
pub(crate) type Place<T, E> = atomic_table::Seat<Option<T>, Known<T, E>>;

/// A lock whose value stands for the list of all that was told under it.
#[derive(Drop)]
pub struct TurnCell<T: Told> {
    pub(crate) table: Table<Option<T>, Known<T, T::Entry>, Start<T>, OneHistory<T>, Global>,
    /// 1 where a seat may be asleep that no one has called yet.
    pub(crate) asleep: AtomicU64,
    pub(crate) ghost sized: { (table.shared.table_id.words ≡ 2)
        × (table.shared.table_id.slots ≡ 1)
        × (table.shared.key.seats < 2 ^ 32) },
}
