//! What a seat of the table knows.
use std::collections::LinkedList;

/// What a seat of the table is for.
pub enum Role {
    /// It gives the numbers, and takes the seats in at the end.
    Maker,
    /// It takes turns.
    Numbered,
    /// It tells one seat what another has seen.
    Guest,
    /// It was joined into another seat.
    Spent,
}

/// What a seat of the table knows. No value of it is made.
pub struct Known<T, E> {
    pub role: Role,
    /// The value that the lock was made with; none where the seat is spent.
    pub first: Option<T>,
    /// How many seats the lock has.
    pub seats: u64,
    /// The seat's own number; of the maker, the next one that it gives.
    pub number: u64,
    /// Whether the seat has the turn.
    pub holds: bool,
    /// A beginning of the history; all of it while the seat has the turn.
    pub seen: LinkedList<E>,
    /// The entries that the seat made, in order.
    pub mine: LinkedList<E>,
    /// What other seats had seen, of those that were joined into this one.
    pub heard: LinkedList<LinkedList<E>>,
    /// What the seats had made that were joined into the maker, by their numbers.
    pub parts: LinkedList<LinkedList<E>>,
    /// What the seat's exchanges of the word have found, in order.
    pub met: LinkedList<u64>,
}
