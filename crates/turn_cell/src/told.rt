//! What the value under a lock stands for.
ghost use Rattle.std.specs.Prelude.{ℕ, List};

/// A value that stands for a list of entries that only grows. The list is not stored.
pub trait Told {
    /// What one turn adds.
    type Entry;

    /// What is read once, as the lock is made.
    ghost Opening: { Type 0 };

    ghost opening: { Self → Opening };

    /// Since this opening, this list: the value stands for it.
    ghost stands: { Opening → List Self.Entry → Self → Type 0 };

    /// The number of the seat that made an entry.
    ghost seat_of: { Self.Entry → ℕ };
}

/// What a turn tells as it is given back. It borrows what it names.
pub trait Note<T: Told> {
    /// The entry that the note tells.
    ghost entry: { Self → T.Entry };
}
