//! A new value out of those that a relation allows.
use std::snapshot::Snapshot;

/// What a choice is about: which values may follow one that was kept.
pub trait Choice {
    /// What is kept.
    type Value;

    /// This old value, about this, this new value.
    ghost holds: { Self.Value → Self → Self.Value → Type 0 };
}

/// Gives what is kept some value that the relation allows. The clauses don't say which.
pub fn choose<C: Choice>(kept: &mut Snapshot<C::Value>, about: &C)
    requires { (value : C.Value) × C.holds kept.old.value about.now value }
    ensures { C.holds kept.old.value about.now kept.new.value }
{
    let _ = about;
    let _ = kept;
}

/// `choose` of a snapshot that is passed on.
pub fn chosen<C: Choice>(from: Snapshot<C::Value>, about: &C) -> Snapshot<C::Value>
    requires { (value : C.Value) × C.holds from.value about.now value }
    ensures { C.holds from.value about.now result.value }
{
    let mut kept = from;
    choose(&mut kept, about);
    kept
}
