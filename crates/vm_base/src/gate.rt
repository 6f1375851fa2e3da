//! Where a caller may be held while it copies a snapshot.

/// A point that a copying caller passes.
#[derive(Clone, Copy, Debug, PartialEq, Eq)]
pub enum Point {
    /// In the turn on a cell of the snapshot of that number.
    InCell { number: u32, cell: u32 },
}

/// What a copying caller passes at each point. It may hold the caller, and tells it nothing.
pub trait Gate {
    fn pass(&self, point: Point);
}

/// A gate that holds nobody.
#[derive(Clone, Copy, Debug, PartialEq, Eq)]
pub struct OpenGate;

impl Gate for OpenGate {
    fn pass(&self, _point: Point) {}
}
