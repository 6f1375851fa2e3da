//! The one fault of the outside.

/// A call to the outside failed, and its object counted that.
#[derive(Clone, Copy, Debug, PartialEq, Eq)]
pub struct Failed;
