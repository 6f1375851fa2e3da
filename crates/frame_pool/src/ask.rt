//! What a policy is asked.
use vm_base::{Asker, Want};

/// One frame request, as a policy sees it.
#[derive(Clone, Copy, Debug, PartialEq, Eq)]
pub struct Ask {
    pub asker: Asker,
    pub want: Want,
    /// The frames that the pool has, at least one.
    pub free: u32,
    /// Which ask of the pool it is, from 1. Requests to an empty pool are not counted.
    pub place: u64,
}
