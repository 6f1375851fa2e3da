//! A process by flat copies.
ghost use Rattle.std.specs.Prelude.{◌≡◌, IfOk, []};
ghost use Rattle.flat_memory.specs.FlatSeen.{FlatHolds, opening_flat_memory};
ghost use Rattle.flat_memory.specs.FlatProps.{FlatHolds-prop};

use crate::side::Side;
use crate::sides::Sides;
use std::alloc::Global;
use std::snapshot::Snapshot;
use vm_base::{Memory, NoMemory, Process};

/// A process whose memory and whose child are plain pages. All room is made at the start, so no
/// call wants memory later.
#[derive(Drop)]
pub struct Flat {
    pub(crate) sides: Sides,
    /// What holds at each moment.
    ghost holds: { FlatHolds sides } by { FlatHolds-prop sides },
}

impl Flat {
    /// A process without areas or pages, with room for so many pages. The last child had this
    /// number, which is 0 before the first. It fails only for want of memory.
    pub fn new(alloc: Global, pages: u32, last: u32) -> Result<Flat, NoMemory>
        ensures memory { IfOk result
            (λ flat. ⟦<Flat as Memory>⟧.state flat ≡ opening_flat_memory pages) }
        ensures children { IfOk result
            (λ flat. ⟦<Flat as Process>⟧.children (⟦<Flat as Process>⟧.beside flat)
            ≡ record { numbers = []; live = 0; last = last; limit = 1 }) }
    {
        let memory = Side::new(alloc, pages)?;
        let kept = Side::new(alloc, pages)?;
        let sides = Sides {
            memory,
            kept,
            child: None,
            last,
            refused: 0,
            most: Snapshot::of(&0),
            born: Snapshot::of(&0),
        };
        Ok(Flat { sides })
    }
}
