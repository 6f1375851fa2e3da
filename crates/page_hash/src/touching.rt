//! Touches of ranges that belong to a store.
ghost use Rattle.std.specs.Prelude.{◌≡◌, ◌<◌, OnOk, IfErr};
ghost use Rattle.vm_base.specs.MemoryState.{IsKept};
ghost use Rattle.store_meaning.specs.Layout.{store_cells};
ghost use Rattle.store_meaning.specs.HeapLayout.{ArePresent};
ghost use Rattle.store_meaning.specs.Standing.{MayHoldStore};
ghost use Rattle.page_hash.specs.Touching.{IsOfStore, MakesPresent, LacksStorePage, MakesReady, told_count};

use vm_base::{Fault, Memory, Refused};

// Makes the pages of a range present. It is refused for want of a frame alone.
pub fn touch_range<M: Memory>(m: &mut M, addr: u64, len: u64) -> Result<(), Refused>
    requires may { MayHoldStore (M.state m.old) }
    requires range { IsOfStore (M.state m.old).mem addr len }
    ensures touched { OnOk result (MakesPresent (M.state m.old) (M.state m.new) addr len) }
    ensures refused { IfErr result
        (λ refused. LacksStorePage (M.state m.old) (M.state m.new) addr len refused.at) }
    ensures keeps { IsKept (M.state m.old) (M.state m.new) store_cells }
    ensures aside { M.aside m.new ≡ M.aside m.old }
    ensures went { M.went m.old m.new }
{
    match m.touch(addr, len) {
        Ok(()) => Ok(()),
        Err(fault) => Err(refused_by(fault)),
    }
}

// The count that a fault tells where a frame was wanting.
fn refused_by(fault: Fault) -> Refused
    ensures at { result.at ≡ told_count fault }
{
    match fault {
        Fault::NoFrame { at, .. } => Refused { at },
        Fault::NoArea(_) => Refused { at: 0 },
        Fault::NoWrite(_) => Refused { at: 0 },
        Fault::Overlap(_) => Refused { at: 0 },
        Fault::AreasFull => Refused { at: 0 },
        Fault::CellsFull => Refused { at: 0 },
    }
}

// Makes a range ready whose pages are present. So it is not refused.
pub fn touch_present<M: Memory>(m: &mut M, addr: u64, len: u64)
    requires may { MayHoldStore (M.state m.old) }
    requires range { IsOfStore (M.state m.old).mem addr len }
    requires present { (0 < len) × ArePresent (M.state m.old).mem addr len }
    ensures ready { MakesReady (M.state m.old) (M.state m.new) addr len }
    ensures keeps { IsKept (M.state m.old) (M.state m.new) store_cells }
    ensures aside { M.aside m.new ≡ M.aside m.old }
    ensures went { M.went m.old m.new }
{
    let _touched = touch_range(m, addr, len);
}
