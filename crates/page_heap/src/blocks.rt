//! The calls on a heap that stands.
ghost use Rattle.std.specs.Prelude.{◌≡◌, ◌+◌, ◌^◌, ◌-◌, ◌≤◌, ◌<◌, []};
ghost use Rattle.vm_base.specs.MemoryState.{IsKept};
ghost use Rattle.vm_base.specs.MemoryCalls.{IsReady};
ghost use Rattle.store_meaning.specs.Layout.{header_at, heap_at, heap_end};
ghost use Rattle.store_meaning.specs.HeapLayout.{Heap, IsHeap, committed, freed};
ghost use Rattle.page_heap.specs.HeapCalls.{HasHeap, IsPlanned, IsInUse, HasInUse, block_plan, commit_store, free_store};

use crate::layout::{HEADER, class_for, list_field_of};
use crate::planned::Plan;
use crate::words::{read_word, store_word};
use vm_base::Memory;

/// The block that a commit would take for so many bytes. It changes nothing.
pub fn plan<M: Memory>(m: &mut M, size: u32) -> Plan
    requires heap { HasHeap (M.state m.old) }
    requires size { (0 < size) × (size ≤ 2097152) }
    ensures plan { (heap : Heap) → IsHeap (M.state m.old).mem heap → result ≡ block_plan heap size }
    ensures within { (heap_at ≤ result.addr) × (result.addr + 2 ^ result.class ≤ heap_end) }
    ensures same { M.state m.new ≡ M.state m.old }
    ensures aside { M.aside m.new ≡ M.aside m.old }
    ensures went { M.went m.old m.new }
{
    let class = class_for(size);
    let first = read_word(m, list_field_of(class));
    if first != 0 {
        return Plan {
            addr: first,
            class,
            fresh: false,
        };
    }
    let top = read_word(m, HEADER);
    Plan {
        addr: top,
        class,
        fresh: true,
    }
}

/// Takes the block of a plan. The header and the first half of the block have been touched.
pub fn commit<M: Memory>(m: &mut M, plan: &Plan)
    requires planned { IsPlanned (M.state m.old) plan.now }
    requires header { IsReady (M.state m.old) header_at 4096 }
    requires half { IsReady (M.state m.old) plan.now.addr (2 ^ (plan.now.class - 1)) }
    ensures heap { (heap : Heap) → IsHeap (M.state m.old).mem heap
        → IsHeap (M.state m.new).mem (committed heap plan.now.class) }
    ensures stored { M.state m.new ≡ commit_store (M.state m.old) plan.now }
    ensures keeps { IsKept (M.state m.old) (M.state m.new) [] }
    ensures aside { M.aside m.new ≡ M.aside m.old }
    ensures went { M.went m.old m.new }
{
    if plan.fresh {
        store_word(m, HEADER, plan.addr + (1 << plan.class));
    } else {
        let next = read_word(m, plan.addr);
        store_word(m, list_field_of(plan.class), next);
    }
}

/// Gives a block in use back, in front of the free ones of its class. The header and the first 8
/// bytes of the block have been touched.
pub fn free<M: Memory>(m: &mut M, addr: u64, class: u8)
    requires used { IsInUse (M.state m.old).mem addr class }
    requires header { IsReady (M.state m.old) header_at 4096 }
    requires block { IsReady (M.state m.old) addr 8 }
    ensures heap { (heap : Heap) → IsHeap (M.state m.old).mem heap → HasInUse heap addr class
        → IsHeap (M.state m.new).mem (freed heap addr class) }
    ensures stored { M.state m.new ≡ free_store (M.state m.old) addr class }
    ensures keeps { IsKept (M.state m.old) (M.state m.new) [] }
    ensures aside { M.aside m.new ≡ M.aside m.old }
    ensures went { M.went m.old m.new }
{
    let first = read_word(m, list_field_of(class));
    store_word(m, addr, first);
    store_word(m, list_field_of(class), addr);
}
