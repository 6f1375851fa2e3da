//! A supply, and the kernel as a memory, a process and a nest, at concrete values.
ghost use Rattle.std.specs.Prelude.{IsTrue};
ghost use Rattle.kernel_meaning.specs.Leaves.{holds_number};
ghost use Rattle.trace_core.specs.KernelStanding.{kept_number};

use frame_pool::{DenyNth, FramePolicy, SnapQuota};
use memory_uses::{fork_and_write, read_child, reap_one, write_at};
use std::test::Fail;
use trace_core::{Kernel, SoloChild, Supply};
use vm_base::{
    Allot, Asker, CopyFault, Fault, ForkFault, Frame, Memory, Mode, Nest, Perm, Process, Refused,
    SnapFault, Step, Want,
};

// The count of a refusal, where there was one.
fn refusal(answer: Result<Frame, Refused>) -> Option<u64> {
    match answer {
        Ok(_) => None,
        Err(refused) => Some(refused.at),
    }
}

#[test]
fn a_named_request_reaches_no_policy(rt: HostRuntime) -> Result<(), Fail> {
    let mut policies: Vec<Box<dyn FramePolicy + Send>> = Vec::new(rt.alloc());
    policies.push(Box::new(rt.alloc(), DenyNth::new(2))?)?;
    let mut supply = Supply::new(rt.alloc(), 3, policies)?;
    // The last of two refuse lines counts.
    supply.refuse(1);
    supply.refuse(2);
    // The second request is named, the third is the second that reaches the policy, and the sixth
    // finds no frame.
    for answer in [None, Some(1), Some(2), None, None, Some(3)] {
        assert_eq!(rt; refusal(supply.take(Want::Page)), answer);
    }
    assert_eq!(rt; supply.held(), 3);
    assert_eq!(rt; supply.free(), 0);
    assert_eq!(rt; supply.refused(), 3);
    Ok(())
}

#[test]
fn a_policy_is_told_who_asks(rt: HostRuntime) -> Result<(), Fail> {
    let mut policies: Vec<Box<dyn FramePolicy + Send>> = Vec::new(rt.alloc());
    policies.push(Box::new(rt.alloc(), SnapQuota::new(1))?)?;
    let mut supply = Supply::new(rt.alloc(), 8, policies)?;
    assert_eq!(rt; refusal(supply.take(Want::Page)), None);
    assert_eq!(rt; refusal(supply.take(Want::Page)), None);
    supply.ask_as(Asker::Snapshot(1), 0);
    for answer in [None, Some(1), Some(2)] {
        assert_eq!(rt; refusal(supply.take(Want::Leaf)), answer);
    }
    assert_eq!(rt; supply.held(), 3);
    Ok(())
}

#[test]
fn each_asker_has_its_own_count(rt: HostRuntime) -> Result<(), Fail> {
    let mut supply = Supply::new(rt.alloc(), 1, Vec::new(rt.alloc()))?;
    let Ok(frame) = supply.take(Want::Leaf) else {
        return Err(Fail::new("no frame"));
    };
    assert_eq!(rt; refusal(supply.take(Want::Leaf)), Some(1));
    let parents = supply.ask_as(Asker::Snapshot(7), 4);
    assert_eq!(rt; parents, 1);
    assert_eq!(rt; refusal(supply.take(Want::Leaf)), Some(5));
    assert_eq!(rt; supply.ask_as(Asker::Parent, parents), 5);
    assert_eq!(rt; supply.refused(), 1);
    supply.give(frame);
    assert_eq!(rt; supply.free(), 1);
    assert_eq!(rt; supply.held(), 0);
    Ok(())
}

#[test]
fn the_kernel_is_a_memory(rt: HostRuntime) -> Result<(), Fail> {
    let mut kernel = Kernel::new(rt.alloc(), 5, 8, 0, Vec::new(rt.alloc()))?;
    assert_eq!(rt; kernel.map(0x100, 2, Perm::ReadWrite), Ok(()));
    assert_eq!(rt; write_at(&mut kernel, 0x10_0000, b"ab"), Ok(()));
    let mut bytes = [7; 3];
    assert_eq!(rt; kernel.read(0x10_0000, &mut bytes), Ok(()));
    assert_eq!(rt; bytes, [97, 98, 0]);
    assert_eq!(rt; kernel.held(), 5);
    // The second page would take a sixth frame.
    let lacks = Fault::NoFrame { at: 1, page: 0x101 };
    assert_eq!(rt; write_at(&mut kernel, 0x10_1000, b"a"), Err(lacks));
    assert_eq!(rt;
        write_at(&mut kernel, 0x30_0000, b"a"),
        Err(Fault::NoArea(0x300))
    );
    assert_eq!(rt; kernel.protect(0x100, 1, Perm::Read), Ok(()));
    assert_eq!(rt;
        write_at(&mut kernel, 0x10_0000, b"a"),
        Err(Fault::NoWrite(0x100))
    );
    assert_eq!(rt; kernel.unmap(0x100, 1), Ok(()));
    assert_eq!(rt; kernel.held(), 0);
    Ok(())
}

// What a snapshot tells before it is reaped: a byte of it, read twice, and how copying it ends.
#[derive(Clone, Copy, Debug, PartialEq, Eq)]
struct Told {
    read: Result<(), SnapFault>,
    bytes: [u8; 1],
    again: [u8; 1],
    copied: Result<Step, CopyFault>,
}

// Reads a snapshot twice and copies it, and reaps it.
fn told_and_reaped(kernel: &mut Kernel, mut child: SoloChild) -> Told
    requires lives { IsTrue (holds_number (kept_number kernel.old.parts.snapshot) child.number) }
{
    let copied = kernel.child_copy(&mut child);
    let mut bytes = [7; 1];
    let read = read_child(kernel, &mut child, 0x10_0000, &mut bytes);
    let mut again = [8; 1];
    let _ = read_child(kernel, &mut child, 0x10_0000, &mut again);
    reap_one(kernel, child);
    Told {
        read,
        bytes,
        again,
        copied,
    }
}

// What a snapshot tells that is forked before a byte is written.
fn told_by_a_child(kernel: &mut Kernel) -> Option<Told> {
    match fork_and_write(kernel, 0x10_0000, b"b") {
        Ok(child) => Some(told_and_reaped(kernel, child)),
        Err(_) => None,
    }
}

#[test]
fn the_kernel_is_a_process_and_a_nest(rt: HostRuntime) -> Result<(), Fail> {
    let mut kernel = Kernel::new(rt.alloc(), 64, 8, 6, Vec::new(rt.alloc()))?;
    assert_eq!(rt; kernel.map(0x100, 2, Perm::ReadWrite), Ok(()));
    assert_eq!(rt; write_at(&mut kernel, 0x10_0000, b"a"), Ok(()));
    let whole = Told {
        read: Ok(()),
        bytes: [97],
        again: [97],
        copied: Ok(Step::AllDone),
    };
    assert_eq!(rt; told_by_a_child(&mut kernel), Some(whole));
    assert_eq!(rt; kernel.live(), 0);
    assert_eq!(rt; kernel.last(), 7);
    assert_eq!(rt; kernel.held(), 5);
    Ok(())
}

#[test]
fn no_number_is_left_behind_the_last(rt: HostRuntime) -> Result<(), Fail> {
    let mut kernel = Kernel::new(rt.alloc(), 64, 8, 4_294_967_295, Vec::new(rt.alloc()))?;
    match kernel.fork(Mode::Eager) {
        Ok(child) => {
            let _ = told_and_reaped(&mut kernel, child);
            assert!(rt; false);
        }
        Err(fault) => assert_eq!(rt; fault, ForkFault::NumbersSpent),
    }
    Ok(())
}

#[test]
fn a_lost_cell_is_told_by_a_read_and_by_a_copy(rt: HostRuntime) -> Result<(), Fail> {
    let mut policies: Vec<Box<dyn FramePolicy + Send>> = Vec::new(rt.alloc());
    // The touch of the page takes five frames and the fork four: the tenth is the copy.
    policies.push(Box::new(rt.alloc(), DenyNth::new(10))?)?;
    let mut kernel = Kernel::new(rt.alloc(), 64, 8, 0, policies)?;
    assert_eq!(rt; kernel.map(0x100, 2, Perm::ReadWrite), Ok(()));
    assert_eq!(rt; write_at(&mut kernel, 0x10_0000, b"a"), Ok(()));
    let lost = Told {
        read: Err(SnapFault::Lost { at: 1 }),
        bytes: [7],
        again: [8],
        copied: Err(CopyFault::Lost { at: 1 }),
    };
    assert_eq!(rt; told_by_a_child(&mut kernel), Some(lost));
    Ok(())
}
