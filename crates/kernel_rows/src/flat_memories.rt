//! The process at concrete values, called itself and by callers that take any memory, process or
//! nest.
ghost use Rattle.std.specs.Prelude.{IsTrue};
ghost use Rattle.flat_memory.specs.FlatSeen.{is_child};

use flat_memory::{Flat, FlatChild};
use memory_uses::{
    begin, copy_child, double, fork_and_write, map_and_protect, read_child, reap_one, write_at,
    write_both,
};
use std::test::Fail;
use vm_base::{Fault, ForkFault, Memory, Mode, Perm, Process, SnapFault};

#[test]
fn a_second_page_finds_no_room(rt: HostRuntime) -> Result<(), Fail> {
    let mut flat = Flat::new(rt.alloc(), 1, 0)?;
    assert_eq!(rt; flat.map(0x100, 3, Perm::ReadWrite), Ok(()));
    assert_eq!(rt; flat.touch(0x10_0000, 1), Ok(()));
    let lacks = Fault::NoFrame { at: 1, page: 0x101 };
    assert_eq!(rt; flat.touch(0x10_1000, 1), Err(lacks));
    // A page that is present wants none, and each refusal counts.
    assert_eq!(rt; flat.touch(0x10_0fff, 1), Ok(()));
    let lacks = Fault::NoFrame { at: 2, page: 0x101 };
    assert_eq!(rt; flat.touch(0x10_0fff, 2), Err(lacks));
    // A page that is unmapped makes room for one.
    assert_eq!(rt; flat.unmap(0x100, 1), Ok(()));
    assert_eq!(rt; flat.touch(0x10_1000, 1), Ok(()));
    let lacks = Fault::NoFrame { at: 3, page: 0x102 };
    assert_eq!(rt; flat.touch(0x10_1000, 0x2000), Err(lacks));
    Ok(())
}

#[test]
fn it_is_a_memory(rt: HostRuntime) -> Result<(), Fail> {
    let mut flat = Flat::new(rt.alloc(), 3, 0)?;
    assert_eq!(rt; flat.map(0x100, 4, Perm::ReadWrite), Ok(()));
    assert_eq!(rt; flat.map(0x103, 1, Perm::Read), Err(Fault::Overlap(0x103)));
    // Pages in any order, and bytes over the end of one.
    assert_eq!(rt; write_at(&mut flat, 0x10_2000, b"c"), Ok(()));
    assert_eq!(rt; write_at(&mut flat, 0x10_0fff, b"ab"), Ok(()));
    let mut bytes = [7; 4];
    assert_eq!(rt; flat.read(0x10_0ffe, &mut bytes), Ok(()));
    assert_eq!(rt; bytes, [0, 97, 98, 0]);
    assert_eq!(rt; flat.read(0x10_1fff, &mut bytes), Ok(()));
    assert_eq!(rt; bytes, [0, 99, 0, 0]);
    // An absent page reads as zeros.
    assert_eq!(rt; flat.read(0x10_3ffc, &mut bytes), Ok(()));
    assert_eq!(rt; bytes, [0; 4]);
    assert_eq!(rt; flat.read(0x10_3ffd, &mut bytes), Err(Fault::NoArea(0x104)));
    assert_eq!(rt; flat.protect(0x101, 1, Perm::Read), Ok(()));
    assert_eq!(rt;
        write_at(&mut flat, 0x10_0fff, b"xy"),
        Err(Fault::NoWrite(0x101))
    );
    assert_eq!(rt;
        flat.protect(0x102, 9, Perm::Read),
        Err(Fault::NoArea(0x104))
    );
    assert_eq!(rt; flat.unmap(0x101, 1), Ok(()));
    assert_eq!(rt; flat.read(0x10_1000, &mut bytes), Err(Fault::NoArea(0x101)));
    assert_eq!(rt; flat.read(0x10_2000, &mut bytes), Ok(()));
    assert_eq!(rt; bytes, [99, 0, 0, 0]);
    Ok(())
}

#[test]
fn callers_of_any_memory_run_on_it(rt: HostRuntime) -> Result<(), Fail> {
    let mut flat = Flat::new(rt.alloc(), 8, 0)?;
    // A header, a heap and an array, of each the first page.
    assert_eq!(rt; begin(&mut flat, 0x100, 0x200, 8, 0x300, 2), Ok(()));
    assert_eq!(rt;
        write_both(&mut flat, 0x20_0000, b"one", 0x20_0800, b"two"),
        Ok(())
    );
    assert_eq!(rt; map_and_protect(&mut flat, 0x400, 2, Perm::Read), Ok(()));
    assert_eq!(rt;
        write_at(&mut flat, 0x40_0000, b"x"),
        Err(Fault::NoWrite(0x400))
    );
    // The array is made anew in twice as many pages, and the old one is gone.
    assert_eq!(rt;
        double(&mut flat, 0x500, 4, 0x10_0000, b"new", 0x300, 2),
        Ok(())
    );
    let mut bytes = [7; 3];
    assert_eq!(rt; flat.read(0x10_0000, &mut bytes), Ok(()));
    assert_eq!(rt; &bytes, b"new");
    assert_eq!(rt; flat.read(0x30_0000, &mut bytes), Err(Fault::NoArea(0x300)));
    // A doubling that finds no room leaves the memory.
    let lacks = Fault::NoFrame { at: 1, page: 0x602 };
    assert_eq!(rt;
        double(&mut flat, 0x600, 8, 0x10_0000, b"old", 0x500, 4),
        Err(lacks)
    );
    assert_eq!(rt; flat.read(0x10_0000, &mut bytes), Ok(()));
    assert_eq!(rt; &bytes, b"new");
    assert_eq!(rt; flat.read(0x60_0000, &mut bytes), Err(Fault::NoArea(0x600)));
    Ok(())
}

// What a child tells before it is reaped: bytes of it, a read outside, and how copying it ends.
#[derive(Clone, Copy, Debug, PartialEq, Eq)]
struct Told {
    read: Result<(), SnapFault>,
    bytes: [u8; 2],
    outside: Result<(), SnapFault>,
    copied: Option<u64>,
}

// Copies a child through, reads it twice, and reaps it.
fn told_and_reaped(flat: &mut Flat, mut child: FlatChild) -> Told
    requires lives { IsTrue (is_child flat.old.sides.child child.number) }
{
    let copied = copy_child(flat, &mut child).ok();
    let mut bytes = [7; 2];
    let read = read_child(flat, &mut child, 0x10_0fff, &mut bytes);
    let mut beyond = [7; 2];
    let outside = read_child(flat, &mut child, 0x10_3fff, &mut beyond);
    reap_one(flat, child);
    Told {
        read,
        bytes,
        outside,
        copied,
    }
}

// What a child tells that is forked before bytes are written.
fn told_by_a_child(flat: &mut Flat) -> Option<Told> {
    match fork_and_write(flat, 0x10_0fff, b"xy") {
        Ok(child) => Some(told_and_reaped(flat, child)),
        Err(_) => None,
    }
}

#[test]
fn a_child_reads_what_was_there_at_its_fork(rt: HostRuntime) -> Result<(), Fail> {
    let mut flat = Flat::new(rt.alloc(), 4, 6)?;
    assert_eq!(rt; flat.map(0x100, 4, Perm::ReadWrite), Ok(()));
    assert_eq!(rt; write_at(&mut flat, 0x10_0fff, b"ab"), Ok(()));
    let first = Told {
        read: Ok(()),
        bytes: [97, 98],
        outside: Err(SnapFault::NoArea(0x104)),
        copied: Some(0),
    };
    assert_eq!(rt; told_by_a_child(&mut flat), Some(first));
    assert_eq!(rt; flat.live(), 0);
    assert_eq!(rt; flat.last(), 7);
    assert_eq!(rt; flat.limit(), 1);
    // The next child has what the first did not see.
    let second = Told {
        bytes: [120, 121],
        ..first
    };
    assert_eq!(rt; told_by_a_child(&mut flat), Some(second));
    assert_eq!(rt; flat.last(), 8);
    Ok(())
}

// Why there is no child.
fn refusal(flat: &mut Flat) -> Option<ForkFault> {
    match flat.fork(Mode::Async) {
        Ok(child) => {
            reap_one(flat, child);
            None
        }
        Err(fault) => Some(fault),
    }
}

#[test]
fn each_number_is_given_once(rt: HostRuntime) -> Result<(), Fail> {
    let mut flat = Flat::new(rt.alloc(), 1, 4_294_967_294)?;
    match flat.fork(Mode::Eager) {
        Ok(child) => {
            assert_eq!(rt; Flat::number(&child), 4_294_967_295);
            let told = told_and_reaped(&mut flat, child);
            assert_eq!(rt; told.copied, Some(0));
        }
        Err(_) => assert!(rt; false),
    }
    assert_eq!(rt; refusal(&mut flat), Some(ForkFault::NumbersSpent));
    Ok(())
}
