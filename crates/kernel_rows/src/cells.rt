//! A cell over an allot that counts.
use crate::supply::Supply;
use leaf_cell::{Cell, LeafState};
use std::alloc::Global;
use std::test::Fail;
use vm_base::{Allot, Lost, Mode, NoMemory, Perm, Want};

#[test]
fn a_new_cell_holds_nothing(rt: HostRuntime) -> Result<(), Fail> {
    let cell = Cell::new(rt.alloc())?;
    assert_eq!(rt; cell.held(), 0);
    assert_eq!(rt; cell.pages(), 0);
    assert_eq!(rt; cell.has_pages(), false);
    assert_eq!(rt; cell.state(7), LeafState::Absent);
    assert_eq!(rt; cell.snap(0), None);
    let mut buf = [9; 3];
    cell.read(511, 4093, &mut buf);
    assert_eq!(rt; &buf, b"\0\0\0");
    Ok(())
}

/// What a page is stored to before and after an eager fork leaves.
#[derive(Drop)]
struct Trial {
    // Frames in the cell after each call: the first touch, the fork, the touch after it, the
    // clear, the drop.
    held: [u32; 5],
    state: LeafState,
    parent: [u8; 2],
    snapshot: Result<[u8; 2], Lost>,
    refused: u64,
    out: u64,
}

fn write_around_a_fork(alloc: Global, left: u32) -> Result<Option<Trial>, NoMemory> {
    let mut supply = Supply::new(alloc, left);
    let mut cell = Cell::new(alloc)?;
    let Ok(()) = cell.touch(0, &mut supply) else {
        return Ok(None);
    };
    let touched = cell.held();
    cell.store(0, 0, b"ab");
    let Ok(()) = cell.fork_eager(1, &mut supply) else {
        return Ok(None);
    };
    let forked = cell.held();
    let Ok(()) = cell.touch(0, &mut supply) else {
        return Ok(None);
    };
    cell.store(0, 0, b"z");
    let copied = cell.held();
    let mut parent = [0; 2];
    cell.read(0, 0, &mut parent);
    let mut buf = [0; 2];
    let snapshot = match cell.snap_read(1, 0, 0, &mut buf) {
        Ok(()) => Ok(buf),
        Err(lost) => Err(lost),
    };
    let state = cell.state(1);
    cell.clear(0, 512, &mut supply);
    let cleared = cell.held();
    cell.drop_snap(1, &mut supply);
    Ok(Some(Trial {
        held: [touched, forked, copied, cleared, cell.held()],
        state,
        parent,
        snapshot,
        refused: supply.refused,
        out: supply.out,
    }))
}

#[test]
fn a_write_after_the_fork_is_not_in_the_snapshot(rt: HostRuntime) -> Result<(), Fail> {
    // With three frames the copy is refused, and the snapshot's table goes back.
    let cases = [
        (9, [2, 3, 4, 2, 0], LeafState::Own, Ok(*b"ab"), 0),
        (4, [2, 3, 4, 2, 0], LeafState::Own, Ok(*b"ab"), 0),
        (
            3,
            [2, 3, 2, 0, 0],
            LeafState::Lost(1),
            Err(Lost { at: 1 }),
            1,
        ),
    ];
    for (left, held, state, snapshot, refused) in cases {
        let trial = write_around_a_fork(rt.alloc(), left)?;
        let Some(trial) = trial else {
            panic!(rt; "{left} frames are enough");
        };
        assert_eq!(rt; trial.held, held);
        assert_eq!(rt; trial.state, state);
        assert_eq!(rt; &trial.parent, b"zb");
        assert_eq!(rt; trial.snapshot, snapshot);
        assert_eq!(rt; trial.refused, refused);
        assert_eq!(rt; trial.out, 0);
    }
    for left in 0..3 {
        assert!(rt; write_around_a_fork(rt.alloc(), left)?.is_none());
    }
    Ok(())
}

/// What the leaf of an async fork goes through.
#[derive(Drop)]
struct Course {
    // The leaf after the fork, after it got a table of its own, and after its loss, and the frames
    // in the cell then.
    states: [LeafState; 3],
    held: [u32; 3],
    parent: [u8; 2],
    out: u64,
}

fn lose_a_lazy_leaf(alloc: Global) -> Result<Option<Course>, NoMemory> {
    let mut supply = Supply::new(alloc, 3);
    let mut cell = Cell::new(alloc)?;
    let Ok(()) = cell.touch(3, &mut supply) else {
        return Ok(None);
    };
    cell.store(3, 0, b"ab");
    cell.set_lazy(1, Mode::Async);
    let forked = (cell.state(1), cell.held());
    let Ok(frame) = supply.take(Want::Leaf) else {
        return Ok(None);
    };
    cell.own_leaf(1, frame);
    let owned = (cell.state(1), cell.held());
    cell.protect(0, 512, Perm::Read, &mut supply);
    cell.lose(1, 7, &mut supply);
    let mut parent = [0; 2];
    cell.read(3, 0, &mut parent);
    Ok(Some(Course {
        states: [forked.0, owned.0, cell.state(1)],
        held: [forked.1, owned.1, cell.held()],
        parent,
        out: supply.out,
    }))
}

#[test]
fn a_joined_leaf_is_owned_and_then_lost(rt: HostRuntime) -> Result<(), Fail> {
    let course = lose_a_lazy_leaf(rt.alloc())?;
    let Some(course) = course else {
        panic!(rt; "three frames are enough");
    };
    let states = [LeafState::Marked, LeafState::Own, LeafState::Lost(7)];
    assert_eq!(rt; course.states, states);
    assert_eq!(rt; course.held, [2, 3, 2]);
    assert_eq!(rt; &course.parent, b"ab");
    assert_eq!(rt; course.out, 2);
    Ok(())
}
