//! A seat that is alone, two seats that tell each other, and four threads.
use crate::counter::{Counter, add};
use crate::race::race;
use crate::rounds::game;
use std::test::Fail;
use turn_cell::TurnCell;

#[test]
fn a_seat_is_told_who_has_the_turn(rt: HostRuntime) -> Result<(), Fail> {
    let Ok((cell, mut seats)) = TurnCell::new(rt.alloc(), Counter { sum: 7 }, 2) else {
        panic!(rt; "no memory");
    };
    let (Some(mut first), Some(mut second)) = (seats.take(), seats.take()) else {
        panic!(rt; "two seats");
    };
    assert_eq!(rt; (first.number(), second.number()), (0, 1));
    assert!(rt; seats.take().is_none());
    let turn = cell.turn(&rt, &mut first);
    match second.try_turn(&cell) {
        Ok(_) => panic!(rt; "two turns at once"),
        Err(busy) => assert_eq!(rt; busy.holder, 0),
    }
    turn.back_same();
    match second.try_turn(&cell) {
        Ok(mut turn) => {
            assert_eq!(rt; turn.value().sum, 7);
            turn.back_same();
        }
        Err(_) => panic!(rt; "the turn is free"),
    }
    Ok(())
}

#[test]
fn a_seat_sees_what_it_was_told(rt: HostRuntime) -> Result<(), Fail> {
    let Ok((cell, mut seats)) = TurnCell::new(rt.alloc(), Counter { sum: 5 }, 2) else {
        panic!(rt; "no memory");
    };
    let (Some(mut first), Some(mut second)) = (seats.take(), seats.take()) else {
        panic!(rt; "two seats");
    };
    assert_eq!(rt; add(&rt, &cell, &mut first, 10), 5);
    cell.tell(&mut first, &mut second);
    assert_eq!(rt; add(&rt, &cell, &mut second, 1), 15);
    seats.put(second);
    seats.put(first);
    Ok(())
}

#[test]
fn each_seat_that_sleeps_is_called(rt: HostRuntime) -> Result<(), Fail> {
    // A seat that no one called would sleep on, and the test would not end.
    assert_eq!(rt; game(&rt, rt.alloc(), 3, 1_000), Some(3_000));
    Ok(())
}

#[test]
fn four_threads_make_all_of_their_turns(rt: HostRuntime) -> Result<(), Fail> {
    // The sum of 0 to 19,999, four times.
    for _ in 0..3 {
        assert_eq!(rt; race(&rt, rt.alloc(), 4, 20_000), Some((799_960_000, true)));
    }
    Ok(())
}
