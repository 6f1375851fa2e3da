//! Rounds in which one seat keeps the turn until all the others sleep.
ghost use Rattle.std.specs.Prelude.{◌<◌};
ghost use Rattle.turn_cell.specs.Seats.{IsSeatOf, cell_id};
ghost use Rattle.turn_counter.specs.Additions.{made_by};
ghost use Rattle.turn_counter.specs.Jobs.{HaveMade};

use crate::counter::{Counter, add};
use crate::race::{Job, hand_out};
use std::alloc::Global;
use std::sync::Wait;
use std::sync::atomic::AtomicU64;
use std::sync::atomic::Ordering::SeqCst;
use std::thread;
use std::thread::Threads;
use std::time::{Clock, Duration};
use turn_cell::{Seat, TurnCell};

/// What the threads of a game tell each other, besides the lock.
#[derive(Drop)]
pub struct Signals {
    /// How many rounds have begun.
    begun: AtomicU64,
    /// How many turns were had in them.
    had: AtomicU64,
}

fn wait_for<R: Wait + Clock>(rt: &R, count: &AtomicU64, least: u64) {
    for _ in rt.forever() {
        if least <= count.load(SeqCst) {
            return;
        }
        thread::sleep(rt, Duration::from_micros(50));
    }
    unreachable!()
}

// In every fourth round the turn is kept until the others have given up looking, and sleep. In the
// other rounds it is given back at once.
fn keep<R: Wait + Clock>(
    rt: &R,
    cell: &TurnCell<Counter>,
    seat: &mut Seat<Counter>,
    signals: &Signals,
    round: u64,
)
    requires { IsSeatOf made_by (cell_id cell.now) seat.old }
    ensures { IsSeatOf made_by (cell_id cell.now) seat.new }
{
    let turn = cell.turn(rt, seat);
    signals.begun.fetch_add(1, SeqCst);
    if round % 4 == 0 {
        thread::sleep(rt, Duration::from_millis(2));
    }
    turn.back_same();
}

fn play<R: Wait + Clock>(
    rt: &R,
    cell: &TurnCell<Counter>,
    seat: &mut Seat<Counter>,
    signals: &Signals,
    others: u32,
    rounds: u32,
)
    requires { IsSeatOf made_by (cell_id cell.now) seat.old }
    ensures { IsSeatOf made_by (cell_id cell.now) seat.new }
{
    let keeps = seat.number() == 0;
    for round in 0..rounds {
        let round = u64::from(round);
        if keeps {
            keep(rt, cell, seat, signals, round);
            wait_for(
                rt,
                &signals.had,
                (round + 1).wrapping_mul(u64::from(others)),
            );
        } else {
            wait_for(rt, &signals.begun, round + 1);
            add(rt, cell, seat, 1);
            signals.had.fetch_add(1, SeqCst);
        }
    }
}

fn play_all<R: Threads + Wait + Clock + Sync>(
    rt: &R,
    cell: &TurnCell<Counter>,
    jobs: &mut [Job],
    signals: &Signals,
    others: u32,
    rounds: u32,
)
    requires some { others < 4294967295 }
    requires jobs { HaveMade (cell_id cell.now) 0 jobs.old }
{
    thread::for_each_mut(
        rt,
        jobs,
        others as usize + 1,
        &|_, job: &mut Job|
            requires { IsSeatOf made_by (cell_id cell.now) job.old.seat }
        { play(rt, cell, &mut job.seat, signals, others, rounds) },
    );
}

/// Plays so many rounds with that many seats besides the one that keeps the turn. It gives how
/// many turns these had, and `None` where there is no memory.
pub fn game<R: Threads + Wait + Clock + Sync>(
    rt: &R,
    alloc: Global,
    others: u32,
    rounds: u32,
) -> Option<u64>
    requires { others < 4294967295 }
{
    let threads = others + 1;
    let Ok(mut jobs) = Vec::with_capacity(alloc, threads as usize) else {
        return None;
    };
    let Ok((cell, mut seats)) = TurnCell::new(alloc, Counter { sum: 0 }, threads) else {
        return None;
    };
    let signals = Signals {
        begun: AtomicU64::new(0),
        had: AtomicU64::new(0),
    };
    hand_out(&mut seats, &mut jobs, threads);
    play_all(rt, &cell, jobs.as_mut_slice(), &signals, others, rounds);
    Some(signals.had.load(SeqCst))
}
