//! Seats out to threads, and back.
ghost use Rattle.std.specs.Prelude.{◌≡◌, ℕ, ◌+◌, ◌%◌, ◌^◌, ◌<◌, ◌≤◌, [], length, vec_capacity, IfSome, Some};
ghost use Rattle.turn_cell.specs.Seats.{CellId, IsSeatOf, IsSameSeat, cell_id, mine};
ghost use Rattle.turn_cell.specs.Lists.{IsList, IsNewList, IsWhole, list_id};
ghost use Rattle.turn_cell.specs.History.{entries_of};
ghost use Rattle.turn_counter.specs.Additions.{made_by, CountsTurns};
ghost use Rattle.turn_counter.specs.Jobs.{HaveMade, HasMadeAdditions};

use crate::counter::{Counter, add};
use std::alloc::Global;
use std::sync::Wait;
use std::thread;
use std::thread::Threads;
use turn_cell::{Seat, SeatList, TurnCell};

/// One thread's seat, and whether its replies rose as they must.
#[derive(Drop)]
pub struct Job {
    pub seat: Seat<Counter>,
    pub rising: bool,
}

/// Adds 0, 1, 2 and so on, one at a turn. Each reply is at least the one before it and what this
/// seat added then, where the sum does not wrap.
pub fn climb<R: Wait>(
    rt: &R,
    cell: &TurnCell<Counter>,
    seat: &mut Seat<Counter>,
    turns: u32,
) -> bool
    requires { IsSeatOf made_by (cell_id cell.now) seat.old }
    ensures seat { IsSeatOf made_by (cell_id cell.now) seat.new }
    ensures same { IsSameSeat seat.old seat.new }
    ensures made { length (mine seat.new) ≡ length (mine seat.old) + turns }
{
    let mut rising = true;
    let mut least = 0;
    for amount in 0..turns {
        let reply = add(rt, cell, seat, amount);
        rising = rising && least <= reply;
        least = reply.wrapping_add(u64::from(amount));
    }
    rising
}

pub fn hand_out(seats: &mut SeatList<Counter>, jobs: &mut Vec<Job>, threads: u32)
    requires list { IsList made_by seats.old }
    requires new { IsNewList seats.old × ((list_id seats.old).seats ≡ threads) }
    requires room { (jobs.old.items ≡ []) × (vec_capacity jobs.old ≡ threads) }
    ensures list { IsList made_by seats.new }
    ensures cell { list_id seats.new ≡ list_id seats.old }
    ensures jobs { HaveMade (list_id seats.old) 0 jobs.new.items }
{
    for _number in 0..threads {
        match seats.take() {
            Some(seat) => jobs.push_reserved(Job { seat, rising: true }),
            None => unreachable!(),
        }
    }
}

fn hand_in(seats: &mut SeatList<Counter>, mut jobs: Vec<Job>) -> bool
    requires list { IsList made_by seats.old }
    requires jobs { (count : ℕ) × HaveMade (list_id seats.old) count jobs.items }
    ensures list { IsList made_by seats.new }
    ensures cell { list_id seats.new ≡ list_id seats.old }
    ensures whole { IsWhole seats.new }
    ensures made { (count : ℕ) → HaveMade (list_id seats.old) count jobs.items
        → HasMadeAdditions seats.new count }
{
    let mut rising = true;
    while let Some(job) = jobs.pop() {
        let Job { seat, rising: rose } = job;
        rising = rising && rose;
        seats.put(seat);
    }
    rising
}

/// Threads that each climb as many turns. It gives the sum at the end, and whether all replies
/// rose; `None` where there is no memory.
pub fn race<R: Threads + Wait + Sync>(
    rt: &R,
    alloc: Global,
    threads: u32,
    turns: u32,
) -> Option<(u64, bool)>
    requires { 0 < threads }
    ensures { IfSome result (λ r. CountsTurns threads turns r.0) }
{
    let Ok(mut jobs) = Vec::with_capacity(alloc, threads as usize) else {
        return None;
    };
    let Ok((cell, mut seats)) = TurnCell::new(alloc, Counter { sum: 0 }, threads) else {
        return None;
    };
    hand_out(&mut seats, &mut jobs, threads);
    run(rt, &cell, jobs.as_mut_slice(), threads, turns);
    let rising = hand_in(&mut seats, jobs);
    let counter = cell.close(seats);
    Some((counter.sum, rising))
}

fn run<R: Threads + Wait + Sync>(
    rt: &R,
    cell: &TurnCell<Counter>,
    jobs: &mut [Job],
    threads: u32,
    turns: u32,
)
    requires some { 0 < threads }
    requires jobs { HaveMade (cell_id cell.now) 0 jobs.old }
    ensures jobs { HaveMade (cell_id cell.now) turns jobs.new }
{
    thread::for_each_mut(
        rt,
        jobs,
        threads as usize,
        &|_, job: &mut Job|
            requires { IsSeatOf made_by (cell_id cell.now) job.old.seat }
            ensures { IsSeatOf made_by (cell_id cell.entry.now) job.exit.now.seat
                × IsSameSeat job.entry.now.seat job.exit.now.seat
                × (length (mine job.exit.now.seat) ≡ length (mine job.entry.now.seat) + turns) }
        { job.rising = climb(rt, cell, &mut job.seat, turns) },
    );
}
