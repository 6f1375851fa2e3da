//! The program `store_bench`: makes the calls of standard input on a store in a kernel's pages, so
//! that they can be timed, and prints what each line counted.
#![tactic(auto)]

ghost use Rattle.store_meaning.specs.Standing.{IsStanding, MayBegin};

mod calls;
mod lines;
mod pairs;

use lines::run_line;
use std::{fmt, io};
use store_rows::{STORE_CELLS, store_in};
use trace_core::Kernel;
use vm_base::{Fault, Memory, NoMemory};

// The frames of the machine.
const FRAMES: u32 = 16_384;

/// Why the program ends early.
#[derive(Debug, Drop)]
enum NoRun {
    NoMemory,
    NoStore(Fault),
    /// The line, counted from 1, is no call, or one of its calls was refused.
    Line(u64),
    Stream(io::Error),
}

impl fmt::Display for NoRun {
    fn fmt<W: fmt::Write>(&self, f: &mut fmt::Formatter<W>) -> fmt::Result {
        match self {
            NoRun::NoMemory => write!(f, "no memory"),
            NoRun::NoStore(fault) => write!(f, "no store: {fault:?}"),
            NoRun::Line(line) => write!(f, "line {line} makes nothing"),
            NoRun::Stream(error) => write!(f, "a stream failed: {error}"),
        }
    }
}

impl From<NoMemory> for NoRun {
    fn from(_refused: NoMemory) -> NoRun {
        NoRun::NoMemory
    }
}

impl From<Fault> for NoRun {
    fn from(fault: Fault) -> NoRun {
        NoRun::NoStore(fault)
    }
}

impl From<io::Error> for NoRun {
    fn from(error: io::Error) -> NoRun {
        NoRun::Stream(error)
    }
}

/// Its lines are those of `lines.rt`; for each it prints the count.
fn main(rt: HostRuntime) -> Result<(), NoRun> {
    let kernel = Kernel::new(rt.alloc(), FRAMES, STORE_CELLS, 0, Vec::new(rt.alloc()))?;
    run_in(&rt, kernel)
}

// Begins a store in a memory, and makes the calls of all lines on it.
fn run_in<M: Memory + Drop>(rt: &(impl Input + Print + AllocGlobal), memory: M) -> Result<(), NoRun>
    requires may { MayBegin (M.state memory) }
{
    let mut store = store_in(memory)?;
    run_lines(rt, &mut store)
}

// Makes the calls of all lines.
fn run_lines<M: Memory>(rt: &(impl Input + Print + AllocGlobal), m: &mut M) -> Result<(), NoRun>
    requires stands { IsStanding (M.state m.old) }
{
    let mut number = 0u64;
    for line in rt.lines(rt.alloc()) {
        number = number.saturating_add(1);
        match run_line(m, line?.as_str()) {
            None => return Err(NoRun::Line(number)),
            Some(count) => println!(rt; "{count}")?,
        }
    }
    Ok(())
}
