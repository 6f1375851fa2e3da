//! The program `store_dump`: makes a store by the calls on standard input, and prints its pages.
#![tactic(auto)]

ghost use Rattle.store_meaning.specs.Standing.{IsStanding};

mod calls;
mod rows;

use calls::run_call;
use flat_memory::Flat;
use page_hash::begin;
use rows::print_store;
use std::{fmt, io};
use vm_base::{Fault, Memory, NoMemory};

// The pages that the store may have.
const PAGES: u32 = 1024;

/// Why there is no dump.
#[derive(Debug, Drop)]
enum NoDump {
    NoMemory,
    NoStore(Fault),
    /// The line, counted from 1, is no call, or its call was refused.
    Line(u64),
    Stream(io::Error),
}

impl fmt::Display for NoDump {
    fn fmt<W: fmt::Write>(&self, f: &mut fmt::Formatter<W>) -> fmt::Result {
        match self {
            NoDump::NoMemory => write!(f, "no memory"),
            NoDump::NoStore(fault) => write!(f, "no store: {fault:?}"),
            NoDump::Line(line) => write!(f, "line {line} makes nothing"),
            NoDump::Stream(error) => write!(f, "a stream failed: {error}"),
        }
    }
}

impl From<NoMemory> for NoDump {
    fn from(_refused: NoMemory) -> NoDump {
        NoDump::NoMemory
    }
}

impl From<io::Error> for NoDump {
    fn from(error: io::Error) -> NoDump {
        NoDump::Stream(error)
    }
}

/// Its lines are those of `calls.rt`, and it prints the rows of `rows.rt`.
fn main(rt: HostRuntime) -> Result<(), NoDump> {
    let mut flat = Flat::new(rt.alloc(), PAGES, 0)?;
    if let Err(fault) = begin(&mut flat) {
        return Err(NoDump::NoStore(fault));
    }
    run_calls(&rt, &mut flat)?;
    print_store(&rt, &mut flat)?;
    Ok(())
}

// Makes the calls of all lines.
fn run_calls<M: Memory>(rt: &(impl Input + AllocGlobal), m: &mut M) -> Result<(), NoDump>
    requires stands { IsStanding (M.state m.old) }
{
    let mut number = 0u64;
    for line in rt.lines(rt.alloc()) {
        number = number.saturating_add(1);
        if !run_call(m, line?.as_str()) {
            return Err(NoDump::Line(number));
        }
    }
    Ok(())
}
