//! The kernel on frames beside the one on plain pages: where no request is refused, both print the
//! same lines.
ghost use Rattle.std.specs.Prelude.{◌≡◌, ◌≤◌, length, unwrap_or, None, IfOk, OnOk};
ghost use Rattle.vm_base.specs.TwoSides.{World};
ghost use Rattle.trace_events.specs.EventBounds.{IsWithinBounds, IsAboveLast, fork_number};
ghost use Rattle.plain_kernel.specs.KernelStep.{IsServed, world_after};

use plain_kernel::{
    Event as PlainEvent, Kernel as PlainKernel, MOST_FRAMES, Outcome as PlainOutcome,
};
use std::alloc::Global;
use std::test::Fail;
use trace_core::{Kernel, Standing};
use trace_events::{Event, Outcome};
use trace_text::outcome_text;
use vm_base::{Bytes, Mode, NoMemory, Perm};

/// Frames for all that the parent and its snapshot can hold of the pages.
const FRAMES: u32 = 64;
/// The pages of the area, which begins at the first.
const PAGES: u64 = 8;
/// The accesses on each side of the fork.
const ACCESSES: u32 = 12;

/// The next number that a generator gives.
fn next_seed(seed: u64) -> u64 {
    let seed = seed ^ (seed << 13);
    let seed = seed ^ (seed >> 7);
    seed ^ (seed << 17)
}

/// The outcome of the plain kernel as one of the other.
fn outcome_of(outcome: PlainOutcome) -> Outcome {
    match outcome {
        PlainOutcome::Done => Outcome::Done,
        PlainOutcome::Bytes(bytes) => Outcome::Bytes(bytes),
        PlainOutcome::NoArea(page) => Outcome::NoArea(page),
        PlainOutcome::NoWrite(page) => Outcome::NoWrite(page),
        PlainOutcome::Overlap(page) => Outcome::Overlap(page),
        PlainOutcome::AreasFull => Outcome::AreasFull,
        PlainOutcome::NoSnap => Outcome::NoSnap,
        PlainOutcome::Lost(at) => Outcome::Lost(at),
    }
}

/// The line that the kernel on frames prints for the event.
fn framed_line(alloc: Global, framed: &mut Kernel, event: &Event) -> Result<Bytes, NoMemory>
    requires within { IsWithinBounds event.now }
    requires numbered { IsAboveLast (⟦<Kernel as Standing>⟧.parts framed.old).last event.now }
    ensures last { OnOk result ((⟦<Kernel as Standing>⟧.parts framed.new).last
        ≤ unwrap_or (fork_number event.now) (⟦<Kernel as Standing>⟧.parts framed.old).last) }
{
    let outcome = framed.step(alloc, event)?;
    let mut line = Bytes::new(alloc);
    outcome_text(alloc, &outcome, &mut line)?;
    Ok(line)
}

/// The line that the kernel on plain pages prints for the event.
fn plain_line(alloc: Global, plain: &mut PlainKernel, event: &PlainEvent) -> Result<Bytes, NoMemory>
    requires served { IsServed plain.old event.now }
    ensures world { OnOk result (plain.new ≡ world_after plain.old event.now) }
{
    let outcome = outcome_of(plain.step(alloc, event)?);
    let mut line = Bytes::new(alloc);
    outcome_text(alloc, &outcome, &mut line)?;
    Ok(line)
}

/// Runs the event on both kernels, and answers whether both printed the same line.
fn is_answered_alike(
    alloc: Global,
    plain: &mut PlainKernel,
    framed: &mut Kernel,
    plain_event: &PlainEvent,
    event: &Event,
) -> Result<bool, NoMemory>
    requires served { IsServed plain.old plain_event.now }
    requires numbered { IsAboveLast (⟦<Kernel as Standing>⟧.parts framed.old).last event.now }
    ensures world { OnOk result (plain.new ≡ world_after plain.old plain_event.now) }
    ensures last { OnOk result ((⟦<Kernel as Standing>⟧.parts framed.new).last
        ≤ unwrap_or (fork_number event.now) (⟦<Kernel as Standing>⟧.parts framed.old).last) }
{
    let plain_line = plain_line(alloc, plain, plain_event)?;
    if !event.is_within_bounds() {
        return Ok(false);
    }
    let line = framed_line(alloc, framed, event)?;
    Ok(line.as_slice() == plain_line.as_slice())
}

/// So many bytes that a seed gives.
fn bytes_of(alloc: Global, seed: u64, len: usize) -> Result<Bytes, NoMemory>
    requires { len ≤ 8 }
    ensures { IfOk result (λ bytes. length bytes ≡ len) }
{
    let mut bytes = Bytes::new(alloc);
    bytes.push_all(&seed.to_le_bytes()[..len])?;
    Ok(bytes)
}

/// A read of either side or a write, in the area or behind it, for both kernels.
fn access(alloc: Global, seed: u64) -> Result<(PlainEvent, Event), NoMemory>
    ensures served { IfOk result (λ events. (world : World) → IsServed world events.0) }
    ensures kept { IfOk result (λ events. (world : World)
        → ((world_after world events.0).snapshots ≡ world.snapshots)
        × ((world_after world events.0).last ≡ world.last)) }
    ensures unforked { IfOk result (λ events. fork_number events.1 ≡ None) }
{
    let addr = (seed >> 8) % (PAGES * 4096 + 64);
    let len = 1 + (seed >> 40) as u32 % 8;
    let number = 1 + (seed >> 50) as u32 % 2;
    match seed % 4 {
        0 => Ok((PlainEvent::Read { addr, len }, Event::Read { addr, len })),
        1 => Ok((
            PlainEvent::SnapRead { number, addr, len },
            Event::SnapRead { number, addr, len },
        )),
        _ => {
            let plain_bytes = bytes_of(alloc, seed, len as usize)?;
            let bytes = bytes_of(alloc, seed, len as usize)?;
            Ok((
                PlainEvent::Write {
                    addr,
                    bytes: plain_bytes,
                },
                Event::Write { addr, bytes },
            ))
        }
    }
}

/// Runs accesses on both kernels, and answers whether all were answered alike.
fn are_answered_alike(
    alloc: Global,
    plain: &mut PlainKernel,
    framed: &mut Kernel,
    seed: u64,
) -> Result<bool, NoMemory>
    ensures kept { OnOk result ((plain.new.snapshots ≡ plain.old.snapshots)
        × (plain.new.last ≡ plain.old.last)) }
    ensures last { OnOk result ((⟦<Kernel as Standing>⟧.parts framed.new).last
        ≤ (⟦<Kernel as Standing>⟧.parts framed.old).last) }
{
    let mut seed = seed;
    let mut alike = true;
    for _ in 0..ACCESSES {
        let (plain_event, event) = access(alloc, seed)?;
        alike = is_answered_alike(alloc, plain, framed, &plain_event, &event)? && alike;
        seed = next_seed(seed);
    }
    Ok(alike)
}

/// Runs a script that maps, makes accesses, forks and makes further ones, on both kernels.
fn print_the_same(alloc: Global, seed: u64) -> Result<bool, NoMemory> {
    let mut plain = PlainKernel::new(alloc, MOST_FRAMES)?;
    let mut framed = Kernel::new(alloc, FRAMES, 1, 0, Vec::new(alloc))?;
    let (first, pages, perm) = (0, PAGES, Perm::ReadWrite);
    let mapped = is_answered_alike(
        alloc,
        &mut plain,
        &mut framed,
        &PlainEvent::Map { first, pages, perm },
        &Event::Map { first, pages, perm },
    )?;
    let before = are_answered_alike(alloc, &mut plain, &mut framed, seed)?;
    let (number, mode) = (1, Mode::Eager);
    let forked = is_answered_alike(
        alloc,
        &mut plain,
        &mut framed,
        &PlainEvent::Fork { number, mode },
        &Event::Fork { number, mode },
    )?;
    let behind = are_answered_alike(alloc, &mut plain, &mut framed, next_seed(!seed))?;
    Ok(mapped && before && forked && behind)
}

#[test]
fn both_kernels_print_the_same_lines(rt: HostRuntime) -> Result<(), Fail> {
    let mut seed = 0x9e37_79b9_7f4a_7c15;
    for _ in 0..2000 {
        assert!(rt; print_the_same(rt.alloc(), seed)?);
        for _ in 0..3 {
            seed = next_seed(seed);
        }
    }
    Ok(())
}
