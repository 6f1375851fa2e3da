//! A script's events, run one after another, with their lines written.
ghost use Rattle.std.specs.Prelude.{◌≡◌, ◌≤◌, ℕ, List, [], ◌∷◌, ◌++◌, All, map, unwrap_or, OnOk, OnErr, IfErr, IsErrOf};
ghost use Rattle.io_face.specs.Faults.{Rose};
ghost use Rattle.io_face.specs.Told.{Adds, AddsPrefix};
ghost use Rattle.frame_pool.specs.Policies.{standing};
ghost use Rattle.kernel_meaning.specs.RefusedRequests.{PolicySum};
ghost use Rattle.trace_events.specs.declared.event.Event.{Event};
ghost use Rattle.trace_events.specs.declared.outcome.Outcome.{Outcome};
ghost use Rattle.trace_events.specs.EventBounds.{IsWithinBounds, IsAboveLast, fork_number};
ghost use Rattle.trace_text.specs.PrintedLines.{outcome_line};
ghost use Rattle.trace_text.specs.ScriptGrammar.{AreForksRising};
ghost use Rattle.trace_text.specs.SoFar.{script_parts};
ghost use Rattle.trace_core.specs.KernelState.{Machine};
ghost use Rattle.trace_core.specs.KernelRun.{HasRun};
ghost use Rattle.trace_core.specs.SupplyState.{policy_sum};
ghost use Rattle.server_top.specs.declared.run.RunError.TheVariants.{NoMemory as no_memory_left, WriteFault as write_failed};
ghost use Rattle.server_top.specs.RunPromise.{WroteLines, WroteSomeLines, script_machine};

use frame_pool::FramePolicy;
use io_face::{Failed, Sink, write_all};
use std::alloc::Global;
use trace_core::{Kernel, Standing};
use trace_events::Event;
use trace_text::{Script, outcome_text};
use vm_base::{Bytes, NoMemory};

/// So many bytes of lines or of replies are written at once.
pub(crate) const PIECE: usize = 65536;

/// Why not all lines of a script were written.
#[derive(Clone, Copy, Debug)]
pub(crate) enum RunError {
    WriteFault,
    NoMemory,
}

impl From<NoMemory> for RunError {
    ghost from_gives = { λ _ error. error ≡ no_memory_left };

    fn from(_refused: NoMemory) -> RunError {
        RunError::NoMemory
    }
}

impl From<Failed> for RunError {
    ghost from_gives = { λ _ error. error ≡ write_failed };

    fn from(_failed: Failed) -> RunError {
        RunError::WriteFault
    }
}

/// Runs the events of a script on a kernel over the frames of its machine, and writes the line of
/// each outcome. After an error a prefix of the lines of some first events was written.
pub(crate) fn run_script<O: Sink>(
    alloc: Global,
    script: &Script,
    policies: Vec<Box<dyn FramePolicy + Send>>,
    output: &mut O,
) -> Result<(), RunError>
    requires bounds { All IsWithinBounds (script_parts script.now).events }
    requires rising { AreForksRising 0 (script_parts script.now).events }
    requires cells { (script_parts script.now).cells ≤ 512 }
    ensures ok { OnOk result (WroteLines (script_parts script.now)
        (policy_sum (standing (map (λ policy. told policy) policies.items)))
        (O.written output.old) (O.written output.new)) }
    ensures err { OnErr result (WroteSomeLines (script_parts script.now)
        (policy_sum (standing (map (λ policy. told policy) policies.items)))
        (O.written output.old) (O.written output.new)) }
    ensures faults { O.faults output.old ≤ O.faults output.new }
    ensures cause { IsErrOf result RunError.WriteFault → Rose (O.faults output.old) (O.faults output.new) }
{
    let mut kernel = Kernel::new(alloc, script.frames(), script.cells(), 0, policies)?;
    run_events(alloc, &mut kernel, script, output)
}

/// Runs the events of a script on a kernel that has run none, and writes the line of each outcome.
fn run_events<O: Sink>(
    alloc: Global,
    kernel: &mut Kernel,
    script: &Script,
    output: &mut O,
) -> Result<(), RunError>
    requires bounds { All IsWithinBounds (script_parts script.now).events }
    requires rising { AreForksRising (⟦<Kernel as Standing>⟧.parts kernel.old).last (script_parts script.now).events }
    ensures ok { OnOk result ((policies : PolicySum)
        → HasRun (⟦<Kernel as Standing>⟧.parts kernel.old) (script_machine (script_parts script.now)) 0 policies [] []
        → WroteLines (script_parts script.now) policies
        (O.written output.old) (O.written output.new)) }
    ensures err { OnErr result ((policies : PolicySum)
        → HasRun (⟦<Kernel as Standing>⟧.parts kernel.old) (script_machine (script_parts script.now)) 0 policies [] []
        → WroteSomeLines (script_parts script.now) policies (O.written output.old) (O.written output.new)) }
    ensures faults { O.faults output.old ≤ O.faults output.new }
    ensures cause { IsErrOf result RunError.WriteFault → Rose (O.faults output.old) (O.faults output.new) }
{
    let mut lines = Bytes::new(alloc);
    for place in 0..script.len() {
        push_line(alloc, kernel, script.event(place), &mut lines)?;
        if lines.as_slice().len() >= PIECE {
            write_text(output, lines.as_slice())?;
            lines.clear();
        }
    }
    write_text(output, lines.as_slice())
}

/// Runs one event, and appends the line of its outcome.
fn push_line(
    alloc: Global,
    kernel: &mut Kernel,
    event: &Event,
    lines: &mut Bytes,
) -> Result<(), RunError>
    requires within { IsWithinBounds event.now }
    requires numbered { IsAboveLast (⟦<Kernel as Standing>⟧.parts kernel.old).last event.now }

    // A run goes on by the event and its outcome, whose line was appended.
    ensures ran { OnOk result ((outcome : Outcome) × ((lines.new ≡ lines.old ++ outcome_line outcome)
        × ((machine : Machine) (last : ℕ) (policies : PolicySum) (events : List Event) (outcomes : List Outcome)
        → HasRun (⟦<Kernel as Standing>⟧.parts kernel.old) machine last policies events outcomes
        → HasRun (⟦<Kernel as Standing>⟧.parts kernel.new) machine last policies (events ++ event.now ∷ []) (outcomes ++ outcome ∷ [])))) }

    // The number of a fork that was refused is not the last one, and still bars those behind it.
    ensures last { OnOk result ((⟦<Kernel as Standing>⟧.parts kernel.new).last
        ≤ unwrap_or (fork_number event.now) (⟦<Kernel as Standing>⟧.parts kernel.old).last) }
    ensures no_memory { IfErr result (λ error. error ≡ RunError.NoMemory) }
{
    let outcome = kernel.step(alloc, event)?;
    outcome_text(alloc, &outcome, lines)?;
    Ok(())
}

/// Writes a text.
pub(crate) fn write_text<O: Sink>(output: &mut O, text: &[u8]) -> Result<(), RunError>
    ensures ok { OnOk result (Adds (O.written output.old) (O.written output.new) text.now) }
    ensures err { OnErr result (AddsPrefix (O.written output.old) (O.written output.new) text.now) }
    ensures faults { O.faults output.old ≤ O.faults output.new }
    ensures cause { OnErr result (Rose (O.faults output.old) (O.faults output.new)) }
{
    write_all(output, text)?;
    Ok(())
}
