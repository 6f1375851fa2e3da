//! The top call of all that one thread does.
ghost use Rattle.std.specs.Prelude.{◌≡◌, ◌≤◌, None, map};
ghost use Rattle.io_face.specs.Faults.{Rose};
ghost use Rattle.frame_pool.specs.Policies.{standing};
ghost use Rattle.trace_core.specs.SupplyState.{policy_sum};
ghost use Rattle.server_top.specs.CommandWords.{bad_word, plan_of};
ghost use Rattle.server_top.specs.ReplayPromise.{RanBy};
ghost use Rattle.server_top.specs.RunPromise.{RanTrace, RanText, usage_of};

use crate::replay::replay;
use crate::run::{RunError, run_script};
use crate::status::Status;
use crate::words::{Plan, read_words};
use frame_pool::FramePolicy;
use io_face::{Folder, ReadAllError, Sink, Source, read_all};
use std::alloc::Global;
use trace_text::{ScriptFault, read_script};
use vm_base::Bytes;

/// The most bytes of a script.
const SCRIPT_LIMIT: usize = 1 << 24;

/// Runs the command that the words name, from the input to the output. `trace` reads a script to
/// its end, runs it on the kernel, whose pool asks the policies before a frame goes out, and writes
/// a line for each of its events. `replay` reads the requests of one session to their end, answers
/// them, publishes the image of the snapshot that was started, and writes the replies and then a
/// line for the save; it asks no policy.
pub fn run_plain<I: Source, O: Sink, F: Folder>(
    alloc: Global,
    words: &[Bytes],
    input: &mut I,
    output: &mut O,
    files: &mut F,
    policies: Vec<Box<dyn FramePolicy + Send>>,
) -> Status
    // What was read, written and published, by the words and the status.
    ensures ran { RanBy (plan_of words.now) (policy_sum (standing (map (λ policy. told policy) policies.items))) (record {
      left = I.left input.old;
      left_after = I.left input.new;
      outside = record {
        written = O.written output.old;
        written_after = O.written output.new;
        files = F.files files.old;
        files_after = F.files files.new;
        faults = F.faults files.old;
        faults_after = F.faults files.new;
      };
    }) result }

    // Exactly where the words are not accepted.
    ensures usage { usage_of result ≡ bad_word words.now }

    // Only where the outside failed.
    ensures read_fault { result ≡ Status.ReadFault → Rose (I.faults input.old) (I.faults input.new) }
    ensures write_fault { result ≡ Status.WriteFault → Rose (O.faults output.old) (O.faults output.new) }
    ensures input_faults { I.faults input.old ≤ I.faults input.new }
    ensures output_faults { O.faults output.old ≤ O.faults output.new }
    ensures folder_faults { F.faults files.old ≤ F.faults files.new }
{
    match read_words(words) {
        Ok(Plan::Trace) => trace(alloc, policies, input, output),
        Ok(Plan::Replay) => replay(alloc, input, output, files),
        Err(place) => Status::Usage { place },
    }
}

/// Reads a script, runs it, and writes its lines.
fn trace<I: Source, O: Sink>(
    alloc: Global,
    policies: Vec<Box<dyn FramePolicy + Send>>,
    input: &mut I,
    output: &mut O,
) -> Status
    ensures ran { RanTrace (policy_sum (standing (map (λ policy. told policy) policies.items)))
        (record {
          left = I.left input.old;
          left_after = I.left input.new;
          written = O.written output.old;
          written_after = O.written output.new;
        }) result }
    ensures words { usage_of result ≡ None }
    ensures read_fault { result ≡ Status.ReadFault → Rose (I.faults input.old) (I.faults input.new) }
    ensures write_fault { result ≡ Status.WriteFault → Rose (O.faults output.old) (O.faults output.new) }
    ensures input_faults { I.faults input.old ≤ I.faults input.new }
    ensures output_faults { O.faults output.old ≤ O.faults output.new }
{
    match read_all(alloc, input, SCRIPT_LIMIT) {
        Ok(text) => run_text(alloc, &text, policies, output),
        Err(ReadAllError::TooLong) => Status::TooLong,
        Err(ReadAllError::ReadFault) => Status::ReadFault,
        Err(ReadAllError::NoMemory) => Status::NoMemory,
    }
}

/// Runs the text of a script, and writes its lines.
fn run_text<O: Sink>(
    alloc: Global,
    text: &Bytes,
    policies: Vec<Box<dyn FramePolicy + Send>>,
    output: &mut O,
) -> Status
    ensures ran { RanText text.now (policy_sum (standing (map (λ policy. told policy) policies.items)))
        (O.written output.old) (O.written output.new) result }
    ensures write_fault { result ≡ Status.WriteFault → Rose (O.faults output.old) (O.faults output.new) }
    ensures faults { O.faults output.old ≤ O.faults output.new }
{
    let script = match read_script(alloc, text.as_slice()) {
        Ok(script) => script,
        Err(ScriptFault::Bad { line }) => return Status::BadScript { line },
        Err(ScriptFault::NoMemory) => return Status::NoMemory,
    };
    match run_script(alloc, &script, policies, output) {
        Ok(()) => Status::Done,
        Err(RunError::WriteFault) => Status::WriteFault,
        Err(RunError::NoMemory) => Status::NoMemory,
    }
}
