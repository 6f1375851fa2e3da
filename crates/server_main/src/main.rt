//! The program `afkv`: its words, standard input, standard output and the current folder, handed to
//! the top call.
#![tactic(auto)]

mod ending;
mod folder;
mod held_file;
mod streams;
mod words;

use ending::{Message, exit_status};
use folder::CurrentFolder;
use server_top::{Status, run_plain};
use std::process::ExitCode;
use streams::{InputStream, OutputStream};
use vm_base::NoMemory;
use words::command_words;

fn main(rt: HostRuntime) -> ExitCode {
    let alloc = rt.alloc();
    let status = match command_words(&rt, alloc) {
        Ok(words) => {
            let mut input = InputStream::new(rt.stdin());
            let mut output = OutputStream::new(rt.stdout());
            let mut files = CurrentFolder::new(rt, alloc);
            let policies = Vec::new(alloc);
            run_plain(alloc, &words, &mut input, &mut output, &mut files, policies)
        }
        Err(NoMemory) => Status::NoMemory,
    };
    if status != Status::Done {
        // Nothing is left to be told where standard error fails too.
        let _ = rt.eprintln(Message { status });
    }
    ExitCode::from(exit_status(status))
}
