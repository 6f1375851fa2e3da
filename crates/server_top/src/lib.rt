//! The top calls of afkv.
//!
//! The main call is [`run_plain`]:
//! `run_plain(alloc, &words, &mut input, &mut output, &mut files, policies)` runs the command that
//! the words name and answers a [`Status`]. A caller may rely on it that what was written is the
//! lines of a run of the script that was read, in which each refused frame has its cause, or what
//! one map makes of the requests; and that an image has the pairs at its fork. README.md goes on
//! from here.
#![tactic(auto)]

mod plain;
mod replay;
mod run;
mod status;
mod words;

pub use plain::run_plain;
pub use status::Status;
