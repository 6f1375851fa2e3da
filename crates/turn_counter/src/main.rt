//! Threads that add to one counter under a lock whose value stands for the list of the additions.
#![tactic(auto)]

mod counter;
mod race;
#[cfg(test)]
mod rounds;
#[cfg(test)]
mod tests;

use race::race;
use std::{env, io};

/// `turn_counter THREADS TURNS` prints the sum at the end.
fn main(rt: HostRuntime) -> io::Result<()> {
    let mut words = env::args(&rt)?;
    let _program = words.next();
    let threads = words
        .next()
        .and_then(|word| word.as_str().parse::<u32>().ok());
    let turns = words
        .next()
        .and_then(|word| word.as_str().parse::<u32>().ok());
    let (Some(threads), Some(turns)) = (threads, turns) else {
        return eprintln!(rt; "turn_counter THREADS TURNS");
    };
    if threads == 0 {
        return eprintln!(rt; "no thread");
    }
    match race(&rt, rt.alloc(), threads, turns) {
        Some((sum, rising)) => println!(rt; "{sum} {rising}"),
        None => eprintln!(rt; "no memory"),
    }
}
