//! How a run of a top call ended.

/// The end of a run. What was read and what was written then is said by the call that answers it.
#[derive(Clone, Copy, Debug, PartialEq, Eq)]
pub enum Status {
    Done,
    /// The index, from 0, of the first word that no accepted list of words goes on with, or the
    /// number of words where more were to come.
    Usage { place: u64 },
    /// The input is no script. The line, counted from 1, is the first that breaks a rule, or the
    /// one that is missing behind the last.
    BadScript { line: u64 },
    /// A read of the input failed.
    ReadFault,
    /// A write of the output failed.
    WriteFault,
    /// The input is no list of whole requests. The place is told as 0, wherever it breaks.
    Protocol { place: u64 },
    /// The input goes on past its limit.
    TooLong,
    NoMemory,
}
