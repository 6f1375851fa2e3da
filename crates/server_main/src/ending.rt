//! How the program ends: its exit status, and what it says on standard error.
ghost use Rattle.std.specs.Prelude.{◌≡◌, Some};
ghost use Rattle.server_main.specs.Ending.{exit_status_of, message_of};

use server_top::Status;
use std::fmt;

/// The exit status of the program.
pub fn exit_status(status: Status) -> u8
    ensures { result ≡ exit_status_of status }
{
    match status {
        Status::Done => 0,
        Status::Usage { .. } => 2,
        Status::BadScript { .. } => 3,
        Status::ReadFault => 4,
        Status::WriteFault => 5,
        Status::Protocol { .. } => 9,
        Status::TooLong => 10,
        Status::NoMemory => 11,
    }
}

/// What the program says of a status other than `Done`, in one line without its line feed.
#[derive(Debug, Drop)]
pub struct Message {
    pub status: Status,
}

impl fmt::Display for Message {
    ghost output = { λ message. Some (message_of message.status) };

    fn fmt<W: fmt::Write>(&self, f: &mut fmt::Formatter<W>) -> fmt::Result {
        match self.status {
            Status::Done => Ok(()),
            Status::Usage { place } => write!(f, "afkv: bad word {place}"),
            Status::BadScript { line } => write!(f, "afkv: bad script line {line}"),
            Status::ReadFault => f.write_str("afkv: read fault"),
            Status::WriteFault => f.write_str("afkv: write fault"),
            Status::Protocol { place } => write!(f, "afkv: bad request at {place}"),
            Status::TooLong => f.write_str("afkv: input too long"),
            Status::NoMemory => f.write_str("afkv: no memory"),
        }
    }
}
