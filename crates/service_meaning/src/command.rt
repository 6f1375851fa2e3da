//! The table of the commands: each with its name, its number of words and its keys.
ghost use Rattle.std.specs.Prelude.{◌≡◌, ◌<◌, ◌≤◌, drop, length};
ghost use Rattle.std.specs.List.{find, list_any};
ghost use Rattle.std.specs.Str.{str_eq_ignore_ascii_case};
ghost use Rattle.service_meaning.specs.Commands.{command_of, fault_of, has_long_key, is_long, name_of, shape_of};

use crate::shape::{Frames, Keys, Shape};
use resp_text::{ErrorKind, Request};

/// The most bytes of a key.
const KEY_LIMIT: usize = 65536;

/// A command. What it answers and leaves stands in specs/MapMachine.antt.
#[derive(Clone, Copy, Debug, PartialEq, Eq)]
pub enum Command {
    Ping,
    Echo,
    Set,
    Get,
    Del,
    Exists,
    StrLen,
    Append,
    Incr,
    Decr,
    DbSize,
    FlushAll,
    BgSave,
    Info,
    /// COMMAND itself.
    CommandList,
    Select,
    Client,
    Quit,
}

/// All commands, in the order of the table.
const COMMANDS: [Command; 18] = [
    Command::Ping,
    Command::Echo,
    Command::Set,
    Command::Get,
    Command::Del,
    Command::Exists,
    Command::StrLen,
    Command::Append,
    Command::Incr,
    Command::Decr,
    Command::DbSize,
    Command::FlushAll,
    Command::BgSave,
    Command::Info,
    Command::CommandList,
    Command::Select,
    Command::Client,
    Command::Quit,
];

impl Command {
    /// The command of a name, whose letters of ASCII may be of either case.
    pub fn named(name: &[u8]) -> Option<Command>
        ensures { result ≡ command_of name.now }
    {
        named_among(&COMMANDS, name)
    }

    fn is_named(self, name: &[u8]) -> bool
        ensures { result ≡ str_eq_ignore_ascii_case name.now (name_of self) }
    {
        name.eq_ignore_ascii_case(self.name())
    }

    /// The name, in capital letters.
    pub fn name(self) -> &'static [u8]
        ensures { result.now ≡ name_of self }
    {
        match self {
            Command::Ping => b"PING",
            Command::Echo => b"ECHO",
            Command::Set => b"SET",
            Command::Get => b"GET",
            Command::Del => b"DEL",
            Command::Exists => b"EXISTS",
            Command::StrLen => b"STRLEN",
            Command::Append => b"APPEND",
            Command::Incr => b"INCR",
            Command::Decr => b"DECR",
            Command::DbSize => b"DBSIZE",
            Command::FlushAll => b"FLUSHALL",
            Command::BgSave => b"BGSAVE",
            Command::Info => b"INFO",
            Command::CommandList => b"COMMAND",
            Command::Select => b"SELECT",
            Command::Client => b"CLIENT",
            Command::Quit => b"QUIT",
        }
    }

    /// How many words it has, which of them are keys, and what it wants frames for.
    pub fn shape(self) -> Shape
        ensures { result ≡ shape_of self }
    {
        match self {
            Command::Ping => Shape::new(1, Some(2), Keys::None, Frames::None),
            Command::Echo | Command::Select => Shape::new(2, Some(2), Keys::None, Frames::None),
            Command::Get | Command::StrLen => Shape::new(2, Some(2), Keys::First, Frames::None),
            Command::Set | Command::Append => Shape::new(3, Some(3), Keys::First, Frames::Pair),
            Command::Incr | Command::Decr => Shape::new(2, Some(2), Keys::First, Frames::Pair),
            Command::Del | Command::Exists => Shape::new(2, None, Keys::All, Frames::None),
            Command::DbSize | Command::FlushAll | Command::Quit => {
                Shape::new(1, Some(1), Keys::None, Frames::None)
            }
            Command::BgSave => Shape::new(1, Some(1), Keys::None, Frames::Fork),
            Command::Info | Command::CommandList => Shape::new(1, None, Keys::None, Frames::None),
            Command::Client => Shape::new(2, None, Keys::None, Frames::None),
        }
    }

    /// What is wrong with the number of words of a request, its name counted, or with its keys.
    pub fn fault(self, request: &Request) -> Option<ErrorKind>
        requires { 0 < length request.now }
        ensures fault { result ≡ fault_of self request.now }
        ensures least { result ≡ None → (shape_of self).least ≤ length request.now }
    {
        if !self.shape().has_words(request.len()) {
            return Some(ErrorKind::Arity);
        }
        if self.has_long_key(request) {
            return Some(ErrorKind::LongKey);
        }
        None
    }

    /// Whether a key among the words of a request is too long.
    fn has_long_key(self, request: &Request) -> bool
        requires { 0 < length request.now }
        ensures { result ≡ has_long_key self request.now }
    {
        match self.shape().keys {
            Keys::None => false,
            Keys::First => request.len() > 1 && request.word(1).len() > KEY_LIMIT,
            Keys::All => has_long_operand(request),
        }
    }
}

/// The first of some commands that has a name.
fn named_among(commands: &[Command], name: &[u8]) -> Option<Command>
    ensures { result ≡ find
        (λ given. str_eq_ignore_ascii_case name.now (name_of given)) commands.now }
{
    for command in commands {
        if command.is_named(name) {
            return Some(*command);
        }
    }
    None
}

/// Whether a word behind the name is too long for a key.
fn has_long_operand(request: &Request) -> bool
    requires { 0 < length request.now }
    ensures { result ≡ list_any is_long (drop 1 request.now) }
{
    for place in 1..request.len() {
        if request.word(place).len() > KEY_LIMIT {
            return true;
        }
    }
    false
}
