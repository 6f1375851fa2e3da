//! RESP2: requests are read from bytes, and replies are printed.
//!
//! The main type is [`Requests`], a reader that is fed bytes in pieces of any size:
//! `requests.feed(piece)?` takes a piece, and `requests.next()` gives the next whole request.
//! What is read is spelled so, byte for byte, and a stream that breaks is refused at the first
//! byte with which it begins no stream. The README beside this crate says what is proved.
#![tactic(auto)]

mod fault;
mod front;
mod laws;
mod queue;
mod reply;
mod request;
mod requests;
mod scan;
mod spelled;

pub use fault::{FeedFault, ProtocolKind};
pub use laws::{break_is_final, one_break, one_reading, one_reading_in_any_pieces, one_spelling};
pub use reply::{ErrorKind, Reply, break_text, reply_text};
pub use request::Request;
pub use requests::Requests;
