//! Where bytes come from.
ghost use Rattle.std.specs.Prelude.{◌≡◌, ℕ, ◌<◌, ◌≤◌, ◌↔◌, List, Option, None, [], length, take, IfOk, IfErr, IfSome, OnOk, OnErr, vec_len};
ghost use Rattle.io_face.specs.Faults.{Rose};
ghost use Rattle.io_face.specs.Reads.{CountedBefore, TakenBefore};
ghost use Rattle.io_face.specs.Told.{Takes, TakesSome, IsAtEnd};

use crate::failed::Failed;
use std::alloc::{AllocError, Global};
use vm_base::{Bytes, NoMemory};

/// The most bytes that one read of [`read_all`] asks for.
const PIECE: usize = 16384;

/// A stream of bytes that is read once, from its front to its end.
pub trait Source {
    /// How often the outside has failed here. It never falls.
    ghost faults: { Self → ℕ };

    /// The bytes that remain, where an implementation tells them. No call changes whether it does.
    ghost left: { Self → Option (List ℕ) } = { λ _. None };

    /// Places bytes at the front of the buffer and answers how many; 0 is the end of the input.
    /// What stands behind them in the buffer is left open. After `Failed` nothing was taken, and
    /// the caller may read again.
    fn read(&mut self, buf: &mut [u8]) -> Result<usize, Failed>
        requires { 0 < length buf.old }

        // The bytes placed come off the front, and 0 comes exactly where nothing is left.
        ensures count { IfOk result (λ n. n ≤ length buf.new) }
        ensures taken { IfOk result (λ n. Takes (left self.old) (left self.new) (take n buf.new)) }
        ensures end { IfOk result (λ n. IfSome (left self.old) (λ bytes. (n ≡ 0) ↔ (bytes ≡ []))) }

        // A failed read leaves the bytes. It comes only where the count rose, and no other read
        // counts.
        ensures failed { OnErr result (left self.new ≡ left self.old) }
        ensures faults { faults self.old ≤ faults self.new }
        ensures quiet { OnOk result (faults self.new ≡ faults self.old) }
        ensures cause { OnErr result (Rose (faults self.old) (faults self.new)) };
}

/// Why a source was not read to its end.
#[derive(Clone, Copy, Debug, PartialEq, Eq)]
pub enum ReadAllError {
    /// As many bytes as the limit were taken, and one more came.
    TooLong,
    /// A read failed.
    ReadFault,
    NoMemory,
}

impl From<NoMemory> for ReadAllError {
    ghost use Rattle.std.specs.Prelude.{◌≡◌};
    ghost use Rattle.io_face.specs.declared.source.ReadAllError.TheVariants.{NoMemory as want_of_memory};

    ghost from_gives = { λ _ e. e ≡ want_of_memory };

    fn from(_refused: NoMemory) -> ReadAllError {
        ReadAllError::NoMemory
    }
}

impl From<AllocError> for ReadAllError {
    ghost use Rattle.std.specs.Prelude.{◌≡◌};
    ghost use Rattle.io_face.specs.declared.source.ReadAllError.TheVariants.{NoMemory as want_of_memory};

    ghost from_gives = { λ _ e. e ≡ want_of_memory };

    fn from(_refused: AllocError) -> ReadAllError {
        ReadAllError::NoMemory
    }
}

/// Reads a source to its end, in pieces, and gives what it had left. Never more than one byte past
/// the limit (in bytes) is taken. After an error the bytes taken are gone, and the source goes on
/// behind them.
pub fn read_all<S: Source>(
    alloc: Global,
    source: &mut S,
    limit: usize,
) -> Result<Bytes, ReadAllError>
    // The whole of it is here, and it keeps the limit.
    ensures whole { IfOk result (λ text. Takes (S.left source.old) (S.left source.new) text) }
    ensures end { IfOk result (λ _. IsAtEnd (S.left source.new)) }
    ensures within { IfOk result (λ text. length text ≤ limit) }

    // One byte past the limit was taken where it is too long, and none before any other error.
    ensures taken { IfErr result
        (λ error. TakenBefore error limit (S.left source.old) (S.left source.new)) }
    ensures part { OnErr result (TakesSome (S.left source.old) (S.left source.new)) }

    // The count rose where a read failed, and only there.
    ensures faults { S.faults source.old ≤ S.faults source.new }
    ensures quiet { OnOk result (S.faults source.new ≡ S.faults source.old) }
    ensures counted { IfErr result
        (λ error. CountedBefore error (S.faults source.old) (S.faults source.new)) }
{
    let mut piece = empty_piece(alloc)?;
    let mut text = Bytes::new(alloc);
    let mut room = limit;
    loop {
        let want = room.min(PIECE - 1) + 1;
        let front = &mut piece[..want];
        let count = match source.read(front) {
            Ok(count) => count,
            Err(Failed) => return Err(ReadAllError::ReadFault),
        };
        if count == 0 {
            return Ok(text);
        }
        if count > room {
            return Err(ReadAllError::TooLong);
        }
        text.push_all(&front[..count])?;
        room -= count;
    }
}

// A buffer for one read, on the heap.
fn empty_piece(alloc: Global) -> Result<Vec<u8>, AllocError>
    ensures { IfOk result (λ piece. vec_len piece ≡ PIECE) }
{
    vec![in alloc; 0; PIECE]
}
