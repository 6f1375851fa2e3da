//! Where bytes go.
ghost use Rattle.std.specs.Prelude.{◌≡◌, ℕ, ◌<◌, ◌≤◌, List, Option, None, length, take, IfOk, OnOk, OnErr};
ghost use Rattle.io_face.specs.Faults.{Rose};
ghost use Rattle.io_face.specs.Told.{Adds, AddsPrefix};

use crate::failed::Failed;

/// A stream of bytes that is written once, from its front on.
pub trait Sink {
    /// How often the outside has failed here. It never falls.
    ghost faults: { Self → ℕ };

    /// What was written, where an implementation tells it. No call changes whether it does.
    ghost written: { Self → Option (List ℕ) } = { λ _. None };

    /// Takes bytes off the front of the piece and answers how many. It takes at least one of a
    /// piece that is not empty. After `Failed` nothing was taken, and the caller may write again.
    fn write(&mut self, piece: &[u8]) -> Result<usize, Failed>
        ensures count { IfOk result (λ n. n ≤ length piece.now) }
        ensures some { IfOk result (λ n. 0 < length piece.now → 0 < n) }
        ensures added { IfOk result
            (λ n. Adds (written self.old) (written self.new) (take n piece.now)) }

        // A failed write adds nothing. It comes only where the count rose, and no other write
        // counts.
        ensures failed { OnErr result (written self.new ≡ written self.old) }
        ensures faults { faults self.old ≤ faults self.new }
        ensures quiet { OnOk result (faults self.new ≡ faults self.old) }
        ensures cause { OnErr result (Rose (faults self.old) (faults self.new)) };
}

/// Hands the whole text to the sink, in as many writes as it wants. After `Failed` a prefix of the
/// text was written, and the caller is not told how long it is.
pub fn write_all<K: Sink>(sink: &mut K, text: &[u8]) -> Result<(), Failed>
    ensures ok { OnOk result (Adds (K.written sink.old) (K.written sink.new) text.now) }
    ensures failed { OnErr result (AddsPrefix (K.written sink.old) (K.written sink.new) text.now) }
    ensures faults { K.faults sink.old ≤ K.faults sink.new }
    ensures quiet { OnOk result (K.faults sink.new ≡ K.faults sink.old) }
    ensures cause { OnErr result (Rose (K.faults sink.old) (K.faults sink.new)) }
{
    let mut done = 0;
    while done < text.len() {
        done += sink.write(&text[done..])?;
    }
    Ok(())
}
