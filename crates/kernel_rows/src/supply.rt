//! An allot that counts. While it has a frame and memory, it grants one: its tests show that alone.
ghost use Rattle.std.specs.Prelude.{◌≡◌, ⊤, ℕ, []};

use std::alloc::Global;
use vm_base::{Allot, Frame, Refused, Want};

/// So many frames, and what was asked of them. It tells the frames that are out and the refused
/// requests as its contracts have them.
#[derive(Drop)]
pub struct Supply {
    pub alloc: Global,
    pub left: u32,
    pub out: u64,
    pub refused: u64,
    pub asked: Vec<Want>,
}

impl Supply {
    /// A supply of so many frames, of which none is out.
    pub fn new(alloc: Global, left: u32) -> Supply
        ensures left { result.left ≡ left }
        ensures none { (result.out ≡ 0) × (result.refused ≡ 0) }
        ensures asked { result.asked.items ≡ [] }
    {
        Supply {
            alloc,
            left,
            out: 0,
            refused: 0,
            asked: Vec::new(alloc),
        }
    }
}

impl Allot for Supply {
    ghost State = { ℕ × ℕ };

    ghost state = { λ s. (s.refused, s.out) };

    ghost refused = { λ s. s.0 };

    ghost out = { λ s. s.1 };

    ghost goes = { λ old deal new. ⊤ };

    fn take(&mut self, want: Want) -> Result<Frame, Refused> {
        let _ = self.asked.push(want);
        if self.left > 0 && self.out < 1000 {
            if let Ok(frame) = Frame::new(self.alloc, self.left) {
                self.left -= 1;
                self.out += 1;
                return Ok(frame);
            }
        }
        self.refused = self.refused.saturating_add(1);
        Err(Refused { at: self.refused })
    }

    fn give(&mut self, _frame: Frame) {
        self.left = self.left.saturating_add(1);
        self.out -= 1;
    }
}
