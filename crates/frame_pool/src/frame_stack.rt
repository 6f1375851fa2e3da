//! The frames that are in a pool.
ghost use Rattle.std.specs.Prelude.{◌≡◌, ◌<◌, ◌≤◌, [], ◌∷◌, ◌++◌, length, IfOk, MatchOption};
ghost use Rattle.std.specs.List.{range_with_len};
ghost use Rattle.vm_base.specs.FlatMemory.{zero_page};

use std::alloc::Global;
use std::marker::Model;
use vm_base::{Frame, NoMemory};

// Frames of zeros, with room for each that was made.
#[derive(Drop)]
pub(crate) struct FrameStack {
    made: u32,
    frames: Vec<Frame>,
    // What is copied over a frame that comes back: a copy takes a tenth of the instructions that
    // filling it with zeros takes.
    zeros: Box<[u8; 4096]>,
}

impl Model for FrameStack {
    ghost use Rattle.std.specs.Prelude.{◌≡◌, ◌≤◌, length, map, All, vec_capacity};
    ghost use Rattle.vm_base.specs.FlatMemory.{zero_page};
    ghost use Rattle.frame_pool.specs.Frames.{StackView};

    ghost Value = { StackView };

    ghost view = { λ stack. record { made = stack.made; free = map (λ frame. frame.number) stack.frames.items } };

    ghost invariant = { λ stack. (length stack.frames.items ≤ stack.made)
        × (stack.made ≤ vec_capacity stack.frames)
        × All (λ frame. frame.bytes ≡ zero_page) stack.frames.items
        × (stack.zeros.value ≡ zero_page) };
}

impl FrameStack {
    // Makes so many frames, numbered from 0.
    pub(crate) fn new(alloc: Global, made: u32) -> Result<FrameStack, NoMemory>
        ensures { IfOk result (λ stack. stack ≡ record { made = made; free = range_with_len 0 made }) }
    {
        let mut frames = Vec::with_capacity(alloc, made as usize)?;
        for number in 0..made {
            frames.push_reserved(Frame::new(alloc, number)?);
        }
        let zeros = Box::new(alloc, [0; 4096])?;
        Ok(FrameStack {
            made,
            frames,
            zeros,
        })
    }

    pub(crate) fn len(&self) -> u32
        ensures count { result ≡ length self.now.free }
        ensures bound { length self.now.free ≤ self.now.made }
    {
        let made = self.made;
        prove!(self.frames.len() <= made as usize);
        self.frames.len() as u32
    }

    pub(crate) fn pop(&mut self) -> Option<Frame>
        ensures made { self.new.made ≡ self.old.made }
        ensures cases { MatchOption result ((self.old.free ≡ []) × (self.new.free ≡ []))
            (λ frame. self.old.free ≡ self.new.free ++ frame.number ∷ []) }
        ensures zeros { MatchOption result (Unit {0}) (λ frame. frame.bytes ≡ zero_page) }
    {
        self.frames.pop()
    }

    pub(crate) fn push(&mut self, mut frame: Frame)
        requires { length self.old.free < self.old.made }
        ensures { self.new ≡ record self.old { free = self.old.free ++ frame.number ∷ [] } }
    {
        *frame.bytes_mut() = *self.zeros;
        self.frames.push_reserved(frame);
    }
}
