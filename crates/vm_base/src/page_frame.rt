//! A frame of the modelled memory: 4096 bytes under a number.
ghost use Rattle.std.specs.Prelude.{◌≡◌, IfOk, length};
ghost use Rattle.std.specs.Borrow.{sem};
ghost use Rattle.vm_base.specs.Frames.{new_frame};
ghost use Rattle.vm_base.specs.FrameLending.{LendsBytes};

use crate::no_memory::NoMemory;
use std::alloc::Global;
use std::marker::Model;

/// A frame: 4096 bytes on the heap under the number that its pool gave it. It is moved as a
/// pointer and never copied, so whoever has it is its one place.
#[derive(Debug, Drop)]
pub struct Frame {
    number: u32,
    bytes: Box<[u8; 4096]>,
}

impl Model for Frame {
    ghost use Rattle.vm_base.specs.Frames.{FrameView};

    ghost Value = { FrameView };

    ghost view = { λ frame. record { number = frame.number; bytes = frame.bytes.value } };
}

impl Frame {
    /// A frame of zeros for a pool. Dropping a frame gives it back to no pool.
    pub fn new(alloc: Global, number: u32) -> Result<Frame, NoMemory>
        ensures { IfOk result (λ frame. frame ≡ new_frame number) }
    {
        Ok(Frame {
            number,
            bytes: Box::new(alloc, [0; 4096])?,
        })
    }

    pub fn number(&self) -> u32
        ensures { result ≡ self.now.number }
    {
        self.number
    }

    pub fn bytes(&self) -> &[u8; 4096]
        ensures bytes { result.now ≡ self.now.bytes }
        ensures length { length self.now.bytes ≡ 4096 }
    {
        let bytes: &[u8] = &*self.bytes;
        prove!(bytes.len() == 4096);
        &self.bytes
    }

    /// All that the caller writes through it is in the frame afterwards.
    pub fn bytes_mut(&mut self) -> &mut [u8; 4096]
        ensures* lends { sem 𝓛 (LendsBytes self.entry result) }
        ensures bytes { result.now ≡ self.old.bytes }
        ensures length { length self.old.bytes ≡ 4096 }
    {
        self.bytes();
        &mut self.bytes
    }
}

#[cfg(test)]
mod tests {
    use super::*;
    use std::test::Fail;

    #[test]
    fn what_is_written_stays_in_the_frame(rt: HostRuntime) -> Result<(), Fail> {
        let mut frame = Frame::new(rt.alloc(), 7)?;
        assert_eq!(rt; frame.number(), 7);
        let writes = [(0, 1), (4095, 255), (0, 2)];
        for (at, byte) in writes {
            assert_eq!(rt; frame.bytes().len(), 4096);
            frame.bytes_mut()[at] = byte;
            assert_eq!(rt; frame.bytes()[at], byte);
        }
        assert_eq!(rt; frame.bytes()[1], 0);
        Ok(())
    }
}
