//! Readers and writers of std as a source and a sink. They tell no bytes, and count their faults.
ghost use Rattle.std.specs.Prelude.{◌≡◌, ◌<◌, ◌≤◌, length, IfOk, OnOk, OnErr};
ghost use Rattle.std.specs.Io.KnownBytes.{ReadConsumes, WriteAppends};
ghost use Rattle.io_face.specs.Faults.{Rose};

use io_face::{Failed, Sink, Source};
use std::io::{ErrorKind, Read, Write};

/// How often a call is tried in all, where signals cut it short.
const TRIES: u32 = 64;

/// A reader as a source.
#[derive(Drop)]
pub struct InputStream<R: Read> {
    reader: R,
    faults: u64,
}

impl<R: Read> InputStream<R> {
    pub fn new(reader: R) -> Self
        ensures reader { result.reader ≡ reader }
        ensures faults { result.faults ≡ 0 }
    {
        InputStream { reader, faults: 0 }
    }

    pub fn faults(&self) -> u64
        ensures { result ≡ self.now.faults }
    {
        self.faults
    }
}

impl<R: Read> Source for InputStream<R> {
    ghost faults = { λ stream. stream.faults };

    // Of a reader whose bytes are known it takes what the reader gives, and nothing at `Failed`.
    fn read(&mut self, buf: &mut [u8]) -> Result<usize, Failed>
        ensures count { IfOk result (λ n. n ≤ length buf.new) }
        ensures bytes { ReadConsumes (R.remaining self.old.reader) (R.remaining self.new.reader)
            result buf.new }
        ensures faults { self.old.faults ≤ self.new.faults }
        ensures quiet { OnOk result (self.new.faults ≡ self.old.faults) }
        ensures cause { OnErr result (Rose self.old.faults self.new.faults) }
    {
        for _ in 0..TRIES {
            match self.reader.read(buf) {
                Ok(count) => return Ok(count),
                Err(error) => {
                    if error.kind() != ErrorKind::Interrupted {
                        break;
                    }
                }
            }
        }
        self.faults = self.faults.saturating_add(1);
        Err(Failed)
    }
}

/// A writer as a sink. It keeps no bytes of its own, and never flushes the writer.
#[derive(Drop)]
pub struct OutputStream<W: Write> {
    writer: W,
    faults: u64,
}

impl<W: Write> OutputStream<W> {
    pub fn new(writer: W) -> Self
        ensures writer { result.writer ≡ writer }
        ensures faults { result.faults ≡ 0 }
    {
        OutputStream { writer, faults: 0 }
    }

    pub fn faults(&self) -> u64
        ensures { result ≡ self.now.faults }
    {
        self.faults
    }

    pub fn into_writer(self) -> W
        ensures { result ≡ self.writer }
    {
        self.writer
    }
}

impl<W: Write> Sink for OutputStream<W> {
    ghost faults = { λ stream. stream.faults };

    // A writer that takes nothing of a piece never goes on, so that is a fault. A writer whose
    // bytes are known gets just those that are told as written.
    fn write(&mut self, piece: &[u8]) -> Result<usize, Failed>
        ensures count { IfOk result (λ n. n ≤ length piece.now) }
        ensures some { IfOk result (λ n. 0 < length piece.now → 0 < n) }
        ensures bytes { WriteAppends (W.contents self.old.writer) (W.contents self.new.writer)
            result piece.now }
        ensures faults { self.old.faults ≤ self.new.faults }
        ensures quiet { OnOk result (self.new.faults ≡ self.old.faults) }
        ensures cause { OnErr result (Rose self.old.faults self.new.faults) }
    {
        for _ in 0..TRIES {
            match self.writer.write(piece) {
                Ok(count) => {
                    if count == 0 && !piece.is_empty() {
                        break;
                    }
                    return Ok(count);
                }
                Err(error) => {
                    if error.kind() != ErrorKind::Interrupted {
                        break;
                    }
                }
            }
        }
        self.faults = self.faults.saturating_add(1);
        Err(Failed)
    }
}

#[cfg(test)]
mod tests {
    use super::*;
    use std::io;
    use std::test::Fail;

    /// Fails so many times in this way, and then gives and takes this many bytes, or fails.
    #[derive(Drop)]
    struct Device {
        errors: u32,
        kind: ErrorKind,
        count: Option<usize>,
    }

    impl Device {
        fn next(&mut self) -> io::Result<usize> {
            if self.errors > 0 {
                self.errors -= 1;
                return Err(io::Error::from(self.kind));
            }
            match self.count {
                Some(count) => Ok(count),
                None => Err(io::Error::from(ErrorKind::Other)),
            }
        }
    }

    impl Read for Device {
        fn read(&mut self, buf: &mut [u8]) -> io::Result<usize> {
            Ok(self.next()?.min(buf.len()))
        }
    }

    impl Write for Device {
        fn write(&mut self, piece: &[u8]) -> io::Result<usize> {
            Ok(self.next()?.min(piece.len()))
        }

        fn flush(&mut self) -> io::Result<()> {
            Ok(())
        }
    }

    #[test]
    fn a_broken_device_is_a_counted_fault(rt: HostRuntime) -> Result<(), Fail> {
        let cut_short = ErrorKind::Interrupted;
        let cases = [
            (0, cut_short, Some(3), Ok(3), Ok(3)),
            (63, cut_short, Some(3), Ok(3), Ok(3)),
            (64, cut_short, Some(3), Err(Failed), Err(Failed)),
            (0, cut_short, Some(0), Ok(0), Err(Failed)),
            (0, cut_short, None, Err(Failed), Err(Failed)),
            (1, cut_short, None, Err(Failed), Err(Failed)),
            // Only a call that was cut short is made again.
            (1, ErrorKind::Other, Some(3), Err(Failed), Err(Failed)),
            (1, ErrorKind::WouldBlock, Some(3), Err(Failed), Err(Failed)),
        ];
        for (errors, kind, count, read, written) in cases {
            let mut input = InputStream::new(Device {
                errors,
                kind,
                count,
            });
            assert!(rt; input.read(&mut [0; 8]) == read);
            assert_eq!(rt; input.faults == 0, read.is_ok());
            let mut output = OutputStream::new(Device {
                errors,
                kind,
                count,
            });
            assert!(rt; output.write(b"12345678") == written);
            assert_eq!(rt; output.faults == 0, written.is_ok());
        }
        Ok(())
    }
}
