//! A list of bytes that grows where memory is left.
ghost use Rattle.std.specs.Prelude.{◌≡◌, [], ◌++◌, take, OnOk, OnErr};

use crate::no_memory::NoMemory;
use std::alloc::Global;
use std::marker::Model;

/// A list of bytes, and contracts see it as that list.
#[derive(Debug, Drop)]
pub struct Bytes {
    list: Vec<u8>,
}

impl Model for Bytes {
    ghost use Rattle.std.specs.Prelude.{List, ℕ};

    ghost Value = { List ℕ };

    ghost view = { λ b. b.list.items };
}

impl Bytes {
    /// An empty list, which takes no memory yet.
    pub fn new(alloc: Global) -> Self
        ensures { result ≡ [] }
    {
        Bytes {
            list: Vec::new(alloc),
        }
    }

    /// The bytes of a vector, which is taken as it is: nothing is copied.
    pub fn from_vec(list: Vec<u8>) -> Self
        ensures { result ≡ list.items }
    {
        Bytes { list }
    }

    /// Appends the whole text. After `NoMemory` the list is as it was and good for further calls.
    /// How much room it takes is std's to choose, and no clause tells it.
    pub fn push_all(&mut self, text: &[u8]) -> Result<(), NoMemory>
        ensures ok { OnOk result (self.new ≡ self.old ++ text.now) }
        ensures no_memory { OnErr result (self.new ≡ self.old) }
    {
        self.list.extend_from_slice(text)?;
        Ok(())
    }

    /// Keeps so many first bytes, or all where there are no more. It takes no memory.
    pub fn truncate(&mut self, count: usize)
        ensures { self.new ≡ take count self.old }
    {
        self.list.truncate(count);
    }

    /// Empties the list. Whether it keeps the room that it had is std's to choose too.
    pub fn clear(&mut self)
        ensures { self.new ≡ [] }
    {
        self.list.clear();
    }

    pub fn as_slice(&self) -> &[u8]
        ensures { result.now ≡ self.now }
    {
        self.list.as_slice()
    }
}

#[cfg(test)]
mod tests {
    use super::*;
    use std::test::Fail;

    #[test]
    fn pieces_stand_one_after_another(rt: HostRuntime) -> Result<(), Fail> {
        let pieces: [&[u8]; 4] = [b"get ", b"", b"\x00\xff", b"\r\n"];
        let lengths = [4, 4, 6, 8];
        let mut list = Bytes::new(rt.alloc());
        assert_eq!(rt; list.as_slice(), b"".as_slice());
        for (piece, length) in pieces.into_iter().zip(lengths) {
            list.push_all(piece)?;
            assert_eq!(rt; list.as_slice().len(), length);
        }
        assert_eq!(rt; list.as_slice(), b"get \x00\xff\r\n".as_slice());
        list.truncate(9);
        assert_eq!(rt; list.as_slice().len(), 8);
        list.truncate(4);
        assert_eq!(rt; list.as_slice(), b"get ".as_slice());
        Ok(())
    }

    #[test]
    fn the_bytes_of_a_vector_are_taken(rt: HostRuntime) -> Result<(), Fail> {
        let mut list = Bytes::from_vec(Vec::from_slice(rt.alloc(), b"set")?);
        list.push_all(b"\n")?;
        assert_eq!(rt; list.as_slice(), b"set\n".as_slice());
        Ok(())
    }
}
