//! The entries of a table: 64 bits each, with the bits 0 and 1 of an x86-64 table entry.
ghost use Rattle.std.specs.Prelude.{⊤, ◌≡◌, ◌∷◌, [], codes, bit_and};
ghost use Rattle.vm_base.specs.Entries.{named_bits, entry_of, number_of, bits_of, IsEntry};

use bitflags::{Flag, Flags, bitflag_items};

/// What a table entry says beside its number.
#[derive(Clone, Copy, PartialEq, Eq, Debug)]
pub struct Bits(u16);

bitflag_items! {
    impl Bits: u16 {
        /// The entry names something.
        const PRESENT = 0x1;
        /// Read and write.
        const WRITE = 0x2;
        /// The leaf table is shared with a snapshot.
        const SHARED = 0x200;
        /// The leaf table is still to be copied for a snapshot.
        const MARKED = 0x400;
    }
}

impl Flags for Bits {
    type Bits = u16;

    ghost exact = { ⊤ };

    ghost table = { (codes "PRESENT", 0x1) ∷ (codes "WRITE", 0x2) ∷ (codes "SHARED", 0x200) ∷ (codes "MARKED", 0x400) ∷ [] };

    ghost set_of = { λ bits. bits.0 };

    fn flags<'a>() -> &'a [Flag<Bits>] {
        Bits::FLAGS
    }

    fn bits(&self) -> u16 {
        self.0
    }

    fn from_bits_retain(bits: u16) -> Bits {
        Bits(bits)
    }
}

/// The entry of this number (a place in a list of frames, or a slot) with these bits. Bits without
/// a name are left out.
pub fn entry_word(number: u32, bits: Bits) -> u64
    ensures word { result ≡ entry_of number bits.0 }

    // Nothing of the two is lost in it.
    ensures number { number_of result ≡ number }
    ensures bits { bits_of result ≡ bit_and bits.0 named_bits }
{
    u64::from(number) * 4096 + u64::from(named(bits.0).0)
}

/// The number and the bits of an entry. Bits without a name are left out.
pub fn entry_parts(word: u64) -> (u32, Bits)
    ensures number { result.0 ≡ number_of word }
    ensures bits { result.1.0 ≡ bits_of word }

    // An entry is the one of its parts.
    ensures whole { IsEntry word → entry_of result.0 result.1.0 ≡ word }
{
    let number = (word / 4096 % (1 << 32)) as u32;
    (number, named((word % 4096) as u16))
}

// Those of the bits that have a name.
fn named(bits: u16) -> Bits
    ensures { result.0 ≡ bit_and bits named_bits }
{
    Bits::from_bits_truncate(bits)
}

#[cfg(test)]
mod tests {
    use super::*;
    use std::test::Fail;

    #[test]
    fn an_entry_has_its_number_above_its_bits(rt: HostRuntime) -> Result<(), Fail> {
        let cases = [
            (0, Bits::empty(), 0),
            (0, Bits::PRESENT, 1),
            (1, Bits::PRESENT | Bits::WRITE, 0x1003),
            (5, Bits::PRESENT | Bits::SHARED, 0x5201),
            (5, Bits::PRESENT | Bits::MARKED, 0x5401),
            (u32::MAX, Bits::all(), 0xfff_ffff_f603),
            (2, Bits::from_bits_retain(0xffff), 0x2603),
        ];
        for (number, bits, word) in cases {
            assert_eq!(rt; entry_word(number, bits), word);
            assert_eq!(rt; entry_parts(word).0, number);
            assert_eq!(rt; entry_parts(word).1.bits(), bits.bits() & 0x603);
        }
        assert_eq!(rt; entry_parts(0x8000_0000_0000_08fd).0, 0);
        assert_eq!(rt; entry_parts(0x8000_0000_0000_08fd).1, Bits::PRESENT);
        Ok(())
    }
}
