//! One table: a frame as 512 entries.
ghost use Rattle.std.specs.Prelude.{◌≡◌, ◌<◌, IsTrue, None};
ghost use Rattle.table_levels.specs.Tables.{entry_at, SetsEntry};

use byteorder::{ByteOrder, LittleEndian};
use vm_base::{Bits, Frame, entry_parts, entry_word};

/// How many entries a table has.
pub(crate) const ENTRIES: usize = 512;

/// The number of an entry, where it is present.
pub(crate) fn entry(table: &Frame, i: usize) -> Option<u32>
    requires { i < 512 }
    ensures { result ≡ entry_at table.now.bytes i }
{
    let bytes: &[u8] = table.bytes();
    let (number, bits) = entry_parts(LittleEndian::read_u64(&bytes[8 * i..]));
    if bits == Bits::PRESENT {
        Some(number)
    } else {
        None
    }
}

/// Names a number in an entry, or takes the entry out.
pub(crate) fn set_entry(table: &mut Frame, i: usize, number: Option<u32>)
    requires { i < 512 }
    ensures number { table.new.number ≡ table.old.number }
    ensures set { SetsEntry table.old.bytes table.new.bytes i number }
{
    let word = match number {
        Some(number) => entry_word(number, Bits::PRESENT),
        None => 0,
    };
    let bytes: &mut [u8] = table.bytes_mut();
    LittleEndian::write_u64(&mut bytes[8 * i..], word);
}
