//! Reading ranges of a store, and storing its words, the highest byte first.
ghost use Rattle.std.specs.Prelude.{◌≡◌, ◌+◌, ◌≤◌, ◌^◌, [], length};
ghost use Rattle.byteorder.specs.Endian.{big_bytes};
ghost use Rattle.vm_base.specs.FlatMemory.{bytes_at};
ghost use Rattle.vm_base.specs.MemoryState.{IsMemory, IsKept};
ghost use Rattle.vm_base.specs.MemoryCalls.{IsReady, after_store};
ghost use Rattle.store_meaning.specs.Layout.{word_at};
ghost use Rattle.page_hash.specs.HashCalls.{IsOfArea};

use byteorder::{BigEndian, ByteOrder};
use vm_base::Memory;

// Reads a range that one area has. So the read is not refused.
pub fn read_area<M: Memory>(m: &mut M, addr: u64, buf: &mut [u8])
    requires area { IsOfArea (M.state m.old).mem addr (length buf.old) }
    requires within { addr + length buf.old ≤ 2 ^ 48 }
    ensures bytes { buf.new ≡ bytes_at (M.state m.old).mem.present addr (length buf.old) }
    ensures sound { IsMemory (M.state m.old) }
    ensures same { M.state m.new ≡ M.state m.old }
    ensures aside { M.aside m.new ≡ M.aside m.old }
    ensures went { M.went m.old m.new }
{
    let _read = m.read(addr, buf);
}

// The word at an address.
pub fn read_word<M: Memory>(m: &mut M, addr: u64) -> u64
    requires area { IsOfArea (M.state m.old).mem addr 8 }
    requires within { addr + 8 ≤ 2 ^ 48 }
    ensures word { result ≡ word_at (M.state m.old).mem addr }
    ensures same { M.state m.new ≡ M.state m.old }
    ensures aside { M.aside m.new ≡ M.aside m.old }
    ensures went { M.went m.old m.new }
{
    let mut bytes = [0; 8];
    read_area(m, addr, &mut bytes);
    BigEndian::read_u64(&bytes)
}

// Stores a word in pages that were touched.
pub fn store_word<M: Memory>(m: &mut M, addr: u64, word: u64)
    requires within { addr + 8 ≤ 2 ^ 48 }
    requires ready { IsReady (M.state m.old) addr 8 }
    ensures stored { M.state m.new ≡ after_store (M.state m.old) addr (big_bytes 8 word) }
    ensures keeps { IsKept (M.state m.old) (M.state m.new) [] }
    ensures aside { M.aside m.new ≡ M.aside m.old }
    ensures went { M.went m.old m.new }
{
    let mut bytes = [0; 8];
    BigEndian::write_u64(&mut bytes, word);
    m.store(addr, &bytes);
}
