//! A page of words in a buffer, the highest byte of each first.
ghost use Rattle.std.specs.Prelude.{◌≡◌, ◌+◌, ◌*◌, ◌≤◌, ◌++◌, length, take, drop};
ghost use Rattle.byteorder.specs.Endian.{big_bytes};
ghost use Rattle.page_hash.specs.ArrayRelinking.{word_of};

use byteorder::{BigEndian, ByteOrder};

// The word at a place.
pub fn word_at_place(words: &[u8], place: usize) -> u64
    requires within { 8 * place + 8 ≤ length words.now }
    ensures { result ≡ word_of words.now place }
{
    BigEndian::read_u64(&words[8 * place..])
}

// Puts a word at a place.
pub fn set_word(words: &mut [u8], place: usize, word: u64)
    requires within { 8 * place + 8 ≤ length words.old }
    ensures { words.new ≡ take (8 * place) words.old
        ++ (big_bytes 8 word ++ drop 8 (drop (8 * place) words.old)) }
{
    BigEndian::write_u64(&mut words[8 * place..], word);
}
