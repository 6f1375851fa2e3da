//! The bytes of an image.
ghost use Rattle.std.specs.Prelude.{◌≡◌, ◌<◌, ◌≤◌, [], ◌++◌, length, slice_index_or, OnOk, OnErr};
ghost use Rattle.std.specs.List.{flat_map};
ghost use Rattle.byteorder.specs.Endian.{big_bytes};
ghost use Rattle.io_face.specs.Faults.{Rose};
ghost use Rattle.io_face.specs.Told.{Adds, AddsPrefix};
ghost use Rattle.image_text.specs.Image.{image_front, image_end, pair_text, pairs_text};

use crate::pair_list::PairList;
use byteorder::{BigEndian, ByteOrder};
use io_face::{Failed, Sink, write_all};

/// A number of pairs as it stands in an image.
fn count_bytes(count: u64) -> [u8; 8]
    ensures { result ≡ big_bytes 8 count }
{
    let mut bytes = [0; 8];
    BigEndian::write_u64(&mut bytes, count);
    bytes
}

/// The lengths of a key and of a value as they stand in an image.
fn length_bytes(key: u32, value: u32) -> [u8; 8]
    ensures { result ≡ big_bytes 4 key ++ big_bytes 4 value }
{
    let mut bytes = [0; 8];
    BigEndian::write_u32(&mut bytes, key);
    BigEndian::write_u32(&mut bytes[4..], value);
    bytes
}

/// Hands two texts to the sink, one behind the other.
fn write_both<K: Sink>(sink: &mut K, first: &[u8], second: &[u8]) -> Result<(), Failed>
    ensures ok { OnOk result
        (Adds (K.written sink.old) (K.written sink.new) (first.now ++ second.now)) }
    ensures failed { OnErr result
        (AddsPrefix (K.written sink.old) (K.written sink.new) (first.now ++ second.now)) }
    ensures faults { K.faults sink.old ≤ K.faults sink.new }
    ensures cause { OnErr result (Rose (K.faults sink.old) (K.faults sink.new)) }
{
    write_all(sink, first)?;
    write_all(sink, second)
}

/// Writes what stands before the pairs.
#[tactic(auto, unfolding(crate::specs::Image::image_front))]
fn write_front<K: Sink>(count: u64, sink: &mut K) -> Result<(), Failed>
    ensures ok { OnOk result
        (Adds (K.written sink.old) (K.written sink.new) (image_front count)) }
    ensures failed { OnErr result
        (AddsPrefix (K.written sink.old) (K.written sink.new) (image_front count)) }
    ensures faults { K.faults sink.old ≤ K.faults sink.new }
    ensures cause { OnErr result (Rose (K.faults sink.old) (K.faults sink.new)) }
{
    write_both(sink, b"AFIMAGE1", &count_bytes(count))
}

/// Writes what stands behind the pairs.
#[tactic(auto, unfolding(crate::specs::Image::image_end))]
fn write_end<K: Sink>(count: u64, sink: &mut K) -> Result<(), Failed>
    ensures ok { OnOk result
        (Adds (K.written sink.old) (K.written sink.new) (image_end count)) }
    ensures failed { OnErr result
        (AddsPrefix (K.written sink.old) (K.written sink.new) (image_end count)) }
    ensures faults { K.faults sink.old ≤ K.faults sink.new }
    ensures cause { OnErr result (Rose (K.faults sink.old) (K.faults sink.new)) }
{
    write_both(sink, b"AFEND", &count_bytes(count))
}

/// Writes the pair at a place.
#[tactic(auto, unfolding(crate::specs::Image::pair_text))]
fn write_pair<K: Sink>(pairs: &PairList, i: usize, sink: &mut K) -> Result<(), Failed>
    requires { i < length pairs.now }
    ensures ok { OnOk result
        (Adds (K.written sink.old) (K.written sink.new)
        (pair_text (slice_index_or pairs.now i ([], [])))) }
    ensures failed { OnErr result
        (AddsPrefix (K.written sink.old) (K.written sink.new)
        (pair_text (slice_index_or pairs.now i ([], [])))) }
    ensures faults { K.faults sink.old ≤ K.faults sink.new }
    ensures cause { OnErr result (Rose (K.faults sink.old) (K.faults sink.new)) }
{
    let lengths = length_bytes(pairs.key(i).len() as u32, pairs.value(i).len() as u32);
    write_both(sink, &lengths, pairs.key_and_value(i))
}

/// Writes all pairs, one behind another.
fn write_pairs<K: Sink>(pairs: &PairList, sink: &mut K) -> Result<(), Failed>
    ensures ok { OnOk result
        (Adds (K.written sink.old) (K.written sink.new) (flat_map pair_text pairs.now)) }
    ensures failed { OnErr result
        (AddsPrefix (K.written sink.old) (K.written sink.new) (flat_map pair_text pairs.now)) }
    ensures faults { K.faults sink.old ≤ K.faults sink.new }
    ensures cause { OnErr result (Rose (K.faults sink.old) (K.faults sink.new)) }
{
    for i in 0..pairs.len() {
        write_pair(pairs, i, sink)?;
    }
    Ok(())
}

/// Writes the image of the pairs, which takes no memory. After `Failed` a prefix of it was
/// written, and no one can tell how long it is.
pub fn write_image<K: Sink>(pairs: &PairList, sink: &mut K) -> Result<(), Failed>
    ensures ok { OnOk result
        (Adds (K.written sink.old) (K.written sink.new) (pairs_text pairs.now)) }
    ensures failed { OnErr result
        (AddsPrefix (K.written sink.old) (K.written sink.new) (pairs_text pairs.now)) }
    ensures faults { K.faults sink.old ≤ K.faults sink.new }
    ensures cause { OnErr result (Rose (K.faults sink.old) (K.faults sink.new)) }
{
    let count = pairs.len() as u64;
    write_front(count, sink)?;
    write_pairs(pairs, sink)?;
    write_end(count, sink)
}
