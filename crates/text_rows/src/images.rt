//! Images whose bytes come from the format's table.
use image_text::{PairList, write_image};
use io_face::MemSink;
use std::alloc::Global;
use std::test::Fail;
use vm_base::NoMemory;

const EMPTY: &[u8] = b"AFIMAGE1\0\0\0\0\0\0\0\0AFEND\0\0\0\0\0\0\0\0";

const ONE_PAIR: &[u8] = b"AFIMAGE1\0\0\0\0\0\0\0\x01\0\0\0\x01\0\0\0\x01k1AFEND\0\0\0\0\0\0\0\x01";

const TWO_PAIRS: &[u8] = b"AFIMAGE1\0\0\0\0\0\0\0\x02\0\0\0\x01\0\0\0\x01k1\
    \0\0\0\x02\0\0\0\0k\0AFEND\0\0\0\0\0\0\0\x02";

/// What a sink was given of an image.
#[derive(Drop)]
struct Image {
    bytes: Vec<u8>,
    failed: bool,
    faults: u64,
}

/// Writes an image to a sink of which the writes with these numbers fail.
fn image_of(alloc: Global, pairs: &PairList, fails: &[u64]) -> Result<Image, NoMemory> {
    let mut sink = MemSink::new(alloc, 100, Vec::from_slice(alloc, fails)?)?;
    let failed = write_image(pairs, &mut sink).is_err();
    Ok(Image {
        bytes: Vec::from_slice(alloc, sink.written())?,
        failed,
        faults: sink.faults(),
    })
}

#[test]
fn an_image_has_the_bytes_of_the_format(rt: HostRuntime) -> Result<(), Fail> {
    let mut pairs = PairList::new(rt.alloc());
    let empty = image_of(rt.alloc(), &pairs, &[])?;
    pairs.push(b"k", b"1")?;
    let one = image_of(rt.alloc(), &pairs, &[])?;
    pairs.push(b"k\0", b"")?;
    let two = image_of(rt.alloc(), &pairs, &[])?;
    assert_eq!(rt; empty.bytes.as_slice(), EMPTY);
    assert_eq!(rt; one.bytes.as_slice(), ONE_PAIR);
    assert_eq!(rt; two.bytes.as_slice(), TWO_PAIRS);
    assert_eq!(rt; ONE_PAIR.len(), 39);
    assert_eq!(rt; pairs.len(), 2);
    assert!(rt; !pairs.is_empty());
    Ok(())
}

#[test]
fn a_failed_write_leaves_a_prefix_of_the_image(rt: HostRuntime) -> Result<(), Fail> {
    let mut pairs = PairList::new(rt.alloc());
    pairs.push(b"k", b"1")?;
    for (call, length) in [(1, 0), (2, 8), (3, 16), (4, 24), (5, 26), (6, 31), (7, 39)] {
        let image = image_of(rt.alloc(), &pairs, &[call])?;
        assert_eq!(rt; image.failed, call < 7);
        assert_eq!(rt; image.bytes.len(), length);
        assert!(rt; ONE_PAIR.starts_with(&image.bytes));
        assert_eq!(rt; image.faults > 0, image.failed);
    }
    Ok(())
}
