//! The callers on a flat memory.
use crate::again;
use flat_memory::Flat;
use std::test::Fail;
use vm_base::{Fault, Memory};

#[test]
fn a_block_given_back_is_given_again(rt: HostRuntime) -> Result<(), Fail> {
    let mut flat = Flat::new(rt.alloc(), 64, 0)?;
    let places = [0x2_0000_0000, 0x2_0000_0020, 0x2_0000_0000];
    assert_eq!(rt; again(&mut flat), Ok(places));
    let mut header = [0; 16];
    assert_eq!(rt; flat.read(0x20_0000, &mut header), Ok(()));
    assert_eq!(rt; header, [0, 0, 0, 2, 0, 0, 0, 0x60, 0, 0, 0, 0, 0, 0, 0, 0]);
    Ok(())
}

#[test]
fn a_memory_without_a_page_has_no_heap(rt: HostRuntime) -> Result<(), Fail> {
    let mut flat = Flat::new(rt.alloc(), 0, 0)?;
    let lacks = Fault::NoFrame { at: 1, page: 0x200 };
    assert_eq!(rt; again(&mut flat), Err(lacks));
    let mut byte = [0; 1];
    assert_eq!(rt; flat.read(0x20_0000, &mut byte), Err(Fault::NoArea(0x200)));
    Ok(())
}
