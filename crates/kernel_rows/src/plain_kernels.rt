//! Events that no script of the program has.
use plain_kernel::{Event, Kernel, MOST_FRAMES, Outcome};
use std::test::Fail;
use vm_base::{Bytes, Perm};

#[test]
fn an_area_to_be_read_refuses_a_write(rt: HostRuntime) -> Result<(), Fail> {
    let alloc = rt.alloc();
    let mut kernel = Kernel::new(alloc, MOST_FRAMES)?;
    let area = Event::Map {
        first: 0,
        pages: 1,
        perm: Perm::Read,
    };
    assert!(rt; matches!(kernel.step(alloc, &area)?, Outcome::Done));
    let mut bytes = Bytes::new(alloc);
    bytes.push_all(b"a")?;
    let write = Event::Write { addr: 9, bytes };
    assert!(rt; matches!(kernel.step(alloc, &write)?, Outcome::NoWrite(0)));
    let read = Event::Read { addr: 9, len: 1 };
    let answer = kernel.step(alloc, &read)?;
    assert!(rt; matches!(&answer, Outcome::Bytes(bytes) if bytes.as_slice() == b"\0".as_slice()));
    Ok(())
}
