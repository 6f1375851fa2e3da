//! Which fields an event may have, case by case.
use area_list::Area;
use std::test::Fail;
use trace_events::{AreaRow, Event};
use vm_base::{Bytes, Mode, Perm};

const PERM: Perm = Perm::ReadWrite;

#[test]
fn each_field_may_go_up_to_its_bound(rt: HostRuntime) -> Result<(), Fail> {
    let mut byte = Bytes::new(rt.alloc());
    byte.push_all(b"a")?;
    let cases = [
        (
            Event::Map {
                first: 0,
                pages: 1 << 36,
                perm: PERM,
            },
            true,
        ),
        (
            Event::Map {
                first: 1,
                pages: 1 << 36,
                perm: PERM,
            },
            false,
        ),
        (
            Event::Unmap {
                first: (1 << 36) - 1,
                pages: 1,
            },
            true,
        ),
        (Event::Unmap { first: 0, pages: 0 }, false),
        (
            Event::Protect {
                first: u64::MAX,
                pages: 1,
                perm: PERM,
            },
            false,
        ),
        (
            Event::Read {
                addr: (1 << 48) - 65_536,
                len: 65_536,
            },
            true,
        ),
        (
            Event::Read {
                addr: 0,
                len: 65_537,
            },
            false,
        ),
        (
            Event::Read {
                addr: (1 << 48) - 1,
                len: 2,
            },
            false,
        ),
        (
            Event::Write {
                addr: (1 << 48) - 1,
                bytes: byte,
            },
            true,
        ),
        (
            Event::Write {
                addr: 0,
                bytes: Bytes::new(rt.alloc()),
            },
            false,
        ),
        (
            Event::Fill {
                addr: 0,
                len: 2_097_152,
                byte: 255,
            },
            true,
        ),
        (
            Event::Fill {
                addr: 0,
                len: 2_097_153,
                byte: 0,
            },
            false,
        ),
        (
            Event::Fork {
                number: u32::MAX,
                mode: Mode::Eager,
            },
            true,
        ),
        (
            Event::Fork {
                number: 0,
                mode: Mode::Eager,
            },
            false,
        ),
        (
            Event::Fork {
                number: 1,
                mode: Mode::OnDemand,
            },
            false,
        ),
        (
            Event::Fork {
                number: 1,
                mode: Mode::Async,
            },
            false,
        ),
        (
            Event::Copy {
                number: 1,
                cell: (1 << 27) - 1,
            },
            true,
        ),
        (
            Event::Copy {
                number: 1,
                cell: 1 << 27,
            },
            false,
        ),
        (Event::Drop { number: 0 }, false),
        (
            Event::SnapRead {
                number: 0,
                addr: 0,
                len: 1,
            },
            false,
        ),
        (
            Event::SnapRead {
                number: 1,
                addr: 0,
                len: 1,
            },
            true,
        ),
        (Event::Frames, true),
        (Event::ListAreas, true),
        (Event::Refuse { nth: 0 }, false),
    ];
    for (event, within) in &cases {
        assert_eq!(rt; event.is_within_bounds(), *within);
    }
    Ok(())
}

#[test]
fn a_row_has_the_areas_that_it_was_made_of(rt: HostRuntime) -> Result<(), Fail> {
    let areas = [
        Area {
            first: 0,
            pages: 2,
            perm: Perm::Read,
        },
        Area {
            first: 9,
            pages: 1,
            perm: PERM,
        },
    ];
    let row = AreaRow::new(rt.alloc(), &areas)?;
    assert_eq!(rt; row.list(), areas.as_slice());
    assert_eq!(rt; AreaRow::new(rt.alloc(), &[])?.list().len(), 0);
    Ok(())
}
