//! Lists of areas at their limit, and what each call leaves.
use area_list::{Area, AreaFault, Areas, MOST_AREAS};
use std::test::Fail;
use vm_base::Perm;

#[test]
fn a_full_list_refuses_what_would_make_it_longer(rt: HostRuntime) -> Result<(), Fail> {
    let mut areas = Areas::new();
    for place in 0..127 {
        assert_eq!(rt; areas.map(2 * place, 1, Perm::ReadWrite), Ok(()));
    }
    assert_eq!(rt; areas.map(0x100, 3, Perm::ReadWrite), Ok(()));
    let full = areas.copy();
    assert_eq!(rt; full.list().len(), MOST_AREAS);
    assert_eq!(rt;
        areas.map(0x200, 1, Perm::ReadWrite),
        Err(AreaFault::AreasFull)
    );
    assert_eq!(rt; areas.unmap(0x101, 1), Err(AreaFault::AreasFull));
    assert_eq!(rt;
        areas.protect(0x101, 1, Perm::Read),
        Err(AreaFault::AreasFull)
    );
    assert_eq!(rt; areas.list(), full.list());
    assert_eq!(rt; areas.unmap(0, 1), Ok(()));
    assert_eq!(rt; areas.map(0x200, 1, Perm::ReadWrite), Ok(()));
    Ok(())
}

/// A call on a list of areas, as a line of a script has it.
#[derive(Clone, Copy)]
enum Call {
    Map(Perm),
    Unmap,
    Protect(Perm),
}

use Call::{Map, Protect, Unmap};
use Perm::{Read, ReadWrite};

/// How many pages there are.
const ALL: u64 = 1 << 36;

const THREE: &[(u64, u64, Perm)] = &[(0x100, 3, ReadWrite)];

const MIDDLE: &[(u64, u64, Perm)] = &[
    (0x100, 1, ReadWrite),
    (0x101, 1, Read),
    (0x102, 1, ReadWrite),
];

const BEHIND: &[(u64, u64, Perm)] = &[(0x100, 3, ReadWrite), (0x103, 2, Read)];

const MOVED: &[(u64, u64, Perm)] = &[(0x100, 2, ReadWrite), (0x102, 3, Read)];

const GAP: &[(u64, u64, Perm)] = &[(0x100, 1, ReadWrite), (0x103, 2, Read)];

const FILLED: &[(u64, u64, Perm)] = &[(0x100, 1, ReadWrite), (0x101, 4, Read)];

const LAST: &[(u64, u64, Perm)] = &[(0x100, 1, ReadWrite), (0x101, 4, Read), (ALL - 1, 1, Read)];

/// Each call, with its answer and the areas behind it: first page, pages and permission.
const CALLS: [(Call, u64, u64, Result<(), AreaFault>, &[(u64, u64, Perm)]); 13] = [
    (Map(ReadWrite), 0x100, 3, Ok(()), THREE),
    (Protect(Read), 0x101, 1, Ok(()), MIDDLE),
    (Protect(ReadWrite), 0x101, 1, Ok(()), THREE),
    (Map(Read), 0xff, 9, Err(AreaFault::Overlap(0x100)), THREE),
    (Map(Read), 0x101, 9, Err(AreaFault::Overlap(0x101)), THREE),
    (
        Protect(Read),
        0x102,
        9,
        Err(AreaFault::NoArea(0x103)),
        THREE,
    ),
    (Protect(Read), 0xfe, 9, Err(AreaFault::NoArea(0xfe)), THREE),
    (Map(Read), 0x103, 2, Ok(()), BEHIND),
    (Protect(Read), 0x102, 2, Ok(()), MOVED),
    (Unmap, 0x101, 2, Ok(()), GAP),
    (Map(Read), 0x101, 2, Ok(()), FILLED),
    (Map(Read), ALL - 1, 1, Ok(()), LAST),
    (Unmap, 0, ALL, Ok(()), &[]),
];

/// What a call answers, or nothing for a range that no call takes.
fn called(areas: &mut Areas, call: Call, first: u64, pages: u64) -> Option<Result<(), AreaFault>> {
    if pages == 0 || first > ALL || ALL - first < pages {
        return None;
    }
    Some(match call {
        Map(perm) => areas.map(first, pages, perm),
        Unmap => areas.unmap(first, pages),
        Protect(perm) => areas.protect(first, pages, perm),
    })
}

/// Whether a list has these areas.
fn has(areas: &Areas, wanted: &[(u64, u64, Perm)]) -> bool {
    let list = areas.list();
    if list.len() != wanted.len() {
        return false;
    }
    for (area, (first, pages, perm)) in list.iter().zip(wanted) {
        let wanted = Area {
            first: *first,
            pages: *pages,
            perm: *perm,
        };
        if *area != wanted {
            return false;
        }
    }
    true
}

#[test]
fn each_call_leaves_the_areas_of_the_table(rt: HostRuntime) -> Result<(), Fail> {
    let mut areas = Areas::new();
    for (call, first, pages, answer, wanted) in CALLS {
        assert_eq!(rt; called(&mut areas, call, first, pages), Some(answer));
        assert!(rt; has(&areas, wanted));
    }
    Ok(())
}

#[test]
fn a_page_is_found_in_its_area_alone(rt: HostRuntime) -> Result<(), Fail> {
    let mut areas = Areas::new();
    assert_eq!(rt; areas.find(0), None);
    areas.map(2, 3, ReadWrite)?;
    areas.map(5, 1, Read)?;
    areas.map(9, 1, Read)?;
    let found = [
        None,
        None,
        Some(2),
        Some(2),
        Some(2),
        Some(5),
        None,
        None,
        None,
        Some(9),
        None,
    ];
    for (page, first) in found.into_iter().enumerate() {
        let area = areas.find(page as u64);
        assert_eq!(rt; area.map(|area| area.first), first);
    }
    Ok(())
}
