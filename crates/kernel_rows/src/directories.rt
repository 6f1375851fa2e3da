//! Directories over an allot that counts.
ghost use Rattle.std.specs.Prelude.{◌+◌, ◌<◌, ◌≤◌, ◌^◌, None};
ghost use Rattle.std.specs.FinMap as map;

use crate::supply::Supply;
use std::alloc::Global;
use std::test::Fail;
use table_levels::Directory;
use vm_base::{NoMemory, Refused, Want};

/// What an empty directory tells after it was asked for one cell, and the frames that were out
/// then. The directory has been released since.
#[derive(Drop)]
struct Trial {
    answer: Result<(), Refused>,
    tables: u32,
    found: Option<u32>,
    out: u64,
    supply: Supply,
}

fn ask_for_first(alloc: Global, left: u32, cell: u32) -> Result<Trial, NoMemory>
    requires { cell < 2 ^ 27 }
{
    let mut supply = Supply::new(alloc, left);
    let mut directory = Directory::new(alloc)?;
    let answer = directory.insert(cell, cell / 7, &mut supply);
    let tables = directory.tables();
    let found = directory.find(cell);
    let out = supply.out;
    if u64::from(tables) <= out {
        directory.release(&mut supply);
    }
    Ok(Trial {
        answer,
        tables,
        found,
        out,
        supply,
    })
}

#[test]
fn the_first_cell_takes_three_tables_and_release_gives_them_back(
    rt: HostRuntime,
) -> Result<(), Fail> {
    let lowest = ask_for_first(rt.alloc(), 3, 0)?;
    assert_eq!(rt; lowest.answer, Ok(()));
    assert_eq!(rt; lowest.tables, 3);
    assert_eq!(rt; lowest.found, Some(0));
    assert_eq!(rt; lowest.out, 3);
    assert_eq!(rt; lowest.supply.out, 0);
    let highest = ask_for_first(rt.alloc(), 3, (1 << 27) - 1)?;
    assert_eq!(rt; highest.tables, 3);
    assert_eq!(rt; highest.found, Some(((1 << 27) - 1) / 7));
    Ok(())
}

#[test]
fn a_refused_insert_gives_back_what_it_took(rt: HostRuntime) -> Result<(), Fail> {
    let wants = [Want::Top, Want::Upper, Want::Middle];
    for left in 0..3 {
        let trial = ask_for_first(rt.alloc(), left, 7)?;
        assert_eq!(rt; trial.answer, Err(Refused { at: 1 }));
        assert_eq!(rt; trial.tables, 0);
        assert_eq!(rt; trial.found, None);
        assert_eq!(rt; trial.out, 0);
        assert_eq!(rt; trial.supply.asked.as_slice(), &wants[..left as usize + 1]);
    }
    Ok(())
}

/// A cell is inserted and another one taken out. It tells how many tables are there then, and how
/// many frames are out once the directory has been released.
fn take_out(alloc: Global, cell: u32, other: u32) -> Result<(u32, u64), NoMemory>
    requires cell { cell < 2 ^ 27 }
    requires other { other < 2 ^ 27 }
{
    let mut supply = Supply::new(alloc, 3);
    let mut directory = Directory::new(alloc)?;
    let _ = directory.insert(cell, 7, &mut supply);
    if u64::from(directory.tables()) <= supply.out {
        directory.remove(other, &mut supply);
    }
    let tables = directory.tables();
    if u64::from(tables) <= supply.out {
        directory.release(&mut supply);
    }
    Ok((tables, supply.out))
}

#[test]
fn a_cell_taken_out_gives_its_tables_back_and_no_other_does(rt: HostRuntime) -> Result<(), Fail> {
    let cases = [
        (0, 0, 0),
        (0, 1, 3),
        (1 << 18, (1 << 18) + 512, 3),
        ((1 << 27) - 1, (1 << 27) - 1, 0),
    ];
    for (cell, other, tables) in cases {
        assert_eq!(rt; take_out(rt.alloc(), cell, other)?, (tables, 0));
    }
    Ok(())
}

fn add(directory: &mut Directory, cell: u32, supply: &mut Supply)
    requires cell { cell < 2 ^ 27 }
    requires fewer { map.len directory.old < 512 }
    ensures { map.len directory.new ≤ map.len directory.old + 1 }
{
    if directory.find(cell).is_none() && u64::from(directory.tables()) <= supply.out {
        let _ = directory.insert(cell, cell / 7, supply);
    }
}

/// What a directory tells that was copied from one of two cells, and which frames it asked for.
#[derive(Drop)]
struct Copied {
    answer: Result<(), Refused>,
    tables: u32,
    second: Option<(u32, u32)>,
    supply: Supply,
}

fn copy(alloc: Global, left: u32, first: u32, second: u32) -> Result<Copied, NoMemory>
    requires first { first < 2 ^ 27 }
    requires second { second < 2 ^ 27 }
{
    let mut plenty = Supply::new(alloc, 1000);
    let mut source = Directory::new(alloc)?;
    add(&mut source, first, &mut plenty);
    add(&mut source, second, &mut plenty);
    let mut supply = Supply::new(alloc, left);
    let mut target = Directory::new(alloc)?;
    Ok(Copied {
        answer: target.copy_from(&source, &mut supply),
        tables: target.tables(),
        second: target.at_or_after(first.saturating_add(1)),
        supply,
    })
}

#[test]
fn a_copy_asks_level_by_level_and_a_refused_one_keeps_nothing(rt: HostRuntime) -> Result<(), Fail> {
    let wants = [
        Want::Top,
        Want::Upper,
        Want::Upper,
        Want::Middle,
        Want::Middle,
    ];
    for left in 0..5 {
        let copied = copy(rt.alloc(), left, 7, 7 << 18)?;
        assert_eq!(rt; copied.answer, Err(Refused { at: 1 }));
        assert_eq!(rt; copied.tables, 0);
        assert_eq!(rt; copied.second, None);
        assert_eq!(rt; copied.supply.out, 0);
        assert_eq!(rt; copied.supply.asked.as_slice(), &wants[..left as usize + 1]);
    }
    let copied = copy(rt.alloc(), 5, 7, 7 << 18)?;
    assert_eq!(rt; copied.answer, Ok(()));
    assert_eq!(rt; copied.tables, 5);
    assert_eq!(rt; copied.second, Some((7 << 18, 1 << 18)));
    assert_eq!(rt; copied.supply.out, 5);
    assert_eq!(rt; copied.supply.asked.as_slice(), &wants[..5]);
    Ok(())
}
