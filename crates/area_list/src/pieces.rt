//! A new list of areas from pieces of an old one.
ghost use Rattle.std.specs.Prelude.{◌≡◌, ◌+◌, ◌≤◌, ◌<◌, ◌^◌, [], ◌∷◌, length, IfSome};
ghost use Rattle.vm_base.specs.FlatStep.{area_between};
ghost use Rattle.area_list.specs.AreaList.{AreWithin};
ghost use Rattle.area_list.specs.Pieces.{areas_below, areas_from, area_or_none, pieces, Joined, Joins, Rejoins, Pushes};

use crate::area::Area;
use crate::areas::MOST_AREAS;
use crate::fault::AreaFault;
use arrayvec::ArrayVec;
use vm_base::Perm;

/// The areas with the pages from `first` to below `end` taken out, and others in their place.
pub(crate) fn replaced(
    areas: &[Area],
    first: u64,
    end: u64,
    between: Option<Area>,
) -> Result<ArrayVec<Area, 128>, AreaFault>
    requires within { AreWithin areas.now }
    requires between_within { IfSome between (λ area. area.first + area.pages ≤ 2 ^ 36) }
    ensures { Joins result (pieces first end between areas.now) }
{
    let mut list = ArrayVec::new();
    push_pieces(&mut list, areas, first, end, between)?;
    let count = list.len();
    prove!(count <= MOST_AREAS);
    Ok(list)
}

/// The same in the list itself, where it has a few areas: a copy of these is made, and no list of
/// as many places as there may be. After a refusal it is as before.
pub(crate) fn replace_few(
    list: &mut ArrayVec<Area, 128>,
    first: u64,
    end: u64,
    between: Option<Area>,
) -> Result<(), AreaFault>
    requires few { length list.old.items ≤ 16 }
    requires within { AreWithin list.old.items }
    requires between_within { IfSome between (λ area. area.first + area.pages ≤ 2 ^ 36) }
    ensures { Rejoins list.old.items list.new.items result
        (pieces first end between list.old.items) }
{
    let mut before: ArrayVec<Area, 16> = ArrayVec::new();
    let copied = before.try_extend_from_slice(list.as_slice());
    prove!(copied.is_ok());
    list.clear();
    match push_pieces(list, before.as_slice(), first, end, between) {
        Ok(()) => {
            let count = list.len();
            prove!(count <= MOST_AREAS);
            Ok(())
        }
        Err(fault) => {
            list.clear();
            let back = list.try_extend_from_slice(before.as_slice());
            prove!(back.is_ok());
            Err(fault)
        }
    }
}

/// Puts the pieces of areas into an empty list: those below the pages, those in their place, and
/// those behind them.
fn push_pieces(
    list: &mut ArrayVec<Area, 128>,
    areas: &[Area],
    first: u64,
    end: u64,
    between: Option<Area>,
) -> Result<(), AreaFault>
    requires empty { list.old.items ≡ [] }
    requires within { AreWithin areas.now }
    requires between_within { IfSome between (λ area. area.first + area.pages ≤ 2 ^ 36) }
    ensures { Joined list.new.items result (pieces first end between areas.now) }
{
    push_below(list, areas, first)?;
    push_if_some(list, between)?;
    push_from(list, areas, end)
}

/// Adds an area, if there is one.
fn push_if_some(list: &mut ArrayVec<Area, 128>, area: Option<Area>) -> Result<(), AreaFault>
    requires { IfSome area (λ area. area.first + area.pages ≤ 2 ^ 36) }
    ensures { Pushes list.old.items list.new.items result (area_or_none area) }
{
    match area {
        Some(area) => push_joined(list, area),
        None => Ok(()),
    }
}

/// Adds what lies below a page of each area.
fn push_below(list: &mut ArrayVec<Area, 128>, areas: &[Area], page: u64) -> Result<(), AreaFault>
    requires { AreWithin areas.now }
    ensures { Pushes list.old.items list.new.items result (areas_below page areas.now) }
{
    for area in areas {
        let end = area.first + area.pages;
        push_between(list, area.first, end.min(page), area.perm)?;
    }
    Ok(())
}

/// Adds what lies from a page on of each area.
fn push_from(list: &mut ArrayVec<Area, 128>, areas: &[Area], page: u64) -> Result<(), AreaFault>
    requires { AreWithin areas.now }
    ensures { Pushes list.old.items list.new.items result (areas_from page areas.now) }
{
    for area in areas {
        let end = area.first + area.pages;
        push_between(list, area.first.max(page), end, area.perm)?;
    }
    Ok(())
}

/// Adds the pages from `first` to below `end`, if there is one.
fn push_between(
    list: &mut ArrayVec<Area, 128>,
    first: u64,
    end: u64,
    perm: Perm,
) -> Result<(), AreaFault>
    requires { end ≤ 2 ^ 36 }
    ensures { Pushes list.old.items list.new.items result (area_between first end perm) }
{
    if first < end {
        let pages = end - first;
        push_joined(list, Area { first, pages, perm })?;
    }
    Ok(())
}

/// Adds an area behind the others, made one with the last where the two touch and may be used
/// alike.
fn push_joined(list: &mut ArrayVec<Area, 128>, area: Area) -> Result<(), AreaFault>
    requires { area.first + area.pages ≤ 2 ^ 36 }
    ensures { Pushes list.old.items list.new.items result (area ∷ []) }
{
    let is_full = list.is_full();
    let Some(last) = list.pop() else {
        list.push(area);
        return Ok(());
    };
    if last.joins(&area) {
        let pages = last.pages + area.pages;
        list.push(Area { pages, ..last });
        return Ok(());
    }
    list.push(last);
    if is_full {
        return Err(AreaFault::AreasFull);
    }
    list.push(area);
    Ok(())
}
