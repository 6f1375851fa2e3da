//! What a list of areas has at a page, and which page of a range is the lowest that an area holds,
//! or that none does.
ghost use Rattle.std.specs.Prelude.{◌≡◌, ◌-◌, ◌<◌};
ghost use Rattle.vm_base.specs.FlatMemory.{area_of};
ghost use Rattle.vm_base.specs.FlatStep.{taken, outside};
ghost use Rattle.area_list.specs.AreaList.{IsAreaList};

use crate::area::Area;

/// The area that holds a page, by halving.
pub(crate) fn area_at(areas: &[Area], page: u64) -> Option<Area>
    requires { IsAreaList areas.now }
    ensures { result ≡ area_of areas.now page }
{
    let begun = areas.partition_point(|area| area.first <= page);
    if begun == 0 {
        return None;
    }
    let area = areas[begun - 1];
    if area.holds(page) { Some(area) } else { None }
}

/// The lowest page of a range that an area holds.
pub(crate) fn lowest_taken(areas: &[Area], first: u64, end: u64) -> Option<u64>
    requires form { IsAreaList areas.now }
    requires some { first < end }
    ensures { result ≡ taken areas.now first (end - first) }
{
    for area in areas {
        if first < area.first + area.pages && area.first < end {
            return Some(first.max(area.first));
        }
    }
    None
}

/// The lowest page of a range that no area holds.
pub(crate) fn lowest_outside(areas: &[Area], first: u64, end: u64) -> Option<u64>
    requires form { IsAreaList areas.now }
    requires some { first < end }
    ensures { result ≡ outside areas.now first (end - first) }
{
    let mut page = first;
    for area in areas {
        if area.holds(page) {
            page = area.first + area.pages;
        }
    }
    if page < end { Some(page) } else { None }
}
