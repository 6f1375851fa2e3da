//! The list of areas.
ghost use Rattle.std.specs.Prelude.{◌≡◌, ◌+◌, ◌<◌, ◌≤◌, ◌^◌, [], Some, None, IfSome, OnOk};
ghost use Rattle.vm_base.specs.FlatMemory.{area_of};
ghost use Rattle.area_list.specs.AreaList.{IsAreaList, IsFound, Sets};
ghost use Rattle.area_list.specs.Calls.{areas_mapped, areas_unmapped, areas_protected, if_few};
ghost use Rattle.area_list.specs.Pieces.{pieces, IsOver};
ghost use Rattle.vm_base.specs.FlatStep.{joined};
ghost use Rattle.std.specs.Option.{option_map};
ghost use Rattle.area_list.specs.Answers.{ChangesAreas};

use crate::area::Area;
use crate::fault::AreaFault;
use crate::lookup::{area_at, lowest_outside, lowest_taken};
use crate::pieces::{replace_few, replaced};
use arrayvec::ArrayVec;
use std::marker::Model;
use vm_base::Perm;

/// How many areas a list may have.
pub const MOST_AREAS: usize = 128;

/// How many areas are changed in place.
const FEW_AREAS: usize = 16;

/// Areas in rising order of their pages, which never touch where they may be used alike. Contracts
/// see the list of areas. It lies in the value itself: no call takes memory.
#[derive(Drop)]
pub struct Areas {
    list: ArrayVec<Area, 128>,
}

impl Model for Areas {
    ghost use Rattle.std.specs.Prelude.{List};
    ghost use Rattle.std.specs.Coded.{coded_list};
    ghost use Rattle.vm_base.specs.FlatMemory.{Area as Pages};
    ghost use Rattle.vm_base.specs.Codes.{area_code};
    ghost use Rattle.area_list.specs.AreaList.{IsAreaList};

    ghost Value = { List Pages };

    ghost coded = { coded_list area_code };

    ghost view = { λ a. a.list.items };

    ghost invariant = { λ a. IsAreaList a.list.items };
}

impl Areas {
    pub fn new() -> Areas
        ensures { result ≡ [] }
    {
        Areas {
            list: ArrayVec::new(),
        }
    }

    pub fn copy(&self) -> Areas
        ensures { result ≡ self.now }
    {
        let mut list = ArrayVec::new();
        let copied = list.try_extend_from_slice(self.list.as_slice());
        prove!(copied.is_ok());
        Areas { list }
    }

    /// Becomes the same list as another one, in its own place: nothing as large as a list is made
    /// or moved.
    pub fn copy_from(&mut self, other: &Areas)
        ensures { self.new ≡ other.now }
    {
        self.list.clear();
        let copied = self.list.try_extend_from_slice(other.list.as_slice());
        prove!(copied.is_ok());
    }

    /// The areas in rising order.
    pub fn list(&self) -> &[Area]
        ensures areas { result.now ≡ self.now }
        ensures form { IsAreaList self.now }
    {
        self.list.as_slice()
    }

    /// The area that holds a page. The number of steps grows with the logarithm of the number of
    /// areas.
    pub fn find(&self, page: u64) -> Option<Area>
        ensures area { result ≡ area_of self.now page }
        ensures found { IfSome result (IsFound self.now page) }
    {
        area_at(self.list(), page)
    }

    /// Maps pages that no area holds, else `Overlap` with the lowest page that is taken.
    pub fn map(&mut self, first: u64, pages: u64, perm: Perm) -> Result<(), AreaFault>
        requires some { 0 < pages }
        requires within { first + pages ≤ 2 ^ 36 }
        ensures answer { ChangesAreas self.old self.new result
            (areas_mapped self.old first pages perm) }
        ensures pages { OnOk result (Sets self.old self.new first pages (Some perm)) }
    {
        if let Some(page) = lowest_taken(self.list(), first, first + pages) {
            return Err(AreaFault::Overlap(page));
        }
        let mapped = Area { first, pages, perm };
        self.replace(first, pages, Some(mapped))
    }

    /// Unmaps pages. Those that no area holds are skipped.
    pub fn unmap(&mut self, first: u64, pages: u64) -> Result<(), AreaFault>
        requires some { 0 < pages }
        requires within { first + pages ≤ 2 ^ 36 }
        ensures answer { ChangesAreas self.old self.new result
            (areas_unmapped self.old first pages) }
        ensures pages { OnOk result (Sets self.old self.new first pages None) }
    {
        self.replace(first, pages, None)
    }

    /// Gives pages that lie in areas another permission, else `NoArea` with the lowest page that
    /// lies in none.
    pub fn protect(&mut self, first: u64, pages: u64, perm: Perm) -> Result<(), AreaFault>
        requires some { 0 < pages }
        requires within { first + pages ≤ 2 ^ 36 }
        ensures answer { ChangesAreas self.old self.new result
            (areas_protected self.old first pages perm) }
        ensures pages { OnOk result (Sets self.old self.new first pages (Some perm)) }
    {
        if let Some(page) = lowest_outside(self.list(), first, first + pages) {
            return Err(AreaFault::NoArea(page));
        }
        let protected = Area { first, pages, perm };
        self.replace(first, pages, Some(protected))
    }

    /// Takes pages out of the areas that hold them, and puts an area of just these pages, or none,
    /// in their place.
    fn replace(&mut self, first: u64, pages: u64, area: Option<Area>) -> Result<(), AreaFault>
        requires some { 0 < pages }
        requires within { first + pages ≤ 2 ^ 36 }
        requires over { IsOver first pages area }
        ensures answer { ChangesAreas self.old self.new result
            (if_few (joined (pieces first (first + pages) area self.old))) }
        ensures pages { OnOk result (Sets self.old self.new first pages (option_map (λ area. area.perm) area)) }
        ensures form { IsAreaList self.old }
    {
        let end = first + pages;
        if self.list().len() <= FEW_AREAS {
            return replace_few(&mut self.list, first, end, area);
        }
        self.list = replaced(self.list(), first, end, area)?;
        Ok(())
    }
}
