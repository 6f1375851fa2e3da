//! Pages one behind another that may be used alike.
ghost use Rattle.std.specs.Prelude.{◌≡◌, ◌+◌, ◌==◌, ◌&&◌};
ghost use Rattle.vm_base.specs.FlatMemory.{holds};
ghost use Rattle.vm_base.specs.FlatStep.{is_same_perm};
ghost use Rattle.vm_base.specs.declared.permission.Perm.TheVariants.{Read};

use std::marker::Model;
use vm_base::Perm;

/// An area: its first page, how many pages of 4096 bytes it has, and what they may be used for.
#[derive(Clone, Copy, Debug, PartialEq, Eq)]
pub struct Area {
    pub first: u64,
    pub pages: u64,
    pub perm: Perm,
}

impl Model for Area {
    ghost use Rattle.vm_base.specs.FlatMemory.{Area as Pages};
    ghost use Rattle.vm_base.specs.Codes.{area_code};

    ghost Value = { Pages };

    ghost coded = { area_code };

    ghost view = { λ a. record { first = a.first; pages = a.pages; perm = a.perm } };

    ghost inverse = { λ a. record { first = a.first; pages = a.pages; perm = a.perm } };
}

/// What fills the unused places of a list: an area without pages.
impl Default for Area {
    fn default() -> Area
        ensures { result ≡ record { first = 0; pages = 0; perm = Read } }
    {
        Area {
            first: 0,
            pages: 0,
            perm: Perm::Read,
        }
    }
}

impl Area {
    pub(crate) fn holds(&self, page: u64) -> bool
        ensures { result ≡ holds self.now page }
    {
        self.first <= page && page - self.first < self.pages
    }

    /// Whether the other area begins where this one ends, and may be used alike.
    pub(crate) fn joins(&self, next: &Area) -> bool
        ensures { result ≡ ((self.now.first + self.now.pages == next.now.first)
            && is_same_perm self.now.perm next.now.perm) }
    {
        self.first <= next.first && next.first - self.first == self.pages && self.perm == next.perm
    }
}
