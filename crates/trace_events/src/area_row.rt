//! The areas that one event answers.
ghost use Rattle.std.specs.Prelude.{◌≡◌, IfOk};

use area_list::Area;
use std::alloc::Global;
use std::marker::Model;
use vm_base::NoMemory;

/// Areas in a row, as they stood when the event came. Contracts see the list of areas.
#[derive(Debug, Drop)]
pub struct AreaRow {
    row: Vec<Area>,
}

impl Model for AreaRow {
    ghost use Rattle.std.specs.Prelude.{List};
    ghost use Rattle.std.specs.Coded.{coded_list};
    ghost use Rattle.vm_base.specs.FlatMemory.{Area as Pages};
    ghost use Rattle.vm_base.specs.Codes.{area_code};

    ghost Value = { List Pages };

    ghost coded = { coded_list area_code };

    ghost view = { λ a. a.row.items };
}

impl AreaRow {
    /// A copy of the areas.
    pub fn new(alloc: Global, areas: &[Area]) -> Result<AreaRow, NoMemory>
        ensures { IfOk result (λ row. row ≡ areas.now) }
    {
        let row = Vec::from_slice(alloc, areas)?;
        Ok(AreaRow { row })
    }

    pub fn list(&self) -> &[Area]
        ensures { result.now ≡ self.now }
    {
        self.row.as_slice()
    }
}
