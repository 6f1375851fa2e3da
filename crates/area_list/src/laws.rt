//! What holds of every list of areas.
ghost use Rattle.area_list.specs.Laws.{PagesFixAreas, CallsAreThoseOnMemory};

/// Two lists of areas in order that give each page the same permission are equal.
pub fn same_pages_same_areas()
    ensures { PagesFixAreas }
{}

/// The calls are those of a flat memory, as far as its areas go.
pub fn as_on_flat_memory()
    ensures { CallsAreThoseOnMemory }
{}
