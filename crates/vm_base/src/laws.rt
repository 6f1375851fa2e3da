//! Laws of a flat memory, for all who use one.
ghost use Rattle.vm_base.specs.FlatLaws.{TouchesChangeNoRead, TouchesKeepPages, TouchesMakeZeros, TouchesLeaveOthers, AbsentPagesReadAsZeros};
ghost use Rattle.vm_base.specs.FlatLaws.{StoredBytesAreRead, StoresChangeNoOtherRead, StoresLeaveOtherPages, StoresMakeNoPagePresent, StoresKeepLengths, StoresJoin};
ghost use Rattle.vm_base.specs.FlatLaws.{UnmapsChangeNoOtherRead, UnmapsLeaveOthers, UnmappedPagesAreAbsent};
ghost use Rattle.vm_base.specs.FlatLaws.{AreasAreFound, AnAreaIsNotMissed, NoneIsOutside, AWritableAreaIsFound, NoneIsReadOnly, AreasApartTakeNone, NoneIsTaken, RangesOfAnAreaAreRead, RangesOfAnAreaAreTouched};
ghost use Rattle.vm_base.specs.FlatLaws.{MorePagesTakeMoreFrames, TouchesTakeNoFrameAway, MoreCellsTakeMoreTables, MoreNumbersAreMoreDistinct, PagesTakeFrames};
ghost use Rattle.vm_base.specs.FlatLaws.{SlotsSufficeAmong, SlotsSufficeBelow, OnlyAreasRefuse, SlotsAreNeverFull, CellsAreThoseOfPages};

/// A touch changes no read: an absent page reads as zeros, and has zeros once it was touched.
pub fn a_touch_changes_no_read()
    ensures reads { TouchesChangeNoRead }
    ensures kept { TouchesKeepPages }
    ensures zeros { TouchesMakeZeros }
    ensures others { TouchesLeaveOthers }
    ensures absent { AbsentPagesReadAsZeros }
{}

/// A store changes the reads of its own bytes and no others, and no page comes or goes.
pub fn a_store_changes_its_own_bytes_alone()
    ensures stored { StoredBytesAreRead }
    ensures reads { StoresChangeNoOtherRead }
    ensures others { StoresLeaveOtherPages }
    ensures present { StoresMakeNoPagePresent }
    ensures lengths { StoresKeepLengths }
    ensures joined { StoresJoin }
{}

/// An unmap takes its own pages away, and changes no read of a range apart from them.
pub fn an_unmap_changes_no_other_read()
    ensures reads { UnmapsChangeNoOtherRead }
    ensures others { UnmapsLeaveOthers }
    ensures gone { UnmappedPagesAreAbsent }
{}

/// No area is missed: which pages of a range lie in areas, may be written, or are taken.
pub fn no_area_is_missed()
    ensures found { AreasAreFound }
    ensures held { AnAreaIsNotMissed }
    ensures outside { NoneIsOutside }
    ensures writable { AWritableAreaIsFound }
    ensures unwritable { NoneIsReadOnly }
    ensures apart { AreasApartTakeNone }
    ensures taken { NoneIsTaken }
{}

/// A range of bytes that one area has is read, and touched where the area may be written.
pub fn a_range_of_one_area_is_not_refused()
    ensures read { RangesOfAnAreaAreRead }
    ensures touched { RangesOfAnAreaAreTouched }
{}

/// A memory with more pages takes no fewer frames, and each of its pages takes one.
pub fn more_pages_take_more_frames()
    ensures own { MorePagesTakeMoreFrames }
    ensures touched { TouchesTakeNoFrameAway }
    ensures directory { MoreCellsTakeMoreTables }
    ensures distinct { MoreNumbersAreMoreDistinct }
    ensures pages { PagesTakeFrames }
{}

/// Slots suffice where all cells lie among as many as there are slots, and then only areas refuse.
pub fn slots_suffice_among_as_many_cells()
    ensures among { SlotsSufficeAmong }
    ensures below { SlotsSufficeBelow }
    ensures areas { OnlyAreasRefuse }
    ensures full { SlotsAreNeverFull }
    ensures cells { CellsAreThoseOfPages }
{}
