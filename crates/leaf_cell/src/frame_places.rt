//! The places of a cell for its frames.
ghost use Rattle.std.specs.Prelude.{◌≡◌, ◌+◌, ◌<◌, ◌≤◌, length, replicate, count_by, is_some, not, None, Some, IfOk, slice_set, slice_index_or, vec_capacity};
ghost use Rattle.std.specs.Option.{option_map};
ghost use Rattle.leaf_cell.specs.Adding.{IsWholeFrame};
ghost use Rattle.leaf_cell.specs.CellView.{frame_bytes};
ghost use Rattle.leaf_cell.specs.FramePlaces.{opened, with_stored_at, AreSlots};

use crate::touch::store_place;
use std::alloc::Global;
use std::marker::Model;
use vm_base::{Frame, NoMemory};

/// Places for frames: two for each page, so that a page and the copy that a snapshot keeps of it
/// have one each.
pub(crate) const PLACES: usize = 1024;

/// For each place the frame that lies there, or none. Contracts see all places. They are made when
/// the first frame comes, in room that was there from the start: a cell that no page ever came to
/// costs no more than that room.
#[derive(Debug, Drop)]
pub(crate) struct FramePlaces {
    slots: Vec<Option<Frame>>,
}

impl Model for FramePlaces {
    ghost use Rattle.std.specs.Prelude.{List, Option, vec_capacity};
    ghost use Rattle.std.specs.Coded.{coded_list, coded_option};
    ghost use Rattle.vm_base.specs.Frames.{FrameView};
    ghost use Rattle.leaf_cell.specs.Codes.{frame_code};
    ghost use Rattle.leaf_cell.specs.FramePlaces.{opened, AreSlots};

    ghost Value = { List (Option FrameView) };

    ghost coded = { coded_list (coded_option frame_code) };

    ghost view = { λ places. opened places.slots.items };

    ghost invariant = { λ places. AreSlots places.slots.items (vec_capacity places.slots) };
}

impl FramePlaces {
    /// All places free, with room for all frames.
    pub(crate) fn new(alloc: Global) -> Result<FramePlaces, NoMemory>
        ensures { IfOk result (λ places. places ≡ replicate 1024 None) }
    {
        Ok(FramePlaces {
            slots: Vec::with_capacity(alloc, PLACES)?,
        })
    }

    /// The frame at a place.
    pub(crate) fn get(&self, place: u32) -> Option<&Frame>
        ensures { option_map (λ frame. frame.now.bytes) result ≡ frame_bytes self.now place }
    {
        match self.slots.get(place as usize) {
            Some(slot) => slot.as_ref(),
            None => None,
        }
    }

    /// Whether no frame lies at a place.
    pub(crate) fn is_free(&self, place: u32) -> bool
        ensures { result ≡ not (is_some (slice_index_or self.now place None)) }
    {
        match self.slots.get(place as usize) {
            Some(slot) => slot.is_none(),
            None => true,
        }
    }

    /// A frame lies at this place from now on.
    pub(crate) fn put(&mut self, place: u32, frame: Frame)
        requires { place < length self.old }
        ensures { self.new ≡ slice_set self.old place (Some frame) }
    {
        open(&mut self.slots);
        self.slots[place as usize] = Some(frame);
    }

    /// Takes out the frame that lies at a place.
    pub(crate) fn take(&mut self, place: u32) -> Option<Frame>
        requires { place < length self.old }
        ensures taken { result ≡ slice_index_or self.old place None }
        ensures left { self.new ≡ slice_set self.old place None }
    {
        open(&mut self.slots);
        self.slots[place as usize].take()
    }

    /// Stores bytes in the frame at a place.
    pub(crate) fn store(&mut self, place: u32, at: usize, bytes: &[u8])
        requires place { place < length self.old }
        requires room { at + length bytes.now ≤ 4096 }
        ensures stored { self.new ≡ with_stored_at self.old place at bytes.now }
        ensures whole { IsWholeFrame (slice_index_or self.old place None) }
    {
        open(&mut self.slots);
        store_place(&mut self.slots, place, at, bytes);
    }

    /// How many frames are there. It counts them.
    pub(crate) fn count(&self) -> u32
        ensures { result ≡ count_by is_some self.now }
    {
        count_frames(&self.slots)
    }
}

/// Makes all places, where none is made.
fn open(slots: &mut Vec<Option<Frame>>)
    requires { AreSlots slots.old.items (vec_capacity slots.old) }
    ensures opened { slots.new.items ≡ opened slots.old.items }
    ensures size { length slots.new.items ≡ 1024 }
{
    if slots.is_empty() {
        for _made in 0..PLACES {
            slots.push_reserved(None);
        }
    }
}

/// How many frames are there.
fn count_frames(slots: &[Option<Frame>]) -> u32
    requires { length slots.now ≤ 1024 }
    ensures { result ≡ count_by is_some slots.now }
{
    let mut count = 0;
    for slot in slots {
        if slot.is_some() {
            count += 1;
        }
    }
    count
}
