//! The frames of a verdict, and the places where they are written.
ghost use Rattle.std.specs.Prelude.{◌≡◌, ◌+◌, ◌<◌, ◌≤◌, ◌↔◌, ◌++◌, ◌∷◌, [], IsSome, IfSome, IsTrue, IsFalse, length, slice_index_or, true};
ghost use Rattle.std.specs.List.{All};
ghost use Rattle.fio_guess.specs.Lines.{GoUp, parts_of};
ghost use Rattle.fio_log.specs.Frames.{AreFew, code_of};
ghost use Rattle.fio_log.specs.OwnTexts.{spells};
ghost use Rattle.fio_log.specs.declared.told.TheConstants.{TOLD_FRAMES, TOLD_OCTETS, TOLD_PLACES};

use crate::own_texts::spells;
use crate::places::Place;
use arrayvec::ArrayVec;
use std::marker::Model;

/// The most frames of a verdict.
pub(crate) const TOLD_FRAMES: usize = 2_048;

/// The most octets of the frames of a verdict.
pub(crate) const TOLD_OCTETS: usize = 16_384;

/// The most places where the frames of a verdict are written.
pub(crate) const TOLD_PLACES: usize = 1_024;

/// The frames of a verdict, one after the other, and the places where they are written. Each frame is a message.
#[derive(Drop)]
pub struct Told {
    octets: ArrayVec<u8, TOLD_OCTETS>,
    /// Where each frame ends in the octets.
    ends: ArrayVec<u32, TOLD_FRAMES>,
    places: ArrayVec<Place, TOLD_PLACES>,
}

impl Model for Told {
    ghost use Rattle.std.specs.Prelude.{◌≡◌, length, true};
    ghost use Rattle.std.specs.List.{All};
    ghost use Rattle.fio_guess.specs.Lines.{GoUp, parts_of};
    ghost use Rattle.fio_log.specs.OwnTexts.{spells};
    ghost use Rattle.fio_log.specs.Frames.{Frames};

    ghost Value = { Frames };

    ghost view = { λ told. record { frames = parts_of told.octets.items 0 told.ends.items; places = told.places.items } };

    ghost invariant = { λ told. GoUp 0 told.ends.items (length told.octets.items)
        × All (λ frame. spells frame ≡ true) (parts_of told.octets.items 0 told.ends.items) };
}

impl Told {
    /// Returns no frames.
    pub(crate) fn new() -> Told
        ensures frames { result.frames ≡ [] }
        ensures places { result.places ≡ [] }
    {
        Told {
            octets: ArrayVec::new(),
            ends: ArrayVec::new(),
            places: ArrayVec::new(),
        }
    }

    /// Takes all frames out.
    pub(crate) fn clear(&mut self)
        ensures frames { self.new.frames ≡ [] }
        ensures places { self.new.places ≡ [] }
    {
        self.octets.clear();
        self.ends.clear();
        self.places.clear();
    }

    /// Returns the number of frames.
    pub(crate) fn frames(&self) -> usize
        ensures count { result ≡ length self.now.frames }
        ensures few { AreFew self.now.frames self.now.places }
    {
        let _octets = self.octets.len();
        let _places = self.places.len();
        self.ends.len()
    }

    /// Returns the number of places.
    pub(crate) fn places(&self) -> usize
        ensures { result ≡ length self.now.places }
    {
        self.places.len()
    }

    /// Appends a frame, if it is a message and there is room for it; returns whether it did.
    pub(crate) fn add_frame(&mut self, octets: &[u8]) -> bool
        ensures added { IsTrue result → self.new.frames ≡ self.old.frames ++ octets.now ∷ [] }
        ensures full { IsFalse result → self.new.frames ≡ self.old.frames }
        ensures room { spells octets.now ≡ true → self.old.frames ≡ [] → IsTrue result }
        ensures places { self.new.places ≡ self.old.places }
    {
        let is_message = spells(octets);
        if !is_message {
            return false;
        }
        let has_room = has_room(&self.ends, &self.octets, octets.len());
        if !has_room {
            return false;
        }
        let _fits = self.octets.try_extend_from_slice(octets);
        let _fits = self.ends.try_push(self.octets.len() as u32);
        true
    }

    /// Appends a place, if there is room for it; returns whether there was.
    pub(crate) fn add_place(&mut self, place: Place) -> bool
        ensures frames { self.new.frames ≡ self.old.frames }
        ensures places { IsTrue result → self.new.places ≡ self.old.places ++ place ∷ [] }
        ensures room { length self.old.places < TOLD_PLACES → IsTrue result }
    {
        self.places.try_push(place).is_ok()
    }

    /// Returns a frame, from 0 on.
    pub(crate) fn frame(&self, index: usize) -> Option<&[u8]>
        ensures given { IsSome result ↔ (index < length self.now.frames) }
        ensures same { IfSome result (λ octets. octets.now ≡ slice_index_or self.now.frames index []) }
        ensures spelled { IfSome result (λ octets. spells octets.now ≡ true) }
    {
        if index >= self.ends.len() {
            return None;
        }
        Some(frame_in(&self.octets, &self.ends, index))
    }

    /// Returns the type of the first frame; 0 if there is none.
    pub(crate) fn code(&self) -> u8
        ensures { result ≡ code_of self.now.frames }
    {
        match self.frame(0) {
            Some(octets) => octets.first().copied().unwrap_or(0),
            None => 0,
        }
    }

    /// Returns a place, from 0 on.
    pub(crate) fn place(&self, index: usize) -> Option<Place>
        ensures given { IsSome result ↔ (index < length self.now.places) }
        ensures same { IfSome result (λ place. place ≡ slice_index_or self.now.places index place) }
    {
        self.places.get(index).copied()
    }
}

/// Returns whether there is room for another frame of this many octets.
fn has_room(
    ends: &ArrayVec<u32, TOLD_FRAMES>,
    octets: &ArrayVec<u8, TOLD_OCTETS>,
    count: usize,
) -> bool
    ensures frames { IsTrue result → length ends.now.items < TOLD_FRAMES }
    ensures octets { IsTrue result → length octets.now.items + count ≤ TOLD_OCTETS }
    ensures room { length ends.now.items < TOLD_FRAMES → length octets.now.items + count ≤ TOLD_OCTETS → IsTrue result }
{
    ends.len() < TOLD_FRAMES && count <= TOLD_OCTETS - octets.len()
}

/// Returns a frame of some octets, from 0 on, by where each frame ends.
fn frame_in<'a>(octets: &'a [u8], ends: &[u32], at: usize) -> &'a [u8]
    requires up { GoUp 0 ends.now (length octets.now) }
    requires within { at < length ends.now }
    ensures { result.now ≡ slice_index_or (parts_of octets.now 0 ends.now) at [] }
{
    let end = ends[at] as usize;
    if at == 0 {
        return &octets[..end];
    }
    let start = ends[at - 1] as usize;
    &octets[start..end]
}
