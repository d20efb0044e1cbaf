//! The frames sent in one direction, stored end to end.
ghost use Rattle.std.specs.Prelude.{◌≡◌, ◌≢◌, ◌≤◌, ◌<◌, ◌∷◌, ◌++◌, [], List, ℕ, Some, true, length, IfSome, OnOk, OnErr};
ghost use Rattle.fio_message.specs.declared.limits.TheConstants.{FRAME_OCTETS};
ghost use Rattle.std.specs.Option.{option_map};
ghost use Rattle.std.specs.Borrow.{Bor};
ghost use Rattle.fio_world.specs.Effects.{octets_numbered};
ghost use Rattle.fio_link.specs.Link.{item_numbered};
ghost use Rattle.fio_world.specs.EndToEnd.{between, start_at};

use fio_message::{FRAME_OCTETS, Frame, Memory};
use std::alloc::Global;
use std::marker::Model;

/// Frames, numbered from 1. Their octets are stored end to end.
#[derive(Drop)]
pub(crate) struct StoredFrames {
    octets: Vec<u8>,
    ends: Vec<usize>,
}

impl Model for StoredFrames {
    ghost use Rattle.std.specs.Prelude.{◌≡◌, ◌&&◌, ◌+◌, true, nat_le, nat_lt, length, vec_len, vec_capacity};
    ghost use Rattle.fio_message.specs.declared.limits.TheConstants.{FRAME_OCTETS};
    ghost use Rattle.fio_world.specs.EndToEnd.{Stored, frames_in, is_cut, are_short};

    ghost Value = { Stored };

    ghost view = { λ f. record {
      frames = frames_in f.octets.items 0 f.ends.items;
      has_room = nat_lt (vec_len f.ends) (vec_capacity f.ends)
          && nat_le (vec_len f.octets + FRAME_OCTETS) (vec_capacity f.octets);
    } };

    ghost invariant = { λ f. record {
      cut : is_cut 0 f.ends.items (length f.octets.items) ≡ true;
      short : are_short (frames_in f.octets.items 0 f.ends.items) ≡ true;
    } };
}

impl StoredFrames {
    /// Returns a list of no frames. It allocates nothing.
    pub(crate) fn new(alloc: Global) -> StoredFrames
        ensures { result.frames ≡ [] }
    {
        StoredFrames {
            octets: Vec::new(alloc),
            ends: Vec::new(alloc),
        }
    }

    /// Returns the number of frames.
    pub(crate) fn len(&self) -> usize
        ensures { result ≡ length self.now.frames }
    {
        self.ends.len()
    }

    /// Reserves room for one more frame.
    pub(crate) fn reserve(&mut self) -> Result<(), Memory>
        ensures ok { OnOk result (self.new.has_room ≡ true) }
        ensures same { self.new.frames ≡ self.old.frames }
    {
        self.ends.reserve(1)?;
        self.octets.reserve(FRAME_OCTETS)?;
        Ok(())
    }

    /// Adds a frame, for which there is room.
    pub(crate) fn add(&mut self, frame: &[u8])
        requires room { self.old.has_room ≡ true }
        requires short { length frame.now ≤ FRAME_OCTETS }
        ensures { self.new.frames ≡ self.old.frames ++ frame.now ∷ [] }
    {
        self.octets.extend_from_slice(frame).unwrap();
        self.ends.push(self.octets.len()).unwrap();
    }

    /// Returns the octets of the frame with this number.
    pub(crate) fn octets_of(&self, index: usize) -> &[u8]
        requires { (index ≢ 0) × (index ≤ length self.now.frames) }
        ensures is { Some result.now ≡ item_numbered self.now.frames index }
        ensures short { length result.now ≤ FRAME_OCTETS }
    {
        let start = start_of(self.ends.as_slice(), index - 1);
        part(self.octets.as_slice(), start, self.ends[index - 1])
    }

    /// Returns the octets of the frame with this number, or no octets if there is no such frame.
    pub(crate) fn octets_or_none(&self, index: usize) -> &[u8]
        ensures is { result.now ≡ octets_numbered self.now.frames index }
        ensures short { length result.now ≤ FRAME_OCTETS }
    {
        match self.get(index) {
            Some(octets) => octets,
            None => &[],
        }
    }

    /// Returns the octets of the frame with this number, or `None` if there is no such frame.
    pub(crate) fn get(&self, index: usize) -> Option<&[u8]>
        ensures is { option_map (λ (octets : Bor (List ℕ)). octets.now) result
            ≡ item_numbered self.now.frames index }
        ensures short { IfSome result (λ octets. length octets.now ≤ FRAME_OCTETS) }
    {
        if index == 0 {
            return None;
        }
        if self.len() < index {
            return None;
        }
        Some(self.octets_of(index))
    }
}

/// Returns the index at which a frame starts, given its index among the frames.
fn start_of(ends: &[usize], place: usize) -> usize
    requires { place < length ends.now }
    ensures { result ≡ start_at 0 ends.now place }
{
    if place == 0 { 0 } else { ends[place - 1] }
}

/// Returns the octets between two indexes.
fn part(octets: &[u8], start: usize, end: usize) -> &[u8]
    requires { (start ≤ end) × (end ≤ length octets.now) }
    ensures { result.now ≡ between octets.now start end }
{
    &octets[start..end]
}

/// Returns a frame of these octets.
pub(crate) fn frame_of(octets: &[u8]) -> Frame
    requires { length octets.now ≤ FRAME_OCTETS }
    ensures { result ≡ record { items = octets.now } }
{
    match Frame::try_from(octets) {
        Ok(frame) => frame,
        Err(_) => unreachable!(),
    }
}
