//! A window: some lines of a log.
ghost use Rattle.std.specs.Prelude.{◌≡◌, ◌↔◌, [], ◌∷◌, ◌++◌, IsTrue, IsFalse, length, slice_index_or};
ghost use Rattle.fio_guess.specs.Lines.{GoUp, HasRoomFor, parts_of};

use crate::table::{CHARACTERS, LINES};
use arrayvec::ArrayVec;
use std::marker::Model;

/// Lines of a log, one below the other: at most `LINES`, of at most `CHARACTERS` characters in all.
#[derive(Drop)]
pub struct Window {
    /// The characters of all lines.
    text: ArrayVec<u8, CHARACTERS>,
    /// Where each line ends in it.
    ends: ArrayVec<u32, LINES>,
}

const _: () = prove!(size_of::<Window>() <= 69_648);

impl Model for Window {
    ghost use Rattle.std.specs.Prelude.{ℕ, List, length};
    ghost use Rattle.fio_guess.specs.Lines.{GoUp, parts_of};

    ghost Value = { List (List ℕ) };

    ghost view = { λ window. parts_of window.text.items 0 window.ends.items };

    ghost invariant = { λ window. GoUp 0 window.ends.items (length window.text.items) };
}

impl Window {
    /// Returns a window without lines.
    pub fn new() -> Window
        ensures { result ≡ [] }
    {
        Window {
            text: ArrayVec::new(),
            ends: ArrayVec::new(),
        }
    }

    /// Takes all lines out.
    pub fn clear(&mut self)
        ensures { self.new ≡ [] }
    {
        self.text.clear();
        self.ends.clear();
    }

    /// Returns the number of lines.
    pub fn len(&self) -> usize
        ensures { result ≡ length self.now }
    {
        self.ends.len()
    }

    /// Returns whether there is no line.
    pub fn is_empty(&self) -> bool
        ensures { IsTrue result ↔ (self.now ≡ []) }
    {
        self.ends.is_empty()
    }

    /// Returns whether there is room for another line of `count` characters.
    pub fn has_room(&self, count: usize) -> bool
        ensures { IsTrue result ↔ HasRoomFor self.now count }
    {
        self.ends.len() < LINES && count <= CHARACTERS - self.text.len()
    }

    /// Appends a line; returns whether there was room for it.
    pub fn push(&mut self, line: &[u8]) -> bool
        ensures room { IsTrue result ↔ HasRoomFor self.old (length line.now) }
        ensures pushed { IsTrue result → self.new ≡ self.old ++ line.now ∷ [] }
        ensures full { IsFalse result → self.new ≡ self.old }
    {
        if !self.has_room(line.len()) {
            return false;
        }
        let _fits = self.text.try_extend_from_slice(line);
        let _fits = self.ends.try_push(self.text.len() as u32);
        true
    }

    /// Returns a line, from 0 on; an empty one if there is none.
    pub fn line(&self, at: usize) -> &[u8]
        ensures { result.now ≡ slice_index_or self.now at [] }
    {
        line_in(&self.text, &self.ends, at)
    }
}

/// Returns a line of a text, from 0 on, by where each line ends; an empty one if there is none.
fn line_in<'a>(text: &'a [u8], ends: &[u32], at: usize) -> &'a [u8]
    requires { GoUp 0 ends.now (length text.now) }
    ensures { result.now ≡ slice_index_or (parts_of text.now 0 ends.now) at [] }
{
    if at >= ends.len() {
        return &[];
    }
    let end = ends[at] as usize;
    if at == 0 {
        return &text[..end];
    }
    let start = ends[at - 1] as usize;
    &text[start..end]
}
