//! A guess: the form of a place in a line of a window.

use crate::cuts::last_said;
use crate::cycles::cycle_of;
use crate::fronts::{front_of, shared_front};
use crate::hashes::{front_hash, hash_of, short};
use crate::numbers::{is_answered, is_number};
use crate::window::Window;
use arrayvec::ArrayVec;
use fio_form::{Digits, LineForm, LineRows, Octets, Piece, Size, Step, size_of};

/// A form of a place in a line of a window, and how often it reads a message there.
#[derive(Clone, Copy, Debug, Default)]
pub struct Guess {
    /// The hash of the form.
    pub(crate) hash: u32,
    /// The hash of its front: guesses of one front have one.
    pub front: u32,
    /// The number of messages that it reads, and 1000 for each that is sure; 0 after it was picked.
    pub(crate) weight: u32,
    /// The index of the line.
    pub(crate) line: u16,
    /// Where the first octet begins in the line.
    pub(crate) place: u16,
    /// How an octet is written.
    pub(crate) digits: Digits,
    /// Which of the cycles of the place the form has, from 0 on.
    pub(crate) cycle: u8,
    /// The form's fields of these names.
    pub(crate) before: u8,
    pub(crate) after: u8,
    pub(crate) is_framed: bool,
    pub(crate) is_anywhere: bool,
    pub(crate) is_swapped: bool,
    pub(crate) rows: LineRows,
}

/// Where a guess is made.
#[derive(Clone, Copy)]
pub(crate) struct GuessPlace {
    /// The index of the line.
    pub line: u16,
    /// Where the first octet begins.
    pub place: u16,
    /// How an octet is written.
    pub digits: Digits,
    /// Which of the cycles of the place, from 0 on.
    pub cycle: u8,
    /// Whether the octets are words whose lower octet is last.
    pub is_swapped: bool,
    /// Whether the front may begin anywhere.
    pub is_anywhere: bool,
    /// Whether octets may come before and after a message.
    pub is_cut: bool,
}

impl GuessPlace {
    /// Returns the same place, at which octets may come before and after a message.
    pub(crate) fn with_cuts(self) -> GuessPlace {
        GuessPlace {
            is_cut: true,
            ..self
        }
    }

    /// Returns the guess that a form of this place is.
    pub(crate) fn guess(self, form: &LineForm, weight: u32) -> Guess {
        Guess {
            hash: short(hash_of(form)),
            front: short(front_hash(form.front())),
            weight,
            line: self.line,
            place: self.place,
            digits: self.digits,
            cycle: self.cycle,
            before: form.before,
            after: form.after,
            is_framed: form.is_framed,
            is_anywhere: form.is_anywhere,
            is_swapped: form.is_swapped,
            rows: form.rows,
        }
    }
}

/// Returns a front that may begin anywhere, from its first character on: with a number or blanks before that, it would begin anywhere
/// in these too. `None` if it has numbers or blanks alone.
fn from_mark(front: &[Piece]) -> Option<&[Piece]> {
    for (at, piece) in front.iter().enumerate() {
        if matches!(*piece, Piece::Character(_) | Piece::Quote) {
            return Some(&front[at..]);
        }
    }
    if front.is_empty() { Some(front) } else { None }
}

/// Returns the form of octets that begin at a place of a line, with the text before them as its front. `None` if no octets begin
/// there, or that text is no front. One that says a message is none: it would be hidden; if the front may begin anywhere, the two
/// messages have what they share. `cycle`: which of the cycles of the place, from 0 on.
pub fn plain_form(
    line: &[u8],
    place: usize,
    digits: Digits,
    cycle: usize,
    is_anywhere: bool,
) -> Option<LineForm> {
    form_with(line, place, digits, cycle, is_anywhere, None)
}

/// Returns the form of a place of a line of a window, as `plain_form`; a message in the front that the lines around have too is a number.
pub(crate) fn window_form(
    lines: &Window,
    at: usize,
    place: usize,
    digits: Digits,
    cycle: usize,
    is_anywhere: bool,
) -> Option<LineForm> {
    let line = lines.line(at);
    form_with(line, place, digits, cycle, is_anywhere, Some((lines, at)))
}

/// Returns the form of a place of a line, which may be one of a window.
fn form_with(
    line: &[u8],
    place: usize,
    digits: Digits,
    cycle: usize,
    is_anywhere: bool,
    around: Option<(&Window, usize)>,
) -> Option<LineForm> {
    if place > line.len() {
        return None;
    }
    let cycle = cycle_of(line, place, digits, cycle)?;
    let mut octets: Octets = ArrayVec::new();
    let front = match last_said(&line[..place], digits, &cycle, &mut octets) {
        None => front_of(line, place, digits, is_anywhere)?,
        Some(said) if is_anywhere => shared_front(line, said, place, digits)?,
        Some(said) => {
            let (lines, at) = around?;
            if !is_number(lines, at, said) || is_answered(&octets, &line[place..], digits, &cycle) {
                return None;
            }
            front_of(line, place, digits, false)?
        }
    };
    let front = if is_anywhere {
        from_mark(&front)?
    } else {
        front.as_slice()
    };
    let mut form = LineForm::new(front, digits, &cycle)?;
    form.is_anywhere = is_anywhere;
    Some(form)
}

impl Guess {
    /// Returns the kind of its rows: 0 for messages of one line, 1 for dumps with offsets, 2 for others.
    pub(crate) fn kind(&self) -> u8 {
        match self.rows {
            LineRows::One => 0,
            LineRows::Offset { .. } => 1,
            _ => 2,
        }
    }

    /// Returns the form; `None` if the window has other lines than those that it was guessed of.
    pub fn form(&self, lines: &Window) -> Option<LineForm> {
        let mut form = window_form(
            lines,
            usize::from(self.line),
            usize::from(self.place),
            self.digits,
            usize::from(self.cycle),
            self.is_anywhere,
        )?;
        form.before = self.before;
        form.after = self.after;
        form.is_framed = self.is_framed;
        form.is_swapped = self.is_swapped;
        form.rows = self.rows;
        Some(form)
    }
}

/// Returns whether a message is sure: its length is known, and it is long or counted.
pub fn is_sure(message: &[u8]) -> bool {
    match size_of(message) {
        Size::Known(_) => message.len() >= 5 || message.len() > 2 && message[0] == 51,
        _ => false,
    }
}

/// Returns whether an octet begins a message.
pub(crate) fn is_type(octet: u8) -> bool {
    size_of(&[octet]) != Size::None
}

/// Returns whether a cycle is of words of two octets.
pub fn is_words(steps: &[Step]) -> bool {
    match steps {
        [Step::Octet, Step::Octet, Step::Mark(b' '), rest @ ..] => !has_octet(rest),
        _ => false,
    }
}

/// Returns whether one of some steps is an octet.
fn has_octet(steps: &[Step]) -> bool {
    for step in steps {
        if *step == Step::Octet {
            return true;
        }
    }
    false
}
