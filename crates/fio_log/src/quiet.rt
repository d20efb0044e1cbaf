//! What is quiet: text in which no frame can be hidden.
ghost use Rattle.std.specs.Prelude.{◌≤◌, length};

use crate::digits::is_letter;
use arrayvec::ArrayVec;
use fio_form::{
    Digits, LineForm, OCTETS, Octets, Piece, Size, Step, find, framed_in, front_in, is_decimal,
    is_hex, is_message, is_space_or_tab, run_in, size_of, swap,
};
use fio_guess::may_begin;

/// What is before and after a frame.
const FLAG: u8 = 0x7e;

/// What a text has in the notations of some forms.
#[derive(Clone, Copy, Debug, PartialEq, Eq)]
pub(crate) enum Hidden {
    /// Nothing that may be a frame.
    Nothing,
    /// Two octets or more that begin a message, or are one of unknown length.
    Beginning,
    /// A message of two octets or more, whose length is known.
    Message,
    /// A message between two flags, with a right check.
    Frame,
}

impl Hidden {
    /// Returns the greater of two.
    fn or(self, other: Hidden) -> Hidden {
        match (self, other) {
            (Hidden::Frame, _) | (_, Hidden::Frame) => Hidden::Frame,
            (Hidden::Message, _) | (_, Hidden::Message) => Hidden::Message,
            (Hidden::Beginning, _) | (_, Hidden::Beginning) => Hidden::Beginning,
            _ => Hidden::Nothing,
        }
    }

    /// Returns whether it is a message.
    pub(crate) fn is_message(self) -> bool {
        matches!(self, Hidden::Message | Hidden::Frame)
    }
}

/// Returns what octets are: those of a run may have more after a message.
fn held_by(octets: &[u8]) -> Hidden {
    if octets.len() < 2 {
        return Hidden::Nothing;
    }
    match size_of(octets) {
        Size::Known(size) if size > 1 && size <= octets.len() && is_message(&octets[..size]) =>
            Hidden::Message,
        Size::Known(size) if size > octets.len() => Hidden::Beginning,
        Size::Unknown => Hidden::Beginning,
        Size::Any if is_message(octets) => Hidden::Beginning,
        _ => Hidden::Nothing,
    }
}

/// Returns whether a message is between the flag with which octets begin and the next one, with a right check.
fn begins_frame(octets: &[u8], held: &mut Octets) -> bool {
    for end in 1..octets.len() {
        if octets[end] == FLAG {
            let (frame, _) = octets.split_at(end + 1);
            return framed_in(frame, held) && is_message(held);
        }
    }
    false
}

/// Returns whether a message is between two flags of octets, with a right check.
fn has_frame(octets: &[u8]) -> bool {
    let mut held: Octets = ArrayVec::new();
    for first in 0..octets.len() {
        if octets[first] == FLAG && begins_frame(octets.split_at(first).1, &mut held) {
            return true;
        }
    }
    false
}

/// Returns whether what a text has up to a place may be octets of a notation: it is no part of a longer word, and a literal has
/// an escape.
pub(crate) fn is_run(digits: Digits, text: &[u8], end: usize) -> bool {
    let end = end.min(text.len());
    if let Digits::Text(_) = digits {
        return text[..end].contains(&b'\\');
    }
    if end == text.len() || !is_letter(text[end]) {
        return true;
    }
    let mut has_gap = false;
    for character in &text[..end] {
        has_gap = has_gap || !is_letter(*character);
    }
    has_gap
}

/// Returns how many characters of a run are passed over: all; but of one that begins within a word, as the end of `received` does,
/// only those of the word, since octets may begin after it.
fn passed_over(is_in_word: bool, run: &[u8]) -> usize
    ensures { result ≤ length run.now }
{
    if !is_in_word {
        return run.len();
    }
    run.iter()
        .take_while(|character| is_letter(**character))
        .count()
}

/// Returns the notation of octets of a form that begin at a place of a text: a literal up to any quote follows this quote.
fn digits_at(form: &LineForm, text: &[u8], place: usize) -> Option<Digits> {
    if form.digits() != Digits::Text(0) {
        return Some(form.digits());
    }
    if place == 0 || place > text.len() {
        return None;
    }
    match text[place - 1] {
        b'"' | b'\'' => Some(Digits::Text(text[place - 1])),
        _ => None,
    }
}

/// Reads octets that a text begins with, as `run_in` does; of more than there is room for, the first ones.
fn run_of(digits: Digits, cycle: &[Step], text: &[u8], octets: &mut Octets) -> Option<usize> {
    match run_in(digits, cycle, text, octets) {
        None if octets.is_full() => run_in(digits, cycle, &text[..text.len().min(OCTETS)], octets),
        count => count,
    }
}

/// Returns what a text has in the notation of a form.
fn held_in(form: &LineForm, text: &[u8], octets: &mut Octets) -> Hidden {
    let before = usize::from(form.before);
    let mut held = Hidden::Nothing;
    let mut next = 0;
    'places: for place in 0..text.len() {
        if place >= next
            && may_begin(text, place)
            && let Some(digits) = digits_at(form, text, place)
            && let Some(count) = run_of(digits, form.cycle(), &text[place..], octets)
        {
            if form.is_swapped {
                swap(octets);
            }
            if is_run(digits, &text[place..], count) {
                held = held.or(held_by(octets));
                if octets.len() > before {
                    held = held.or(held_by(&octets[before..]));
                }
                if has_frame(octets) {
                    held = Hidden::Frame;
                }
            }
            if count > 1 && count <= text.len() - place {
                let is_in_word = place > 0 && is_letter(text[place - 1]);
                next = place + passed_over(is_in_word, &text[place..place + count]);
            }
        }
    }
    held
}

/// Returns what a text has in the notations of some forms. If that is nothing, it is *quiet*.
pub(crate) fn held_by_text(forms: &[LineForm], text: &[u8], octets: &mut Octets) -> Hidden {
    let mut held = Hidden::Nothing;
    for form in forms {
        held = held.or(held_in(form, text, octets));
    }
    held
}

/// Returns whether a place is within a number or blanks that the front of a form begins with: then the front is directly before
/// it if it does there, since it takes all digits or blanks. So long words cost no more than others.
fn is_within(form: &LineForm, text: &[u8], place: usize) -> bool {
    if place == 0 || place >= text.len() {
        return false;
    }
    let (before, here) = (text[place - 1], text[place]);
    let are_digits = is_hex(before) && is_hex(here);
    let are_blanks = is_space_or_tab(before) && is_space_or_tab(here);
    match form.front().first() {
        Some(Piece::Decimal) => is_decimal(before) && is_decimal(here),
        Some(Piece::Hexadecimal) => are_digits,
        Some(Piece::Blanks) => are_blanks,
        Some(Piece::Padded) => are_digits || are_blanks,
        _ => false,
    }
}

/// Returns whether the front of a form is somewhere in a line.
pub(crate) fn has_front(form: &LineForm, line: &[u8]) -> bool {
    'places: for place in 0..line.len() {
        if !is_within(form, line, place) && front_in(form, &line[place..]).is_some() {
            return true;
        }
    }
    false
}

/// Returns whether the front of one of some forms is somewhere in a line. A front without a word is everywhere.
pub(crate) fn has_fronts(forms: &[LineForm], line: &[u8], octets: &mut Octets) -> bool {
    for form in forms {
        if has_front(form, line) || find(form, line, octets).is_some() {
            return true;
        }
    }
    false
}

/// Returns whether a text has a front that is one of some forms, and two octets or more after it: those of another line.
pub(crate) fn has_further(forms: &[LineForm], text: &[u8], octets: &mut Octets) -> bool {
    for form in forms {
        'places: for place in 0..text.len() {
            if !form.front().is_empty()
                && !is_within(form, text, place)
                && front_in(form, &text[place..]).is_some()
                && find(form, &text[place..], octets).is_some()
                && octets.len() > 1
            {
                return true;
            }
        }
    }
    false
}

/// The cycles in which most logs write octets: `3605` and `36 05`.
const PLAIN: [&[Step]; 2] = [&[Step::Octet], &[Step::Octet, Step::Mark(b' ')]];

/// Returns whether octets hold what may be a message, wherever it begins.
fn holds_some(octets: &[u8]) -> bool {
    for first in 0..octets.len() {
        if held_by(&octets[first..]) != Hidden::Nothing {
            return true;
        }
    }
    false
}

/// Returns whether a text has no octets of two hexadecimal digits, with a blank between two or none, that may be a message.
pub(crate) fn is_plain_quiet(text: &[u8], octets: &mut Octets) -> bool {
    for cycle in PLAIN {
        let mut next = 0;
        'places: for place in 0..text.len() {
            if place >= next
                && may_begin(text, place)
                && let Some(count) = run_of(Digits::Pairs, cycle, &text[place..], octets)
            {
                if is_run(Digits::Pairs, &text[place..], count) && holds_some(octets) {
                    return false;
                }
                next = place.saturating_add(count);
            }
        }
    }
    true
}
