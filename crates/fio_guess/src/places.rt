//! The places of a line where octets may begin, and in which notation.
ghost use Rattle.std.specs.Prelude.{◌≡◌, ◌≤◌, ◌<◌, length};

use crate::cuts::{FLAG, add_cuts};
use crate::cycles::cycle_of;
use crate::guess::{GuessPlace, is_type, is_words, window_form};
use crate::guesses::Guesses;
use crate::literals::{base64_end, has_escape, is_literal};
use crate::table::{CYCLES, LONG, PLACES, WORDS};
use crate::window::Window;
use crate::words::{are_binary, are_decimal, begins_word, is_word, may_begin, run_end, word_end};
use fio_form::{
    Digits, Octets, Piece, Step, is_begun, is_decimal, is_hex, is_message, run_in, swap,
};

/// A line of a window.
#[derive(Clone, Copy)]
pub(crate) struct SampleLine {
    /// The index of the line.
    pub line: u16,
    /// Whether the fronts may begin anywhere.
    pub is_anywhere: bool,
}

/// Returns the notation of octets that begin at a place, with the quote before it if any quote may be.
fn with_quote(digits: Digits, text: &[u8], place: usize) -> Digits
    requires { place ≤ length text.now }
{
    if digits == Digits::Text(0) && place > 0 {
        Digits::Text(text[place - 1])
    } else {
        digits
    }
}

/// Returns whether another notation reads a text better, up to an end: pairs of digits, as short numbers; a literal with decimal
/// escapes, of which the characters between these would be left out.
fn is_worse(digits: Digits, steps: &[Step], text: &[u8], end: usize, octets: &mut Octets) -> bool {
    match digits {
        Digits::Short => run_in(Digits::Pairs, steps, text, octets) == Some(end),
        Digits::Decimal => steps.contains(&Step::Mark(b'\\')),
        _ => false,
    }
}

/// Returns whether octets may be a message, or the beginning of one.
fn may_be_message(octets: &[u8]) -> bool {
    octets.len() >= 5 || octets.first() == Some(&FLAG) || is_message(octets) || is_begun(octets)
}

impl Guesses {
    /// Makes the guesses of a line: its forms, whose fronts begin with the line; with `is_anywhere`, those that begin anywhere.
    pub fn guess_line(&mut self, lines: &Window, line: usize, is_anywhere: bool) {
        let Ok(index) = u16::try_from(line) else {
            return;
        };
        let sample = SampleLine {
            line: index,
            is_anywhere,
        };
        let text = lines.line(line);
        let is_escaped = has_escape(text);
        let offset_end = run_end(text, 0, text.len(), Piece::Hexadecimal);
        let mut count = 0;
        let mut words = 0;
        for place in 0..text.len() {
            if count >= PLACES {
                return;
            }
            if may_begin(text, place) {
                count += 1;
                self.guess_numbers(lines, sample, place);
            }
            if matches!(text[place], b'"' | b'\'') && is_literal(text, place) {
                count += 1;
                self.guess(lines, sample, place + 1, Digits::Text(0));
                self.guess(lines, sample, place + 1, Digits::Sextets);
            }
            if text[place] == b' ' && place >= 4 && place == offset_end {
                self.guess(lines, sample, place, Digits::Cells);
            }
            if words < WORDS && begins_word(text, place) {
                words += 1;
                self.guess_word(lines, sample, place, is_escaped);
            }
        }
    }

    /// Makes the guesses of a word that is no number.
    fn guess_word(&mut self, lines: &Window, sample: SampleLine, place: usize, is_escaped: bool) {
        let text = lines.line(usize::from(sample.line));
        if place > text.len() {
            return;
        }
        if is_escaped {
            self.guess(lines, sample, place, Digits::Text(10));
        }
        let end = base64_end(text, place);
        // digits alone are octets
        if end > place
            && (end - place) % 4 == 0
            && run_end(text, place, end, Piece::Hexadecimal) < end
        {
            self.guess(lines, sample, place, Digits::Sextets);
        }
    }

    /// Makes the guesses of a number.
    fn guess_numbers(&mut self, lines: &Window, sample: SampleLine, place: usize) {
        let text = lines.line(usize::from(sample.line));
        if place >= text.len() {
            return;
        }
        if text[place] == b' ' {
            self.guess(lines, sample, place, Digits::Columns);
            return;
        }
        if text[place] == b'-' {
            self.guess(lines, sample, place, Digits::Decimal);
            return;
        }
        if place + 1 < text.len() && is_hex(text[place + 1]) {
            self.guess(lines, sample, place, Digits::Pairs);
        }
        let is_glued = place > 0
            && is_word(text[place - 1])
            && !matches!(text[place - 1], b'x' | b'X');
        if !is_glued {
            self.guess_word_number(lines, sample, place);
        }
    }

    /// Makes the guesses of a number that is a word.
    fn guess_word_number(&mut self, lines: &Window, sample: SampleLine, place: usize) {
        let text = lines.line(usize::from(sample.line));
        if place >= text.len() {
            return;
        }
        let end = word_end(text, place);
        let length = end - place;
        if length == 3 && are_decimal(&text[place..end]) {
            self.guess(lines, sample, place, Digits::Octal);
            self.guess(lines, sample, place, Digits::Columns);
        }
        if matches!(&text[place..end], [b'0'] | [b'0', b'x' | b'X', ..]) {
            self.guess(lines, sample, place, Digits::Prefixed);
        }
        if length == 8 && are_binary(&text[place..end]) {
            self.guess(lines, sample, place, Digits::Binary);
        }
        if length <= 3 && is_decimal(text[place]) {
            self.guess(lines, sample, place, Digits::Decimal);
        }
        if length <= 2 && (length == 1 || text[place] != b'0')
            || length == 8 && text[place] == b'f'
        {
            self.guess(lines, sample, place, Digits::Short);
        }
    }

    /// Makes the guesses of a place in a notation, with each of its cycles.
    fn guess(&mut self, lines: &Window, sample: SampleLine, place: usize, digits: Digits) {
        let Ok(start) = u16::try_from(place) else {
            return;
        };
        for cycle in 0..CYCLES {
            let at = GuessPlace {
                line: sample.line,
                place: start,
                digits,
                cycle,
                is_swapped: false,
                is_anywhere: sample.is_anywhere,
                is_cut: false,
            };
            self.guess_cycle(lines, at);
        }
    }

    /// Makes the guesses of a place with one cycle.
    fn guess_cycle(&mut self, lines: &Window, at: GuessPlace) {
        let text = lines.line(usize::from(at.line));
        let place = usize::from(at.place);
        if place > text.len() {
            return;
        }
        let Some(steps) = cycle_of(text, place, at.digits, usize::from(at.cycle)) else {
            return;
        };
        let digits = with_quote(at.digits, text, place);
        let text = &text[place..];
        let Some(end) = run_in(digits, &steps, text, &mut self.octets) else {
            return;
        };
        if is_worse(digits, &steps, text, end, &mut self.held) || self.octets.is_empty() {
            return;
        }
        let is_packed = steps.len() == 1 || steps.len() > 1 && steps[1] == Step::Octet;
        let is_long = self.octets.len() > LONG && digits != Digits::Text(10);
        let is_cut = is_long || is_packed && digits == Digits::Pairs || digits == Digits::Sextets;
        let first = self.octets[0];
        if is_cut || is_type(first) || first == FLAG || self.octets.len() >= 5 {
            self.guess_form(lines, GuessPlace { is_cut, ..at });
        }
        if digits == Digits::Pairs && is_words(&steps) {
            swap(&mut self.octets);
            self.guess_form(
                lines,
                GuessPlace {
                    is_swapped: true,
                    is_cut: true,
                    ..at
                },
            );
        }
    }

    /// Makes the guesses of the octets of a place.
    fn guess_form(&mut self, lines: &Window, at: GuessPlace) {
        let has_below = usize::from(at.line) + 1 < lines.len();
        if !has_below && !at.is_cut && !may_be_message(&self.octets) {
            return;
        }
        let line = usize::from(at.line);
        let place = usize::from(at.place);
        let cycle = usize::from(at.cycle);
        let Some(mut form) = window_form(lines, line, place, at.digits, cycle, at.is_anywhere)
        else {
            return;
        };
        if self.octets.is_empty() {
            return;
        }
        form.is_swapped = at.is_swapped;
        add_cuts(
            &mut self.table,
            &mut self.held,
            &mut form,
            at,
            &self.octets,
            false,
        );
        let has_rows = at.digits != Digits::Sextets || self.octets.len() > LONG;
        if has_below && has_rows && !self.octets.is_empty() {
            self.rows.add(
                &mut self.table,
                &mut self.held,
                &mut form,
                at,
                lines,
                &self.octets,
            );
        }
    }
}
