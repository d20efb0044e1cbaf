//! The forms that may be those of a stream: those that have the most octets.
use crate::fronts::words_of;
use arrayvec::ArrayVec;
use fio_form::{Digits, LineForm, Octets, find, is_decimal, is_hex};
use fio_guess::table::{PLACES, STREAM_FRONTS, STREAM_FRONTS_OF_WORDS};
use fio_guess::{Window, front_hash, hash_of, is_words, may_begin, plain_form, word_end};

/// The most forms that are counted.
const COUNTED: usize = 512;

/// Columns begin within this many characters of a line.
const COLUMNS: usize = 24;

/// The kinds of cycles that are tried for a place; the last one is of words of 16 bits.
const KINDS: u8 = 4;

const WORDS: u8 = 3;

/// The forms that are kept.
pub(crate) type Candidates = ArrayVec<LineForm, STREAM_FRONTS>;

/// A form of a place in a sample line, and the lines and octets that it has.
#[derive(Clone, Copy, Default)]
struct Candidate {
    hash: u64,
    /// A hash of the words of its front.
    words: u64,
    octets: u32,
    place: u32,
    line: u16,
    last: u16,
    lines: u16,
    digits: Digits,
    kind: u8,
}

/// A place in a line, and how an octet and what follows it may be written there.
#[derive(Clone, Copy)]
struct Spot {
    line: usize,
    place: usize,
    digits: Digits,
    kind: u8,
}

/// Counts forms.
#[derive(Drop)]
pub(crate) struct Counting {
    counted: ArrayVec<Candidate, COUNTED>,
    octets: Octets,
    /// The words of the forms that are kept.
    kept: ArrayVec<u64, STREAM_FRONTS>,
}

/// Returns whether a character is one of base64.
fn is_of_base64(character: u8) -> bool {
    character.is_ascii_alphanumeric() || matches!(character, b'+' | b'/' | b'=')
}

/// Returns whether a line is base64, and not digits alone.
fn is_base64(line: &[u8]) -> bool {
    line.len() >= LEAST_BASE64
        && line.len() % 4 == 0
        && line.iter().all(|character| is_of_base64(*character))
        && !line.iter().all(|character| is_hex(*character))
}

/// A line of base64 has this many characters or more, or it is a word.
const LEAST_BASE64: usize = 8;

/// Returns whether a text is a number that a dump begins with.
fn is_offset(text: &[u8]) -> bool {
    text.len() >= 4 && text.iter().all(|digit| is_hex(*digit))
}

/// Returns the ways in which octets at a place may be written that fill columns or the line, or `None` in place of one.
fn filling(line: &[u8], place: usize) -> [Option<Digits>; 2] {
    let (front, text) = line.split_at(place.min(line.len()));
    match text {
        [b' ', ..] => [
            Some(Digits::Columns),
            if is_offset(front) {
                Some(Digits::Cells)
            } else {
                None
            },
        ],
        [first, second, third, ..]
            if is_decimal(*first) && is_decimal(*second) && is_decimal(*third) => {
            [Some(Digits::Columns), None]
        }
        _ if place == 0 && is_base64(line) => [Some(Digits::Sextets), None],
        _ => [None, None],
    }
}

/// Returns the ways in which an octet at a place may be written, or `None` in place of one.
fn notations(line: &[u8], place: usize) -> [Option<Digits>; 5] {
    let plain = [Some(Digits::Pairs), None, None, None, None];
    if place >= line.len() {
        return plain;
    }
    let end = word_end(line, place);
    if place >= end || end > line.len() {
        return plain;
    }
    let word = &line[place..end];
    let length = word.len();
    let is_number = length <= 3 && word.iter().all(|digit| is_decimal(*digit));
    let is_binary = length == 8 && word.iter().all(|digit| matches!(*digit, b'0' | b'1'));
    let is_short = length <= 2 || length == 8 && word[0] == b'f';
    [
        Some(Digits::Pairs),
        if is_binary {
            Some(Digits::Binary)
        } else {
            None
        },
        if is_number {
            Some(Digits::Decimal)
        } else {
            None
        },
        if is_number && length == 3 {
            Some(Digits::Octal)
        } else {
            None
        },
        if is_short { Some(Digits::Short) } else { None },
    ]
}

/// Returns the form of a place.
fn form_of(line: &[u8], place: usize, digits: Digits, kind: u8) -> Option<LineForm> {
    if place >= line.len() {
        return None;
    }
    let cycle = if kind == WORDS { 1 } else { usize::from(kind) };
    let mut form = plain_form(line, place, digits, cycle, false)?;
    form.is_swapped = kind == WORDS;
    if kind == WORDS && !is_words(form.cycle()) {
        None
    } else {
        Some(form)
    }
}

impl Counting {
    /// Returns that of no line.
    pub(crate) fn new() -> Counting {
        Counting {
            counted: ArrayVec::new(),
            octets: ArrayVec::new(),
            kept: ArrayVec::new(),
        }
    }

    fn count(&mut self, line: &[u8], at: Spot) {
        let Some(form) = form_of(line, at.place, at.digits, at.kind) else {
            return;
        };
        if find(&form, line, &mut self.octets).is_none() {
            return;
        }
        let hash = hash_of(&form);
        let octets = self.octets.len() as u32;
        let line_number = (at.line % 65536) as u16;
        for entry in self.counted.as_mut_slice() {
            if entry.hash == hash {
                if entry.last != line_number {
                    entry.last = line_number;
                    entry.lines = entry.lines.saturating_add(1);
                    entry.octets = entry.octets.saturating_add(octets);
                }
                return;
            }
        }
        let place = at.place.min(65536) as u32;
        let _ = self.counted.try_push(Candidate {
            hash,
            words: front_hash(words_of(form.front())),
            octets,
            place,
            line: line_number,
            last: line_number,
            lines: 1,
            digits: at.digits,
            kind: at.kind,
        });
    }

    fn count_place(&mut self, line: &[u8], at: usize, place: usize) {
        for digits in notations(line, place) {
            self.count_kinds(line, at, place, digits);
        }
    }

    fn count_kinds(&mut self, line: &[u8], at: usize, place: usize, digits: Option<Digits>) {
        if let Some(digits) = digits {
            for kind in 0..KINDS {
                self.count(
                    line,
                    Spot {
                        line: at,
                        place,
                        digits,
                        kind,
                    },
                );
            }
        }
    }

    fn count_line(&mut self, line: &[u8], at: usize) {
        let mut count: usize = 0;
        for place in 0..line.len() {
            if count < PLACES && may_begin(line, place) && !matches!(line[place], b' ' | b'-') {
                count += 1;
                self.count_place(line, at, place);
            }
            if place < COLUMNS {
                for digits in filling(line, place) {
                    self.count_kinds(line, at, place, digits);
                }
            }
        }
    }

    /// Takes out the form with the most octets, of those that one of eight lines has and of whose words fewer than this many are kept.
    fn next(&mut self, lines: &Window, most_of_words: usize) -> Option<Candidate> {
        let mut best: usize = 0;
        let mut most: u32 = 0;
        for (at, one) in self.counted.iter().enumerate() {
            if one.octets > most
                && 8 * usize::from(one.lines) >= lines.len()
                && self.kept_of(one.words) < most_of_words
            {
                best = at;
                most = one.octets;
            }
        }
        let one = self.counted.get_mut(best)?;
        if most == 0 {
            return None;
        }
        let counted = *one;
        one.octets = 0;
        Some(counted)
    }

    /// Returns how many forms with some words are kept.
    fn kept_of(&self, words: u64) -> usize {
        self.kept.iter().filter(|kept| **kept == words).count()
    }

    /// Returns the forms whose octets may be a stream, the most octets first.
    pub(crate) fn candidates(&mut self, lines: &Window) -> Candidates {
        let mut forms: Candidates = ArrayVec::new();
        self.counted.clear();
        for at in 0..lines.len() {
            self.count_line(lines.line(at), at);
        }
        self.kept.clear();
        for most_of_words in [STREAM_FRONTS_OF_WORDS, STREAM_FRONTS] {
            self.keep(&mut forms, lines, most_of_words);
        }
        forms
    }

    /// Adds the forms with the most octets, at most this many with the same words.
    fn keep(&mut self, forms: &mut Candidates, lines: &Window, most_of_words: usize) {
        for _ in 0..COUNTED {
            if forms.is_full() {
                return;
            }
            let Some(one) = self.next(lines, most_of_words) else {
                return;
            };
            if let Some(form) = form_of(
                lines.line(usize::from(one.line)),
                one.place as usize,
                one.digits,
                one.kind,
            ) {
                let _ = self.kept.try_push(one.words);
                let _ = forms.try_push(form);
            }
        }
    }
}
