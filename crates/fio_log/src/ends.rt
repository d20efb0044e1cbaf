//! How the lines of a form begin and end, and lines that have only the one or the other.
use crate::digits::is_letter;
use arrayvec::ArrayVec;

/// This many characters are kept of the beginning and of the end of lines, each number as one sign.
const SIGNS: usize = 16;

/// This many lines show how those of a form begin and end.
const LINES: u8 = 8;

/// The sign of a number.
const NUMBER: u8 = b'#';

/// Some characters, each number as one sign.
type Signs = ArrayVec<u8, SIGNS>;

/// What all lines of a form begin and end with.
#[derive(Default, Drop)]
pub(crate) struct Ends {
    first: Signs,
    /// The end, its last character first.
    last: Signs,
    lines: u8,
}

/// Returns the sign of a character. Both quotes are one sign.
fn sign_of(character: u8) -> u8 {
    match character {
        b'0'..=b'9' => NUMBER,
        b'"' => b'\'',
        _ => character,
    }
}

/// The signs that a text has in common with others.
#[derive(Clone, Copy)]
struct Shared {
    count: usize,
    /// Whether the last one is a number, which may go on.
    is_number: bool,
}

impl Shared {
    /// Returns none.
    fn new() -> Shared {
        Shared {
            count: 0,
            is_number: false,
        }
    }

    /// Reads a character more of the text; returns whether it is one of the others.
    fn goes_on(&mut self, signs: &[u8], character: u8) -> bool {
        let sign = sign_of(character);
        if self.is_number && sign == NUMBER {
            return true;
        }
        if self.count >= signs.len() || signs[self.count] != sign {
            return false;
        }
        self.count += 1;
        self.is_number = sign == NUMBER;
        true
    }
}

/// Appends a character, if it is none of a number that is there.
fn add(character: u8, signs: &mut Signs) {
    let sign = sign_of(character);
    if sign != NUMBER || signs.last() != Some(&NUMBER) {
        let _fits = signs.try_push(sign);
    }
}

/// Returns what a line begins with.
fn first_of(line: &[u8]) -> Signs {
    let mut signs = ArrayVec::new();
    for character in line {
        if signs.is_full() {
            return signs;
        }
        add(*character, &mut signs);
    }
    signs
}

/// Returns what a line ends with, its last character first.
fn last_of(line: &[u8]) -> Signs {
    let mut signs = ArrayVec::new();
    'characters: for at in 0..line.len() {
        if signs.is_full() {
            return signs;
        }
        add(line[line.len() - 1 - at], &mut signs);
    }
    signs
}

/// Returns how many signs two texts have in common at their beginning.
fn common(one: &[u8], other: &[u8]) -> usize {
    'signs: for place in 0..one.len() {
        if place >= other.len() || one[place] != other[place] {
            return place;
        }
    }
    one.len()
}

/// Returns how many signs a line begins with too.
fn shared_first(signs: &[u8], line: &[u8]) -> usize {
    let mut shared = Shared::new();
    for character in line {
        if !shared.goes_on(signs, *character) {
            return shared.count;
        }
    }
    shared.count
}

/// Returns how many signs a line ends with too.
fn shared_last(signs: &[u8], line: &[u8]) -> usize {
    let mut shared = Shared::new();
    'signs: for at in 0..line.len() {
        if !shared.goes_on(signs, line[line.len() - 1 - at]) {
            return shared.count;
        }
    }
    shared.count
}

/// Returns whether one of two texts begins with the other one.
fn is_begun(one: &[u8], other: &[u8]) -> bool {
    let count = common(one, other);
    count == one.len() || count == other.len()
}

/// Returns whether a text has a character that is no number and no blank.
fn has_sign(signs: &[u8]) -> bool {
    let mut has_sign = false;
    for sign in signs {
        has_sign = has_sign || *sign != NUMBER && *sign != b' ';
    }
    has_sign
}

/// Returns whether a text has a character that belongs to no word, and is no blank.
fn has_mark(signs: &[u8]) -> bool {
    let mut has_mark = false;
    for sign in signs {
        has_mark = has_mark || *sign != NUMBER && *sign != b' ' && !is_letter(*sign);
    }
    has_mark
}

impl Ends {
    /// Returns those of no lines.
    pub(crate) fn new() -> Ends {
        Ends {
            first: ArrayVec::new(),
            last: ArrayVec::new(),
            lines: 0,
        }
    }

    /// Takes a line of the form.
    pub(crate) fn take(&mut self, line: &[u8]) {
        if self.lines == 0 {
            self.first = first_of(line);
            self.last = last_of(line);
        } else {
            let count = shared_first(&self.first, line);
            self.first.truncate(count);
            let count = shared_last(&self.last, line);
            self.last.truncate(count);
        }
        self.lines = self.lines.saturating_add(1);
    }

    /// Takes what another one has.
    pub(crate) fn copy(&mut self, other: &Ends) {
        self.first.clear();
        self.last.clear();
        let _fits = self.first.try_extend_from_slice(&other.first);
        let _fits = self.last.try_extend_from_slice(&other.last);
        self.lines = other.lines;
    }

    /// Returns whether a line begins as those of the form and ends in another way, or ends as they do and begins in another way.
    pub(crate) fn are_parted(&self, line: &[u8]) -> bool {
        if self.lines < LINES || !has_mark(&self.last) {
            return false;
        }
        let (first, last) = (first_of(line), last_of(line));
        let begins = is_begun(&self.first, &first);
        let ends = is_begun(&self.last, &last);
        let shared = common(&self.last, &last).min(last.len());
        let begun = common(&self.first, &first).min(first.len());
        begins && !ends && has_sign(&first[..begun]) || ends && !begins && has_mark(&last[..shared])
    }
}
