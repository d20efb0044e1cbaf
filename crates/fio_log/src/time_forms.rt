//! The parts of a time, as a form has them.
ghost use Rattle.std.specs.Prelude.{◌≡◌, ◌≤◌, IfSome, length, slice_index};
ghost use Rattle.fio_log.specs.Clock.{begins_fraction, form_from, gap_from, has_right_digits, is_of_number, is_time_gap, month_by, month_of, most_digits, no_number, none_read, part_of, part_of_gap, part_of_name, part_of_number, small, time_number};

use crate::digits::is_decimal;
use crate::parts::TimeParts;

/// The digits of a number: what they are worth, and how many there are.
#[derive(Clone, Copy)]
pub(crate) struct Number {
    pub value: u64,
    pub count: usize,
}

/// Parts of a time that are read, and how many characters they have.
#[derive(Clone, Copy)]
pub(crate) struct TimeRead {
    pub parts: TimeParts,
    pub count: usize,
}

/// Reads the parts of a form that a text begins with.
pub(crate) fn form_in(text: &[u8], form: &[u8]) -> Option<TimeRead>
    ensures read { result ≡ form_from none_read form.now text.now }
    ensures within { IfSome result (λ read. read.count ≤ length text.now) }
{
    let mut read = TimeRead {
        parts: TimeParts::new(),
        count: 0,
    };
    let mut place = 0;
    'signs: while place < form.len() {
        let part = part_in(read.parts, form[place], &text[read.count..])?;
        read = TimeRead {
            parts: part.parts,
            count: read.count + part.count,
        };
        place += 1;
    }
    Some(read)
}

/// Reads the part that a text begins with, by a sign of a form.
fn part_in(parts: TimeParts, sign: u8, text: &[u8]) -> Option<TimeRead>
    ensures part { result ≡ part_of parts sign text.now }
    ensures within { IfSome result (λ read. read.count ≤ length text.now) }
{
    if sign == b'_' {
        part_of_gap(parts, text)
    } else if sign == b'N' {
        part_of_name(parts, text)
    } else if is_numeric(sign) {
        part_of_number(parts, sign, number_in(text, most_digits(sign)), text)
    } else if text.is_empty() || character(text, 0) != sign {
        None
    } else {
        Some(TimeRead { parts, count: 1 })
    }
}

/// Reads the gap that a text begins with.
fn part_of_gap(parts: TimeParts, text: &[u8]) -> Option<TimeRead>
    ensures part { result ≡ part_of_gap parts (gap_from 0 text.now) }
    ensures within { IfSome result (λ read. read.count ≤ length text.now) }
{
    let count = gap_in(text);
    if count == 0 {
        None
    } else {
        Some(TimeRead { parts, count })
    }
}

/// Reads the name of a month that a text begins with.
fn part_of_name(parts: TimeParts, text: &[u8]) -> Option<TimeRead>
    ensures part { result ≡ part_of_name parts (month_of text.now) }
    ensures within { IfSome result (λ read. read.count ≤ length text.now) }
{
    let month = month_by(
        small(character(text, 0)),
        small(character(text, 1)),
        small(character(text, 2)),
    );
    if month == 0 || text.len() < 3 {
        None
    } else {
        Some(TimeRead {
            parts: TimeParts { month, ..parts },
            count: 3,
        })
    }
}

/// Returns whether a sign of a form is one of a number.
fn is_numeric(sign: u8) -> bool
    ensures { result ≡ is_of_number sign }
{
    matches!(sign, b'E' | b'F' | b'Y' | b'M' | b'D' | b'h' | b'm' | b's')
}

/// Returns how many digits a sign allows.
fn most_digits(sign: u8) -> usize
    ensures { result ≡ most_digits sign }
{
    match sign {
        b'E' => 14,
        b'F' => 9,
        b'Y' => 4,
        _ => 2,
    }
}

/// Returns whether a number of this many digits is right for a sign, by its first digit and by what follows.
fn is_right(sign: u8, count: usize, first: u8, below: &[u8]) -> bool
    ensures { result ≡ has_right_digits sign count first below.now }
{
    match sign {
        b'E' => (count == 10 || count == 13) && first == b'1',
        b'F' => count > 0 && begins_fraction(below),
        b'Y' => count == 4,
        b'm' | b's' => count == 2,
        _ => count > 0,
    }
}

/// Returns whether a text begins with a point and a digit.
fn begins_fraction(text: &[u8]) -> bool
    ensures { result ≡ begins_fraction text.now }
{
    character(text, 0) == b'.' && is_decimal(character(text, 1))
}

/// Returns the part of a number with which a text begins.
fn part_of_number(parts: TimeParts, sign: u8, number: Number, text: &[u8]) -> Option<TimeRead>
    requires { number.count ≤ length text.now }
    ensures part { result ≡ part_of_number parts sign number text.now }
    ensures within { IfSome result (λ read. read.count ≤ length text.now) }
{
    let Number { value, count } = number;
    if !is_right(sign, count, character(text, 0), &text[count..]) {
        return None;
    }
    let parts = if count == 13 {
        TimeParts {
            microseconds: value % 1000 * 1000,
            ..parts
        }
        .with(sign, value / 1000)
    } else {
        parts.with(sign, value)
    };
    Some(TimeRead { parts, count })
}

/// Reads the digits that a text begins with, at most `most` of them.
pub(crate) fn number_in(text: &[u8], most: usize) -> Number
    ensures value { result ≡ time_number most no_number text.now }
    ensures within { result.count ≤ length text.now }
{
    let mut number = Number { value: 0, count: 0 };
    'digits: while number.count < text.len() {
        let character = text[number.count];
        if number.count >= most || !is_decimal(character) || number.value > 1_000_000_000_000_000 {
            break;
        }
        number = Number {
            value: 10 * number.value + u64::from(character - b'0'),
            count: number.count + 1,
        };
    }
    number
}

/// Returns how many characters of a gap a text begins with.
fn gap_in(text: &[u8]) -> usize
    ensures count { result ≡ gap_from 0 text.now }
    ensures within { result ≤ length text.now }
{
    let mut count = 0;
    'gap: while count < text.len() && is_gap(text[count]) {
        count += 1;
    }
    count
}

/// Returns whether a character may be between date and time.
fn is_gap(character: u8) -> bool
    ensures { result ≡ is_time_gap character }
{
    matches!(character, b' ' | b'\t' | b'T' | b'_' | b',' | b';' | b'-')
}

/// Returns a letter of ASCII as a small one; other characters as they are.
pub(crate) fn small(character: u8) -> u8
    ensures { result ≡ small character }
{
    match character {
        b'A'..=b'Z' => character + 32,
        _ => character,
    }
}

/// Returns the month that three small letters name; 0 for others.
fn month_by(a: u8, b: u8, c: u8) -> u64
    ensures { result ≡ month_by a b c }
{
    match (a, b, c) {
        (b'j', b'a', b'n') => 1,
        (b'f', b'e', b'b') => 2,
        (b'm', b'a', b'r') => 3,
        (b'a', b'p', b'r') => 4,
        (b'm', b'a', b'y') => 5,
        (b'j', b'u', b'n') => 6,
        (b'j', b'u', b'l') => 7,
        (b'a', b'u', b'g') => 8,
        (b's', b'e', b'p') => 9,
        (b'o', b'c', b't') => 10,
        (b'n', b'o', b'v') => 11,
        (b'd', b'e', b'c') => 12,
        _ => 0,
    }
}

/// Returns the character at a place of a text; 0 after its end.
pub(crate) fn character(text: &[u8], place: usize) -> u8
    ensures { result ≡ slice_index text.now place }
{
    match text.get(place) {
        Some(character) => *character,
        None => 0,
    }
}
