//! What follows the parts of a time: a fraction of a second, and `AM` or `PM`.
ghost use Rattle.std.specs.Prelude.{◌≡◌, ◌≤◌, ◌+◌, IfSome, drop, length, true};
ghost use Rattle.fio_log.specs.Clock.{blanks_from, can_be, fitting, fraction_of, goes_on_behind, half_of, is_unit, microseconds_of, possible, with_fraction, with_half, with_hour};

use crate::digits::{digit, is_decimal, is_letter};
use crate::parts::TimeParts;
use crate::time_forms::{Number, TimeRead, character, number_in, small};

/// Returns what is read of a text with what comes after it, if nothing goes on there and its parts can be those of a time.
pub(crate) fn fitting(read: Option<TimeRead>, text: &[u8]) -> Option<TimeRead>
    requires { IfSome read (λ read. read.count ≤ length text.now) }
    ensures read { result ≡ fitting read text.now }
    ensures within { IfSome result (λ read. read.count ≤ length text.now) }
    ensures right { IfSome result (λ read. can_be read.parts ≡ true) }
{
    let read = fraction_in(read?, text);
    if goes_on_behind(&text[read.count..]) {
        return None;
    }
    possible(half_in(read, text))
}

/// Returns a time whose parts can be those of one.
fn possible(read: TimeRead) -> Option<TimeRead>
    ensures { result ≡ possible read }
{
    if read.parts.can_be() {
        Some(read)
    } else {
        None
    }
}

/// Reads the fraction of a second after a time, if there is one.
fn fraction_in(read: TimeRead, text: &[u8]) -> TimeRead
    requires { read.count ≤ length text.now }
    ensures read { result ≡ fraction_of read text.now }
    ensures within { result.count ≤ length text.now }
{
    let sign = character(text, read.count);
    if read.count == text.len() || !matches!(sign, b'.' | b',' | b':') {
        return read;
    }
    with_fraction(read, sign, number_in(&text[read.count + 1..], 9), text)
}

/// Returns a time with the fraction of a second that follows a sign, if there is one: three digits if that is a colon.
fn with_fraction(read: TimeRead, sign: u8, number: Number, text: &[u8]) -> TimeRead
    requires { read.count + (1 + number.count) ≤ length text.now }
    ensures read { result ≡ with_fraction read sign number text.now }
    ensures within { result.count ≤ length text.now }
{
    if number.count == 0 || sign == b':' && number.count != 3 {
        return read;
    }
    let end = read.count + (1 + number.count);
    let more = number_in(&text[end..], 9);
    TimeRead {
        parts: TimeParts {
            microseconds: microseconds_of(number.value, number.count),
            ..read.parts
        },
        count: end + more.count,
    }
}

/// Returns the microseconds of a fraction of a second with `count` digits, at most nine. Digits after the sixth do not count.
fn microseconds_of(fraction: u64, count: usize) -> u64
    ensures { result ≡ microseconds_of fraction count }
{
    match count {
        1 => 100_000 * (fraction % 10),
        2 => 10_000 * (fraction % 100),
        3 => 1000 * (fraction % 1000),
        4 => 100 * (fraction % 10_000),
        5 => 10 * (fraction % 100_000),
        7 => fraction / 10,
        8 => fraction / 100,
        9 => fraction / 1000,
        _ => fraction,
    }
}

/// Returns whether a text continues a word or a number with colons or points, or is a unit shorter than a second.
fn goes_on_behind(text: &[u8]) -> bool
    ensures { result ≡ goes_on_behind text.now }
{
    match character(text, 0) {
        b'Z' => false,
        b':' => digit(character(text, 1)).is_some(),
        b'.' => is_decimal(character(text, 1)),
        b' ' => is_unit_behind(text),
        next => is_letter(next),
    }
}

/// Returns whether a unit is after the first character of a text.
fn is_unit_behind(text: &[u8]) -> bool
    ensures { result ≡ is_unit (drop 1 text.now) }
{
    match text {
        [_, rest @ ..] => is_unit(rest),
        [] => false,
    }
}

/// Returns whether a text begins with a unit of times that are shorter than seconds.
fn is_unit(text: &[u8]) -> bool
    ensures { result ≡ is_unit text.now }
{
    let (a, b, c) = (character(text, 0), character(text, 1), character(text, 2));
    matches!(a, b'm' | b'u' | b'n') && b == b's' && !is_letter(c)
        || (a == 0xc2 && b == 0xb5 || a == 0xce && b == 0xbc)
            && c == b's'
            && !is_letter(character(text, 3))
}

/// Corrects the hour of a time by the `AM` or `PM` after it, if there is one after blanks.
fn half_in(read: TimeRead, text: &[u8]) -> TimeRead
    requires { read.count ≤ length text.now }
    ensures read { result ≡ half_of read text.now }
    ensures within { result.count ≤ length text.now }
{
    let place = read.count + blanks_in(&text[read.count..]);
    with_half(read, place, &text[place..])
}

/// Corrects the hour of a time by the `AM` or `PM` that a text at a place begins with.
fn with_half(read: TimeRead, place: usize, text: &[u8]) -> TimeRead
    requires above { read.count ≤ place }
    requires room { place + length text.now ≤ usize.MAX }
    ensures read { result ≡ with_half read place text.now }
    ensures within { result.count ≤ place + length text.now }
{
    if small(character(text, 1)) != b'm' || is_letter(character(text, 2)) {
        return read;
    }
    let hour = read.parts.hour % 12;
    match small(character(text, 0)) {
        b'a' => with_hour(read, hour, place + 2),
        b'p' => with_hour(read, hour + 12, place + 2),
        _ => read,
    }
}

/// Returns a time with another hour, which ends at a place.
fn with_hour(read: TimeRead, hour: u64, end: usize) -> TimeRead
    ensures { result ≡ with_hour read hour end }
{
    TimeRead {
        parts: TimeParts { hour, ..read.parts },
        count: end,
    }
}

/// Returns how many blanks a text begins with.
fn blanks_in(text: &[u8]) -> usize
    ensures count { result ≡ blanks_from 0 text.now }
    ensures within { result ≤ length text.now }
{
    let mut count = 0;
    'blanks: while count < text.len() && text[count] == b' ' {
        count += 1;
    }
    count
}
