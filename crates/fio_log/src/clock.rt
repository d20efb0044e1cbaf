//! Times in lines of logs, which verdicts report: each function reads what its definition says, character by character.
ghost use Rattle.std.specs.Prelude.{◌≡◌, ◌≤◌, IfSome, length, map, true};
ghost use Rattle.fio_log.specs.Clock.{can_be, first_form, first_time_of, may_be_before, may_begin, may_begin_digits, may_begin_name, time_at};

use crate::digits::{is_decimal, is_letter};
use crate::parts::TimeKind;
use crate::time_ends::fitting;
use crate::time_forms::{TimeRead, character, form_in, number_in, small};

/// A moment, in microseconds since what it counts from.
#[derive(Clone, Copy, Debug, PartialEq, Eq)]
pub struct Moment {
    /// The microseconds.
    pub microseconds: u64,
    /// What it counts from.
    pub kind: TimeKind,
}

/// A time in a line.
#[derive(Clone, Copy, Debug, PartialEq, Eq)]
pub struct Time {
    /// Where the time begins.
    pub start: usize,
    /// Where the time ends.
    pub end: usize,
    /// The moment that it says.
    pub moment: Moment,
}

/// The forms of times: `Y` has four digits, `m` and `s` two, `M`, `D` and `h` one or two, `N` is the name of a month, `_` a
/// gap, `E` the seconds or milliseconds since 1970, `F` seconds with a fraction.
const FORMS: [&[u8]; 9] = [
    b"Y-M-D_h:m:s",
    b"Y/M/D_h:m:s",
    b"Y.M.D_h:m:s",
    b"D.M.Y_h:m:s",
    b"M/D/Y_h:m:s",
    b"N_D_h:m:s",
    b"h:m:s",
    b"E",
    b"F",
];

/// How far into a line a time may begin.
const TIME_OCTETS: usize = 200;

/// Returns the first time in a line.
pub fn time_in(line: &[u8]) -> Option<Time>
    ensures time { result ≡ first_time_of line.now }
    ensures within { IfSome result (λ time. time.end ≤ length line.now) }
{
    let mut is_free = true;
    let mut start = 0;
    'places: while start < line.len() {
        if start >= TIME_OCTETS {
            return None;
        }
        if let Some(read) = time_at(is_free, &line[start..]) {
            return Some(Time {
                start,
                end: start + read.count,
                moment: Moment {
                    microseconds: read.parts.total(),
                    kind: read.parts.kind,
                },
            });
        }
        is_free = may_be_before(line[start]);
        start += 1;
    }
    None
}

/// Returns whether a time may begin after a character: not after a digit or letter, nor after `.`, `:`, `-` or `/`.
fn may_be_before(character: u8) -> bool
    ensures { result ≡ may_be_before character }
{
    !is_letter(character) && !matches!(character, b'.' | b':' | b'-' | b'/')
}

/// Returns the time that a text begins with, if one may begin there.
#[tactic(auto, unfolding(crate::specs::Clock::time_at))]
fn time_at(is_free: bool, text: &[u8]) -> Option<TimeRead>
    ensures time { result ≡ time_at is_free text.now }
    ensures within { IfSome result (λ read. read.count ≤ length text.now) }
    ensures right { IfSome result (λ read. can_be read.parts ≡ true) }
{
    if is_free && may_begin(text) {
        first_form(text, &FORMS)
    } else {
        None
    }
}

/// Returns whether a text may begin with a time: with the first letter of a month, ten or thirteen digits, or digits and a
/// sign of a form.
fn may_begin(text: &[u8]) -> bool
    ensures { result ≡ may_begin text.now }
{
    let first = character(text, 0);
    if !is_decimal(first) {
        return may_begin_name(small(first));
    }
    let number = number_in(text, 14);
    may_begin_digits(number.count, character(text, number.count))
}

/// Returns whether a time may begin with this many digits and the character after them.
fn may_begin_digits(count: usize, next: u8) -> bool
    ensures { result ≡ may_begin_digits count next }
{
    matches!(count, 10 | 13) || matches!(next, b'-' | b'/' | b'.' | b':')
}

/// Returns whether a small letter is the first one of a month.
fn may_begin_name(letter: u8) -> bool
    ensures { result ≡ may_begin_name letter }
{
    matches!(
        letter,
        b'a' | b'd' | b'f' | b'j' | b'm' | b'n' | b'o' | b's'
    )
}

/// Returns what a text begins with in the first of some forms that fits.
fn first_form(text: &[u8], forms: &[&[u8]]) -> Option<TimeRead>
    ensures read { result ≡ first_form (map (λ form. form.now) forms.now) text.now }
    ensures within { IfSome result (λ read. read.count ≤ length text.now) }
    ensures right { IfSome result (λ read. can_be read.parts ≡ true) }
{
    let mut place = 0;
    'forms: while place < forms.len() {
        if let Some(read) = fitting(form_in(text, forms[place]), text) {
            return Some(read);
        }
        place += 1;
    }
    None
}
