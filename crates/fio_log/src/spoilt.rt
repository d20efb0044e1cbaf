//! Octets of which a digit is gone, is too many or is another character.
ghost use Rattle.std.specs.Prelude.{◌≡◌};
ghost use Rattle.fio_log.specs.Spoilt.{digits_after, has_odd_digits, is_one, width_of};

use crate::cut::{LEFT, is_number, is_of_digits, marks_in};
use crate::digits::{digit, is_letter};
use crate::quiet::is_run;
use fio_form::{Digits, LineForm, LineRows, Octets, front_in, run_in};

/// Returns how many digits an octet has in a notation, if that is always the same.
fn width_of(digits: Digits) -> Option<usize>
    ensures { result ≡ width_of digits }
{
    match digits {
        Digits::Pairs => Some(2),
        Digits::Octal => Some(3),
        Digits::Binary => Some(8),
        _ => None,
    }
}

/// Returns whether a text has a digit, and else digits and characters that belong to no word.
fn is_spoilt(text: &[u8]) -> bool {
    let mut has_digit = false;
    let mut has_mark = false;
    for character in text {
        if digit(*character).is_some() {
            has_digit = true;
        } else if *character == b' ' || is_letter(*character) && *character < 128 {
            return false;
        } else {
            has_mark = true;
        }
    }
    has_digit && has_mark
}

/// Returns whether a text begins with an octet of which a digit is another character, before more octets or the end of the line.
fn begins_spoilt(form: &LineForm, text: &[u8], octets: &mut Octets) -> bool {
    let Some(width) = width_of(form.digits()) else {
        return false;
    };
    if text.len() < width || !is_spoilt(&text[..width]) {
        return false;
    }
    let rest = &text[width..];
    if rest.is_empty() {
        return !form.front().is_empty();
    }
    let gap = marks_in(form, rest).min(rest.len());
    match run_in(form.digits(), form.cycle(), &rest[gap..], octets) {
        Some(count) => !octets.is_empty() && is_run(form.digits(), &rest[gap..], count),
        None => true,
    }
}

/// Returns whether a text has octets near its beginning: two or more with a gap between them, and no letter before them that is
/// no digit.
fn has_octets_near(form: &LineForm, text: &[u8], octets: &mut Octets) -> bool {
    'places: for place in 0..text.len().min(LEFT) {
        if let Some(count) = run_in(form.digits(), form.cycle(), &text[place..], octets)
            && octets.len() > 1
            && count <= text.len() - place
            && !is_number(&text[place..place + count])
        {
            return true;
        }
        if is_letter(text[place]) && digit(text[place]).is_none() {
            return false;
        }
    }
    false
}

/// Returns whether a line has the front of a form, and after it octets of which the first one cannot be read.
pub(crate) fn has_spoilt_octet(form: &LineForm, line: &[u8], octets: &mut Octets) -> bool {
    match front_in(form, line) {
        Some(place) if place <= line.len() => {
            let text = &line[place..];
            begins_spoilt(form, text, octets)
                || is_of_digits(form)
                    && !form.front().is_empty()
                    && has_octets_near(form, text, octets)
        }
        _ => false,
    }
}

/// Returns whether digits go on after octets with nothing between them: too few for one more octet, or, in a row of a dump,
/// those of another one.
pub(crate) fn has_odd_digits(form: &LineForm, tail: &[u8]) -> bool
    ensures { result ≡ has_odd_digits form.now tail.now }
{
    match (width_of(form.digits()), digits_first(tail)) {
        (Some(width), Some(count)) => count > 0 && (count < width || !is_one(form.rows)),
        _ => false,
    }
}

/// Returns how many digits a text begins with, before a character that belongs to no word; `None` if its first word has another
/// character.
fn digits_first(text: &[u8]) -> Option<usize>
    ensures { result ≡ digits_after 0 text.now }
{
    let mut count: usize = 0;
    for character in text {
        if !is_letter(*character) {
            return Some(count);
        }
        if digit(*character).is_none() {
            return None;
        }
        count += 1;
    }
    Some(count)
}

/// Returns whether a message is one row.
fn is_one(rows: LineRows) -> bool
    ensures { result ≡ is_one rows }
{
    matches!(rows, LineRows::One)
}
