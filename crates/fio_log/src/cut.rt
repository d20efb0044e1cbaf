//! Lines of which the beginning or the end is gone.
ghost use Rattle.std.specs.Prelude.{◌≡◌, false, length};

use crate::digits::{digit, is_letter};
use crate::spoilt::has_spoilt_octet;
use fio_form::{
    Digits, LineForm, LineRows, Octets, Piece, Step, Whole, ends_in_form, ends_in_octet, front_in,
    is_begun, is_message, pieces_in, run_in, swap, whole_of,
};

/// Returns whether a text is one number.
pub(crate) fn is_number(text: &[u8]) -> bool {
    for character in text {
        if digit(*character).is_none() {
            return false;
        }
    }
    true
}

/// Returns whether a line ends within the front of a form or its first octet. A number by itself is the last offset of a dump, if
/// it is not 0.
fn ends_within(form: &LineForm, line: &[u8]) -> bool {
    let is_zero = !line.is_empty() && line.iter().all(|digit| *digit == b'0');
    let is_offset = !form.front().is_empty() && is_number(line) && !is_zero
        || matches!(form.rows, LineRows::Offset { .. }) && !is_number(line);
    !is_offset && ends_in_form(form, line)
}

/// Returns a text without the dots at its end, which say that a logger left something out, and the blanks before them.
fn before_dots(text: &[u8]) -> &[u8] {
    if !matches!(text, [.., b'.', b'.'] | [.., 0xe2, 0x80, 0xa6]) {
        return text;
    }
    'dots: for place in 0..text.len() {
        let end = text.len() - place;
        if !matches!(text[end - 1], b'.' | b' ' | 0xe2 | 0x80 | 0xa6) {
            return &text[..end];
        }
    }
    &[]
}

/// Returns whether a line ends within the front of a form, and dots follow.
fn ends_in_dots(form: &LineForm, line: &[u8]) -> bool {
    let text = before_dots(line);
    text.len() < line.len() && ends_in_form(form, text)
}

/// Returns whether a line has at a place, after the front of a form, a message, or octets that begin one.
fn has_message(
    form: &LineForm,
    line: &[u8],
    place: usize,
    octets: &mut Octets,
    held: &mut Octets,
) -> bool {
    if place > line.len() {
        return false;
    }
    let digits = match form.digits() {
        Digits::Text(0) if place > 0 => Digits::Text(line[place - 1]),
        digits => digits,
    };
    if run_in(digits, form.cycle(), &line[place..], octets).is_none() || octets.is_empty() {
        return false;
    }
    if form.is_swapped {
        swap(octets);
    }
    is_message(octets) || is_begun(octets) || is_in_form(form, octets, held)
}

/// Returns whether octets are, less those of a form before and after it, a message; or the beginning of one.
fn is_in_form(form: &LineForm, octets: &Octets, held: &mut Octets) -> bool {
    (form.before > 0 || form.after > 0 || form.is_framed)
        && octets.len() > usize::from(form.before) + usize::from(form.after)
        && matches!(
            whole_of(form, octets, held),
            Whole::Message { .. } | Whole::Any { .. } | Whole::Lacking
        )
}

/// Returns whether a line begins within the front of a form, and has after it a message, or octets that begin one. A number by itself
/// is the last offset of a dump.
fn begins_within(form: &LineForm, line: &[u8], octets: &mut Octets, held: &mut Octets) -> bool {
    let count = form.front().len();
    if matches!(form.rows, LineRows::Offset { .. }) && is_number(line) && line.len() > FEW_DIGITS {
        return false;
    }
    'pieces: for above in 0..count {
        if let Some(place) = pieces_in(form, above + 1, count, line)
            && has_message(form, line, place, octets, held)
        {
            return true;
        }
    }
    false
}

/// This many pieces at the end of a front show that a line is of its form.
const END: usize = 4;

/// Returns whether the end of a form's front is in a line, and after it a message, or octets that begin one.
fn has_end(form: &LineForm, line: &[u8], octets: &mut Octets, held: &mut Octets) -> bool {
    let count = form.front().len();
    if count == 0 {
        return false;
    }
    let from = count - count.min(END);
    'places: for start in 0..line.len() {
        if let Some(place) = pieces_in(form, from, count, &line[start..])
            && has_message(form, &line[start..], place, octets, held)
        {
            return true;
        }
    }
    false
}

/// Returns whether a text has nothing but digits and what is between octets.
fn is_of_octets(form: &LineForm, text: &[u8]) -> bool {
    let mut has_digit = false;
    for character in text {
        if digit(*character).is_some() {
            has_digit = true;
        } else if *character != b' ' && !form.cycle().contains(&Step::Mark(*character)) {
            return false;
        }
    }
    has_digit
}

/// Returns whether a line has the front of a form, and after it digits that are no octets.
fn has_digits(form: &LineForm, line: &[u8]) -> bool {
    match front_in(form, line) {
        Some(place) if place <= line.len() => {
            !(place == 0 && is_number(line) && line.len() > 2) && is_of_octets(form, &line[place..])
        }
        _ => false,
    }
}

/// Returns whether the octets of a form are numbers.
pub(crate) fn is_of_digits(form: &LineForm) -> bool {
    !matches!(
        form.digits(),
        Digits::Text(_) | Digits::Cells | Digits::Sextets
    )
}

/// Returns what is before the quote at the end of a text, after which lists may end.
fn before_quote(text: &[u8]) -> Option<&[u8]> {
    'ends: for count in 0..text.len() {
        let place = text.len() - 1 - count;
        match text[place] {
            b',' | b']' | b'}' | b')' => {}
            b'"' | b'\'' => return Some(&text[..place]),
            _ => return None,
        }
    }
    None
}

/// Returns whether a piece of a front is a mark.
fn is_mark(piece: Piece) -> bool {
    match piece {
        Piece::Quote => true,
        Piece::Character(mark) => mark != b' ' && !is_letter(mark),
        _ => false,
    }
}

/// This many characters, an octet and a gap, may be left of what a cut took away.
pub(crate) const LEFT: usize = 10;

/// This many digits by themselves may be what is left of an octet, and more than this many are no offset.
const FEW_DIGITS: usize = 3;

const OFFSET_DIGITS: usize = 10;

/// Returns whether a character may be in or between octets of a form.
fn is_of_run(form: &LineForm, character: u8) -> bool {
    digit(character).is_some() || form.cycle().contains(&Step::Mark(character))
}

/// Returns whether a number by itself may be what is left of octets, and no offset: it is short or long, or the lines of the form
/// begin with no number, or have another one too.
fn is_rest_of_octets(form: &LineForm, line: &[u8]) -> bool {
    match form.front() {
        _ if line.len() <= FEW_DIGITS => !line.is_empty(),
        _ if line.len() > OFFSET_DIGITS => true,
        [] => false,
        [first, rest @ ..] => { !first.is_numeric() || rest.iter().any(|piece| piece.is_numeric()) }
    }
}

/// Returns a text without the blanks at its beginning.
fn past_blanks(text: &[u8]) -> &[u8] {
    'blanks: for place in 0..text.len() {
        if text[place] != b' ' {
            return &text[place..];
        }
    }
    &[]
}

/// Returns whether a line is the end of octets: it begins with digits and what is between octets, and after these has two
/// octets or more with a gap between them; or it is nothing but digits and what is between octets, and short or with a quote after them.
fn is_rest(form: &LineForm, line: &[u8], octets: &mut Octets) -> bool {
    if !is_of_digits(form) {
        return false;
    }
    let text = past_blanks(line);
    if is_number(text) {
        return is_rest_of_octets(form, text);
    }
    if text.len() <= LEFT && is_of_octets(form, text) {
        return true;
    }
    if let Some(octets) = before_quote(text)
        && is_of_octets(form, octets)
    {
        return true;
    }
    'places: for place in 0..line.len().min(LEFT) {
        if let Some(count) = run_in(form.digits(), form.cycle(), &line[place..], octets)
            && octets.len() > 1
            && count <= line.len() - place
            && !is_number(&line[place..place + count])
        {
            return true;
        }
        if !is_of_run(form, line[place]) {
            return false;
        }
    }
    false
}

/// Returns whether a line has the front of a form but for its last mark, as `TX 4` for `TX "4"`.
fn lacks_mark(form: &LineForm, line: &[u8]) -> bool {
    let front = form.front();
    match front {
        [_, .., last] if is_mark(*last) => pieces_in(form, 0, front.len() - 1, line).is_some(),
        _ => false,
    }
}

/// Returns whether a line that no form has is a part of one that a form had: its end or its beginning is gone.
pub(crate) fn is_cut_line(
    forms: &[LineForm],
    line: &[u8],
    octets: &mut Octets,
    held: &mut Octets,
) -> bool {
    for form in forms {
        let is_cut = ends_within(form, line)
            || ends_in_dots(form, line)
            || begins_within(form, line, octets, held)
            || has_digits(form, line)
            || has_spoilt_octet(form, line, octets)
            || lacks_mark(form, line)
            || is_rest(form, line, octets);
        if !form.is_anywhere && is_cut {
            return true;
        }
    }
    false
}

/// Returns whether the end of a form's front is in a line that no form has, and after it a message, or octets that begin one.
pub(crate) fn has_ends(
    forms: &[LineForm],
    line: &[u8],
    octets: &mut Octets,
    held: &mut Octets,
) -> bool {
    for form in forms {
        if !form.is_anywhere && has_end(form, line, octets, held) {
            return true;
        }
    }
    false
}

/// Returns how many characters of the marks after an octet a text begins with.
pub(crate) fn marks_in(form: &LineForm, text: &[u8]) -> usize {
    let mut place = 0;
    for step in form.cycle() {
        match step {
            Step::Octet if place > 0 => return place,
            Step::Mark(mark) if place < text.len() && text[place] == *mark => place += 1,
            Step::Mark(_) => return 0,
            _ => {}
        }
    }
    place
}

/// Returns whether a line ends within an octet: what is after its octets is a gap, or none, and the beginning of one more.
pub(crate) fn ends_in_gap(form: &LineForm, tail: &[u8]) -> bool
    ensures { length tail.now ≡ 0 → result ≡ false }
{
    if tail.is_empty() {
        return false;
    }
    let gap = marks_in(form, tail);
    gap < tail.len() && ends_in_octet(form.digits(), &tail[gap..])
}
