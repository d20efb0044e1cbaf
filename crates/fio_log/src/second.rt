//! Further messages of a line, after its first one.
ghost use Rattle.std.specs.Prelude.{◌≡◌, ◌≤◌, None, true};
ghost use Rattle.fio_log.specs.Heard.{HasNoLine};

use crate::digits::is_letter;
use crate::quiet::{Hidden, has_front, held_by_text};
use fio_form::{
    Found, LineForm, LineRows, Octets, Piece, Whole, find, front_in, is_answer, whole_of,
};

/// Returns whether a form may be that of a further message: its front has a quote, or a character that is no blank.
fn is_told(form: &LineForm) -> bool {
    let mut is_told = false;
    for piece in form.front() {
        is_told = is_told
            || match piece {
                Piece::Quote => true,
                Piece::Character(character) => *character != b' ',
                _ => false,
            };
    }
    is_told && form.rows == LineRows::One && !form.is_echo
}

/// Finds the next message of a line from a place on: the first place at which the front of a form is, and after it octets
/// that are a message. Returns where its octets are, which of those that it writes to `octets` are the message, and whether that is in a
/// frame with its check.
pub(crate) fn second_in(
    forms: &[LineForm],
    line: &[u8],
    from: usize,
    octets: &mut Octets,
    held: &mut Octets,
) -> Option<(Found, Whole, bool)>
    ensures { HasNoLine forms.now line.now → result ≡ None }
{
    'places: for place in from..line.len() {
        for form in forms {
            if is_told(form)
                && front_in(form, &line[place..]).is_some()
                && let Some(found) = find(form, &line[place..], octets)
            {
                let whole = whole_of(form, octets, held);
                if matches!(whole, Whole::Message { .. } | Whole::Any { .. }) {
                    let found = Found {
                        front: place + found.front,
                        start: place + found.start,
                        end: place + found.end,
                    };
                    if form.is_framed {
                        octets.clear();
                        let _fits = octets.try_extend_from_slice(held);
                    }
                    return Some((found, whole, form.is_framed));
                }
            }
        }
    }
    None
}

/// Returns whether the text between two messages, or after the last one, has no octets that may be one.
pub(crate) fn is_quiet_between(
    forms: &[LineForm],
    line: &[u8],
    start: usize,
    end: usize,
    octets: &mut Octets,
) -> bool
    ensures { end ≤ start → result ≡ true }
{
    start >= end
        || end > line.len()
        || held_by_text(forms, &line[start..end], octets) == Hidden::Nothing
            && !has_next_line(forms, &line[start..end])
}

/// A front of fewer pieces may be any text.
const PIECES: usize = 4;

/// Returns whether a form has a front that is in no other text: it has a word, and begins the line.
fn is_long(form: &LineForm) -> bool {
    let mut has_letter = false;
    for piece in form.front() {
        has_letter = has_letter
            || matches!(*piece, Piece::Character(character) if is_letter(character));
    }
    has_letter && form.front().len() >= PIECES && !form.is_anywhere && is_told(form)
}

/// Returns whether a text has the front of a form: another line may begin there, of which the octets can't be read.
fn has_next_line(forms: &[LineForm], text: &[u8]) -> bool {
    for form in forms {
        if is_long(form) && has_front(form, text) {
            return true;
        }
    }
    false
}

/// Returns whether a message may follow another one that its line has above it: an answer follows its command, and a command
/// follows no answer to it.
pub(crate) fn may_follow(above: &[u8], message: &[u8]) -> bool {
    match (above, message) {
        ([128..=255, ..], [0..=127, ..]) => !is_answer(message, above),
        ([0..=127, ..], [128..=255, ..]) => is_answer(above, message),
        ([128..=255, ..], _) => false,
        _ => true,
    }
}
