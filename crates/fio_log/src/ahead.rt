//! What is learnt from the lines of a window before they are told: which stand above octets, and which shapes recur.
use crate::blanks::are_blanks;
use crate::counts::Counts;
use crate::cut::has_ends;
use crate::heads::{Heads, row_in};
use crate::middle::lacks_middle;
use crate::quiet::{Hidden, held_by_text};
use crate::shapes::Shapes;
use fio_form::{LineForm, Octets, Whole, whole_of};
use fio_guess::Window;

/// Learns from the lines of a window, by forms.
pub(crate) fn look_ahead(
    window: &Window,
    forms: &[LineForm],
    heads: &mut Heads,
    counts: &mut Counts,
    shapes: &mut Shapes,
    octets: &mut Octets,
    held: &mut Octets,
) {
    heads.begin(window.len());
    'lines: for at in 0..window.len() {
        let line = window.line(at);
        if !takes_row(forms, line, heads, octets, held) {
            heads.take_other(line);
            expect(forms, line, counts, shapes, octets, held);
        }
    }
}

/// Takes a line, if it is a row of a form; returns whether it is.
fn takes_row(
    forms: &[LineForm],
    line: &[u8],
    heads: &mut Heads,
    octets: &mut Octets,
    held: &mut Octets,
) -> bool {
    let Some(form) = row_in(forms, line, octets) else {
        return false;
    };
    let whole = whole_of(form, octets, held);
    let is_message = matches!(whole, Whole::Message { .. } | Whole::Any { .. });
    heads.take_row(line, is_message);
    true
}

/// Counts the shape of a line that no form has.
fn expect(
    forms: &[LineForm],
    line: &[u8],
    counts: &mut Counts,
    shapes: &mut Shapes,
    octets: &mut Octets,
    held: &mut Octets,
) {
    if are_blanks(line) {
        return;
    }
    counts.expect(line);
    let hidden = held_by_text(forms, line, octets);
    if hidden != Hidden::Nothing || is_part(forms, line, octets, held) {
        shapes.expect(line, hidden == Hidden::Message);
    }
}

/// Returns whether a line that no form has may be a part of one that a form had: it has the end of a front, or lacks the middle.
pub(crate) fn is_part(
    forms: &[LineForm],
    line: &[u8],
    octets: &mut Octets,
    held: &mut Octets,
) -> bool {
    has_ends(forms, line, octets, held) || lacks_middle(forms, line)
}
