//! The form of a sample line, from a user.
use crate::evidence::{Evidence, Rank, rank_of};
use crate::weighing::Weighing;
use fio_form::LineForm;
use fio_guess::table::GUESSES;
use fio_guess::{Guesses, Window};

/// Returns how many octets the message has that a line is by a form; 0 for one octet with others before or after it, which is none.
fn octets_in(form: &LineForm, weighing: &mut Weighing, line: &[u8]) -> usize {
    let count = weighing.octets_in(form, line);
    if count == 1 && (form.before > 0 || form.after > 0) {
        0
    } else {
        count
    }
}

/// Returns the form by which a line is the longest message; of several the best one. `None` if no guess reads a message there.
fn likeliest(
    guesses: &mut Guesses,
    weighing: &mut Weighing,
    lines: &Window,
    at: usize,
) -> Option<LineForm> {
    let mut likeliest: Option<LineForm> = None;
    let mut most: usize = 0;
    let mut best = Rank::default();
    for _ in 0..GUESSES {
        let Some(guess) = guesses.pick() else {
            break;
        };
        if let Some(form) = guess.form(lines) {
            let count = octets_in(&form, weighing, lines.line(at));
            let rank = rank_of(&form, &Evidence::default());
            if count > most || count > 0 && count == most && rank > best {
                most = count;
                best = rank;
                likeliest = Some(form);
            }
        }
    }
    likeliest
}

/// Returns the form of a sample line, with the whole text before its octets as the front, or the end of it.
pub(crate) fn form_like(
    guesses: &mut Guesses,
    weighing: &mut Weighing,
    lines: &Window,
    at: usize,
) -> Option<LineForm> {
    for is_anywhere in [false, true] {
        guesses.clear();
        guesses.guess_line(lines, at, is_anywhere);
        let form = likeliest(guesses, weighing, lines, at);
        if form.is_some() {
            return form;
        }
    }
    None
}
