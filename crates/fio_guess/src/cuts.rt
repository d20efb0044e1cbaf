//! Cuts: which octets of a place are a message, and which are before and after it.
ghost use Rattle.std.specs.Prelude.{◌≡◌, ◌≤◌, ◌<◌, IfSome, length};

use crate::guess::{GuessPlace, is_sure, is_type};
use crate::guesses::GuessTable;
use crate::table::{AFTER, BEFORE, HUGE, LONG, SURE_WEIGHT};
use crate::words::may_begin;
use fio_form::{Digits, LineForm, Octets, Step, framed_in, is_message, run_in};

/// The flag between two frames of the wire.
pub(crate) const FLAG: u8 = 0x7e;

/// Returns the weight of a message.
pub(crate) fn message_weight(message: &[u8], is_below: bool) -> u32 {
    let weight = if is_below { 2 } else { 1 };
    if is_sure(message) {
        SURE_WEIGHT + weight
    } else {
        weight
    }
}

/// Adds the forms that read a message of octets, by what is cut. `is_below`: some of the octets are of lines below.
pub(crate) fn add_cuts(
    table: &mut GuessTable,
    held: &mut Octets,
    form: &mut LineForm,
    at: GuessPlace,
    octets: &[u8],
    is_below: bool,
) {
    let most = if at.is_cut && octets.len() < HUGE {
        octets.len().min(BEFORE)
    } else {
        octets.len().min(1)
    };
    for before in 0..most {
        if is_type(octets[before]) {
            form.before = before as u8;
            add_ends(table, form, at, &octets[before..], is_below);
        }
    }
    form.before = 0;
    form.after = 0;
    add_frames(table, held, form, at, octets, is_below);
}

/// Adds the forms that read a message that octets begin with, by what is cut after it.
fn add_ends(
    table: &mut GuessTable,
    form: &mut LineForm,
    at: GuessPlace,
    octets: &[u8],
    is_below: bool,
) {
    let is_text = matches!(at.digits, Digits::Text(_));
    let most = if octets.len() > 1 && !is_text {
        octets.len().min(AFTER)
    } else {
        1
    };
    for after in 0..most {
        if after < octets.len() {
            let message = &octets[..octets.len() - after];
            if is_message(message) {
                form.after = after as u8;
                table.add(form, at, message_weight(message, is_below));
            }
        }
    }
}

/// Returns the index of the first flag.
fn flag_in(octets: &[u8]) -> Option<usize>
    ensures { IfSome result (λ at. at < length octets.now) }
{
    for (at, octet) in octets.iter().enumerate() {
        if *octet == FLAG {
            return Some(at);
        }
    }
    None
}

/// Adds the form that reads a frame of the wire.
fn add_frames(
    table: &mut GuessTable,
    held: &mut Octets,
    form: &mut LineForm,
    at: GuessPlace,
    octets: &[u8],
    is_below: bool,
) {
    let most = if at.is_cut {
        octets.len().min(BEFORE)
    } else {
        octets.len().min(1)
    };
    let before = match flag_in(&octets[..most]) {
        Some(before) => before,
        None if octets.len() >= 5 && octets.len() <= 4 * LONG => 0,
        None => return,
    };
    if framed_in(&octets[before..], held) && !held.is_empty() && is_message(held) {
        form.before = before as u8;
        form.is_framed = true;
        table.add(form, at, message_weight(held, is_below));
        form.before = 0;
        form.is_framed = false;
    }
}

/// Octets that are a message in the text before those of a form: where they begin, and where they end.
#[derive(Clone, Copy)]
pub(crate) struct Before {
    /// Where they begin.
    pub start: usize,
    /// Where they end.
    pub end: usize,
}

/// Returns the last message of two octets or more in a text, in a notation. As a part of a front it would be hidden.
pub(crate) fn last_said(
    before: &[u8],
    digits: Digits,
    cycle: &[Step],
    octets: &mut Octets,
) -> Option<Before>
    ensures { IfSome result (λ said. (said.start ≤ said.end) × (said.end ≤ length before.now)) }
{
    if matches!(digits, Digits::Text(_) | Digits::Cells | Digits::Sextets) {
        return None;
    }
    'places: for step in 0..before.len() {
        let start = before.len() - 1 - step;
        if may_begin(before, start)
            && let Some(count) = run_in(digits, cycle, &before[start..], octets)
        {
            if octets.len() > 1 && is_message(octets) {
                return Some(Before {
                    start,
                    end: start + count,
                });
            }
        }
    }
    None
}
