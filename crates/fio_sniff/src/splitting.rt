//! A form for some values of one of its numbers, as a port or an identifier.
use crate::evidence::{Evidence, rank_of, times};
use crate::known::Known;
use crate::tally::LineTold;
use crate::weighing::Weighing;
use arrayvec::ArrayVec;
use fio_form::{LineForm, digits_of, value_of};
use fio_guess::Window;
use fio_guess::table::{NUMBERS, SPLIT_TENTHS, VALUES};

/// A value of a number.
#[derive(Clone, Copy, Default)]
struct ValueCount {
    value: u32,
    /// How often its line says a message.
    good: u32,
    /// How often the number has it.
    every: u32,
}

/// The values that are counted.
const COUNTED: usize = 64;

/// The values of a number.
#[derive(Drop)]
struct Values {
    counted: ArrayVec<ValueCount, COUNTED>,
    /// How many of them have a line that says a message.
    good: usize,
    /// Whether there were more, in lines with messages.
    is_full: bool,
}

impl Values {
    fn count(&mut self, value: u32, is_good: bool) {
        let good = u32::from(is_good);
        for entry in self.counted.as_mut_slice() {
            if entry.value == value {
                self.good = self
                    .good
                    .saturating_add(usize::from(is_good && entry.good == 0));
                entry.good = entry.good.saturating_add(good);
                entry.every = entry.every.saturating_add(1);
                return;
            }
        }
        let value = ValueCount {
            value,
            good,
            every: 1,
        };
        if self.counted.try_push(value).is_ok() {
            self.good = self.good.saturating_add(usize::from(is_good));
        } else if is_good {
            self.is_full = true;
        }
    }

    /// Returns whether too many values have a line that says a message.
    fn are_many(&self) -> bool {
        self.is_full || self.good > VALUES
    }

    fn tell(&mut self, form: &LineForm, number: usize, told: LineTold, line: &[u8]) {
        if told == LineTold::Nothing {
            return;
        }
        if let Some(digits) = digits_of(form, number, line) {
            if let Some(value) = value_of(digits) {
                self.count(value, told == LineTold::Message);
            }
        }
    }

    /// Returns the form for the values whose lines fit, if this many lines of others do not.
    fn narrowed(&self, form: &LineForm, piece: usize, least: u32) -> Option<LineForm> {
        if self.are_many() {
            return None;
        }
        let mut values: ArrayVec<u32, VALUES> = ArrayVec::new();
        let mut others: u32 = 0;
        for entry in &self.counted {
            let fits = entry.good > 0 && times(10, entry.good) >= times(SPLIT_TENTHS, entry.every);
            if fits && (entry.every > 1 || self.counted.len() < 3) {
                let _ = values.try_push(entry.value);
            } else {
                others = others.saturating_add(entry.every - entry.good.min(entry.every));
            }
        }
        if values.is_empty() || values.len() >= self.counted.len() || others < least {
            return None;
        }
        form.with_values(piece, &values)
    }
}

/// Returns the form for some values of a number, a piece of the front.
fn split_at(
    weighing: &mut Weighing,
    form: &LineForm,
    piece: usize,
    number: usize,
    lines: &Window,
    known: &Known,
    least: u32,
) -> Option<LineForm> {
    let mut values = Values {
        counted: ArrayVec::new(),
        good: 0,
        is_full: false,
    };
    weighing.begin();
    for at in 0..lines.len() {
        if values.are_many() {
            return None;
        }
        let heard = weighing.hear(form, at, lines.line(at), known.is_taken(at));
        values.tell(form, number, heard.above, lines.line(heard.first_above));
        values.tell(form, number, heard.here, lines.line(heard.first));
    }
    values.narrowed(form, piece, least)
}

/// Returns the best form for some values of a number, and what the lines say for it; `least`: this many lines of other values do not fit.
pub(crate) fn split(
    weighing: &mut Weighing,
    form: &LineForm,
    lines: &Window,
    known: &Known,
    least: u32,
) -> Option<(LineForm, Evidence)> {
    let mut best: Option<(LineForm, Evidence)> = None;
    let mut number: usize = 0;
    let front = form.front();
    for piece in 0..front.len() {
        if number >= NUMBERS || !front[piece].is_numeric() {
            continue;
        }
        if let Some(one) = split_at(weighing, form, piece, number, lines, known, least) {
            let evidence = weighing.weigh(&one, lines, known);
            let is_better = match &best {
                Some((other, above)) => rank_of(&one, &evidence) > rank_of(other, above),
                None => true,
            };
            if is_better {
                best = Some((one, evidence));
            }
        }
        number += 1;
    }
    best
}
