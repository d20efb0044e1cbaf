//! Guesses of messages that go on in the lines below.
ghost use Rattle.std.specs.Prelude.{◌≡◌, ◌≤◌, ◌<◌, length};
ghost use Rattle.fio_guess.specs.declared.table.TheConstants.{NUMBERS_TRIED};

use crate::cuts::{FLAG, add_cuts, message_weight};
use crate::guess::{GuessPlace, is_type};
use crate::guesses::GuessTable;
use crate::table::{HUGE, NARROW, NUMBERS_TRIED, ROWS};
use crate::window::Window;
use arrayvec::ArrayVec;
use fio_form::{LineForm, LineRows, Octets, digits_of, find, is_begun, number_in};
use fio_rows::{Reading, Said};

/// What rows are read with.
#[derive(Drop)]
pub(crate) struct RowGuesses {
    /// The octets of some rows.
    whole: Octets,
    /// The octets of one row.
    row: Octets,
    reading: Reading,
}

/// The number of a row of a dump that says where it begins: its index among the pieces of the front, and its base.
#[derive(Clone, Copy)]
struct OffsetNumber {
    number: u8,
    base: u8,
}

/// Returns the offset of a dump's row, if a form has the line. Writes its octets.
fn offset_in(
    form: &LineForm,
    line: &[u8],
    number: OffsetNumber,
    octets: &mut Octets,
) -> Option<u64> {
    let found = find(form, line, octets)?;
    offset_at(form, &line[found.front..], number)
}

/// Returns the offset of a dump's row, which begins with the front of a form.
fn offset_at(form: &LineForm, row: &[u8], number: OffsetNumber) -> Option<u64> {
    number_in(
        digits_of(form, usize::from(number.number), row)?,
        number.base,
    )
}

/// Returns whether a row of a dump goes on with the row above it, which has this many octets.
fn goes_on(form: &LineForm, above: &[u8], row: &[u8], number: OffsetNumber, count: usize) -> bool {
    match (offset_at(form, above, number), offset_at(form, row, number)) {
        (Some(first), Some(next)) => next.checked_sub(first) == Some(count as u64),
        _ => false,
    }
}

/// Appends those of some octets for which there is room.
fn append(octets: &mut Octets, more: &[u8]) {
    let count = more.len().min(octets.remaining_capacity());
    let _fits = octets.try_extend_from_slice(&more[..count]);
}

/// Returns the number of a front's numbers, at most `NUMBERS_TRIED`.
fn numbers_in(form: &LineForm) -> u8
    ensures { result ≤ NUMBERS_TRIED }
{
    let mut count = 0;
    'pieces: for piece in form.front() {
        if piece.is_numeric() && count < NUMBERS_TRIED {
            count += 1;
        }
    }
    count
}

/// Returns whether digits are the offset of the first row of a dump: four, six or eight zeros.
fn is_first_offset(digits: &[u8]) -> bool {
    for digit in digits {
        if *digit != b'0' {
            return false;
        }
    }
    matches!(digits.len(), 4 | 6 | 8)
}

impl RowGuesses {
    /// Returns what rows are read with.
    pub(crate) fn new() -> RowGuesses {
        RowGuesses {
            whole: ArrayVec::new(),
            row: ArrayVec::new(),
            reading: Reading::new(),
        }
    }

    /// Appends the octets of the rows of a dump below a line to those of the line; returns the offset of the line, if there are any.
    fn gather(
        &mut self,
        form: &LineForm,
        lines: &Window,
        at: u16,
        number: OffsetNumber,
    ) -> Option<u64> {
        let at = usize::from(at);
        let first = offset_in(form, lines.line(at), number, &mut self.row)?;
        let mut offset = first;
        let mut above = self.whole.len() as u64;
        let mut count = 1;
        for line in at + 1..lines.len().min(at + ROWS) {
            if self.whole.len() >= HUGE {
                break;
            }
            let Some(next) = offset_in(form, lines.line(line), number, &mut self.row) else {
                break;
            };
            if next.checked_sub(offset) != Some(above) {
                break;
            }
            append(&mut self.whole, &self.row);
            above = self.row.len() as u64;
            offset = next;
            count = 2;
        }
        if count > 1 { Some(first) } else { None }
    }

    /// Adds forms of dumps whose rows say where they begin, if the line below may be such a row.
    fn add_offsets(
        &mut self,
        table: &mut GuessTable,
        held: &mut Octets,
        form: &mut LineForm,
        at: GuessPlace,
        lines: &Window,
        octets: &[u8],
    ) {
        let own = lines.line(usize::from(at.line));
        let below = lines.line(usize::from(at.line) + 1);
        let Some(first) = find(form, own, &mut self.row) else {
            return;
        };
        let Some(next) = find(form, below, &mut self.row) else {
            return;
        };
        let width = octets.len().min(255) as u8;
        for number in 0..numbers_in(form) {
            for base in [16, 8, 10] {
                let offset = OffsetNumber { number, base };
                if !goes_on(
                    form,
                    &own[first.front..],
                    &below[next.front..],
                    offset,
                    octets.len(),
                ) {
                    continue;
                }
                self.whole.clear();
                append(&mut self.whole, octets);
                if let Some(offset) = self.gather(form, lines, at.line, offset) {
                    form.rows = LineRows::Offset {
                        number,
                        base,
                        width,
                        begins_at_zero: offset == 0,
                    };
                    add_cuts(table, held, form, at.with_cuts(), &self.whole, true);
                }
            }
        }
        form.rows = LineRows::One;
    }

    /// Adds the form of a dump of which no message has a second row yet: a long number that is 0 is the offset of its first row.
    fn add_first_row(
        &mut self,
        table: &mut GuessTable,
        held: &mut Octets,
        form: &mut LineForm,
        at: GuessPlace,
        text: &[u8],
        octets: &[u8],
    ) {
        let Some(found) = find(form, text, &mut self.row) else {
            return;
        };
        for number in 0..numbers_in(form) {
            let digits = digits_of(form, usize::from(number), &text[found.front..]);
            if digits.is_some_and(is_first_offset) {
                form.rows = LineRows::Offset {
                    number,
                    base: 16,
                    width: NARROW,
                    begins_at_zero: true,
                };
                add_cuts(table, held, form, at, octets, false);
            }
        }
        form.rows = LineRows::One;
    }

    /// Adds forms whose messages go on in the lines below.
    pub(crate) fn add(
        &mut self,
        table: &mut GuessTable,
        held: &mut Octets,
        form: &mut LineForm,
        at: GuessPlace,
        lines: &Window,
        octets: &[u8],
    )
        requires { 0 < length octets.now }
    {
        self.add_offsets(table, held, form, at, lines, octets);
        let text = lines.line(usize::from(at.line));
        self.add_first_row(table, held, form, at, text, octets);
        let width = octets.len().min(255) as u8;
        let is_wire = octets[0] == FLAG && (octets.len() == 1 || octets[octets.len() - 1] != FLAG);
        if is_wire || is_begun(octets) && is_type(octets[0]) {
            form.is_framed = is_wire;
            for rows in [LineRows::Wrapped(width), LineRows::Bare, LineRows::Pieces] {
                form.rows = rows;
                self.add_read(table, form, at, lines);
            }
            form.is_framed = false;
            form.rows = LineRows::One;
        }
    }

    /// Adds a form if it reads a message from a line on.
    fn add_read(
        &mut self,
        table: &mut GuessTable,
        form: &LineForm,
        at: GuessPlace,
        lines: &Window,
    ) {
        let forms = [form.copied()];
        let first = usize::from(at.line);
        self.reading.close();
        let mut said = self.reading.read(&forms, lines.line(first));
        for line in first + 1..lines.len() {
            if said.said != Said::Part {
                break;
            }
            said = self.reading.read(&forms, lines.line(line));
            if said.is_broken {
                break;
            }
            if said.said == Said::Frame {
                table.add(form, at, message_weight(&self.reading.message, true));
            }
        }
        self.reading.close();
    }
}
