//! Reads the lines of a window by one form.
use crate::evidence::{Evidence, are_pieces};
use crate::known::Known;
use crate::seconds::next_in;
use crate::tally::{LineTold, Tally};
use crate::written::Written;
use arrayvec::ArrayVec;
use fio_form::{LineForm, LineRows, Octets, Size, find, is_begun, is_message, size_of};
use fio_guess::Window;
use fio_rows::{Reading, Said};
use std::slice;

/// The most messages that are counted of a line after its first one.
const SECONDS: usize = 8;

/// What is said at a line: of octets that began above, and of those that begin or go on there.
#[derive(Clone, Copy)]
pub(crate) struct Observed {
    /// What ended with the line above.
    pub(crate) above: LineTold,
    /// The line in which that began.
    pub(crate) first_above: usize,
    /// What ends in this line.
    pub(crate) here: LineTold,
    /// The line in which that began.
    pub(crate) first: usize,
    /// Where its octets end in this line.
    pub(crate) end: usize,
    /// How the octets are written of what ended above, and of this.
    written_above: Written,
    written: Written,
    /// Whether what ended above, and in this line, needs its rows: one of those below its first one begins no message.
    needs_rows_above: bool,
    needs_rows: bool,
}

/// Returns whether the octets of a form in a line are a message or begin one.
fn begins_message(form: &LineForm, line: &[u8]) -> bool {
    let mut octets: Octets = ArrayVec::new();
    find(form, line, &mut octets).is_some() && (is_message(&octets) || is_begun(&octets))
}

/// Returns whether a message in one row may be what is left of another one: it is one octet of a type of any length.
fn is_left_over(form: &LineForm, message: &[u8]) -> bool {
    form.rows == LineRows::One && message.len() == 1 && size_of(message) == Size::Any
}

/// Reads the lines of a window by one form.
#[derive(Drop)]
pub(crate) struct Weighing {
    reading: Reading,
    first: usize,
    /// Whether one of the rows below that line begins no message.
    needs_rows: bool,
    /// How the octets from there on are written.
    written: Written,
    tally: Tally,
}

impl Weighing {
    /// Returns one that has read no line.
    pub(crate) fn new() -> Weighing {
        Weighing {
            reading: Reading::new(),
            first: 0,
            needs_rows: false,
            written: Written::default(),
            tally: Tally::new(),
        }
    }

    /// Begins above the first line.
    pub(crate) fn begin(&mut self) {
        self.reading.close();
        self.first = 0;
    }

    /// Returns what octets are that are no message.
    fn damage(&self, form: &LineForm) -> LineTold {
        let octets = self.reading.octets.as_slice();
        let rest = &octets[usize::from(form.before).min(octets.len())..];
        let is_lacking = match rest {
            [first, ..] => is_begun(rest) && size_of(&[*first]) != Size::None,
            [] => false,
        };
        LineTold::Damage { is_lacking }
    }

    /// Reads a line. One that another form has ends an open message.
    pub(crate) fn hear(
        &mut self,
        form: &LineForm,
        at: usize,
        line: &[u8],
        is_taken: bool,
    ) -> Observed {
        let mut heard = Observed {
            above: LineTold::Nothing,
            first_above: self.first,
            here: LineTold::Nothing,
            first: at,
            end: line.len(),
            written_above: self.written,
            written: self.written,
            needs_rows_above: self.needs_rows,
            needs_rows: false,
        };
        if is_taken {
            if self.reading.is_open() {
                heard.above = self.damage(form);
            }
            self.reading.close();
            return heard;
        }
        let was_open = self.reading.is_open();
        let said = self.reading.read(slice::from_ref(form), line);
        if said.is_ended {
            heard.above = LineTold::Message;
        } else if said.is_broken {
            heard.above = LineTold::Damage { is_lacking: true };
        }
        if !was_open || said.is_broken || said.is_ended || said.said == Said::Idle {
            self.first = at;
        }
        if !said.goes_on {
            self.written = Written::default();
            self.needs_rows = false;
        } else if are_pieces(form.rows) && !begins_message(form, line) {
            self.needs_rows = true;
        }
        heard.needs_rows = self.needs_rows;
        if said.said != Said::Other {
            self.written.add(&line[said.found.start..said.found.end]);
        }
        heard.written = self.written;
        heard.first = self.first;
        heard.end = said.found.end;
        heard.here = match said.said {
            Said::Frame if is_left_over(form, &self.reading.message) => LineTold::Damage {
                is_lacking: true,
            },
            Said::Frame => LineTold::Message,
            Said::Damaged => self.damage(form),
            _ => LineTold::Nothing,
        };
        heard
    }

    /// Ends the window. Returns whether a message of any length ended with its last line.
    fn end(&mut self) -> LineTold {
        if self.reading.end() {
            LineTold::Message
        } else {
            LineTold::Nothing
        }
    }

    /// Returns how many octets the message has that a line is by a form; 0 if it is none.
    pub(crate) fn octets_in(&mut self, form: &LineForm, line: &[u8]) -> usize {
        self.begin();
        if self.hear(form, 0, line, false).here == LineTold::Message
            || self.end() == LineTold::Message
        {
            self.reading.message.len()
        } else {
            0
        }
    }

    /// Returns what the lines that no other form has say for a form.
    pub(crate) fn weigh(&mut self, form: &LineForm, lines: &Window, known: &Known) -> Evidence {
        self.tally.clear();
        self.begin();
        for at in 0..lines.len() {
            let heard = self.hear(form, at, lines.line(at), known.is_taken(at));
            self.tally
                .tell(heard.above, heard.first_above, &self.reading.ended, known);
            self.tally
                .tell(heard.here, heard.first, &self.reading.message, known);
            self.tally
                .tell_written(heard.above, &self.reading.ended, heard.written_above);
            self.tally
                .tell_written(heard.here, &self.reading.message, heard.written);
            self.tally.tell_rows(heard.above, heard.needs_rows_above);
            self.tally.tell_rows(heard.here, heard.needs_rows);
            if heard.here == LineTold::Message {
                self.weigh_seconds(form, at, lines.line(at), heard.end, known);
            }
        }
        let last = self.end();
        self.tally
            .tell(last, self.first, &self.reading.message, known);
        self.tally
            .tell_written(last, &self.reading.message, self.written);
        self.tally.evidence()
    }

    /// Returns how many messages of other forms have a type of those of the form that was weighed.
    pub(crate) fn others(&self, known: &Known) -> u32 {
        self.tally.others(known)
    }

    /// Counts the messages of a line after its first one.
    fn weigh_seconds(
        &mut self,
        form: &LineForm,
        at: usize,
        line: &[u8],
        end: usize,
        known: &Known,
    ) {
        let mut octets: Octets = ArrayVec::new();
        let mut held: Octets = ArrayVec::new();
        let mut from = end;
        for _ in 0..SECONDS {
            let Some(next) = next_in(form, line, from, &mut octets, &mut held) else {
                return;
            };
            self.tally.tell(LineTold::Message, at, &octets, known);
            from = next;
        }
    }

    /// Keeps the last one of the messages of a line, of which the first one was kept.
    fn take_seconds(&self, form: &LineForm, at: usize, line: &[u8], end: usize, known: &mut Known) {
        let mut octets: Octets = ArrayVec::new();
        let mut held: Octets = ArrayVec::new();
        let mut from = end;
        for _ in 0..SECONDS {
            let Some(next) = next_in(form, line, from, &mut octets, &mut held) else {
                return;
            };
            known.mark(at, &octets);
            from = next;
        }
    }

    /// Takes the lines of a form. The messages of one that repeats others are not kept.
    pub(crate) fn take(&mut self, form: &LineForm, lines: &Window, known: &mut Known) {
        self.begin();
        for at in 0..lines.len() {
            let heard = self.hear(form, at, lines.line(at), known.is_taken(at));
            if heard.above != LineTold::Nothing {
                known.take(heard.first_above, at);
            }
            if heard.above == LineTold::Message && !form.is_echo {
                known.mark(heard.first_above, &self.reading.ended);
            }
            if heard.here != LineTold::Nothing {
                known.take(heard.first, at.saturating_add(1));
            }
            if heard.here == LineTold::Message && !form.is_echo {
                known.mark(heard.first, &self.reading.message);
                self.take_seconds(form, at, lines.line(at), heard.end, known);
            }
        }
        if self.end() == LineTold::Message {
            known.take(self.first, lines.len());
            if !form.is_echo {
                known.mark(self.first, &self.reading.message);
            }
        }
    }
}
