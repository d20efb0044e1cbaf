//! What a line says of the octets below it: the time, and who sent them.
use crate::clock::{Moment, time_in};
use crate::digits::is_decimal;
use crate::directions::Direction;
use crate::heads::{indent_of, is_border};
use crate::shapes::sum_of;
use crate::sides::{is_of_side, said_at};
use arrayvec::ArrayVec;
use fio_form::{LineForm, LineRows, Piece};

/// The number of dumps that are remembered.
const DUMPS: usize = 8;

/// How many of them must have a heading of one shape.
const HEADED: usize = 2;

/// The time of octets, and who sent them.
#[derive(Clone, Copy, Debug)]
pub(crate) struct Heading {
    /// The time.
    pub time: Option<Moment>,
    /// Who sent them.
    pub said: Option<Direction>,
}

impl Heading {
    /// A heading that says nothing.
    pub(crate) fn new() -> Heading {
        Heading {
            time: None,
            said: None,
        }
    }

    /// Returns what a line says of octets at a place. A time after it says nothing of them.
    pub(crate) fn of(line: &[u8], place: usize) -> Heading {
        Heading {
            time: time_before(line, place),
            said: said_at(line, place),
        }
    }

    /// Returns what is said, or else what another one says.
    pub(crate) fn or(self, other: Heading) -> Heading {
        Heading {
            time: self.time.or(other.time),
            said: self.said.or(other.said),
        }
    }
}

/// Returns the first time of a line, if it ends before a place. Each time has digits.
fn time_before(line: &[u8], place: usize) -> Option<Moment> {
    if !has_digits(line.get(..place)?) {
        return None;
    }
    match time_in(line) {
        Some(time) if time.end <= place => Some(time.moment),
        _ => None,
    }
}

/// Returns whether a text has a digit.
fn has_digits(text: &[u8]) -> bool {
    for character in text {
        if is_decimal(*character) {
            return true;
        }
    }
    false
}

/// The line directly above, if no form has it and it has no octets, and the rows above.
#[derive(Drop)]
pub(crate) struct LineAbove {
    /// The latest time that it says, or a line between it and the last row; and who sent octets, as it says.
    heading: Heading,
    /// Whether the line directly above is a row, and what the heading of these rows says.
    is_row: bool,
    rows: Heading,
    /// The sum of its shape.
    shape: u64,
    /// Whether it begins with a word for a direction, or has no others.
    is_alone: bool,
    /// If its octets are in the lines below it: one more than the blanks that it begins with. Else 0.
    inner: usize,
    /// The shapes of the lines above the last dumps, 0 for none.
    shapes: ArrayVec<u64, DUMPS>,
}

impl LineAbove {
    /// Returns none.
    pub(crate) fn new() -> LineAbove {
        LineAbove {
            heading: Heading::new(),
            is_row: false,
            rows: Heading::new(),
            shape: 0,
            is_alone: false,
            inner: 0,
            shapes: ArrayVec::new(),
        }
    }

    /// Begins with another log.
    pub(crate) fn clear(&mut self) {
        self.pass();
        self.shapes.clear();
    }

    /// Takes a line without octets that no form has; `is_plain`: its text says nothing of the log. The border of a box may be between
    /// octets and the line that says something of them.
    pub(crate) fn take(&mut self, line: &[u8], is_plain: bool) {
        if is_plain && is_border(line) {
            return;
        }
        let own = Heading::of(line, line.len());
        self.heading = Heading {
            time: own.time.or(self.heading.time),
            ..own
        };
        self.is_row = false;
        self.shape = if is_plain { sum_of(line) } else { 0 };
        self.is_alone = is_plain && self.heading.said.is_some() && is_of_side(line);
        self.inner = 0;
    }

    /// Takes a line of which the octets are in the lines below it.
    pub(crate) fn take_opening(&mut self, line: &[u8]) {
        self.take(line, true);
        self.inner = indent_of(line).saturating_add(1);
    }

    /// Returns whether a line has octets, but not those of the line above it, which are in lines that begin further to the right.
    pub(crate) fn lacks_octets(&self, line: &[u8]) -> bool {
        indent_of(line) < self.inner
    }

    /// Returns the sum of the shape of the line directly above, 0 if it says nothing.
    pub(crate) fn shape(&self) -> u64 {
        self.shape
    }

    /// Returns whether the octets of the line directly above are below it.
    pub(crate) fn is_opening(&self) -> bool {
        self.inner > 0
    }

    /// Takes a blank line, above which a time may be that of octets below.
    pub(crate) fn pass_blank(&mut self) {
        let time = self.heading.time;
        self.pass();
        self.heading.time = time;
    }

    /// Takes a line that a form has.
    pub(crate) fn pass_row(&mut self) {
        self.pass();
        self.is_row = true;
    }

    /// Forgets the line above.
    pub(crate) fn pass(&mut self) {
        self.heading = Heading::new();
        self.is_row = false;
        self.shape = 0;
        self.is_alone = false;
        self.inner = 0;
    }

    /// Returns whether the dumps above have such a line directly above them.
    pub(crate) fn is_heading(&self) -> bool {
        let mut headed = 0;
        for shape in self.shapes.as_slice() {
            if self.shape != 0 && *shape == self.shape && headed < HEADED {
                headed += 1;
            }
        }
        headed >= HEADED
    }

    /// Returns what the line says of octets of a form below it: the time; who sent them only if it is the heading of a dump. A row of a
    /// stream below another one has the heading of that, if there are others of its shape: the time above all rows is that of none.
    pub(crate) fn of(&mut self, form: &LineForm) -> Heading {
        if !is_dump(form) {
            return Heading {
                said: None,
                ..self.heading
            };
        }
        if self.is_row && is_stream(form) {
            return self.rows;
        }
        let is_heading = self.is_heading();
        let said = if self.is_alone || is_heading {
            self.heading.said
        } else {
            None
        };
        self.rows = if is_heading {
            self.heading
        } else {
            Heading { time: None, said }
        };
        if self.shapes.is_full() {
            self.shapes.copy_within(1.., 0);
            self.shapes.truncate(DUMPS - 1);
        }
        let _fits = self.shapes.try_push(self.shape);
        Heading {
            said,
            ..self.heading
        }
    }
}

/// Returns whether the octets of all lines of a form are one stream.
fn is_stream(form: &LineForm) -> bool {
    matches!(form.rows, LineRows::Stream | LineRows::Flags)
}

/// Returns whether the lines of a form are rows of a dump: their messages go on below, or they say nothing before the octets.
fn is_dump(form: &LineForm) -> bool {
    let mut has_word = false;
    for piece in form.front() {
        if let Piece::Character(character) = piece
            && character.is_ascii_alphabetic()
        {
            has_word = true;
        }
    }
    form.rows != LineRows::One || !has_word
}
