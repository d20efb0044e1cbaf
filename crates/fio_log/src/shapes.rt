//! Shapes of lines: what is left of a line if each word with a digit, and each list of such words, counts as one sign.
ghost use Rattle.std.specs.Prelude.{◌≤◌, length};

use crate::digits::{digit, is_decimal, is_letter};
use arrayvec::ArrayVec;

/// The most shapes that are kept.
const SHAPES: usize = 256;

/// This many lines above show that a shape is a neighbour's, unless half of them or more have a message.
const USUAL: u16 = 3;

/// The most lines that are counted of a shape.
const COUNTED: u16 = 1_000;

/// A shape, how many lines above have it, and how many of these a message.
#[derive(Clone, Copy, Debug, Default)]
struct Shape {
    sum: u64,
    lines: u16,
    messages: u16,
    /// How many lines that are not told yet have it, and how many of these a message.
    ahead: u16,
    messages_ahead: u16,
}

impl Shape {
    /// Counts a line.
    fn count(&mut self, has_message: bool) {
        if self.lines < COUNTED {
            self.lines += 1;
            self.messages = self.messages.saturating_add(u16::from(has_message));
        }
    }

    /// Takes that a line is told now.
    fn reach(&mut self, has_message: bool) {
        self.ahead = self.ahead.saturating_sub(1);
        self.messages_ahead = self
            .messages_ahead
            .saturating_sub(u16::from(has_message))
            .min(self.ahead);
    }

    /// Returns whether the lines are a neighbour's.
    fn is_usual(self) -> bool {
        self.lines >= USUAL && self.messages < self.lines - self.messages.min(self.lines)
    }

    /// Returns whether the lines above and those that are known below, at least this many, are a neighbour's.
    fn is_known(self, least: u16) -> bool {
        let lines = self.lines.saturating_add(self.ahead);
        let messages = self.messages.saturating_add(self.messages_ahead);
        lines >= least && messages < lines - messages.min(lines)
    }
}

/// Shapes of lines.
#[derive(Drop)]
pub(crate) struct Shapes {
    shapes: ArrayVec<Shape, SHAPES>,
}

impl Shapes {
    /// Returns no shapes.
    pub(crate) fn new() -> Shapes {
        Shapes {
            shapes: ArrayVec::new(),
        }
    }

    /// Takes all shapes out.
    pub(crate) fn clear(&mut self) {
        self.shapes.clear();
    }

    /// Takes the shapes of others in place of those that are there.
    pub(crate) fn copy(&mut self, other: &Shapes) {
        self.shapes.clear();
        let _fits = self.shapes.try_extend_from_slice(&other.shapes);
    }

    /// Returns whether enough lines have the shape of a line to show it, with those that are known below: more than `USUAL`, or so
    /// many without octets.
    pub(crate) fn are_known(&self, line: &[u8], has_octets: bool) -> bool {
        let least = USUAL + u16::from(has_octets);
        let sum = sum_of(line);
        for shape in self.shapes.as_slice() {
            if shape.sum == sum {
                return shape.is_known(least);
            }
        }
        false
    }

    /// Returns whether enough lines above have the shape of a line to show it, and counts this one.
    pub(crate) fn are_usual(&mut self, line: &[u8], has_message: bool) -> bool {
        let sum = sum_of(line);
        for shape in self.shapes.as_mut_slice() {
            if shape.sum == sum {
                shape.reach(has_message);
                let is_usual = shape.is_usual();
                shape.count(has_message);
                return is_usual;
            }
        }
        let _fits = self.shapes.try_push(Shape {
            sum,
            lines: 1,
            messages: u16::from(has_message),
            ..Shape::default()
        });
        false
    }

    /// Takes that a line is below which is not told yet.
    pub(crate) fn expect(&mut self, line: &[u8], has_message: bool) {
        let sum = sum_of(line);
        for shape in self.shapes.as_mut_slice() {
            if shape.sum == sum {
                shape.ahead = shape.ahead.saturating_add(1).min(COUNTED);
                shape.messages_ahead = shape
                    .messages_ahead
                    .saturating_add(u16::from(has_message))
                    .min(shape.ahead);
                return;
            }
        }
        let _fits = self.shapes.try_push(Shape {
            sum,
            ahead: 1,
            messages_ahead: u16::from(has_message),
            ..Shape::default()
        });
    }
}

/// Returns a sum with one more character in it.
fn mixed(sum: u64, character: u8) -> u64 {
    (sum ^ u64::from(character)).wrapping_mul(0x0000_0100_0000_01b3)
}

/// Returns where the word ends that begins at a place, and whether it counts as a number: it has a decimal digit, or has two
/// hexadecimal digits and nothing else.
fn word_at(line: &[u8], place: usize) -> (usize, bool)
    requires { place ≤ length line.now }
    ensures forward { place ≤ result.0 }
    ensures within { result.0 ≤ length line.now }
{
    let mut has_digit = false;
    let mut is_octet = true;
    'letters: for end in place..line.len() {
        if !is_letter(line[end]) {
            return (end, has_digit || is_octet && end - place == 2);
        }
        has_digit = has_digit || is_decimal(line[end]);
        is_octet = is_octet && digit(line[end]).is_some();
    }
    (line.len(), has_digit || is_octet && line.len() - place == 2)
}

/// Returns the sum of the shape of a line.
pub(crate) fn sum_of(line: &[u8]) -> u64 {
    let mut sum: u64 = 0xcbf2_9ce4_8422_2325;
    let mut next = 0;
    let mut above = 0;
    'words: for place in 0..line.len() {
        if place < next {
            continue;
        }
        let character = line[place];
        let (end, is_number) = word_at(line, place);
        if end == place {
            if above != b'#' || !matches!(character, b' ' | b',' | b':' | b'-') {
                sum = mixed(sum, character);
                above = character;
            }
        } else if is_number {
            if above != b'#' {
                sum = mixed(sum, b'#');
            }
            above = b'#';
            next = end;
        } else {
            for letter in &line[place..end] {
                sum = mixed(sum, *letter);
            }
            above = b'a';
            next = end;
        }
    }
    sum
}
