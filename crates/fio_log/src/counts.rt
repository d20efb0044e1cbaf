//! What is counted of the lines of each form, and how it looks.
ghost use Rattle.std.specs.Prelude.{◌≡◌, false, length};

use crate::cut::is_number;
use crate::ends::Ends;
use crate::shapes::Shapes;
use arrayvec::ArrayVec;
use fio_form::Found;
use fio_guess::table::FORMS;

/// The most characters that are kept of the front of a sample line.
pub const SAMPLE_CHARACTERS: usize = 120;

/// How the lines of a form look, and how many there are.
#[derive(Clone, Copy, Debug)]
pub struct ReadAs<'a> {
    /// The text before the octets of the first line that was read by it, or its end.
    pub front: &'a [u8],
    /// The number of the first line that was read by it.
    pub from: u64,
    /// How many lines it had.
    pub lines: u64,
    /// How many of these were damaged.
    pub damaged: u64,
    /// Whether its frames repeat those above them, and are not judged.
    pub is_echo: bool,
}

/// What is counted of a form.
#[derive(Default, Drop)]
pub(crate) struct Count {
    front: ArrayVec<u8, SAMPLE_CHARACTERS>,
    from: u64,
    lines: u64,
    damaged: u64,
    /// The fewest blanks with which the text after the octets of a line begins, if there is one.
    gap: usize,
    /// How many lines have it nearer to their octets than the first few of the form.
    near: u64,
    ends: Ends,
}

/// What is counted of all forms.
#[derive(Drop)]
pub(crate) struct Counts {
    all: ArrayVec<Count, FORMS>,
    /// The shapes of the lines that no form has.
    shapes: Shapes,
    /// How many lines no form has,
    others: u64,
    /// and how many of these have a shape that few of them above have.
    odd: u64,
    /// How many lines are blank.
    blank: u64,
}

/// More lines than this show what a log is like, and what is after the octets of a form.
const SHOWN: u64 = 3;

impl Count {
    /// Returns whether a text after octets is that of another line: nothing or one blank is between, less than in the lines above,
    /// and it begins with a word or a bracket.
    fn is_near(&self, tail: &[u8]) -> bool
        ensures { length tail.now ≡ 0 → result ≡ false }
    {
        let blanks = blanks_of(tail);
        self.lines > SHOWN
            && self.near < SHOWN
            && blanks < self.gap
            && blanks < 2
            && blanks < tail.len()
            && begins_text(tail[blanks])
    }

    /// Takes the text after the octets of a line.
    fn take_tail(&mut self, tail: &[u8]) {
        if self.is_near(tail) {
            self.near = self.near.saturating_add(1);
        } else if !tail.is_empty() {
            self.gap = self.gap.min(blanks_of(tail));
        }
    }
}

/// A log is regular if at most one in this many lines is odd: no form has it, nor is its shape that of lines above.
const REGULAR: u64 = 16;

/// Returns whether a text has no digits, and a word of which a letter is no digit either.
fn is_of_words(line: &[u8]) -> bool {
    let mut has_word = false;
    let mut is_word = false;
    let mut count: usize = 0;
    for character in line {
        count = count.saturating_add(1);
        match *character {
            b'A'..=b'F' | b'a'..=b'f' => {}
            b'G'..=b'Z' | b'g'..=b'z' => is_word = true,
            b'0'..=b'9' | 128..=255 => return false,
            _ => {
                count = 0;
                is_word = false;
            }
        }
        has_word = has_word || is_word && count >= WORD;
    }
    has_word
}

/// Returns whether a line is what ends a list that is open above: brackets, and what separates lists.
fn is_of_closers(line: &[u8]) -> bool {
    for character in line {
        if !matches!(*character, b' ' | b'\t' | b'}' | b']' | b')' | b',' | b';') {
            return false;
        }
    }
    true
}

/// Returns whether a character may begin a text: it is a letter, a digit or what opens a bracket, or a sign of times.
fn begins_text(character: u8) -> bool {
    matches!(character, b'0'..=b'9' | b'A'..=b'Z' | b'a'..=b'z' | b'(' | b'[' | b'{' | b'<' | b'-')
}

/// Returns a text without the signs at its beginning that fill base64 up.
fn past_fill(text: &[u8]) -> &[u8]
    ensures { length text.now ≡ 0 → length result.now ≡ 0 }
{
    'signs: for place in 0..text.len() {
        if text[place] != b'=' {
            return &text[place..];
        }
    }
    &[]
}

/// Returns how many blanks a text begins with.
fn blanks_of(text: &[u8]) -> usize {
    text.iter()
        .take_while(|character| **character == b' ')
        .count()
}

/// This many letters are a word, and no octets.
const WORD: usize = 3;

impl Counts {
    /// Returns counts of no forms.
    pub(crate) fn new() -> Counts {
        Counts {
            all: ArrayVec::new(),
            shapes: Shapes::new(),
            others: 0,
            odd: 0,
            blank: 0,
        }
    }

    /// Takes all forms out.
    pub(crate) fn clear(&mut self) {
        self.all.clear();
        self.shapes.clear();
        self.others = 0;
        self.odd = 0;
        self.blank = 0;
    }

    /// Appends the counts of one more form.
    pub(crate) fn add(&mut self) {
        let _fits = self.all.try_push(Count {
            front: ArrayVec::new(),
            from: 0,
            lines: 0,
            damaged: 0,
            gap: usize::MAX,
            near: 0,
            ends: Ends::new(),
        });
    }

    /// Takes what is counted of other lines from others.
    pub(crate) fn copy_others(&mut self, other: &Counts) {
        self.shapes.copy(&other.shapes);
        self.others = other.others;
        self.odd = other.odd;
        self.blank = other.blank;
    }

    /// Returns whether nearly all lines above are of forms, or of a shape that others above them have.
    fn is_regular(&self) -> bool {
        let lines = self.usual();
        lines > SHOWN && self.odd <= lines / REGULAR
    }

    /// Returns how many lines are of forms and not damaged, or of a shape that others above them have.
    fn usual(&self) -> u64 {
        let mut lines = self.others - self.odd.min(self.others);
        for count in self.all.as_slice() {
            lines = lines.saturating_add(count.lines - count.damaged.min(count.lines));
        }
        lines
    }

    /// Takes that a line which no form has is below.
    pub(crate) fn expect(&mut self, line: &[u8]) {
        self.shapes.expect(line, false);
    }

    /// Counts a line that no form has; returns whether it is odd, in a log that is regular: then it may be what damage left of a line of a
    /// form. A number by itself is not, nor are words or the ends of lists alone, unless it begins as the lines of a form do and does not end so, or ends as they do and
    /// does not begin so.
    pub(crate) fn has_odd(&mut self, line: &[u8]) -> bool {
        let is_known = self.shapes.are_known(line, false);
        let is_usual = self.shapes.are_usual(line, false);
        let is_regular = self.is_regular();
        self.others = self.others.saturating_add(1);
        if is_usual {
            return false;
        }
        self.odd = self.odd.saturating_add(1);
        is_regular
            && !is_known
            && !is_number(line)
            && (!is_of_words(line) && !is_of_closers(line)
                || self.all.iter().any(|count| count.ends.are_parted(line)))
    }

    /// Counts a blank line; returns whether it is the first one below many lines, in a log that is regular: it may be what is left of
    /// one.
    pub(crate) fn has_odd_blank(&mut self) -> bool {
        self.blank = self.blank.saturating_add(1);
        self.blank == 1 && self.usual() >= REGULAR && self.is_regular()
    }

    /// Returns whether the text after the octets of a line of a form is nearer to them than in the lines above.
    pub(crate) fn has_near_tail(&self, form: usize, tail: &[u8]) -> bool
        ensures { length tail.now ≡ 0 → result ≡ false }
    {
        match self.all.get(form) {
            Some(count) => count.is_near(past_fill(tail)),
            None => false,
        }
    }

    /// Returns whether a row has a part of its offset alone: the first row of the form has four zeros or more, and this one a shorter
    /// front.
    pub(crate) fn lacks_offset(&self, form: usize, front: &[u8]) -> bool {
        match self.all.get(form) {
            Some(count) => count.front.starts_with(b"0000") && front.len() < count.front.len(),
            None => false,
        }
    }

    /// Appends the counts that another one has of a form; those of no lines if it has none.
    pub(crate) fn add_from(&mut self, other: &Counts, form: usize) {
        self.add();
        let last = self.all.len();
        if form < other.all.len() && last > 0 {
            let from = &other.all[form];
            let to = &mut self.all[last - 1];
            let _fits = to.front.try_extend_from_slice(&from.front);
            to.from = from.from;
            to.lines = from.lines;
            to.damaged = from.damaged;
            to.gap = from.gap;
            to.near = from.near;
            to.ends.copy(&from.ends);
        }
    }

    /// Counts a line of a form; the first one shows how its lines look.
    pub(crate) fn count(
        &mut self,
        form: usize,
        number: u64,
        line: &[u8],
        found: Found,
        is_damaged: bool,
    ) {
        if form >= self.all.len() {
            return;
        }
        let count = &mut self.all[form];
        if count.lines == 0 && found.start <= line.len() {
            let first = found.start - found.start.min(SAMPLE_CHARACTERS);
            count.front.clear();
            let _fits = count.front.try_extend_from_slice(&line[first..found.start]);
            count.from = number;
        }
        count.lines = count.lines.saturating_add(1);
        if is_damaged {
            count.damaged = count.damaged.saturating_add(1);
        } else {
            count.ends.take(line);
            count.take_tail(past_fill(&line[found.end.min(line.len())..]));
        }
    }

    /// Returns what is counted of a form.
    pub(crate) fn get(&self, form: usize, is_echo: bool) -> Option<ReadAs<'_>> {
        if form >= self.all.len() {
            return None;
        }
        let count = &self.all[form];
        Some(ReadAs {
            front: &count.front,
            from: count.from,
            lines: count.lines,
            damaged: count.damaged,
            is_echo,
        })
    }
}
