//! Lines of a log, from octets as they come.
ghost use Rattle.std.specs.Prelude.{◌≡◌, ℕ, ◌+◌, ◌≤◌, ◌<◌, [], true, length, slice_index, take};
ghost use Rattle.fio_log.specs.Blanks.{is_blank_line};
ghost use Rattle.fio_log.specs.Heard.{has_nul};
ghost use Rattle.fio_log.specs.Lines.{ended, finished, goes_on_held, held_first, held_next, held_octets, held_text, is_plain, is_whole, lines_after, no_line, no_text, only, open_line, pushed, with_all, with_character, with_line_octet, with_making, with_octet_made};

use crate::blanks::are_blanks;
use arrayvec::ArrayVec;
use std::marker::Model;

/// The most octets of a line that are kept. A longer line is skipped.
pub const LINE_OCTETS: usize = 65_536;

/// Octets that may be the beginning of something that is taken out.
#[derive(Clone, Copy, Debug, PartialEq, Eq)]
enum Held {
    /// Nothing is held.
    Nothing,
    /// A NUL.
    Nul,
    /// An escape.
    Escape,
    /// A colour sequence.
    Colour,
    /// The first octet of a byte order mark.
    Mark,
    /// The first two octets of a byte order mark.
    SecondMark,
}

impl Held {
    /// Returns the octets, if they stay in the line.
    fn octets(self) -> &'static [u8]
        ensures { result.now ≡ held_octets self }
    {
        match self {
            Held::Nothing | Held::Nul | Held::Colour => b"",
            Held::Escape => b"\x1b",
            Held::Mark => b"\xef",
            Held::SecondMark => b"\xef\xbb",
        }
    }

    /// Returns what the line gets in place of the octets, if another octet continues them.
    fn text(self) -> &'static [u8]
        ensures { result.now ≡ held_text self }
    {
        match self {
            Held::Nul => b"\0",
            _ => b"",
        }
    }

    /// Returns whether an octet continues the octets that are held.
    fn goes_on(self, octet: u8) -> bool
        ensures { result ≡ goes_on_held self octet }
    {
        match self {
            Held::Nothing => false,
            Held::Nul => octet == 0,
            Held::Escape => octet == b'[',
            Held::Colour => true,
            Held::Mark => octet == 0xbb,
            Held::SecondMark => octet == 0xbf,
        }
    }

    /// Returns what is held after an octet that continues the octets.
    fn next(self, octet: u8) -> Held
        ensures { result ≡ held_next self octet }
    {
        match self {
            Held::Nul => Held::Nul,
            Held::Escape => Held::Colour,
            Held::Colour if !octet.is_ascii_alphabetic() => Held::Colour,
            Held::Mark => Held::SecondMark,
            _ => Held::Nothing,
        }
    }

    /// Returns what an octet by itself begins.
    fn first(octet: u8) -> Held
        ensures { result ≡ held_first octet }
    {
        match octet {
            0 => Held::Nul,
            0x1b => Held::Escape,
            0xef => Held::Mark,
            _ => Held::Nothing,
        }
    }
}

/// How a line ends.
#[derive(Clone, Copy, Debug, PartialEq, Eq)]
enum LineEnding {
    /// The line has not ended.
    Open,
    /// The line ends with LF, or with the text.
    Feed,
    /// The line ends with CR.
    Return,
}

/// The octets of a line.
#[derive(Drop)]
struct LineText {
    octets: ArrayVec<u8, LINE_OCTETS>,
    is_long: bool,
}

impl Model for LineText {
    ghost use Rattle.fio_log.specs.Lines.{Text};

    ghost Value = { Text };

    ghost view = { λ t. record { octets = t.octets.items; is_long = t.is_long } };
}

impl LineText {
    /// Takes all octets out.
    fn clear(&mut self)
        ensures { self.new ≡ no_text }
    {
        self.octets.clear();
        self.is_long = false;
    }

    /// Appends an octet, if the line has room for it.
    fn push(&mut self, octet: u8)
        ensures { self.new ≡ pushed self.old octet }
    {
        if self.octets.len() < LINE_OCTETS {
            self.octets.push(octet);
        } else {
            self.is_long = true;
        }
    }

    /// Appends octets until the line is full.
    fn push_all(&mut self, octets: &[u8])
        ensures { self.new ≡ with_all self.old octets.now }
    {
        let room = self.octets.remaining_capacity();
        if octets.len() <= room {
            let _fits = self.octets.try_extend_from_slice(octets);
        } else {
            let _fits = self.octets.try_extend_from_slice(&octets[..room]);
            self.is_long = true;
        }
    }
}

/// Makes lines of octets. A line ends at LF, CR LF or CR. Byte order marks, a NUL by itself and colour sequences are taken out.
/// Of several NULs in a row all but the first stay: there is a gap in the line.
#[derive(Drop)]
pub struct LineMaker {
    text: LineText,
    held: Held,
    ending: LineEnding,
}

impl Model for LineMaker {
    ghost use Rattle.fio_log.specs.Lines.{Making};

    ghost Value = { Making };

    ghost view = { λ m. record { text = m.text; held = m.held; ending = m.ending } };
}

impl LineMaker {
    /// Returns a maker whose line has not begun.
    pub fn new() -> LineMaker
        ensures { result ≡ no_line }
    {
        LineMaker {
            text: LineText {
                octets: ArrayVec::new(),
                is_long: false,
            },
            held: Held::Nothing,
            ending: LineEnding::Open,
        }
    }

    /// Begins with no line.
    pub(crate) fn restart(&mut self)
        ensures { self.new ≡ no_line }
    {
        self.text.clear();
        self.held = Held::Nothing;
        self.ending = LineEnding::Open;
    }

    /// Ends the line.
    fn end(&mut self, ending: LineEnding)
        ensures { self.new ≡ ended self.old ending }
    {
        self.text.push_all(self.held.octets());
        self.held = Held::Nothing;
        self.ending = ending;
    }

    /// Reads one octet more that does not end the line.
    fn add_character(&mut self, octet: u8)
        requires { self.old.ending ≡ LineEnding.Open }
        ensures { self.new ≡ with_character self.old octet }
    {
        if self.held.goes_on(octet) {
            self.text.push_all(self.held.text());
            self.held = self.held.next(octet);
        } else {
            self.text.push_all(self.held.octets());
            self.held = Held::first(octet);
            if !matches!(octet, 0 | 0x1b | 0xef) {
                self.text.push(octet);
            }
        }
    }

    /// Reads one octet more of a line that is not whole.
    fn add_to_line(&mut self, octet: u8)
        requires { self.old.ending ≡ LineEnding.Open }
        ensures { self.new ≡ with_line_octet self.old octet }
    {
        match octet {
            b'\n' => self.end(LineEnding::Feed),
            b'\r' => self.end(LineEnding::Return),
            _ => self.add_character(octet),
        }
    }

    /// Reads one octet more. After a whole line it begins the next one.
    pub fn add(&mut self, octet: u8)
        ensures { self.new ≡ with_octet_made self.old octet }
    {
        let ending = self.ending;
        if ending != LineEnding::Open {
            self.restart();
        }
        if ending != LineEnding::Return || octet != b'\n' {
            self.add_to_line(octet);
        }
    }

    /// Returns whether the line has not ended and nothing is held.
    fn is_clear(&self) -> bool
        ensures { result ≡ true → self.now ≡ open_line self.now.text }
    {
        matches!((self.held, self.ending), (Held::Nothing, LineEnding::Open))
    }

    /// Reads the printable octets that a text begins with, or one octet that must be looked at, and returns how many it has
    /// read.
    fn add_some(&mut self, octets: &[u8]) -> usize
        requires { 0 < length octets.now }
        ensures forward { 0 < result }
        ensures within { result ≤ length octets.now }
        ensures lines { lines_after (only self.old) (take result octets.now) ≡ with_making [] self.new }
    {
        if !self.is_clear() || !is_plain(octets[0]) {
            self.add(octets[0]);
            return 1;
        }
        let count = plain_count(octets);
        self.text.push_all(&octets[..count]);
        count
    }

    /// Reads octets until the line is whole or there are no more, and returns how many it has read.
    pub fn take(&mut self, octets: &[u8]) -> usize
        ensures within { result ≤ length octets.now }
        ensures lines { 0 < length octets.now → lines_after (only self.old) (take result octets.now) ≡ with_making [] self.new }
        ensures whole { result < length octets.now → is_whole self.new.ending ≡ true }
        ensures forward { 0 < length octets.now → 0 < result }
    {
        let mut count = 0;
        'octets: while count < octets.len() {
            count += self.add_some(&octets[count..]);
            if self.is_whole() {
                break;
            }
        }
        count
    }

    /// Ends the last line of a text, if it is open and has octets; then it is whole. A line that is whole stays so.
    pub fn finish(&mut self)
        ensures { self.new ≡ finished self.old }
    {
        if self.ending != LineEnding::Open {
            return;
        }
        if self.text.octets.is_empty() && matches!(self.held, Held::Nothing | Held::Nul) {
            self.restart();
        } else {
            self.end(LineEnding::Feed);
        }
    }

    /// Returns whether the line is whole.
    pub fn is_whole(&self) -> bool
        ensures { result ≡ is_whole self.now.ending }
    {
        matches!(self.ending, LineEnding::Feed | LineEnding::Return)
    }

    /// Returns whether the line has more octets than are kept.
    pub fn is_long(&self) -> bool
        ensures { result ≡ self.now.text.is_long }
    {
        self.text.is_long
    }

    /// Returns the octets of the line.
    pub fn octets(&self) -> &[u8]
        ensures { result.now ≡ self.now.text.octets }
    {
        self.text.octets.as_slice()
    }
}

/// Returns how many printable octets a text begins with.
fn plain_count(text: &[u8]) -> usize
    ensures within { result ≤ length text.now }
    ensures some { 0 < length text.now → is_plain (slice_index text.now 0) ≡ true → 0 < result }
    ensures plain { (place : ℕ) → place < result → is_plain (slice_index text.now place) ≡ true }
{
    let mut count = 0;
    'eights: while text.len() - count >= 8 && are_eight_plain(text, count) {
        count += 8;
    }
    'octets: while count < text.len() && is_plain(text[count]) {
        count += 1;
    }
    count
}

/// Returns whether the eight octets from a place of a text on are printable. It looks at all of them without a branch.
fn are_eight_plain(text: &[u8], place: usize) -> bool
    requires { place + 8 ≤ length text.now }
    ensures { result ≡ true → (at : ℕ) → place ≤ at → at < place + 8 → is_plain (slice_index text.now at) ≡ true }
{
    others_of_four(text, place) + others_of_four(text, place + 4) == 0
}

/// Returns how many of the four octets from a place of a text on are not printable.
fn others_of_four(text: &[u8], place: usize) -> u32
    requires { place + 4 ≤ length text.now }
    ensures count { result ≤ 4 }
    ensures none { result ≡ 0 → (at : ℕ) → place ≤ at → at < place + 4 → is_plain (slice_index text.now at) ≡ true }
{
    others_of_two(text, place) + others_of_two(text, place + 2)
}

/// Returns how many of the two octets from a place of a text on are not printable.
fn others_of_two(text: &[u8], place: usize) -> u32
    requires { place + 2 ≤ length text.now }
    ensures count { result ≤ 2 }
    ensures none { result ≡ 0 → (at : ℕ) → place ≤ at → at < place + 2 → is_plain (slice_index text.now at) ≡ true }
{
    u32::from(!is_plain(text[place])) + u32::from(!is_plain(text[place + 1]))
}

/// Returns whether an octet is printable: it does not end a line, and begins nothing that may be taken out.
fn is_plain(octet: u8) -> bool
    ensures { result ≡ is_plain octet }
{
    matches!(octet, b' '..=b'~')
}

/// A line that is read.
#[derive(Clone, Copy)]
pub(crate) struct NumberedLine<'a> {
    /// The line's number.
    pub number: u64,
    /// The line's characters.
    pub text: &'a [u8],
    /// Whether the line has more characters than are kept.
    pub is_long: bool,
    /// Whether the log ends with it.
    pub is_last: bool,
}

impl NumberedLine<'_> {
    /// Returns whether a part of the line is gone: there are NULs in its place.
    pub(crate) fn has_gap(self) -> bool
        ensures { result ≡ has_nul self.entry.text.now }
    {
        self.text.contains(&0)
    }

    /// Returns whether the line has nothing but blanks.
    pub(crate) fn is_blank(self) -> bool
        ensures { result ≡ is_blank_line (record { octets = self.entry.text.now; is_long = self.entry.is_long }) }
    {
        !self.is_long && are_blanks(self.text)
    }
}
