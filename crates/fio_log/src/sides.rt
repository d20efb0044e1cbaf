//! Who sent the octets of a line, as the line says.
ghost use Rattle.std.specs.Prelude.{◌<◌, ◌≤◌, length};

use crate::directions::{Direction, direction_of_word};

/// Returns the direction that a line says of the octets at a place: by the sign of a transcript at its beginning, else by the
/// last word before them that says one. A name is that of the sender, or of the receiver after an arrow or `to`.
pub(crate) fn said_at(line: &[u8], place: usize) -> Option<Direction> {
    match *line {
        [b'>', b' ', ..] => Some(Direction::Command),
        [b'<', b' ', ..] => Some(Direction::Answer),
        _ => last_said(line.get(..place)?),
    }
}

/// A kind of word, by its characters.
#[derive(Clone, Copy, PartialEq, Eq)]
enum WordKind {
    /// Letters.
    Letters,
    /// The signs of an arrow.
    Signs,
    /// Octets outside ASCII.
    Wide,
    /// Characters that belong to no word.
    Other,
}

/// Returns the kind of word that a character belongs to.
fn kind_of(character: u8) -> WordKind {
    match character {
        b'A'..=b'Z' | b'a'..=b'z' => WordKind::Letters,
        b'<' | b'>' | b'=' | b'-' => WordKind::Signs,
        128..=255 => WordKind::Wide,
        _ => WordKind::Other,
    }
}

/// What the words of a text say, as far as they were read.
#[derive(Clone, Copy)]
struct SaidWords {
    /// The direction of the last word that says one.
    said: Option<Direction>,
    /// Whether that word is a name.
    is_name: bool,
    /// Whether a name that comes next is that of the receiver.
    is_to: bool,
}

impl SaidWords {
    /// Reads one word more.
    fn add(&mut self, kind: WordKind, word: &[u8]) {
        let said = said_by(kind, word);
        let is_name = kind == WordKind::Letters && is_name(word);
        let other = if is_name && self.is_to {
            said.map(Direction::other)
        } else {
            said
        };
        self.is_to = match kind {
            WordKind::Letters => word.eq_ignore_ascii_case(b"to"),
            _ => said == Some(Direction::Command) && (word.len() > 1 || self.is_name),
        };
        self.is_name = is_name;
        self.said = other.or(self.said);
    }
}

/// Returns whether a word is the name of an end.
fn is_name(word: &[u8]) -> bool {
    word.eq_ignore_ascii_case(b"cpu") || word.eq_ignore_ascii_case(b"fio")
}

/// Returns the direction of the last word of a text that says one.
fn last_said(text: &[u8]) -> Option<Direction> {
    let mut words = SaidWords {
        said: None,
        is_name: false,
        is_to: false,
    };
    let mut start = 0;
    'words: while start < text.len() {
        let kind = kind_of(text[start]);
        let end = word_end(text, start, kind);
        if kind != WordKind::Other {
            words.add(kind, &text[start..end]);
        }
        start = end;
    }
    words.said
}

/// Returns whether a text begins with a word for a direction, or has no other words.
pub(crate) fn is_of_side(text: &[u8]) -> bool {
    let mut start = 0;
    'words: while start < text.len() {
        let kind = kind_of(text[start]);
        let end = word_end(text, start, kind);
        if start == 0 && said_by(kind, &text[..end]).is_some() {
            return true;
        }
        if kind == WordKind::Letters && direction_of_word(&text[start..end]).is_none() {
            return false;
        }
        start = end;
    }
    true
}

/// Returns where the word that begins at a place of a text ends. Each arrow of one character is a word.
fn word_end(text: &[u8], start: usize, kind: WordKind) -> usize
    requires { start < length text.now }
    ensures forward { start < result }
    ensures within { result ≤ length text.now }
{
    let mut end = start + 1;
    'characters: while end < text.len() && kind_of(text[end]) == kind {
        if kind == WordKind::Wide && matches!(&text[start..end], [.., 0xe2, 0x86, 0x90 | 0x92]) {
            return end;
        }
        end += 1;
    }
    end
}

/// Returns the direction that a word says. The arrows are U+2192 and U+2190.
fn said_by(kind: WordKind, word: &[u8]) -> Option<Direction> {
    match (kind, word) {
        (WordKind::Letters, _) => direction_of_word(word),
        (WordKind::Wide, [.., 0xe2, 0x86, 0x92]) => Some(Direction::Command),
        (WordKind::Wide, [.., 0xe2, 0x86, 0x90]) => Some(Direction::Answer),
        (WordKind::Signs, [.., b'>']) if !word.contains(&b'<') => Some(Direction::Command),
        (WordKind::Signs, [b'<', ..]) if !word.contains(&b'>') => Some(Direction::Answer),
        _ => None,
    }
}
