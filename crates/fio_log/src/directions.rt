//! The direction of a message, by the words of a log before it.

/// Who sends, by the words of a log.
#[derive(Clone, Copy, Debug, PartialEq, Eq)]
pub enum Direction {
    /// The CPU.
    Command,
    /// The module.
    Answer,
}

impl Direction {
    /// Returns the direction of what the other end sends.
    pub(crate) fn other(self) -> Direction {
        match self {
            Direction::Command => Direction::Answer,
            Direction::Answer => Direction::Command,
        }
    }
}

/// The words for a direction, in small letters. The arrows are U+2192 and U+2190.
static WORDS: [(&[u8], Direction); 19] = [
    (b"tx", Direction::Command),
    (b"sent", Direction::Command),
    (b"send", Direction::Command),
    (b"out", Direction::Command),
    (b"write", Direction::Command),
    (b"wrote", Direction::Command),
    (b"cpu", Direction::Command),
    (b"outgoing", Direction::Command),
    (b">", Direction::Command),
    (b"\xe2\x86\x92", Direction::Command),
    (b"rx", Direction::Answer),
    (b"received", Direction::Answer),
    (b"recv", Direction::Answer),
    (b"in", Direction::Answer),
    (b"read", Direction::Answer),
    (b"fio", Direction::Answer),
    (b"incoming", Direction::Answer),
    (b"<", Direction::Answer),
    (b"\xe2\x86\x90", Direction::Answer),
];

/// Returns the direction of the word with an index.
fn direction_at(index: usize) -> Option<Direction> {
    let (_, direction) = WORDS.get(index)?;
    Some(*direction)
}

/// Returns the direction that a word says.
pub(crate) fn direction_of_word(word: &[u8]) -> Option<Direction> {
    direction_at(index_of(word)?)
}

/// Returns the index of a word for a direction.
fn index_of(word: &[u8]) -> Option<usize> {
    for (index, (known, _)) in WORDS.iter().enumerate() {
        if is_same(word, known) {
            return Some(index);
        }
    }
    None
}

/// Returns whether two words differ at most in capitals.
fn is_same(word: &[u8], known: &[u8]) -> bool {
    if word.len() != known.len() {
        return false;
    }
    for (one, other) in word.iter().zip(known) {
        if one.to_ascii_lowercase() != *other {
            return false;
        }
    }
    true
}
