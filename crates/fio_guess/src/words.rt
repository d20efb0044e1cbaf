//! Words of a line, and the characters that octets may begin with.
ghost use Rattle.std.specs.Prelude.{◌≡◌, ◌≤◌, ◌<◌, length};

use fio_form::{Piece, is_decimal, is_hex};

/// Returns whether a character is part of a word.
pub(crate) fn is_word(character: u8) -> bool {
    matches!(character, b'0'..=b'9' | b'A'..=b'Z' | b'a'..=b'z' | b'_')
}

/// Returns where the characters of a word end that begin at a place.
pub fn word_end(line: &[u8], place: usize) -> usize
    requires { place ≤ length line.now }
    ensures after { place ≤ result }
    ensures within { result ≤ length line.now }
{
    for at in place..line.len() {
        if !is_word(line[at]) {
            return at;
        }
    }
    line.len()
}

/// Returns where those characters that may be part of a piece end, from a place on, at most at `end`.
pub(crate) fn run_end(line: &[u8], place: usize, end: usize, piece: Piece) -> usize
    requires order { place ≤ end }
    requires within { end ≤ length line.now }
    ensures after { place ≤ result }
    ensures within { result ≤ end }
{
    for at in place..end {
        if !piece.is_part(line[at]) {
            return at;
        }
    }
    end
}

/// Returns whether characters are all decimal digits.
pub(crate) fn are_decimal(text: &[u8]) -> bool {
    for character in text {
        if !is_decimal(*character) {
            return false;
        }
    }
    true
}

/// Returns whether characters are all binary digits.
pub(crate) fn are_binary(text: &[u8]) -> bool {
    for character in text {
        if !matches!(*character, b'0' | b'1') {
            return false;
        }
    }
    true
}

/// Returns whether a word begins at a place.
pub(crate) fn begins_word(text: &[u8], place: usize) -> bool
    requires { place < length text.now }
{
    !matches!(text[place], b' ' | b'\t')
        && (place == 0
            || matches!(
                text[place - 1],
                b' ' | b'\t' | b':' | b'=' | b',' | b';' | b'"' | b'\'' | b'('
            ))
}

/// Returns whether a text ends in digits that are no part of the octets after it: `0b`, or the flags of a frame of CAN FD, as in
/// `2A1##1`.
fn is_prefix(text: &[u8]) -> bool {
    match text {
        [.., b'0', b'b'] => true,
        [.., b'#', b'#', flags] => is_hex(*flags),
        _ => false,
    }
}

/// Returns whether a place may be the first character of an octet.
pub fn may_begin(line: &[u8], place: usize) -> bool
    requires { place < length line.now }
{
    let before = if place > 0 { line[place - 1] } else { b' ' };
    let next = if place + 1 < line.len() {
        line[place + 1]
    } else {
        0
    };
    match line[place] {
        character if is_hex(character) => !is_hex(before) || is_prefix(&line[..place]),
        b'-' => is_decimal(next) && !is_word(before),
        b' ' => {
            let after = if place + 2 < line.len() {
                line[place + 2]
            } else {
                0
            };
            matches!(before, b' ' | b'[' | b'(' | b',')
                && (is_decimal(next) || next == b' ' && is_decimal(after))
        }
        _ => false,
    }
}
