//! The front of a place in a line: the text before it, with its numbers masked.
ghost use Rattle.std.specs.Prelude.{◌≡◌, ◌≤◌, ◌<◌, IfSome, length};

use crate::cuts::Before;
use crate::table::{ENDING, NEAR};
use crate::words::{is_word, run_end};
use arrayvec::ArrayVec;
use fio_form::{Digits, FRONT_PIECES, Piece, is_decimal, is_space_or_tab};

/// The pieces of a front.
pub(crate) type Front = ArrayVec<Piece, FRONT_PIECES>;

/// A piece of a front, and where it ends.
#[derive(Clone, Copy)]
struct Masked {
    piece: Piece,
    end: usize,
}

/// Returns whether a number of hexadecimal digits may begin at a place: a word does, or `0x` is before it.
fn begins_number(line: &[u8], place: usize) -> bool
    requires { place < length line.now }
{
    place == 0
        || !is_word(line[place - 1])
        || place > 1 && matches!(line[place - 1], b'x' | b'X') && line[place - 2] == b'0'
}

/// Returns where the decimal number ends that a place begins, if it is to be masked: it is long, or of a word that begins with a
/// digit, and no `0x`; and the octets do not begin after it.
fn decimal_end(line: &[u8], place: usize, end: usize, in_number: bool) -> Option<usize>
    requires order { place < end }
    requires within { end ≤ length line.now }
    ensures { IfSome result (λ next. (place < next) × (next ≤ end)) }
{
    if !is_decimal(line[place]) {
        return None;
    }
    let next = run_end(line, place + 1, end, Piece::Decimal);
    let behind = if next < line.len() { line[next] } else { 0 };
    let is_mark = line[place] == b'0' && next == place + 1 && matches!(behind, b'x' | b'X');
    if next < end && !is_mark && (in_number || next - place >= 3) && !is_decimal(behind) {
        Some(next)
    } else {
        None
    }
}

/// Returns the piece of a front at a place, which ends at most at `end`. `in_number`: the word there begins with a digit.
fn piece_at(line: &[u8], place: usize, end: usize, in_number: bool) -> Masked
    requires order { place < end }
    requires within { end ≤ length line.now }
    ensures after { place < result.end }
    ensures within { result.end ≤ end }
{
    if is_space_or_tab(line[place]) {
        return Masked {
            piece: Piece::Blanks,
            end: run_end(line, place + 1, end, Piece::Blanks),
        };
    }
    let hex_end = run_end(line, place, line.len(), Piece::Hexadecimal);
    if hex_end > place
        && hex_end <= end
        && !(hex_end < line.len() && is_word(line[hex_end]))
        && begins_number(line, place)
    {
        return Masked {
            piece: Piece::Hexadecimal,
            end: hex_end,
        };
    }
    match decimal_end(line, place, end, in_number) {
        Some(next) => Masked {
            piece: Piece::Decimal,
            end: next,
        },
        None => Masked {
            piece: Piece::Character(line[place]),
            end: place + 1,
        },
    }
}

/// Returns blanks with the number after them as one piece, if it is hexadecimal.
fn padded_at(line: &[u8], blanks: Masked, end: usize) -> Masked
    requires order { blanks.end < end }
    requires within { end ≤ length line.now }
    ensures after { blanks.end ≤ result.end }
    ensures within { result.end ≤ end }
{
    let next = piece_at(line, blanks.end, end, is_decimal(line[blanks.end]));
    if next.piece == Piece::Hexadecimal {
        Masked {
            piece: Piece::Padded,
            end: next.end,
        }
    } else {
        blanks
    }
}

/// Returns the piece at a place of a front of octets in a notation: a number at the right end of its column has the blanks before it,
/// and a quote before a literal is one of both.
fn column_at(
    line: &[u8],
    place: usize,
    end: usize,
    in_number: bool,
    is_after_mark: bool,
    digits: Digits,
) -> Masked
    requires order { place < end }
    requires within { end ≤ length line.now }
    ensures after { place < result.end }
    ensures within { result.end ≤ end }
{
    let masked = piece_at(line, place, end, in_number);
    match masked.piece {
        Piece::Blanks if masked.end == end && digits == Digits::Columns => Masked {
            piece: Piece::Character(b' '),
            end: place + 1,
        },
        Piece::Blanks if masked.end < end && is_after_mark => padded_at(line, masked, end),
        Piece::Hexadecimal if is_after_mark => Masked {
            piece: Piece::Padded,
            end: masked.end,
        },
        Piece::Character(b'"' | b'\'') if masked.end == end && digits == Digits::Text(0) => {
            Masked {
                piece: Piece::Quote,
                end: masked.end,
            }
        }
        _ => masked,
    }
}

/// Returns whether a piece ends where the next one, or else an octet, begins.
fn is_shut(piece: Piece, next: Option<Piece>, digits: Digits) -> bool {
    match next {
        None => !piece.is_numeric() || digits == Digits::Cells,
        Some(Piece::Character(mark)) => !piece.is_part(mark),
        Some(Piece::Blanks) => piece != Piece::Blanks,
        Some(Piece::Padded) => piece != Piece::Blanks && !piece.is_numeric(),
        Some(Piece::Quote) => true,
        Some(_) => !piece.is_numeric(),
    }
}

/// Returns whether each piece of a front ends where the next one begins.
fn are_shut(front: &[Piece], digits: Digits) -> bool {
    for at in 0..front.len() {
        let next = if at + 1 < front.len() {
            Some(front[at + 1])
        } else {
            None
        };
        if !is_shut(front[at], next, digits) {
            return false;
        }
    }
    true
}

/// Returns whether the last piece of a front is a character that is no part of a word.
fn ends_in_mark(front: &[Piece]) -> bool {
    match front.last() {
        Some(Piece::Character(mark)) => !is_word(*mark),
        _ => false,
    }
}

/// Returns in how many pieces two fronts end alike.
fn alike(one: &[Piece], other: &[Piece]) -> usize
    ensures { result ≤ length one.now }
{
    let most = one.len().min(other.len());
    for count in 0..most {
        if one[one.len() - 1 - count] != other[other.len() - 1 - count] {
            return count;
        }
    }
    most
}

/// Returns whether a front has a character that is no blank.
fn has_character(front: &[Piece]) -> bool {
    for piece in front {
        if matches!(*piece, Piece::Character(character) if character != b' ') {
            return true;
        }
    }
    false
}

/// Returns the front that octets share with a message that the line says before them: the pieces in which the texts before the two end
/// alike. `None` if these are blanks alone.
pub(crate) fn shared_front(line: &[u8], said: Before, end: usize, digits: Digits) -> Option<Front>
    requires order { (said.start ≤ said.end) × (said.end ≤ end) }
    requires within { end ≤ length line.now }
{
    let own = front_of(&line[said.end..], end - said.end, digits, true)?;
    let other = front_of(line, said.start, digits, true)?;
    let count = alike(&own, &other);
    let mut front: Front = ArrayVec::new();
    let _fits = front.try_extend_from_slice(&own[own.len() - count..]);
    if has_character(&front) {
        Some(front)
    } else {
        None
    }
}

/// Returns the front of octets that begin at `end` in a line; if it may begin anywhere, its last pieces. `None` if it is too long, or
/// one of its numbers goes on with what follows it.
pub(crate) fn front_of(line: &[u8], end: usize, digits: Digits, is_anywhere: bool) -> Option<Front>
    requires { end ≤ length line.now }
{
    let mut front: Front = ArrayVec::new();
    let most = if is_anywhere { ENDING } else { FRONT_PIECES };
    let mut place = if is_anywhere && end > NEAR {
        end - NEAR
    } else {
        0
    };
    let mut in_number = false;
    'pieces: while place < end {
        if place == 0 || !is_word(line[place - 1]) {
            in_number = is_decimal(line[place]);
        }
        let masked = column_at(line, place, end, in_number, ends_in_mark(&front), digits);
        if front.len() >= most {
            if !is_anywhere || front.is_empty() {
                return None;
            }
            front.remove(0);
        }
        let _fits = front.try_push(masked.piece);
        place = masked.end;
    }
    if are_shut(&front, digits) {
        Some(front)
    } else {
        None
    }
}
