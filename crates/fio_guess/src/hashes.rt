//! Hashes of forms: two forms with one hash are held to be one.

use fio_form::{Digits, LineForm, LineRows, Piece, Step};

/// The hash of nothing.
const START: u64 = 0xcbf2_9ce4_8422_2325;

/// Returns the hash of what a hash is of, and then a value.
fn mixed(hash: u64, value: u64) -> u64 {
    (hash ^ value)
        .wrapping_mul(0x0000_0100_0000_01b3)
        .rotate_left(29)
        ^ value.wrapping_mul(0x9e37_79b9_7f4a_7c15)
}

/// Returns the number of a piece.
fn piece_code(piece: Piece) -> u64 {
    match piece {
        Piece::Character(character) => u64::from(character),
        Piece::Decimal => 256,
        Piece::Hexadecimal => 257,
        Piece::Blanks => 258,
        Piece::Value => 259,
        Piece::Padded => 260,
        Piece::Quote => 261,
    }
}

/// Returns the number of a step.
fn step_code(step: Step) -> u64 {
    match step {
        Step::Mark(mark) => u64::from(mark),
        Step::Octet => 256,
        Step::MaybeBlank => 257,
    }
}

/// Returns the number of a notation.
fn digits_code(digits: Digits) -> u64 {
    match digits {
        Digits::Pairs => 0,
        Digits::Short => 1,
        Digits::Decimal => 2,
        Digits::Columns => 3,
        Digits::Octal => 4,
        Digits::Binary => 5,
        Digits::Text(quote) => 6 + 256 * u64::from(quote),
        Digits::Sextets => 7,
        Digits::Prefixed => 9,
        Digits::Cells => 8,
    }
}

/// Returns the number of a way to go on.
fn rows_code(rows: LineRows) -> u64 {
    match rows {
        LineRows::One => 0,
        LineRows::Offset {
            number,
            base,
            width,
            begins_at_zero,
        } => {
            1 + 256 * u64::from(number)
                + 65536 * u64::from(base)
                + 16_777_216 * u64::from(width)
                + 4_294_967_296 * u64::from(begins_at_zero)
        }
        LineRows::Wrapped(width) => 2 + 256 * u64::from(width),
        LineRows::Bare => 3,
        LineRows::Pieces => 4,
        LineRows::Stream => 5,
        LineRows::Flags => 6,
    }
}

/// Returns the number of what else makes a form: what is cut, and where its front begins.
fn cut_code(form: &LineForm) -> u64 {
    u64::from(form.before)
        + 256 * u64::from(form.after)
        + 65536 * u64::from(form.is_framed)
        + 131_072 * u64::from(form.is_anywhere)
        + 262_144 * u64::from(form.is_swapped)
}

/// Returns the hash of a front.
pub fn front_hash(front: &[Piece]) -> u64 {
    let mut hash = START;
    for piece in front {
        hash = mixed(hash, piece_code(*piece));
    }
    hash
}

/// Returns the hash of a form.
pub fn hash_of(form: &LineForm) -> u64 {
    let mut hash = mixed(front_hash(form.front()), digits_code(form.digits()));
    for step in form.cycle() {
        hash = mixed(hash, step_code(*step));
    }
    mixed(mixed(hash, cut_code(form)), rows_code(form.rows))
}

/// Returns half of a hash.
pub(crate) fn short(hash: u64) -> u32 {
    (hash >> 32) as u32
}
