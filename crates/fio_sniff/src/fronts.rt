//! Fronts that one word distinguishes.
use fio_form::{FRONT_PIECES, Piece};

/// Returns the first word of a front, and what follows the blanks after it.
fn split_word(front: &[Piece]) -> (&[Piece], Option<&[Piece]>) {
    for at in 0..front.len() {
        if front[at] == Piece::Blanks {
            return (&front[..at], Some(&front[at + 1..]));
        }
    }
    (front, None)
}

/// Returns a front up to its last letter or arrow: those that differ after it differ in numbers.
pub(crate) fn words_of(front: &[Piece]) -> &[Piece] {
    for back in 0..front.len() {
        let end = front.len() - back;
        if let Piece::Character(character) = front[end - 1]
            && (character.is_ascii_alphabetic() || matches!(character, b'<' | b'>'))
        {
            return &front[..end];
        }
    }
    &front[..0]
}

/// Returns whether one word, of those between blanks, distinguishes two fronts.
pub(crate) fn differs_in_a_word(one: &[Piece], other: &[Piece]) -> bool {
    let mut own = one;
    let mut its = other;
    let mut differ: u32 = 0;
    for _ in 0..FRONT_PIECES + 1 {
        let (word, rest) = split_word(own);
        let (its_word, its_rest) = split_word(its);
        if word != its_word {
            differ = differ.saturating_add(1);
        }
        match (rest, its_rest) {
            (None, None) => return differ == 1,
            (Some(rest), Some(its_rest)) => {
                own = rest;
                its = its_rest;
            }
            _ => return false,
        }
    }
    false
}
