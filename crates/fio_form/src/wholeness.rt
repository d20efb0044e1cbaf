//! What is a form.
ghost use Rattle.std.specs.Prelude.{◌≡◌, true, false};
ghost use Rattle.fio_form.specs.Forms.{are_apart, are_certain, are_separate, begins_with_octet, has_spelling, has_texts, is_clear, is_form, is_fixed, is_last, is_shut, are_shut};

use crate::form::{Digits, Piece, Step};
use crate::front::is_decimal;

/// Returns whether an octet has a fixed number of digits.
fn is_fixed(digits: Digits) -> bool
    ensures { result ≡ is_fixed digits }
{
    matches!(digits, Digits::Pairs | Digits::Octal | Digits::Binary)
}

/// Returns whether the texts of an octet are defined by themselves, and not only by what each character does.
fn has_texts(digits: Digits) -> bool
    ensures { result ≡ has_texts digits }
{
    matches!(
        digits,
        Digits::Pairs | Digits::Octal | Digits::Binary | Digits::Decimal | Digits::Columns
    )
}

/// Returns whether a piece ends where an octet begins.
fn is_last(digits: Digits, piece: Piece) -> bool
    ensures { result ≡ is_last digits piece }
{
    !piece.is_numeric() && !(digits == Digits::Columns && piece == Piece::Blanks)
}

/// Returns whether a piece ends where the next one begins.
fn is_shut(digits: Digits, piece: Piece, front: &[Piece]) -> bool
    ensures { result ≡ is_shut digits piece front.now }
{
    match front {
        [Piece::Character(mark), ..] => !piece.is_part(*mark),
        [Piece::Blanks, ..] => piece != Piece::Blanks,
        [Piece::Padded, ..] => !piece.is_numeric() && piece != Piece::Blanks,
        [Piece::Quote, ..] => true,
        [] => is_last(digits, piece),
        _ => !piece.is_numeric(),
    }
}

/// Returns whether each piece of a front ends where the next one begins.
fn are_shut(digits: Digits, front: &[Piece]) -> bool
    ensures { result ≡ are_shut digits front.now }
{
    let mut at = 0;
    'pieces: while at < front.len() {
        if !is_shut(digits, front[at], &front[at + 1..]) {
            return false;
        }
        at += 1;
    }
    true
}

/// Returns whether steps begin with an octet.
fn begins_with_octet(steps: &[Step]) -> bool
    ensures { result ≡ begins_with_octet steps.now }
{
    matches!(steps, [Step::Octet, ..])
}

/// Returns whether what is between octets is the same each time.
fn are_certain(steps: &[Step]) -> bool
    ensures { result ≡ are_certain steps.now }
{
    let mut at = 0;
    'steps: while at < steps.len() {
        if steps[at] == Step::MaybeBlank {
            return false;
        }
        at += 1;
    }
    true
}

/// Returns whether there is a mark after each octet, of which the first one is no decimal digit.
fn are_apart(cycle: &[Step]) -> bool
    ensures { result ≡ are_apart true cycle.now }
{
    let mut inside = true;
    let mut at = 0;
    'steps: while at < cycle.len() {
        match cycle[at] {
            Step::Octet => {
                if !inside {
                    return false;
                }
                inside = false;
            }
            Step::Mark(mark) => {
                if !inside && is_decimal(mark) {
                    return false;
                }
                inside = true;
            }
            Step::MaybeBlank => return false,
        }
        at += 1;
    }
    inside
}

/// Returns whether the lines of a form are defined by the texts of its octets and of what is between them.
pub(crate) fn has_spelling(digits: Digits, cycle: &[Step]) -> bool
    ensures { result ≡ has_spelling digits cycle.now }
{
    has_texts(digits) && are_certain(cycle)
}

/// Returns whether such a text can be read in one way only.
fn is_clear(front: &[Piece], digits: Digits, cycle: &[Step]) -> bool
    ensures { result ≡ is_clear front.now digits cycle.now }
{
    are_shut(digits, front) && (is_fixed(digits) || are_apart(cycle))
}

/// Returns whether these are a front and a cycle of a form.
pub(crate) fn is_form(front: &[Piece], digits: Digits, cycle: &[Step]) -> bool
    ensures { result ≡ is_form front.now digits cycle.now }
{
    begins_with_octet(cycle) && (!has_spelling(digits, cycle) || is_clear(front, digits, cycle))
}
