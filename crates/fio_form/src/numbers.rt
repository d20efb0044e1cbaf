//! Numbers of a front.
ghost use Rattle.std.specs.Prelude.{◌≡◌, ◌<◌, ◌≤◌, ◌^◌, Some, None, IfSome, IfNone, drop, length};
ghost use Rattle.fio_form.specs.declared.form.Piece.TheVariants.{Blanks};
ghost use Rattle.fio_form.specs.Fronts.{front_digits, number_of_digits, past, value_in};

use crate::form::LineForm;
use crate::front::{VALUE_DIGITS, hex_value, is_space_or_tab};

/// The most digits of a number.
const NUMBER_DIGITS: usize = 12;

/// Returns the number that digits are in a base of at most 16; `None` if they are none, too many, or no digits of it.
#[tactic(auto, unfolding(crate::specs::Fronts::number_of_digits))]
pub fn number_in(digits: &[u8], base: u8) -> Option<u64>
    ensures value { result ≡ number_of_digits base digits.now }
    ensures small { IfSome result (λ value. value < 16 ^ length digits.now) }
{
    if digits.is_empty() || digits.len() > NUMBER_DIGITS || base > 16 {
        return None;
    }
    let mut value: u64 = 0;
    let mut place = 0;
    'digits: while place < digits.len() {
        let digit = hex_value(digits[place]);
        if digit >= base {
            return None;
        }
        value = u64::from(base) * value + u64::from(digit);
        place += 1;
    }
    Some(value)
}

/// Returns the number that one to eight hexadecimal digits are; `None` of any other text.
pub fn value_of(digits: &[u8]) -> Option<u32>
    ensures { result ≡ value_in digits.now }
{
    if digits.len() > VALUE_DIGITS {
        return None;
    }
    match number_in(digits, 16) {
        Some(value) => Some(value as u32),
        None => None,
    }
}

/// Returns a text without the blanks that it begins with.
fn past_blanks(text: &[u8]) -> &[u8]
    ensures { result.now ≡ past Blanks text.now }
{
    let mut start = 0;
    'blanks: while start < text.len() && is_space_or_tab(text[start]) {
        start += 1;
    }
    &text[start..]
}

/// Returns the digits of a number of the front that a text begins with: of the first one for 0.
#[tactic(auto, unfolding(crate::specs::Fronts::front_digits))]
pub fn digits_of<'a>(form: &LineForm, number: usize, text: &'a [u8]) -> Option<&'a [u8]>
    ensures some { IfSome result (λ digits. front_digits form.now.values.items form.now.front.items number text.now ≡ Some digits.now) }
    ensures none { IfNone result (front_digits form.now.values.items form.now.front.items number text.now ≡ None) }
{
    let mut place = 0;
    let mut left = number;
    let mut at = 0;
    'pieces: while at < form.front.len() {
        let piece = form.front[at];
        let Some(length) = piece.length_in(&form.values, &text[place..]) else {
            return None;
        };
        if piece.is_numeric() {
            if left == 0 {
                return Some(past_blanks(&text[place..place + length]));
            }
            left -= 1;
        }
        place += length;
        at += 1;
    }
    None
}
