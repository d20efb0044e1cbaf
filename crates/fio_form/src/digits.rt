//! Octets that are numbers, by what each character does.
ghost use Rattle.std.specs.Prelude.{◌≡◌, ◌≤◌};
ghost use Rattle.fio_form.specs.Octets.{next_column, next_decimal, next_fixed, next_negative, next_unsigned};
ghost use Rattle.fio_form.specs.Texts.{next_prefixed, next_second, next_short, short_by};

use crate::front::{hex_value, is_decimal};
use crate::octets::{Begun, NextDigit};
use crate::texts::next_hex_escape;

/// Returns an octet that has this many digits in a base, after one more character.
pub(crate) fn next_fixed(base: u8, width: u8, begun: Begun, character: u8) -> NextDigit
    requires { base ≤ 16 }
    ensures { result ≡ next_fixed base width begun character }
{
    let (value, left) = match begun {
        Begun::Fixed { value, left } => (value, left),
        _ => (0, width),
    };
    let digit = hex_value(character);
    if digit >= base {
        return NextDigit::Stop;
    }
    let more = u16::from(base) * u16::from(value) + u16::from(digit);
    if more > 255 {
        NextDigit::Stop
    } else if left > 1 {
        NextDigit::More(Begun::Fixed {
            value: more as u8,
            left: left - 1,
        })
    } else {
        NextDigit::Last(more as u8)
    }
}

/// Returns a decimal number with this value, after one more character.
fn next_unsigned(value: u8, character: u8, longer: bool) -> NextDigit
    ensures { result ≡ next_unsigned value character longer }
{
    if !is_decimal(character) {
        return NextDigit::Stop;
    }
    let more = 10 * u16::from(value) + u16::from(character - 48);
    if more > 255 {
        NextDigit::Stop
    } else if longer {
        NextDigit::More(Begun::Number(more as u8))
    } else {
        NextDigit::Last(more as u8)
    }
}

/// Returns a decimal number below 0, after one more character.
fn next_negative(value: u8, character: u8, longer: bool) -> NextDigit
    ensures { result ≡ next_negative value character longer }
{
    if !is_decimal(character) {
        return NextDigit::Stop;
    }
    let more = 10 * u16::from(value) + u16::from(character - 48);
    if more > 128 {
        NextDigit::Stop
    } else if longer || more == 0 {
        NextDigit::More(Begun::Negative(more as u8))
    } else {
        NextDigit::Last((256 - more) as u8)
    }
}

/// Returns an octet that is a decimal number, after one more character.
pub(crate) fn next_decimal(begun: Begun, character: u8, longer: bool) -> NextDigit
    ensures { result ≡ next_decimal begun character longer }
{
    match begun {
        Begun::Nothing => {
            if character == b'-' {
                NextDigit::More(Begun::Negative(0))
            } else {
                next_unsigned(0, character, longer)
            }
        }
        Begun::Number(value) => next_unsigned(value, character, longer),
        Begun::Negative(value) => next_negative(value, character, longer),
        _ => NextDigit::Stop,
    }
}

/// Returns an octet that is a decimal number in a column, after one more character.
pub(crate) fn next_column(begun: Begun, character: u8, longer: bool) -> NextDigit
    ensures { result ≡ next_column begun character longer }
{
    match begun {
        Begun::Nothing => {
            if character == b' ' {
                NextDigit::More(Begun::Nothing)
            } else {
                next_unsigned(0, character, longer)
            }
        }
        Begun::Number(value) => next_unsigned(value, character, longer),
        _ => NextDigit::Stop,
    }
}

/// Returns what digits are of which the last two have this value: an octet, or the beginning of one.
fn short_by(longer: bool, value: u8, count: u8) -> NextDigit
    ensures { result ≡ short_by longer value count }
{
    if !longer && (count < 3 || count == 8 && value > 127) {
        NextDigit::Last(value)
    } else if count < 8 && (count == 1 || count == 7 || value == 255) {
        NextDigit::More(Begun::Short { value, count })
    } else {
        NextDigit::Stop
    }
}

/// Returns an octet that is a hexadecimal number without zeros before it, after one more character.
pub(crate) fn next_short(begun: Begun, character: u8, longer: bool) -> NextDigit
    ensures { result ≡ next_short begun character longer }
{
    let digit = hex_value(character);
    if digit == 16 {
        return NextDigit::Stop;
    }
    match begun {
        Begun::Short { value, count } => {
            if count > 7 {
                return NextDigit::Stop;
            }
            let more = (16 * u16::from(value) + u16::from(digit)) % 256;
            short_by(longer, more as u8, count + 1)
        }
        _ => short_by(longer, digit, 1),
    }
}

/// Returns the first digit, with this value, of a hexadecimal number of at most two digits, after one more character.
fn next_second(value: u8, character: u8, longer: bool) -> NextDigit
    ensures { result ≡ next_second value character longer }
{
    let digit = hex_value(character);
    if digit == 16 || longer || value > 15 {
        NextDigit::Stop
    } else {
        NextDigit::Last(16 * value + digit)
    }
}

/// Returns an octet that is a hexadecimal number after `0x`, or `0` alone, after one more character.
pub(crate) fn next_prefixed(begun: Begun, character: u8, longer: bool) -> NextDigit
    ensures { result ≡ next_prefixed begun character longer }
{
    match begun {
        Begun::Nothing if character == b'0' && longer => NextDigit::More(Begun::Zero),
        Begun::Nothing if character == b'0' => NextDigit::Last(0),
        Begun::Zero if character == b'x' => NextDigit::More(Begun::HexEscape),
        Begun::HexEscape => next_hex_escape(character, longer),
        Begun::Fixed { value, .. } => next_second(value, character, longer),
        _ => NextDigit::Stop,
    }
}
