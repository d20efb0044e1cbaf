//! Octets that are characters, by what each character does.
ghost use Rattle.std.specs.Prelude.{◌≡◌, ◌≤◌, ◌<◌};
ghost use Rattle.fio_form.specs.Octets.{next_text};
ghost use Rattle.fio_form.specs.Texts.{cell_by, escaped, is_octal, is_word, next_cell, next_escape, next_hex_escape, next_lead, next_octal, next_plain, next_sextet, octal_by, sextet, sextet_by, text_longer};

use crate::digits::next_fixed;
use crate::front::{hex_value, is_decimal, is_hex};
use crate::octets::{Begun, NextDigit};

/// Returns whether a character is an octal digit.
fn is_octal(character: u8) -> bool
    ensures { result ≡ is_octal character }
{
    matches!(character, b'0'..=b'7')
}

/// Returns the octet of an escape of one letter.
fn escaped(letter: u8) -> u8
    ensures { result ≡ escaped letter }
{
    match letter {
        b'n' => 10,
        b'r' => 13,
        b't' => 9,
        b'b' => 8,
        b'f' => 12,
        b'v' => 11,
        b'a' => 7,
        b'e' => 27,
        other => other,
    }
}

/// Returns whether a character is a letter or a digit.
pub(crate) fn is_word(character: u8) -> bool
    ensures { result ≡ is_word character }
{
    matches!(character, b'0'..=b'9' | b'A'..=b'Z' | b'a'..=b'z')
}

/// Returns whether a character makes the octet of an escape another one, or none: a decimal digit after one octal digit, of
/// which 8 and 9 make it none; an octal digit after two.
pub(crate) fn text_longer(begun: Begun, character: u8) -> bool
    ensures { result ≡ text_longer begun character }
{
    match begun {
        Begun::Escape => is_decimal(character),
        Begun::OctalEscape { .. } => is_octal(character),
        Begun::HexEscape => is_hex(character),
        _ => false,
    }
}

/// Returns an octet of which nothing is read, after one more character.
fn next_plain(quote: u8, character: u8) -> NextDigit
    ensures { result ≡ next_plain quote character }
{
    if character == quote {
        return NextDigit::Stop;
    }
    match character {
        b'\\' => NextDigit::More(Begun::Escape),
        0xc2 => NextDigit::More(Begun::Lead { is_upper: false }),
        0xc3 => NextDigit::More(Begun::Lead { is_upper: true }),
        0..=31 | 127..=255 => NextDigit::Stop,
        _ => NextDigit::Last(character),
    }
}

/// Returns what octal digits with this value are, of which this many more may come.
fn octal_by(longer: bool, value: u8, left: u8) -> NextDigit
    ensures { result ≡ octal_by longer value left }
{
    if longer && value < 32 && left > 0 {
        NextDigit::More(Begun::OctalEscape { value, left })
    } else {
        NextDigit::Last(value)
    }
}

/// Returns an escape, after one more character.
fn next_escape(character: u8, longer: bool) -> NextDigit
    ensures { result ≡ next_escape character longer }
{
    match character {
        b'x' => NextDigit::More(Begun::HexEscape),
        b'u' => NextDigit::More(Begun::Fixed { value: 0, left: 4 }),
        b'0'..=b'7' => octal_by(longer, character - 48, 2),
        32..=126 => NextDigit::Last(escaped(character)),
        _ => NextDigit::Stop,
    }
}

/// Returns a hexadecimal escape without a digit, after one more character.
pub(crate) fn next_hex_escape(character: u8, longer: bool) -> NextDigit
    ensures { result ≡ next_hex_escape character longer }
{
    let digit = hex_value(character);
    if digit == 16 {
        NextDigit::Stop
    } else if longer {
        NextDigit::More(Begun::Fixed {
            value: digit,
            left: 1,
        })
    } else {
        NextDigit::Last(digit)
    }
}

/// Returns an octal escape with this value, of which this many digits may come, after one more character.
fn next_octal(value: u8, left: u8, character: u8, longer: bool) -> NextDigit
    ensures { result ≡ next_octal value left character longer }
{
    if !is_octal(character) || left == 0 {
        return NextDigit::Stop;
    }
    let more = 8 * u16::from(value) + u16::from(character - 48);
    if more > 255 {
        return NextDigit::Stop;
    }
    octal_by(longer, more as u8, left - 1)
}

/// Returns the first octet of a character above 127 in UTF-8, after one more character.
fn next_lead(is_upper: bool, character: u8) -> NextDigit
    ensures { result ≡ next_lead is_upper character }
{
    if !matches!(character, 128..=191) {
        NextDigit::Stop
    } else if is_upper {
        NextDigit::Last(character + 64)
    } else {
        NextDigit::Last(character)
    }
}

/// Returns an octet that is a character of a literal or an escape, up to a quote, after one more character.
pub(crate) fn next_text(quote: u8, begun: Begun, character: u8, longer: bool) -> NextDigit
    ensures { result ≡ next_text quote begun character longer }
{
    match begun {
        Begun::Nothing => next_plain(quote, character),
        Begun::Escape => next_escape(character, longer),
        Begun::HexEscape => next_hex_escape(character, longer),
        Begun::OctalEscape { value, left } => next_octal(value, left, character, longer),
        Begun::Lead { is_upper } => next_lead(is_upper, character),
        Begun::Fixed { .. } => next_fixed(16, 4, begun, character),
        _ => NextDigit::Stop,
    }
}

/// Returns what the three characters of a cell are after its blank.
fn cell_by(first: u8, second: u8, third: u8) -> NextDigit
    ensures { result ≡ cell_by first second third }
{
    if first == b' ' && second == b' ' && matches!(third, 32..=126) {
        return NextDigit::Last(third);
    }
    if first == b' ' && second == b'\\' {
        return match third {
            b'0' => NextDigit::Last(0),
            b'a' | b'b' | b'f' | b'n' | b'r' | b't' | b'v' => NextDigit::Last(escaped(third)),
            _ => NextDigit::Stop,
        };
    }
    if matches!(first, b'0'..=b'3') && is_octal(second) && is_octal(third) {
        return NextDigit::Last(64 * (first - 48) + 8 * (second - 48) + (third - 48));
    }
    NextDigit::Stop
}

/// Returns an octet that is a cell of four columns, after one more character.
pub(crate) fn next_cell(begun: Begun, character: u8) -> NextDigit
    ensures { result ≡ next_cell begun character }
{
    match begun {
        Begun::Nothing if character == b' ' => NextDigit::More(Begun::Cell),
        Begun::Cell => NextDigit::More(Begun::CellFirst(character)),
        Begun::CellFirst(first) => NextDigit::More(Begun::CellSecond {
            first,
            second: character,
        }),
        Begun::CellSecond { first, second } => cell_by(first, second, character),
        _ => NextDigit::Stop,
    }
}

/// Returns the six bits of a character of base64; 64 for any other.
fn sextet(character: u8) -> u8
    ensures value { result ≡ sextet character }
    ensures most { result ≤ 64 }
{
    match character {
        b'A'..=b'Z' => character - 65,
        b'a'..=b'z' => character - 71,
        b'0'..=b'9' => character + 4,
        b'+' => 62,
        b'/' => 63,
        _ => 64,
    }
}

/// Returns the bits of this many characters of base64 that are no octet yet, after six more bits.
fn sextet_by(value: u8, count: u8, bits: u8) -> NextDigit
    requires { bits ≤ 64 }
    ensures { result ≡ sextet_by value count bits }
{
    let more = 64 * u16::from(value) + u16::from(bits);
    if count == 0 {
        NextDigit::More(Begun::Sextets {
            value: bits,
            count: 1,
        })
    } else if count == 1 {
        NextDigit::Emit(
            (more / 16 % 256) as u8,
            Begun::Sextets {
                value: (more % 16) as u8,
                count: 2,
            },
        )
    } else if count == 2 {
        NextDigit::Emit(
            (more / 4 % 256) as u8,
            Begun::Sextets {
                value: (more % 4) as u8,
                count: 3,
            },
        )
    } else {
        NextDigit::Emit((more % 256) as u8, Begun::Nothing)
    }
}

/// Returns octets that are base64, after one more character.
pub(crate) fn next_sextet(begun: Begun, character: u8) -> NextDigit
    ensures { result ≡ next_sextet begun character }
{
    let (value, count) = match begun {
        Begun::Sextets { value, count } => (value, count),
        Begun::Padding => return NextDigit::Stop,
        _ => (0, 0),
    };
    let bits = sextet(character);
    if bits < 64 {
        sextet_by(value, count, bits)
    } else if character == b'=' && count >= 2 {
        NextDigit::More(Begun::Padding)
    } else {
        NextDigit::Stop
    }
}
