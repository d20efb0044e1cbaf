//! Characters of words and of numbers.
ghost use Rattle.std.specs.Prelude.{◌≡◌, ◌<◌, IfSome};
ghost use Rattle.fio_log.specs.Digits.{digit_of, is_between, is_letter};

/// Returns the value of a hexadecimal digit of either case; `None` for any other character.
pub fn digit(character: u8) -> Option<u8>
    ensures value { result ≡ digit_of character }
    ensures small { IfSome result (λ digit. digit < 16) }
{
    match character {
        b'0'..=b'9' => Some(character - b'0'),
        b'A'..=b'F' => Some(character - b'A' + 10),
        b'a'..=b'f' => Some(character - b'a' + 10),
        _ => None,
    }
}

/// Returns whether a character is a decimal digit.
pub(crate) fn is_decimal(character: u8) -> bool
    ensures { result ≡ is_between 48 57 character }
{
    character.is_ascii_digit()
}

/// Returns whether a character belongs to words: a letter, a digit, `_`, or an octet outside ASCII.
pub fn is_letter(character: u8) -> bool
    ensures { result ≡ is_letter character }
{
    matches!(character, b'0'..=b'9' | b'A'..=b'Z' | b'a'..=b'z' | b'_' | 128..=255)
}
