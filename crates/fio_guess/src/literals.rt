//! Literals and base64 in a line.
ghost use Rattle.std.specs.Prelude.{◌≡◌, ◌≤◌, ◌<◌, length};

use crate::words::is_word;

/// Returns whether a text has the escape of an octet.
pub(crate) fn has_escape(text: &[u8]) -> bool {
    for at in 1..text.len() {
        if text[at] == b'x' && text[at - 1] == b'\\' {
            return true;
        }
    }
    false
}

/// Returns whether a quote begins a literal: it is closed, and has an escape, or is of octets.
pub(crate) fn is_literal(text: &[u8], place: usize) -> bool
    requires { place < length text.now }
{
    let quote = text[place];
    let is_octets = place > 0
        && text[place - 1] == b'b'
        && (place == 1 || !is_word(text[place - 2]));
    let mut has_escape = false;
    let mut is_escaped = false;
    for at in place + 1..text.len() {
        if is_escaped {
            is_escaped = false;
        } else if text[at] == b'\\' {
            has_escape = true;
            is_escaped = true;
        } else if text[at] == quote {
            let length = at - place - 1;
            return has_escape || is_octets || length == 1 || length == 2 || length % 4 == 0;
        }
    }
    false
}

/// Returns where characters of base64 end; if they are no word by themselves, where they begin.
pub(crate) fn base64_end(text: &[u8], place: usize) -> usize
    requires { place ≤ length text.now }
    ensures after { place ≤ result }
    ensures within { result ≤ length text.now }
{
    let mut is_filled = false;
    for at in place..text.len() {
        let character = text[at];
        if character == b'=' {
            is_filled = true;
        } else if is_filled
            || !(character.is_ascii_alphanumeric() || matches!(character, b'+' | b'/'))
        {
            return if matches!(character, b' ' | b'"' | b'\'' | b',') {
                at
            } else {
                place
            };
        }
    }
    text.len()
}
