//! The words of a line, and the values that they denote.
ghost use Rattle.std.specs.Prelude.{◌≡◌, ◌≢◌, [], Some, None, if◌then◌else◌, IfOk, OnErr, option_map, position};
ghost use Rattle.fio_text.specs.Hexadecimal.{octets_in, octet_of, inputs_of};
ghost use Rattle.fio_text.specs.Words.{after_prefix, halves_of, is_blank, number_in, small_number_in};

use fio_message::{Memory, inputs_from_octets};
use hex::{FromHex, FromHexError};
use std::alloc::Global;

/// Returns what follows `prefix` in a line, or `None` if the line does not begin with it.
pub fn after_prefix<'a>(line: &'a [u8], prefix: &[u8]) -> Option<&'a [u8]>
    ensures { option_map (λ rest. rest.now) result ≡ after_prefix prefix.now line.now }
{
    line.strip_prefix(prefix)
}

/// Returns what precedes a line's first blank and what follows it, or `None` if it has no blank.
pub fn split_at_blank(line: &[u8]) -> Option<(&[u8], &[u8])>
    ensures { option_map (λ cut. (cut.0.now, cut.1.now)) result ≡ halves_of line.now }
{
    let end = first_blank(line)?;
    Some((&line[..end], &line[end + 1..]))
}

/// Returns the index of a line's first blank.
fn first_blank(line: &[u8]) -> Option<usize>
    ensures { result ≡ position is_blank line.now }
{
    line.iter().position(|octet| *octet == b' ')
}

/// Reads N: the number that one to nine decimal digits denote; leading zeros are allowed. A caller that needs a smaller
/// number tests it.
pub fn read_number(word: &[u8]) -> Option<usize>
    ensures { result ≡ number_in word.now }
{
    if word.is_empty() || word.len() > 9 {
        return None;
    }
    let mut number = 0;
    for digit in word {
        if !digit.is_ascii_digit() {
            return None;
        }
        number = number * 10 + usize::from(*digit - b'0');
    }
    Some(number)
}

/// Reads B: a number of at most 255, written like N.
pub fn read_small_number(word: &[u8]) -> Option<u8>
    ensures { result ≡ small_number_in word.now }
{
    let number = read_number(word)?;
    u8::try_from(number).ok()
}

/// Reads HH: the octet that exactly two hexadecimal digits of either case denote.
pub fn read_octet(word: &[u8]) -> Option<u8>
    ensures { result ≡ octet_of word.now }
{
    let [octet] = <[u8; 1] as FromHex>::from_hex(word).ok()?;
    Some(octet)
}

/// Reads H16: the levels of the inputs that exactly sixteen hexadecimal digits of either case denote. Bit i of the result is
/// input i, and input 0 is the lowest bit of the first octet.
pub fn read_inputs(word: &[u8]) -> Option<u64>
    ensures { result ≡ inputs_of word.now }
{
    let octets = <[u8; 8] as FromHex>::from_hex(word).ok()?;
    Some(inputs_from_octets(&octets))
}

/// Reads HEX: the octets that an even number of hexadecimal digits of either case denote, at least two digits; `None` for
/// any other word.
///
/// # Errors
/// `Memory` if there is none for the octets.
pub fn read_octets(alloc: Global, word: &[u8]) -> Result<Option<Vec<u8>>, Memory>
    ensures read { IfOk result (λ found.
        option_map (λ octets. octets.items) found ≡ octets_in word.now) }
    // The empty word allocates nothing.
    ensures memory { OnErr result (word.now ≢ []) }
{
    if word.is_empty() {
        return Ok(None);
    }
    match hex::decode(alloc, word) {
        Ok(octets) => Ok(Some(octets)),
        Err(FromHexError::OutOfMemory) => Err(Memory),
        Err(_) => Ok(None),
    }
}
