//! The octets that hexadecimal digits denote, read without an allocation.
ghost use Rattle.std.specs.Prelude.{◌≡◌, ◌≤◌, ◌/◌, Some, IfSome, true, is_some, length, option_map, take};
ghost use Rattle.fio_message.specs.declared.limits.TheConstants.{FRAME_OCTETS};
ghost use Rattle.std.specs.List.{list_all};
ghost use Rattle.fio_text.specs.Hexadecimal.{octets_in};
ghost use Rattle.hex.specs.Hex.{is_hex_digit};

use fio_message::FRAME_OCTETS;

/// Returns whether a word is an even number of hexadecimal digits of either case, at least two.
#[tactic(auto, using(crate::proofs::OctetLemmas::digits_name, crate::proofs::OctetLemmas::odd_names_none))]
pub fn is_octets(word: &[u8]) -> bool
    ensures { result ≡ is_some (octets_in word.now) }
{
    if word.is_empty() || word.len() % 2 == 1 {
        return false;
    }
    are_digits(word)
}

fn are_digits(word: &[u8]) -> bool
    ensures { result ≡ list_all is_hex_digit word.now }
{
    word.iter().all(|digit| is_digit(*digit))
}

fn is_digit(digit: u8) -> bool
    ensures { result ≡ is_hex_digit digit }
{
    matches!(digit, b'0'..=b'9' | b'a'..=b'f' | b'A'..=b'F')
}

/// Returns the number of octets that a word denotes, if it is an even number of hexadecimal digits of either case, at least
/// two; `None` otherwise. Up to 773 octets, the longest frame, are written to the front of `room`; more are only counted.
#[tactic(auto, using(crate::proofs::OctetLemmas::counted))]
pub fn read_octets_to(word: &[u8], room: &mut [u8; FRAME_OCTETS]) -> Option<usize>
    ensures count { result ≡ option_map length (octets_in word.now) }
    ensures read { IfSome result (λ count.
        count ≤ FRAME_OCTETS → octets_in word.now ≡ Some (take count room.new)) }
{
    decode_front(word, room).then_some(word.len() / 2)
}

/// Returns whether a word denotes octets, and writes them to the front of `room` if they fit.
fn decode_front(word: &[u8], room: &mut [u8; FRAME_OCTETS]) -> bool
    ensures named { result ≡ is_some (octets_in word.now) }
    ensures read { result ≡ true → length word.now / 2 ≤ FRAME_OCTETS
        → octets_in word.now ≡ Some (take (length word.now / 2) room.new) }
{
    let count = word.len() / 2;
    if count <= room.len() {
        decode_whole(word, &mut room[..count])
    } else {
        is_octets(word)
    }
}

/// Returns whether a word denotes octets, and if so writes them.
fn decode_whole(word: &[u8], octets: &mut [u8]) -> bool
    requires { length word.now / 2 ≡ length octets.old }
    ensures named { result ≡ is_some (octets_in word.now) }
    ensures read { result ≡ true → octets_in word.now ≡ Some octets.new }
{
    !word.is_empty() && hex::decode_to_slice(word, octets).is_ok()
}
