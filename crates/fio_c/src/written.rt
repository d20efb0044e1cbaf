//! Octets and texts in a buffer of the caller.
ghost use Rattle.std.specs.Prelude.{◌≡◌, ◌<◌, ◌≤◌, ◌+◌, ◌∷◌, length};
ghost use Rattle.fio_message.specs.declared.limits.TheConstants.{BODY_OCTETS};
ghost use Rattle.fio_flat.specs.Written.{Writes, WritesNoMessage, WritesText, buffer_with};

use fio_flat::NO_MESSAGE;
use fio_message::BODY_OCTETS;

/// Writes octets to the front of the buffer, if it has room for them, and returns how many they are.
pub(crate) fn write_front(octets: &[u8], out: &mut [u8]) -> usize
    ensures { Writes octets.now out.old out.new result }
{
    let count = octets.len();
    if count <= out.len() {
        write_at(0, octets, out);
    }
    count
}

/// Writes a message of its type and a body of at most 772 octets, without a frame in between, if the
/// buffer has room for it, and returns how many octets it has. For a longer body nothing is written, and
/// the result is `NO_MESSAGE`.
pub(crate) fn write_with_body(code: u8, body: &[u8], out: &mut [u8]) -> usize
    ensures written { length body.now ≤ BODY_OCTETS
        → Writes (code ∷ body.now) out.old out.new result }
    ensures long { BODY_OCTETS < length body.now → WritesNoMessage out.old out.new result }
{
    if body.len() > BODY_OCTETS {
        return NO_MESSAGE;
    }
    let count = 1 + body.len();
    if count <= out.len() {
        out[0] = code;
        write_at(1, body, out);
    }
    count
}

/// Writes a text and a zero octet after it if the buffer has room for both, and returns how many octets
/// the text has.
pub(crate) fn write_text(words: &[u8], text: &mut [u8]) -> usize
    ensures { WritesText words.now text.old text.new result }
{
    let count = words.len();
    if count < text.len() {
        write_at(0, words, text);
        text[count] = 0;
    }
    count
}

/// Writes octets from an index on, if there is room for them.
#[inline(always)]
pub(crate) fn write_at(place: usize, octets: &[u8], out: &mut [u8])
    requires { place + length octets.now ≤ length out.old }
    ensures { out.new ≡ buffer_with place octets.now out.old }
{
    out[place..place + octets.len()].copy_from_slice(octets);
}
