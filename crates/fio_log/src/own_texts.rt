//! Lines of the texts that the program's own tools read, for a caller who says that a log is such a text.
ghost use Rattle.std.specs.Prelude.{◌≡◌, IfNone, IfSome, None};
ghost use Rattle.fio_log.specs.OwnTexts.{IsOwnLine, IsFrameInRoom, own_frame_with, own_frame, spells, spells_from};

use fio_message::{FRAME_OCTETS, read_answer, read_command};
use fio_text::{after_prefix, is_skipped, read_octets_to};

/// Which of the texts it is.
#[derive(Clone, Copy, Debug, PartialEq, Eq)]
pub enum OwnForm {
    /// Frames, one HEX a line, as `show` reads them.
    Frames,
    /// A transcript, as `check` reads it.
    Transcript,
}

/// What a line is.
#[derive(Clone, Copy, Debug, PartialEq, Eq)]
pub enum OwnLine {
    /// The line is empty, or begins with `#`.
    Skipped,
    /// The line has no form that the text allows.
    Bad,
    /// The line is a frame that encodes no message of the end that sent it.
    Faulty {
        /// How many octets the frame has.
        count: usize,
    },
    /// The line is a frame that encodes a message.
    Frame {
        /// How many octets the frame has, at most 773.
        count: usize,
    },
}

/// Reads a line, without its line feed, as `show` or `check` does. The first 773 octets of its frame are written to the front
/// of `room`; a longer frame encodes no message.
pub fn read_own_line(form: OwnForm, line: &[u8], room: &mut [u8; FRAME_OCTETS]) -> OwnLine
    ensures { IsOwnLine form line.now room.new result }
{
    if is_skipped(line) {
        return OwnLine::Skipped;
    }
    let Some((from_cpu, count)) = read_frame(form, line, room) else {
        return OwnLine::Bad;
    };
    if count <= room.len() && spells_from(from_cpu, &room[..count]) {
        OwnLine::Frame { count }
    } else {
        OwnLine::Faulty { count }
    }
}

/// Reads the octets of a line's frame into room for the longest. Returns whether the CPU sent it, if the text says that, and
/// how many octets it has; `None` if the line is no frame.
#[tactic(auto, using(crate::proofs::OwnTextLemmas::frame_read))]
fn read_frame(
    form: OwnForm,
    line: &[u8],
    room: &mut [u8; FRAME_OCTETS],
) -> Option<(Option<bool>, usize)>
    ensures none { IfNone result (own_frame form line.now ≡ None) }
    ensures some { IfSome result (λ read. IsFrameInRoom form line.now read.0 read.1 room.new) }
{
    let (from_cpu, word) = frame_word(form, line)?;
    let count = read_octets_to(word, room)?;
    Some((from_cpu, count))
}

/// Returns whether the CPU sent the frame of a line, if the text says that, and the digits of its octets; `None` for a line
/// of a transcript without `> ` or `< ` at its beginning.
fn frame_word(form: OwnForm, line: &[u8]) -> Option<(Option<bool>, &[u8])>
    ensures none { IfNone result (own_frame form line.now ≡ None) }
    ensures some { IfSome result (λ found. own_frame form line.now ≡ own_frame_with found.0 found.1.now) }
{
    if form == OwnForm::Frames {
        return Some((None, line));
    }
    match (after_prefix(line, b"> "), after_prefix(line, b"< ")) {
        (Some(word), _) => Some((Some(true), word)),
        (None, Some(word)) => Some((Some(false), word)),
        (None, None) => None,
    }
}

/// Returns whether octets encode a message of the end that sent them; if the text does not say which, of the end that their
/// first octet names.
fn spells_from(from_cpu: Option<bool>, octets: &[u8]) -> bool
    ensures { result ≡ spells_from from_cpu octets.now }
{
    match from_cpu {
        None => spells(octets),
        Some(true) => read_command(octets).is_ok(),
        Some(false) => read_answer(octets).is_ok(),
    }
}

/// Returns whether octets encode a message of the end that their first octet names.
pub(crate) fn spells(octets: &[u8]) -> bool
    ensures { result ≡ spells octets.now }
{
    match octets {
        [128..=255, ..] => read_answer(octets).is_ok(),
        _ => read_command(octets).is_ok(),
    }
}
