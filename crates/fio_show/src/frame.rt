//! The lines of a frame.
ghost use Rattle.std.specs.Prelude.{◌≡◌, ◌≤◌, ◌++◌, drop, nat_le, slice_index_or, Ok, Err, IfOk, MatchResult};
ghost use Rattle.fio_message.specs.Texts.{fault_text};
ghost use Rattle.fio_message.specs.declared.types.TheConstants.{ANSWER};
ghost use Rattle.fio_show.specs.FrameLines.{shown_answer, shown_command, shown_frame};
ghost use Rattle.fio_show.specs.FurtherLines.{further_text};
ghost use Rattle.fio_text.specs.declared.pieces.TheConstants.{LINE_OCTETS};

use crate::answers::put_answer;
use crate::commands::put_command;
use crate::further_lines::FurtherLines;
use fio_message::types::ANSWER;
use fio_message::{DecodeError, read_answer, read_command};
use fio_text::LINE_OCTETS;

/// Puts the first line of a frame at the end of its room: of an answer if the first octet is 128 or more, otherwise of a
/// command. Returns the index at which it starts, and what follows it.
///
/// # Errors
/// Those of `read_answer` and `read_command`.
// Inlined, since it is called for each frame of a capture.
#[inline(always)]
pub fn put_frame<'a>(
    line: &mut [u8; LINE_OCTETS],
    octets: &'a [u8],
) -> Result<(usize, FurtherLines<'a>), DecodeError>
    ensures start { IfOk result (λ put. put.0 ≤ LINE_OCTETS) }
    ensures text { MatchResult result
        (λ put. shown_frame octets.now ≡ Ok (drop put.0 line.new ++ further_text put.1))
        (λ fault. shown_frame octets.now ≡ Err (fault_text fault)) }
{
    if is_answer(octets) {
        let answer = read_answer(octets)?;
        Ok(put_answer(line, answer))
    } else {
        let command = read_command(octets)?;
        Ok(put_command(line, command))
    }
}

/// Returns whether a frame is read as an answer.
#[inline(always)]
fn is_answer(octets: &[u8]) -> bool
    ensures { result ≡ nat_le ANSWER (slice_index_or octets.now 0 0) }
{
    match octets {
        [code, ..] => *code >= ANSWER,
        [] => false,
    }
}
