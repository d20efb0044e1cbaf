//! The lines of each answer.
ghost use Rattle.std.specs.Prelude.{◌≡◌, ◌≤◌, ◌++◌, length, drop, codes};
ghost use Rattle.fio_message.specs.Views.{answer_of, entries_of};
ghost use Rattle.fio_show.specs.AnswerLines.{answer_text, block_text};
ghost use Rattle.fio_show.specs.FurtherLines.{further_text};
ghost use Rattle.fio_text.specs.declared.pieces.TheConstants.{LINE_OCTETS};

use crate::commands::put_other;
use crate::further_lines::FurtherLines;
use crate::lines::{put_block_head, put_flags, put_levels, put_status};
use fio_message::AnswerView;
use fio_text::LINE_OCTETS;

/// Puts the first line of an answer at the end of its room. Returns the index at which it starts, and what follows it.
// Inlined, since it is called for each frame of a capture.
#[inline(always)]
pub(crate) fn put_answer<'a>(
    line: &mut [u8; LINE_OCTETS],
    answer: AnswerView<'a>,
) -> (usize, FurtherLines<'a>)
    ensures start { result.0 ≤ LINE_OCTETS }
    ensures text { drop result.0 line.new ++ further_text result.1 ≡ answer_text (answer_of answer.entry) }
{
    let start = match answer {
        AnswerView::Status {
            flags,
            receive_errors,
            transmit_errors,
            stamp,
        } => put_flags(line, flags, receive_errors, transmit_errors, stamp),
        AnswerView::LoadCounter { status } => put_status(line, b"counter load", status),
        AnswerView::ConfigureInputs { status } => put_status(line, b"configure", status),
        AnswerView::RawInputs { inputs, stamp } => put_levels(line, b"raw", inputs, stamp),
        AnswerView::FilteredInputs { inputs, stamp } => {
            put_levels(line, b"filtered", inputs, stamp)
        }
        AnswerView::Block {
            block,
            entries,
            status,
            stamp,
        } => {
            let start = put_block_head(line, block, entries.len(), status, stamp);
            return (start, FurtherLines::Entries { entries, stamp });
        }
        AnswerView::Watchdog { status } => put_status(line, b"watchdog", status),
        AnswerView::Other { kind, body } => return put_other(line, kind.code(), body),
    };
    (start, FurtherLines::Nothing)
}
