//! The lines of each command.
ghost use Rattle.std.specs.Prelude.{◌≡◌, ◌≤◌, ◌++◌, length, drop, codes, decimal};
ghost use Rattle.fio_message.specs.Views.{body_of, command_of, items_of};
ghost use Rattle.fio_show.specs.CommandLines.{command_text, configuration_text, other_text};
ghost use Rattle.fio_show.specs.FurtherLines.{further_text};
ghost use Rattle.fio_text.specs.declared.pieces.TheConstants.{LINE_OCTETS};

use crate::further_lines::FurtherLines;
use crate::lines::{put_clearing, put_one_number, put_outputs, put_words};
use fio_message::{BodyView, CommandView, ItemsView};
use fio_text::{LINE_OCTETS, line_end, put_pieces};

/// Puts the first line of a command at the end of its room. Returns the index at which it starts, and what follows it.
// Inlined, since it is called for each frame of a capture.
#[inline(always)]
pub(crate) fn put_command<'a>(
    line: &mut [u8; LINE_OCTETS],
    command: CommandView<'a>,
) -> (usize, FurtherLines<'a>)
    ensures start { result.0 ≤ LINE_OCTETS }
    ensures text { drop result.0 line.new ++ further_text result.1 ≡ command_text (command_of command.entry) }
{
    let start = match command {
        CommandView::Status { clear } => put_clearing(line, clear),
        CommandView::LoadCounter { load } => put_one_number(line, b"load counter ", load),
        CommandView::ConfigureInputs { items } => return put_configuration(line, items),
        CommandView::RawInputs => put_words(line, b"raw inputs\n"),
        CommandView::FilteredInputs => put_words(line, b"filtered inputs\n"),
        CommandView::Poll { block } => put_one_number(line, b"poll block ", u32::from(block)),
        CommandView::SetOutputs { levels, controls } => put_outputs(line, levels, controls),
        CommandView::Watchdog { timeout } => {
            put_one_number(line, b"watchdog ms ", u32::from(timeout))
        }
        CommandView::Identify => put_words(line, b"identify\n"),
        CommandView::Other { kind, body } => return put_other(line, kind.code(), body),
    };
    (start, FurtherLines::Nothing)
}

/// Puts the first line of a configuration.
fn put_configuration<'a>(
    line: &mut [u8; LINE_OCTETS],
    items: ItemsView<'a>,
) -> (usize, FurtherLines<'a>)
    ensures start { result.0 ≤ LINE_OCTETS }
    ensures text { drop result.0 line.new ++ further_text result.1 ≡ configuration_text (items_of items.entry) }
{
    let end = line_end(line);
    let start = put_pieces!(*line, end; b"configure inputs " {items.len() as u64} b"\n");
    (start, FurtherLines::Items { items })
}

/// Puts the beginning of the line of a message whose type and body alone are read.
pub(crate) fn put_other<'a>(
    line: &mut [u8; LINE_OCTETS],
    code: u8,
    body: BodyView<'a>,
) -> (usize, FurtherLines<'a>)
    ensures start { result.0 ≤ LINE_OCTETS }
    ensures text { drop result.0 line.new ++ further_text result.1 ≡ other_text code (body_of body.entry) }
{
    let end = line_end(line);
    let start = put_pieces!(*line, end; b"other " {code} b" body ");
    (start, FurtherLines::Body { body })
}
