//! The single lines of messages. Each is put at the end of its room, and its function returns the index at which it starts.
ghost use Rattle.std.specs.Prelude.{◌≡◌, ◌≤◌, length, take, drop};
ghost use Rattle.fio_show.specs.AnswerLines.{block_head_text, entry_text, flags_text, levels_text, status_text};
ghost use Rattle.fio_show.specs.CommandLines.{clearing_text, item_text, number_text, outputs_text};
ghost use Rattle.fio_show.specs.declared.entry_lines.TheConstants.{ENTRY_OCTETS};
ghost use Rattle.fio_text.specs.declared.pieces.TheConstants.{LINE_OCTETS, NAME_OCTETS};

use crate::entry_lines::EntryLines;
use fio_input::widen;
use fio_message::{Entry, InputItem, inputs_to_octets};
use fio_text::{LINE_OCTETS, line_end, put_pieces};

/// Puts a line that consists of words, at most `NAME_OCTETS`.
// Inlined, so the compiler knows the position and the length of each piece of a line.
#[inline(always)]
pub(crate) fn put_words<const N: usize>(line: &mut [u8; LINE_OCTETS], words: &[u8; N]) -> usize
    requires { N ≤ NAME_OCTETS }
    ensures start { result ≤ LINE_OCTETS }
    ensures text { drop result line.new ≡ words.now }
{
    let end = line_end(line);
    put_pieces!(*line, end; (words))
}

/// Puts the line of a message that has one number, after its name of at most `NAME_OCTETS`.
#[inline(always)]
pub(crate) fn put_one_number<const N: usize>(
    line: &mut [u8; LINE_OCTETS],
    name: &[u8; N],
    number: u32,
) -> usize
    requires { N ≤ NAME_OCTETS }
    ensures start { result ≤ LINE_OCTETS }
    ensures text { drop result line.new ≡ number_text name.now number }
{
    let end = line_end(line);
    put_pieces!(*line, end; (name) {number} b"\n")
}

/// Puts the line of the flags to clear.
#[inline(always)]
pub(crate) fn put_clearing(line: &mut [u8; LINE_OCTETS], clear: u8) -> usize
    ensures start { result ≤ LINE_OCTETS }
    ensures text { drop result line.new ≡ clearing_text clear }
{
    let end = line_end(line);
    put_pieces!(*line, end; b"status clear " [clear] b"\n")
}

/// Puts the line of the levels and the controls of all outputs.
#[inline(always)]
pub(crate) fn put_outputs(
    line: &mut [u8; LINE_OCTETS],
    levels: &[u8; 8],
    controls: &[u8; 8],
) -> usize
    ensures start { result ≤ LINE_OCTETS }
    ensures text { drop result line.new ≡ outputs_text levels.now controls.now }
{
    let end = line_end(line);
    put_pieces!(*line, end; b"set outputs data " [&*levels] b" control " [&*controls] b"\n")
}

/// Puts the line of an item of a configuration.
#[inline(always)]
pub(crate) fn put_item(line: &mut [u8; LINE_OCTETS], item: InputItem) -> usize
    ensures start { result ≤ LINE_OCTETS }
    ensures text { drop result line.new ≡ item_text item }
{
    let end = line_end(line);
    put_pieces!(
        *line, end;
        b"  input " {item.input.get()} b" ignore " {item.ignore}
        b" leading " {item.leading} b" trailing " {item.trailing} b"\n"
    )
}

/// Puts the line of the flags and the error counts.
#[inline(always)]
pub(crate) fn put_flags(
    line: &mut [u8; LINE_OCTETS],
    flags: u8,
    receive_errors: u8,
    transmit_errors: u8,
    stamp: u32,
) -> usize
    ensures start { result ≤ LINE_OCTETS }
    ensures text { drop result line.new ≡ flags_text flags receive_errors transmit_errors stamp }
{
    let end = line_end(line);
    put_pieces!(
        *line, end;
        b"status flags " [flags] b" receive " {receive_errors}
        b" transmit " {transmit_errors} b" stamp " {stamp} b"\n"
    )
}

/// Puts the line of an answer that has only a status, after its name of at most `NAME_OCTETS`.
#[inline(always)]
pub(crate) fn put_status<const N: usize>(
    line: &mut [u8; LINE_OCTETS],
    name: &[u8; N],
    status: u8,
) -> usize
    requires { N ≤ NAME_OCTETS }
    ensures start { result ≤ LINE_OCTETS }
    ensures text { drop result line.new ≡ status_text name.now status }
{
    let end = line_end(line);
    put_pieces!(*line, end; (name) b" status " [status] b"\n")
}

/// Puts the line of the levels of all inputs, after their name of at most `NAME_OCTETS`.
#[inline(always)]
pub(crate) fn put_levels<const N: usize>(
    line: &mut [u8; LINE_OCTETS],
    name: &[u8; N],
    inputs: u64,
    stamp: u32,
) -> usize
    requires { N ≤ NAME_OCTETS }
    ensures start { result ≤ LINE_OCTETS }
    ensures text { drop result line.new ≡ levels_text name.now inputs stamp }
{
    let inputs = inputs_to_octets(inputs);
    let end = line_end(line);
    put_pieces!(*line, end; (name) b" inputs " [&inputs] b" stamp " {stamp} b"\n")
}

/// Puts the first line of a block answer.
#[inline(always)]
pub(crate) fn put_block_head(
    line: &mut [u8; LINE_OCTETS],
    block: u8,
    count: usize,
    status: u8,
    stamp: u32,
) -> usize
    ensures start { result ≤ LINE_OCTETS }
    ensures text { drop result line.new ≡ block_head_text block count status stamp }
{
    let end = line_end(line);
    put_pieces!(
        *line, end;
        b"block " {block} b" entries " {count as u64}
        b" status " [status] b" stamp " {stamp} b"\n"
    )
}

/// Returns the line of an entry of a block answer with this stamp, in the form that `EntryLines::line` returns.
// Inlined, since it is called for each entry.
#[inline(always)]
pub(crate) fn entry_line(entry_lines: &mut EntryLines, entry: Entry, stamp: u32) -> (&[u8], usize)
    ensures room { length result.0.now ≡ ENTRY_OCTETS }
    ensures within { result.1 ≤ ENTRY_OCTETS }
    ensures line { take result.1 result.0.now ≡ entry_text stamp entry }
{
    let wide = widen(stamp, entry.stamp);
    entry_lines.line(b"  ", entry, wide)
}
