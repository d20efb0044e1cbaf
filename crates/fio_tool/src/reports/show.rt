//! What a text of frames says, line by line.
ghost use Rattle.std.specs.Prelude.{◌≡◌, ◌≢◌, ◌⊎◌, ◌++◌, [], codes, is_ok, false, true, Err, OnOk, OnErr, IfOk};
ghost use Rattle.fio_text.specs.Lines.{lines_of, numbered};
ghost use Rattle.fio_tool.specs.InputFaults.{is_too_long, line_fault_text};
ghost use Rattle.fio_tool.specs.Show.{is_line_good, is_show_good, line_text, show_text, text_at};
ghost use Rattle.fio_show.specs.FrameLines.{shown_frame};
ghost use Rattle.fio_show.specs.FurtherLines.{further_text};

use super::{is_too_long, report_too_long};
use fio_message::{DecodeError, FRAME_OCTETS, Memory};
use fio_show::{FurtherLines, LINE_OCTETS, append_further, put_frame};
use fio_text::{Report, append_line, numbered_lines, push_line, read_octets_to};
use std::alloc::{AllocError, Global};

/// The number of octets of text to expect for each octet of input: an entry of a block, six digits, gives a line of at most
/// 46 octets.
const EXPECTED: usize = 8;

/// Returns the text that reports each line of the input. A line of octets in hexadecimal digits is reported as the message
/// that they encode: an answer if the first octet is 128 or more, otherwise a command. A line that encodes no message gives
/// `line N: ` and its fault. Lines that are empty or begin with `#` give nothing. An input of more than 1,048,576 octets
/// gives the one line `input too long`.
///
/// # Errors
/// `Memory` if an allocation failed: only if some line of the input gives a text, or the input is too long.
pub fn show_text(alloc: Global, input: &[u8]) -> Result<Report, Memory>
    ensures text { IfOk result (λ report. report.text.items ≡ show_text input.now) }
    ensures good { IfOk result (λ report. report.good ≡ is_show_good input.now) }
    ensures memory { OnErr result ((is_too_long input.now ≡ true)
        ⊎ (numbered 1 (lines_of input.now) ≢ [])) }
{
    if is_too_long(input) {
        return report_too_long(alloc);
    }
    let mut text = Vec::new(alloc);
    let mut room = [0; FRAME_OCTETS];
    let mut good = true;
    'lines: for (number, line) in numbered_lines(input, 1) {
        if text.capacity() == 0 {
            text.reserve(EXPECTED * input.len())?;
        }
        let said = push_line_text(&mut text, &mut room, number, line)?;
        good &= said;
    }
    Ok(Report { text, good })
}

/// Appends the text of a numbered line, whose octets are read into room for the longest frame, and returns whether the line
/// has no fault.
fn push_line_text(
    text: &mut Vec<u8>,
    room: &mut [u8; FRAME_OCTETS],
    number: usize,
    line: &[u8],
) -> Result<bool, Memory>
    ensures text { OnOk result (text.new.items
        ≡ text.old.items ++ line_text (number, line.now)) }
    ensures good { IfOk result (λ good. good ≡ is_line_good (number, line.now)) }
{
    match read_octets_to(line, room) {
        None => push_fault(text, number, "bad line"),
        Some(got) if got > room.len() => {
            push_fault(text, number, DecodeError::TooLong { got }.words().as_str())
        }
        Some(count) => push_frame(text, number, &room[..count]),
    }
}

/// Appends the text of a frame on the line with this number, and returns whether it has no fault.
fn push_frame(text: &mut Vec<u8>, number: usize, octets: &[u8]) -> Result<bool, Memory>
    ensures text { OnOk result (text.new.items
        ≡ text.old.items ++ text_at number (shown_frame octets.now)) }
    ensures good { IfOk result (λ good. good ≡ is_ok (shown_frame octets.now)) }
{
    let mut line = [0; LINE_OCTETS];
    match put_frame(&mut line, octets) {
        Ok((start, further)) => {
            append_line(text, &line, start)?;
            push_further(text, &mut line, further)?;
            Ok(true)
        }
        Err(fault) => push_fault(text, number, fault.words().as_str()),
    }
}

/// Appends what follows the first line of a message. Its lines are put together in this room.
// Inlined, since most messages have one line.
#[inline(always)]
fn push_further(
    text: &mut Vec<u8>,
    line: &mut [u8; LINE_OCTETS],
    further: FurtherLines<'_>,
) -> Result<(), AllocError>
    ensures { OnOk result (text.new.items ≡ text.old.items ++ further_text further.entry) }
{
    match further {
        FurtherLines::Nothing => Ok(()),
        _ => push_lines(text, line, further),
    }
}

/// Appends further lines as `append_further` does.
// Not inlined, so that its loops have all the registers.
#[inline(never)]
fn push_lines(
    text: &mut Vec<u8>,
    line: &mut [u8; LINE_OCTETS],
    further: FurtherLines<'_>,
) -> Result<(), AllocError>
    ensures { OnOk result (text.new.items ≡ text.old.items ++ further_text further.entry) }
{
    append_further(text, line, further)
}

/// Appends the line that reports a fault, and returns `false`: the line is faulty.
fn push_fault(text: &mut Vec<u8>, number: usize, fault: &str) -> Result<bool, Memory>
    ensures text { OnOk result (text.new.items
        ≡ text.old.items ++ line_fault_text number fault.now) }
    ensures good { IfOk result (λ good. good ≡ false) }
{
    push_line!(text; b"line " {number as u64} b": ")?;
    text.extend_from_slice(fault.as_bytes())?;
    text.extend_from_slice(b"\n")?;
    Ok(false)
}
