//! The lines of a transcript, read from its text.
ghost use Rattle.std.specs.Prelude.{◌≡◌, ◌≢◌, Ok, Err, None, IfOk, IfErr, IfSome, IfNone, is_ok, true};
ghost use Rattle.fio_tool.specs.Transcript.{HasFrameToKeep, frame_in, frame_with, line_in, transcript_in};

use fio_check::Line;
use fio_message::Memory;
use fio_text::{BadLine, after_prefix, is_octets, numbered_lines, read_octets};
use std::alloc::{AllocFailed, Global};
use std::fmt;
use std::fmt::{Display, Formatter};
use thiserror::Error;

/// Why a text is not a transcript.
#[derive(Clone, Copy, Debug, PartialEq, Eq, Hash, Error)]
pub enum TraceError {
    /// A line that has content is not a frame. It is the first such line.
    BadLine {
        /// The number of the line in the text, from 1.
        line: usize,
    },
    /// An allocation failed, for a line. Each line before it is a frame.
    Memory,
}

impl Display for TraceError {
    ghost use Rattle.std.specs.Prelude.{Some};
    ghost use Rattle.fio_tool.specs.Check.{trace_error_text};

    ghost output = { λ fault. Some (trace_error_text fault) };

    fn fmt<W: fmt::Write>(&self, f: &mut Formatter<W>) -> fmt::Result {
        match *self {
            TraceError::BadLine { line } => BadLine { line }.fmt(f),
            TraceError::Memory => Memory.fmt(f),
        }
    }
}

impl From<Memory> for TraceError {
    ghost use Rattle.fio_tool.specs.declared.transcript.lines.TraceError.TheVariants as faults;

    ghost from_gives = { λ _ fault. fault ≡ faults.Memory };

    fn from(_fault: Memory) -> TraceError {
        TraceError::Memory
    }
}

impl<T: Drop> From<AllocFailed<T>> for TraceError {
    ghost use Rattle.fio_tool.specs.declared.transcript.lines.TraceError.TheVariants as faults;

    ghost from_gives = { λ _ fault. fault ≡ faults.Memory };

    fn from(_fault: AllocFailed<T>) -> TraceError {
        TraceError::Memory
    }
}

/// Returns the lines of a transcript: each line of the text that is neither empty nor begins with
/// `#` is `> HEX`, a frame that the CPU sent, or `< HEX`, one that it heard. A text of any length
/// is read.
///
/// # Errors
/// The first that applies: `BadLine` for the first line that is neither; `Memory` if there was none for a line. Room for a
/// line is requested only when it is known to be a frame, so `Memory` is never returned for a bad line or for a line after
/// one.
pub fn read_trace(alloc: Global, text: &[u8]) -> Result<Vec<Line>, TraceError>
    ensures ok { IfOk result (λ lines. transcript_in text.now ≡ Ok lines.items) }
    ensures err { IfErr result (λ fault. fault ≢ TraceError.Memory
        → transcript_in text.now ≡ Err fault) }
    ensures memory { result ≡ Err TraceError.Memory → HasFrameToKeep text.now }
{
    let mut lines = Vec::new(alloc);
    'lines: for (number, line) in numbered_lines(text, 1) {
        let line = read_line(alloc, number, line)?;
        lines.push(line)?;
    }
    Ok(lines)
}

/// Returns the line of a transcript that a line with this number is.
fn read_line(alloc: Global, number: usize, line: &[u8]) -> Result<Line, TraceError>
    ensures ok { IfOk result (λ found. line_in (number, line.now) ≡ Ok found) }
    ensures err { IfErr result (λ fault. fault ≢ TraceError.Memory
        → line_in (number, line.now) ≡ Err fault) }
    ensures memory { result ≡ Err TraceError.Memory
        → is_ok (line_in (number, line.now)) ≡ true }
{
    let Some((from_cpu, word)) = frame_word(line) else {
        return Err(TraceError::BadLine { line: number });
    };
    if !is_octets(word) {
        return Err(TraceError::BadLine { line: number });
    }
    let Some(octets) = read_octets(alloc, word)? else {
        return Err(TraceError::BadLine { line: number });
    };
    Ok(Line {
        number,
        from_cpu,
        octets,
    })
}

/// Returns whether the CPU sent the frame of a line, and the digits of its octets; `None` if the line begins neither with `>
/// ` nor with `< `.
pub(crate) fn frame_word(line: &[u8]) -> Option<(bool, &[u8])>
    ensures none { IfNone result (frame_in line.now ≡ None) }
    ensures some { IfSome result (λ found. frame_in line.now ≡ frame_with found.0 found.1.now) }
{
    match (after_prefix(line, b"> "), after_prefix(line, b"< ")) {
        (Some(word), _) => Some((true, word)),
        (None, Some(word)) => Some((false, word)),
        (None, None) => None,
    }
}
