//! Reading all input and writing all output. The calls of std that read to the end or write everything try an interrupted
//! call again; here each error is final.
ghost use Rattle.std.specs.Prelude.{◌≡◌, IfOk, IfErr, OnOk};
ghost use Rattle.std.specs.Io.KnownBytes.{Appends};
ghost use Rattle.fio_tool.specs.Streams.{TakesAtMost, TakesInput};
ghost use Rattle.fio_tool.specs.Program.{ending_of};

use crate::endings::{Ending, ToolFault};
use crate::reports::MAX_INPUT;
use fio_text::Report;
use std::alloc::Global;
use std::io::{Read, Write};

/// The most octets that are read: one more than an input may have is enough to know that it is too long.
pub(crate) const MOST_READ: usize = MAX_INPUT + 1;

/// The most octets that are read at a time.
const READ: usize = 65_536;

/// Returns the whole input, or the front of one that is too long.
pub(crate) fn read_input<R: Read>(alloc: Global, reader: &mut R) -> Result<Vec<u8>, ToolFault>
    ensures ok { IfOk result (λ input.
        TakesInput (R.remaining reader.old) (R.remaining reader.new) input.items) }
    ensures taken { TakesAtMost MOST_READ (R.remaining reader.old) (R.remaining reader.new) }
{
    let mut input = Vec::new(alloc);
    let mut buffer = [0u8; READ];
    'reads: while input.len() < MOST_READ {
        let room = buffer.len().min(MOST_READ - input.len());
        let Ok(count) = reader.read(&mut buffer[..room]) else {
            return Err(ToolFault::Read);
        };
        if count == 0 {
            break;
        }
        input.extend_from_slice(&buffer[..count])?;
    }
    Ok(input)
}

/// Writes the text of a report and nothing else, and returns how the tool ends.
pub(crate) fn write_report<W: Write>(writer: &mut W, report: &Report) -> Result<Ending, ToolFault>
    ensures ok { OnOk result
        (Appends (W.contents writer.old) (W.contents writer.new) report.now.text.items) }
    ensures ending { IfOk result (λ ending. ending ≡ ending_of report.now.good) }
    ensures err { IfErr result (λ fault. fault ≡ ToolFault.Write) }
{
    write_text(writer, report.text.as_slice())?;
    if report.good {
        Ok(Ending::Good)
    } else {
        Ok(Ending::Bad)
    }
}

/// Writes a whole text, and then flushes.
pub(crate) fn write_text<W: Write>(writer: &mut W, text: &[u8]) -> Result<(), ToolFault>
    ensures ok { OnOk result (Appends (W.contents writer.old) (W.contents writer.new) text.now) }
    ensures err { IfErr result (λ fault. fault ≡ ToolFault.Write) }
{
    let mut rest = text;
    'writes: while !rest.is_empty() {
        let Ok(count) = writer.write(rest) else {
            return Err(ToolFault::Write);
        };
        if count == 0 {
            return Err(ToolFault::Write);
        }
        rest = &rest[count..];
    }
    if writer.flush().is_err() {
        return Err(ToolFault::Write);
    }
    Ok(())
}
