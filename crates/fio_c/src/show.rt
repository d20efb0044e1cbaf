//! The text of a frame, as `show` of the program writes it.
ghost use Rattle.std.specs.Prelude.{◌≡◌, OnOk};
ghost use Rattle.fio_show.specs.FrameLines.{frame_text};
ghost use Rattle.fio_flat.specs.Written.{Appends, WritesText};

use crate::text_buffer::TextBuffer;
use crate::written::write_at;
use fio_show::{LINE_OCTETS, TextSink, append_further, put_frame};
use std::convert::Infallible;

/// Writes what `fio2070 show` writes of a frame, with a line feed at the end of each line: the lines of
/// the message, of an answer if its first octet is 128 or more, else of a command; or the text of the
/// fault if the octets are no message. A zero octet is written after it. Returns how many octets the
/// text has; without room for it and the zero octet, nothing is written.
#[unsafe(no_mangle)]
pub extern "C" fn fio2070_show(octets: &[u8], text: &mut [u8]) -> usize
    ensures { WritesText (frame_text octets.now) text.old text.new result }
{
    let count = write_lines(octets, &mut []);
    if count < text.len() {
        write_lines(octets, text);
        write_at(count, &[0], text);
    }
    count
}

/// Writes the text of a frame if there is room for all of it, and returns how many octets it has.
fn write_lines(octets: &[u8], text: &mut [u8]) -> usize
    ensures { Appends (frame_text octets.now) text.old text.new 0 result }
{
    let mut buffer = TextBuffer { text, end: 0 };
    match append_frame(&mut buffer, octets) {
        Ok(()) => buffer.end,
        Err(never) => match never {},
    }
}

/// Appends the text of a frame.
// Inlined, so that the buffer stays in registers.
#[inline(always)]
fn append_frame(buffer: &mut TextBuffer<'_>, octets: &[u8]) -> Result<(), Infallible>
    requires { buffer.old.end ≡ 0 }
    ensures same_buffer { OnOk result (buffer.new.text.ghost_name ≡ buffer.old.text.ghost_name) }
    ensures text { OnOk result (Appends (frame_text octets.now)
        buffer.old.text.now buffer.new.text.now buffer.old.end buffer.new.end) }
{
    let mut line = [0; LINE_OCTETS];
    match put_frame(&mut line, octets) {
        Ok((start, further)) => {
            buffer.append(&line[start..])?;
            append_further(buffer, &mut line, further)
        }
        Err(fault) => {
            buffer.append(fault.words().as_str().as_bytes())?;
            buffer.append(b"\n")
        }
    }
}
