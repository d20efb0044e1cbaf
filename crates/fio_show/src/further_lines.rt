//! What follows the first line of a message, and how it is appended to a text.
ghost use Rattle.std.specs.Prelude.{◌≡◌, ◌≤◌, ◌++◌, ◌*◌, length, codes, OnOk};
ghost use Rattle.std.specs.List.{flat_map};
ghost use Rattle.fio_message.specs.Views.{body_of, entries_of, items_of};
ghost use Rattle.fio_message.specs.declared.limits.TheConstants.{BODY_OCTETS};
ghost use Rattle.fio_text.specs.Digits.{digits_of};
ghost use Rattle.fio_show.specs.AnswerLines.{entry_text};
ghost use Rattle.fio_show.specs.CommandLines.{body_text, item_text};
ghost use Rattle.fio_show.specs.FurtherLines.{further_text};
ghost use Rattle.fio_show.specs.declared.further_lines.TheConstants.{MOST_OCTETS, PART};

use crate::entry_lines::EntryLines;
use crate::lines::{entry_line, put_item};
use crate::sink::TextSink;
use fio_message::{BodyView, EntriesView, ItemsView};
use fio_text::{LINE_OCTETS, line_end, put_hexadecimal};

/// What follows the first line of a message.
#[derive(Clone, Copy, Debug)]
pub enum FurtherLines<'a> {
    /// Nothing follows.
    Nothing,
    /// A line for each item of a configuration.
    Items {
        /// The items.
        items: ItemsView<'a>,
    },
    /// A line for each entry of a block answer.
    Entries {
        /// The entries.
        entries: EntriesView<'a>,
        /// The stamp of the answer.
        stamp: u32,
    },
    /// The octets of a body in hexadecimal digits, or a dash if it has none, and a line feed.
    Body {
        /// The octets after the type.
        body: BodyView<'a>,
    },
}

/// The most octets that follow a first line: a message has at most 255 items or entries.
const MOST_OCTETS: usize = 255 * LINE_OCTETS;

/// How many octets of a body are appended at a time: their digits fill the room for a line.
const PART: usize = 64;

/// Appends what follows the first line of a message. Its lines are put together in the room `line`.
///
/// # Errors
/// The fault of the sink.
// Inlined, since most messages have one line.
#[inline(always)]
pub fn append_further<S: TextSink>(
    sink: &mut S,
    line: &mut [u8; LINE_OCTETS],
    further: FurtherLines<'_>,
) -> Result<(), S::Fault>
    requires { S.has_room sink.old MOST_OCTETS }
    ensures { OnOk result (S.takes sink.old (further_text further.entry) sink.new) }
{
    match further {
        FurtherLines::Nothing => Ok(()),
        FurtherLines::Items { items } => append_items(sink, line, items),
        FurtherLines::Entries { entries, stamp } => append_entries(sink, entries, stamp),
        FurtherLines::Body { body } => append_body(sink, line, body),
    }
}

/// Appends the lines of the items of a configuration.
fn append_items<S: TextSink>(
    sink: &mut S,
    line: &mut [u8; LINE_OCTETS],
    items: ItemsView<'_>,
) -> Result<(), S::Fault>
    requires { S.has_room sink.old MOST_OCTETS }
    ensures { OnOk result (S.takes sink.old (flat_map item_text (items_of items.entry)) sink.new) }
{
    'items: for item in items.iter() {
        let start = put_item(line, item);
        sink.append(&line[start..])?;
    }
    Ok(())
}

/// Appends the lines of the entries of a block answer with this stamp.
fn append_entries<S: TextSink>(
    sink: &mut S,
    entries: EntriesView<'_>,
    stamp: u32,
) -> Result<(), S::Fault>
    requires { S.has_room sink.old MOST_OCTETS }
    ensures { OnOk result
        (S.takes sink.old (flat_map (entry_text stamp) (entries_of entries.entry)) sink.new) }
{
    let mut entry_lines = EntryLines::new();
    'entries: for entry in entries.iter() {
        let (line, count) = entry_line(&mut entry_lines, entry, stamp);
        sink.append_front(line, count)?;
    }
    Ok(())
}

/// Appends the octets of a body, or a dash if it has none, and the line end.
fn append_body<S: TextSink>(
    sink: &mut S,
    line: &mut [u8; LINE_OCTETS],
    body: BodyView<'_>,
) -> Result<(), S::Fault>
    requires { S.has_room sink.old MOST_OCTETS }
    ensures { OnOk result
        (S.takes sink.old (body_text (body_of body.entry) ++ codes "\n") sink.new) }
{
    let octets = body.as_slice();
    if octets.is_empty() {
        return sink.append(b"-\n");
    }
    append_digits(sink, line, octets)?;
    sink.append(b"\n")
}

/// Appends the octets of a body in hexadecimal digits, some at a time: room for all of them would take 1,544 octets of the
/// stack.
fn append_digits<S: TextSink>(
    sink: &mut S,
    line: &mut [u8; LINE_OCTETS],
    octets: &[u8],
) -> Result<(), S::Fault>
    requires few { length octets.now ≤ BODY_OCTETS }
    requires room { S.has_room sink.old MOST_OCTETS }
    ensures text { OnOk result (S.takes sink.old (digits_of octets.now) sink.new) }
    ensures room { OnOk result (S.has_room sink.new 1) }
{
    let mut left = octets;
    'parts: while !left.is_empty() {
        let (part, rest) = left.split_at(left.len().min(PART));
        let end = line_end(line);
        let start = put_hexadecimal(line, end, part);
        sink.append(&line[start..])?;
        left = rest;
    }
    Ok(())
}
