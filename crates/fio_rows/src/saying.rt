//! What the octets of some rows say.
ghost use Rattle.std.specs.Prelude.{◌≡◌, ◌≢◌, ◌&&◌};
ghost use Rattle.fio_form.specs.Messages.{size_of};
ghost use Rattle.fio_rows.specs.Lines.{says_message, is_known, has_offset, has_bare_rows, is_message_begun, is_next, is_message_open, is_message_whole, is_own_message, is_own_row, is_stray, is_stream, offset_after, offset_in, said_unless, says_length};
ghost use Rattle.fio_rows.specs.Rows.{open_after, said_by_whole};

use crate::going_on::{is_full, may_go_on};
use crate::said::Said;
use fio_form::{LineForm, LineRows, Size, Whole, digits_of, number_in, size_of};

/// Whether a message is open.
#[derive(Clone, Copy, Debug, PartialEq, Eq)]
pub enum Open {
    /// None is.
    Nothing,
    /// One whose octets so far are no message yet.
    Begun,
    /// One of any length whose octets so far are a message, which may go on.
    Whole,
}

/// Returns whether a message is open.
pub fn is_open(pending: Open) -> bool
    ensures { result ≡ is_message_open pending }
{
    !matches!(pending, Open::Nothing)
}

/// Returns whether octets are open that are no message yet.
pub fn is_begun(pending: Open) -> bool
    ensures { result ≡ is_message_begun pending }
{
    matches!(pending, Open::Begun)
}

/// Returns whether octets are open that are a message.
pub fn is_whole(pending: Open) -> bool
    ensures { result ≡ is_message_whole pending }
{
    matches!(pending, Open::Whole)
}

/// Returns what a line says with which octets are a whole, of which `row` are in it, before a tail.
pub fn said_by(form: &LineForm, row: usize, tail: &[u8], whole: Whole) -> Said
    ensures exact { result ≡ said_by_whole form.now row tail.now whole }
    ensures some { result ≢ Said.Other }
{
    match whole {
        Whole::Message { .. } => Said::Frame,
        Whole::Any { .. } => if is_full(form, row, tail) {
            Said::Part
        } else {
            Said::Frame
        },
        Whole::Lacking => if may_go_on(form, row, tail) {
            Said::Part
        } else {
            Said::Damaged
        },
        Whole::Idle => if !form.is_framed && may_go_on(form, row, tail) {
            Said::Part
        } else {
            Said::Idle
        },
        Whole::Damaged => Said::Damaged,
    }
}

/// Returns what is open after a line that says this, with which octets are a whole.
pub fn open_after(said: Said, whole: Whole) -> Open
    ensures { result ≡ open_after said whole }
{
    match (said, whole) {
        (Said::Part, Whole::Any { .. }) => Open::Whole,
        (Said::Part, _) => Open::Begun,
        _ => Open::Nothing,
    }
}

/// Returns the offset after this many octets, if it has 64 bits.
pub fn offset_after(offset: Option<u64>, count: usize) -> Option<u64>
    ensures { result ≡ offset_after offset count }
{
    match offset {
        Some(offset) => offset.checked_add(count as u64),
        None => None,
    }
}

/// Returns the offset of a row, if its form has one. The text is the line from the front on.
pub fn offset_in(form: &LineForm, text: &[u8]) -> Option<u64>
    ensures { result ≡ offset_in form.now.rows form.now text.now }
{
    match form.rows {
        LineRows::Offset { number, base, .. } => match digits_of(form, usize::from(number), text) {
            Some(digits) => number_in(digits, base),
            None => None,
        },
        _ => None,
    }
}

/// Returns whether an offset is the one that is next.
pub fn is_next(next: Option<u64>, offset: Option<u64>) -> bool
    ensures { result ≡ is_next next offset }
{
    match (next, offset) {
        (Some(next), Some(offset)) => offset == next,
        _ => false,
    }
}

/// Returns whether the octets of all lines are one stream.
pub fn is_stream(form: &LineForm) -> bool
    ensures { result ≡ is_stream form.now.rows }
{
    matches!(form.rows, LineRows::Stream | LineRows::Flags)
}

/// Returns whether a row of a dump that begins at 0 has another offset.
pub fn is_stray(form: &LineForm, offset: u64) -> bool
    ensures { result ≡ is_stray form.now.rows offset }
{
    match form.rows {
        LineRows::Offset { begins_at_zero, .. } => begins_at_zero && offset != 0,
        _ => false,
    }
}

/// Returns whether each row has an offset.
pub fn has_offset(form: &LineForm) -> bool
    ensures { result ≡ has_offset form.now.rows }
{
    matches!(form.rows, LineRows::Offset { .. })
}

/// Returns whether each row but the first is nothing but octets.
pub fn is_bare(form: &LineForm) -> bool
    ensures { result ≡ has_bare_rows form.now.rows }
{
    matches!(form.rows, LineRows::Bare)
}

/// Returns whether a row that goes on may be a message by itself.
fn is_own(form: &LineForm, row: &[u8]) -> bool
    ensures { result ≡ is_own_message form.now row.now }
{
    !has_offset(form) && row.len() > 1 && size_of(row) == Size::Known(row.len())
}

/// Returns whether the octets above a row say how long the message is: by themselves, or since a frame of the wire has a check.
fn says_length(form: &LineForm, above: &[u8]) -> bool
    ensures { result ≡ says_length form.now above.now }
{
    let before = usize::from(form.before);
    form.is_framed
        || before < above.len() && matches!(size_of(above.split_at(before).1), Size::Known(_))
}

/// Returns whether a row below octets may be a message by itself: those that say where the message ends win.
pub fn is_own_row(form: &LineForm, above: &[u8], row: &[u8]) -> bool
    ensures { result ≡ is_own_row form.now above.now row.now }
{
    !says_length(form, above) && is_own(form, row)
}

/// Returns what a row says that ends a message: if it may be one by itself, it is not known whether it does.
pub fn said_unless(is_own: bool, said: Said) -> Said
    ensures { result ≡ said_unless is_own said }
{
    if is_own && said == Said::Frame {
        Said::Damaged
    } else {
        said
    }
}

/// Returns whether a line says a message of a known length.
pub fn is_sure_frame(said: Said, message: &[u8]) -> bool
    ensures { result ≡ says_message said && is_known (size_of message.now) }
{
    said == Said::Frame && matches!(size_of(message), Size::Known(_))
}
