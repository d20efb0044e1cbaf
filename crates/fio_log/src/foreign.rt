//! Messages that this protocol has not: of other types, or of modules of another size.
ghost use Rattle.std.specs.Prelude.{◌≡◌};
ghost use Rattle.fio_log.specs.Foreign.{levels_of, data_octets, size_octets};

use crate::header::{FrameHeader, NO_HEADER};
use fio_form::{LineForm, Octets, Size, framed_in, is_answer, size_of};

/// A message that this protocol has not.
#[derive(Clone, Copy, Debug, PartialEq, Eq)]
pub(crate) struct Foreign {
    /// Its type; 0 if there is no such message.
    pub code: u8,
    /// If this protocol has that type, how many octets of inputs it has, or of outputs; else 0.
    pub octets: u8,
}

/// No such message.
pub(crate) const NONE: Foreign = Foreign { code: 0, octets: 0 };

impl Foreign {
    /// Returns the header of a line with such a message, which has no other one.
    pub(crate) fn header(self) -> FrameHeader {
        FrameHeader {
            control: self.octets,
            ..NO_HEADER
        }
    }
}

/// Returns how many octets of levels an answer has with this many octets after its type: they are before a stamp of four, and are 1
/// to 32; else 0.
fn levels_of(count: usize) -> u8
    ensures { result ≡ levels_of count }
{
    if count < 5 || count > 36 {
        0
    } else {
        (count - 4) as u8
    }
}

/// Returns how many data octets a command has with this many octets after its type: as many control octets follow, 1 to 32; else 0.
fn data_octets(count: usize) -> u8
    ensures { result ≡ data_octets count }
{
    if count == 0 || count > 64 || count % 2 == 1 {
        0
    } else {
        (count / 2) as u8
    }
}

/// Returns how many octets of inputs or outputs a message has, if it may be one of a module of some size; else 0.
fn size_octets(message: &[u8]) -> u8
    ensures { result ≡ size_octets message.now }
{
    match message {
        [180 | 181, rest @ ..] => levels_of(rest.len()),
        [55, rest @ ..] => data_octets(rest.len()),
        _ => 0,
    }
}

/// Returns whether octets may be a message of this protocol and another one: its answer, or one of a known length.
fn may_be_two(octets: &[u8]) -> bool {
    match size_of(octets) {
        Size::Known(size) if size < octets.len() => {
            let (_, rest) = octets.split_at(size);
            size_of(rest) == Size::Known(rest.len()) || is_answer(octets, rest)
        }
        _ => false,
    }
}

/// Returns a message of a module of another size, if these octets are one.
fn of_size(message: &[u8]) -> Foreign {
    let octets = size_octets(message);
    match message {
        [code, ..] if octets > 0 && octets != 8 && !may_be_two(message) => Foreign {
            code: *code,
            octets,
        },
        _ => NONE,
    }
}

/// Returns the message of a module of another size that the octets of a form are after those before their message, if they are one.
fn of_size_in(form: &LineForm, octets: &[u8]) -> Foreign {
    if form.is_framed {
        let mut held = Octets::new();
        return if framed_in(octets, &mut held) {
            of_size(&held)
        } else {
            NONE
        };
    }
    let after = usize::from(form.after);
    if form.is_swapped || octets.len() < after {
        return NONE;
    }
    let (message, _) = octets.split_at(octets.len() - after);
    of_size(message)
}

/// Returns the message that this protocol has not and that the octets of a form are, or begin if it has none of that type. If the line
/// is cut, they are none of another size.
pub(crate) fn foreign_in(form: &LineForm, octets: &[u8], is_cut: bool) -> Foreign {
    let (_, octets) = octets.split_at(octets.len().min(usize::from(form.before)));
    let message = match octets {
        [0x7e, _, _, message @ ..] if form.is_framed => message,
        [_, _, message @ ..] if form.is_framed => message,
        _ => octets,
    };
    match message {
        [code, ..] if size_of(message) == Size::None => Foreign {
            code: *code,
            octets: 0,
        },
        _ if is_cut => NONE,
        _ => of_size_in(form, octets),
    }
}
