//! What octets say of messages by themselves.
ghost use Rattle.std.specs.Prelude.{◌≡◌, ◌≤◌};
ghost use Rattle.fio_form.specs.Messages.{IsFew, may_answer, is_begun, is_message, size_of};

use fio_message::{read_answer, read_command};

/// How long the message is that octets begin.
#[derive(Clone, Copy, Debug, PartialEq, Eq)]
pub enum Size {
    /// More octets are needed to say.
    Unknown,
    /// This many octets.
    Known(usize),
    /// It is unknown.
    Any,
    /// They begin none.
    None,
}

/// Returns how long the message is that octets begin.
#[tactic(auto, unfolding(crate::specs::Messages::size_of))]
pub fn size_of(octets: &[u8]) -> Size
    ensures size { result ≡ size_of octets.now }
    ensures few { IsFew result }
{
    match octets {
        [] => Size::Unknown,
        [56 | 57 | 59 | 183 | 184 | 185 | 187 | 188, ..] => Size::Any,
        [52 | 53 | 60, ..] => Size::Known(1),
        [49 | 54 | 58 | 178 | 179 | 186, ..] => Size::Known(2),
        [50, ..] => Size::Known(5),
        [55, ..] => Size::Known(17),
        [177, ..] => Size::Known(8),
        [180 | 181, ..] => Size::Known(13),
        [51] | [182] | [182, _] => Size::Unknown,
        [51, count, ..] => Size::Known(2 + 3 * usize::from(*count)),
        [182, _, count, ..] => Size::Known(8 + 3 * usize::from(*count)),
        _ => Size::None,
    }
}

/// Returns whether octets encode one message.
pub fn is_message(octets: &[u8]) -> bool
    ensures { result ≡ is_message octets.now }
{
    if matches!(octets, [128..=255, ..]) {
        read_answer(octets).is_ok()
    } else {
        read_command(octets).is_ok()
    }
}

/// Returns whether octets begin a message and are not all of it.
pub fn is_begun(octets: &[u8]) -> bool
    ensures { result ≡ is_begun octets.now }
{
    match size_of(octets) {
        Size::Unknown => !octets.is_empty(),
        Size::Known(size) => octets.len() < size,
        Size::Any | Size::None => false,
    }
}

/// Returns whether a message may be the answer to a command, by their first octets.
#[tactic(auto, unfolding(crate::specs::Messages::may_answer))]
pub fn is_answer(command: &[u8], answer: &[u8]) -> bool
    ensures { result ≡ may_answer command.now answer.now }
{
    match (command, answer) {
        ([54, block, ..], [182, number, ..]) => block == number,
        ([first, ..], [other, _, ..]) => {
            *first < 128 && *other >= 128 && *other - 128 == *first && *first != 54
        }
        _ => false,
    }
}
