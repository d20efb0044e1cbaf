//! What the maker of a module answers himself: commands 56, 57 and 59, and 60 if its identification is to have another length
//! than the one octet of `Module::receive`.
ghost use Rattle.std.specs.Prelude.{Some};
ghost use Rattle.fio_module.specs.Makers.{answer_refusal_text};

use std::fmt;
use std::fmt::{Display, Formatter};
use thiserror::Error;

/// A command that the maker of a module answers, read in place.
#[derive(Clone, Copy, Debug)]
pub struct MakersCommand<'a> {
    /// The type: 56, 57, 59 or 60.
    pub code: u8,
    /// The octets after the type, at most 772; after 60 none.
    pub body: &'a [u8],
}

/// Why an answer of the maker is refused.
#[derive(Clone, Copy, Debug, PartialEq, Eq, Error)]
pub enum AnswerRefusal {
    /// No answer is awaited: the octets that were asked about last are no command of the maker, or it was answered.
    NotAwaited,
    /// The answer to a command of another type is awaited.
    OtherAwaited {
        /// The type of that command.
        command: u8,
    },
    /// The body has more octets than the 772 for which a frame has room.
    TooLong {
        /// The number of its octets.
        octets: usize,
    },
}

impl Display for AnswerRefusal {
    ghost output = { λ refusal. Some (answer_refusal_text refusal) };

    fn fmt<W: fmt::Write>(&self, f: &mut Formatter<W>) -> fmt::Result {
        match *self {
            AnswerRefusal::NotAwaited => f.write_str("no answer is awaited"),
            AnswerRefusal::OtherAwaited { command } => {
                write!(f, "the answer to command {command} is awaited")
            }
            AnswerRefusal::TooLong { octets } => write!(f, "a body of {octets} octets is too long"),
        }
    }
}
