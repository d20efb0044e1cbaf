//! The stamps of answers and of frames that are heard.
ghost use Rattle.std.specs.Prelude.{◌≡◌};
ghost use Rattle.fio_message.specs.Views.{answer_of};
ghost use Rattle.fio_check.specs.LinkJudges.{any_stamp_in, any_stamp_of, stamp_in};

use crate::content_above::stamp_of;
use fio_message::{AnswerView, read_answer};

/// Returns the stamp of an answer, also of a repeated block.
pub(crate) fn any_stamp_of(answer: &AnswerView<'_>) -> Option<u32>
    ensures { result ≡ any_stamp_of (answer_of answer.now) }
{
    match *answer {
        AnswerView::Block { stamp, .. } => Some(stamp),
        _ => stamp_of(answer),
    }
}

/// Returns the stamp of a frame that is heard, also of a repeated block.
pub(crate) fn any_stamp_in(from_cpu: bool, octets: &[u8]) -> Option<u32>
    ensures { result ≡ any_stamp_in from_cpu octets.now }
{
    if from_cpu {
        return None;
    }
    match read_answer(octets) {
        Ok(answer) => any_stamp_of(&answer),
        Err(_) => None,
    }
}

/// Returns the stamp of a frame that is heard, unless it is a repeated block.
pub(crate) fn stamp_in(from_cpu: bool, octets: &[u8]) -> Option<u32>
    ensures { result ≡ stamp_in from_cpu octets.now }
{
    if from_cpu {
        return None;
    }
    match read_answer(octets) {
        Ok(answer) => stamp_of(&answer),
        Err(_) => None,
    }
}
