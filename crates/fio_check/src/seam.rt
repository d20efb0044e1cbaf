//! What is between two block answers of a log, one directly below the other: whether the transitions of the lower one follow
//! those of the upper one in the module's list, as far as the log shows it.
ghost use Rattle.std.specs.Prelude.{◌≡◌};
ghost use Rattle.fio_message.specs.Views.{answer_of};
ghost use Rattle.fio_check.specs.Stretches.{cause_between, cause_of_step, does_go_back, milliseconds_below, says_same, told_block, told_block_in};

use fio_message::{AnswerView, BlockStatus, read_answer};

/// An hour, in milliseconds: a stamp of the counter's first hour below one of its last is no step back, since the counter ended.
const HOUR: u32 = 3_600_000;

/// Why a stretch ends above a block answer.
#[derive(Clone, Copy, Debug, PartialEq, Eq, Hash)]
pub enum SeamCause {
    /// Blocks were made that are not in the log: at least one, and so many with a CPU that passes over no number.
    Missing(u8),
    /// The module never got a poll of the numbers between, so these are no blocks. What it said to other polls is not known.
    PassedOver,
    /// The log does not show whether the transitions follow.
    Unknown,
    /// The module was restarted: what waited in it then is not recorded.
    Restart,
    /// The block breaks a rule on what entries say.
    Disbelieved,
}

/// What a block answer says, but for its entries.
#[derive(Clone, Copy, Debug, PartialEq, Eq, Hash)]
pub struct ToldBlock {
    /// The stamp, in milliseconds.
    pub stamp: u32,
    /// How many entries it has.
    pub entries: u8,
    /// The number.
    pub number: u8,
    /// The status octet.
    pub status: u8,
}

impl ToldBlock {
    /// Returns what octets say, if they spell a block answer.
    pub fn of(octets: &[u8]) -> Option<ToldBlock>
        ensures { result ≡ told_block octets.now }
    {
        match read_answer(octets) {
            Ok(answer) => ToldBlock::in_answer(&answer),
            Err(_) => None,
        }
    }

    /// Returns what an answer says, if it is a block.
    fn in_answer(answer: &AnswerView<'_>) -> Option<ToldBlock>
        ensures { result ≡ told_block_in (answer_of answer.now) }
    {
        match *answer {
            AnswerView::Block {
                block,
                entries,
                status,
                stamp,
            } => Some(ToldBlock {
                stamp,
                entries: entries.len() as u8,
                number: block,
                status,
            }),
            _ => None,
        }
    }

    /// Returns whether E is set, and number, stamp, C and F are those of the block above.
    pub(crate) fn says_same(self, above: ToldBlock) -> bool
        ensures { result ≡ says_same above self }
    {
        let (here, there) = (
            BlockStatus::from_octet(self.status),
            BlockStatus::from_octet(above.status),
        );
        here.again()
            && self.number == above.number
            && self.stamp == above.stamp
            && here.more() == there.more()
            && here.lost() == there.lost()
    }

    /// Returns whether the stamp is before that of the block above, and the counter did not end between the two.
    pub(crate) fn does_go_back(self, above: ToldBlock) -> bool
        ensures { result ≡ does_go_back above self }
    {
        let has_ended = above.stamp >= 0_u32.wrapping_sub(HOUR) && self.stamp < HOUR;
        self.stamp < above.stamp && !has_ended
    }

    /// Returns how many milliseconds the stamp is after that of the block above; 0 if it goes back.
    pub(crate) fn milliseconds_below(self, above: ToldBlock) -> u32
        ensures { result ≡ milliseconds_below above self }
    {
        if self.does_go_back(above) {
            0
        } else {
            self.stamp.wrapping_sub(above.stamp)
        }
    }

    /// Returns why the transitions of the block do not follow those of the block above, which is another one; `None` if they do.
    /// `is_loaded` says that the counter may have been loaded between the two.
    pub(crate) fn cause_below(self, above: ToldBlock, is_loaded: bool) -> Option<SeamCause>
        ensures { result ≡ cause_between above is_loaded self }
    {
        if self.does_go_back(above) {
            return Some(if is_loaded {
                SeamCause::Unknown
            } else {
                SeamCause::Restart
            });
        }
        cause_of_step(
            self.number.wrapping_sub(above.number),
            BlockStatus::from_octet(self.status),
        )
    }
}

/// Returns why transitions do not follow, by how far the number of their block is above that of the block above, and by its status.
fn cause_of_step(step: u8, status: BlockStatus) -> Option<SeamCause>
    ensures { result ≡ cause_of_step step status }
{
    match step {
        0 => Some(SeamCause::Restart),
        1 if status.out_of_sequence() => Some(SeamCause::Unknown),
        1 => None,
        _ if status.again() => Some(SeamCause::Unknown),
        2 if status.out_of_sequence() => None,
        _ if status.out_of_sequence() => Some(SeamCause::PassedOver),
        _ => Some(SeamCause::Missing(step - 1)),
    }
}
