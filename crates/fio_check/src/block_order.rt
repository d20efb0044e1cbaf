//! The order of the block answers of a log: how many seem to belong before the block answer above.
ghost use Rattle.std.specs.Prelude.{◌≡◌, None};
ghost use Rattle.fio_message.specs.Decoding.{answer_in};
ghost use Rattle.fio_message.specs.Views.{answer_of};
ghost use Rattle.fio_check.specs.LogSigns.{block_seen, block_seen_in, is_backward, is_reversed, no_blocks, order_with};

use crate::content_times::is_later;
use crate::repeated_frames::one_more_if;
use fio_message::{AnswerView, read_answer};

/// The number and the stamp of a block answer.
#[derive(Clone, Copy, Debug, PartialEq, Eq, Hash)]
pub struct BlockSeen {
    /// The block answer's number.
    pub number: u8,
    /// The block answer's stamp, in milliseconds.
    pub stamp: u32,
}

impl BlockSeen {
    /// Returns the number and the stamp of a frame, if it is a block answer.
    pub fn of(from_cpu: bool, octets: &[u8]) -> Option<BlockSeen>
        ensures { result ≡ block_seen from_cpu octets.now }
    {
        if from_cpu {
            return None;
        }
        match read_answer(octets) {
            Ok(answer) => BlockSeen::in_answer(&answer),
            Err(_) => None,
        }
    }

    /// Returns the number and the stamp of an answer, if it is a block answer.
    fn in_answer(answer: &AnswerView<'_>) -> Option<BlockSeen>
        ensures { result ≡ block_seen_in (answer_of answer.now) }
    {
        match *answer {
            AnswerView::Block { block, stamp, .. } => Some(BlockSeen {
                number: block,
                stamp,
            }),
            _ => None,
        }
    }

    /// Returns whether the block answer has the number before that of the block answer above, and no later stamp.
    fn is_backward(self, above: BlockSeen) -> bool
        ensures { result ≡ is_backward self above }
    {
        above.number == self.number.wrapping_add(1) && !is_later(self.stamp, above.stamp)
    }
}

/// What is kept of the block answers above, to detect a log whose last line is first.
#[derive(Clone, Copy, Debug, PartialEq, Eq, Hash)]
pub struct BlockOrder {
    /// The latest block answer.
    pub above: Option<BlockSeen>,
    /// The number of block answers, up to 2^32 - 1.
    pub blocks: u32,
    /// How many of them seem to belong before the one above, up to 2^32 - 1.
    pub backward: u32,
}

impl BlockOrder {
    /// Returns what is kept above the first frame.
    pub fn new() -> BlockOrder
        ensures { result ≡ no_blocks }
    {
        BlockOrder {
            above: None,
            blocks: 0,
            backward: 0,
        }
    }

    /// Takes a block answer.
    pub fn add(&mut self, block: BlockSeen)
        ensures { self.new ≡ order_with self.old block }
    {
        let backward = match self.above {
            Some(above) => block.is_backward(above),
            None => false,
        };
        self.above = Some(block);
        self.blocks = one_more_if(true, self.blocks);
        self.backward = one_more_if(backward, self.backward);
    }

    /// Returns whether the log seems to have its last line first: of 8 or more block answers more than half seem to belong
    /// before the one above.
    pub fn is_reversed(&self) -> bool
        ensures { result ≡ is_reversed self.now }
    {
        let (blocks, backward) = (self.blocks, self.backward);
        blocks >= 8 && 2 * u64::from(backward) > u64::from(blocks)
    }
}
