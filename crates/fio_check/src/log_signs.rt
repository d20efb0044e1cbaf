//! Signs that a log is not the log of one link in order: what kind of log it looks like.
ghost use Rattle.std.specs.Prelude.{◌≡◌};
ghost use Rattle.fio_check.specs.LogSigns.{no_signs, sign_of, signs_with};

use crate::block_order::{BlockOrder, BlockSeen};
use crate::block_rows::BlockRows;
use crate::left_out::LeftOutBlocks;
use crate::observation::Observation;
use crate::repeated_frames::RepeatedFrames;

/// What kind of log a log looks like, if not the whole log of one link in order.
#[derive(Clone, Copy, Debug, PartialEq, Eq, Hash)]
pub enum LogSign {
    /// Each frame occurs twice.
    Twice,
    /// The logs of both ends are merged.
    BothEnds,
    /// The last line is first.
    Reversed,
    /// The log has two links.
    TwoLinks,
    /// The log is that of one link in order, but the block answers without entries are left out.
    EmptyLeftOut,
}

/// Counts of the frames of a log, which show whether it looks like something else than the log of one link in order. No judge
/// reads them.
///
/// # Examples
///
/// ```rust
/// use fio_check::{LogSign, LogSigns};
///
/// let mut signs = LogSigns::new();
/// for number in 0..4_u8 {
///     signs.frame(false, None, &[0xb6, number, 0, 0, 0, 0, 0, number]);
///     signs.frame(false, None, &[0xb6, number, 0, 0, 0, 0, 0, number]);
/// }
/// assert_eq!(rt; signs.sign(), Some(LogSign::Twice));
/// ```
#[derive(Debug, Drop)]
pub struct LogSigns {
    /// The answers with the octets of the frame directly above.
    pub frames: RepeatedFrames,
    /// The order of the block answers.
    pub order: BlockOrder,
    /// The rows of the block answers' numbers.
    pub rows: BlockRows,
    /// The polls whose answers are not in the log.
    pub left_out: LeftOutBlocks,
}

impl LogSigns {
    /// Returns the counts above the first frame.
    pub fn new() -> LogSigns
        ensures { result ≡ no_signs }
    {
        LogSigns {
            frames: RepeatedFrames::new(),
            order: BlockOrder::new(),
            rows: BlockRows::new(),
            left_out: LeftOutBlocks::new(),
        }
    }

    /// Takes a frame. `from_cpu` says whether the CPU's end sent it, and `said` whether its line says so, if the line names
    /// the sender.
    pub fn frame(&mut self, from_cpu: bool, said: Option<bool>, octets: &[u8])
        ensures { self.new ≡ signs_with self.old from_cpu said octets.now }
    {
        self.frames.add(from_cpu, said, octets);
        self.left_out.add(Observation::of(from_cpu, octets));
        if let Some(block) = BlockSeen::of(from_cpu, octets) {
            self.order.add(block);
            self.rows.add(block.number);
        }
    }

    /// Returns what kind of log the log looks like, the first that fits; `None` for the whole log of one link in order.
    pub fn sign(&self) -> Option<LogSign>
        ensures { result ≡ sign_of self.now }
    {
        if self.frames.is_twice() {
            if self.frames.is_of_both_ends() {
                Some(LogSign::BothEnds)
            } else {
                Some(LogSign::Twice)
            }
        } else if self.order.is_reversed() {
            Some(LogSign::Reversed)
        } else if self.rows.are_two_links(self.order.blocks) {
            Some(LogSign::TwoLinks)
        } else if self.left_out.are_left_out(self.order.blocks) {
            Some(LogSign::EmptyLeftOut)
        } else {
            None
        }
    }
}
