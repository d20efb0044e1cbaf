//! Block answers without entries that are left out: polls that have no answer, and below them the next number.
ghost use Rattle.std.specs.Prelude.{◌≡◌};
ghost use Rattle.fio_check.specs.LogSigns.{are_left_out, is_next_of, is_other_of, left_out_with, left_out_with_block, left_out_with_poll, none_left_out};

use crate::observation::Observation;
use crate::repeated_frames::one_more_if;

/// What is kept of the polls and the block answers above, to detect a log from which the block answers without entries are left out.
#[derive(Clone, Copy, Debug, PartialEq, Eq, Hash)]
pub struct LeftOutBlocks {
    /// The number of the latest poll, until a block answer is below it.
    pub waits: Option<u8>,
    /// The number of polls, up to 2^32 - 1.
    pub polls: u32,
    /// How many polls ask for the next number below a poll that has no answer, up to 2^32 - 1.
    pub passed: u32,
    /// How many ask there for another number, which is not that poll's own either, up to 2^32 - 1.
    pub others: u32,
    /// The number of block answers without entries, up to 2^32 - 1.
    pub empty: u32,
}

impl LeftOutBlocks {
    /// Returns what is kept above the first frame.
    pub fn new() -> LeftOutBlocks
        ensures { result ≡ none_left_out }
    {
        LeftOutBlocks {
            waits: None,
            polls: 0,
            passed: 0,
            others: 0,
            empty: 0,
        }
    }

    /// Takes a frame that says this.
    pub fn add(&mut self, observation: Observation)
        ensures { self.new ≡ left_out_with self.old observation }
    {
        match observation {
            Observation::Poll { number } => self.add_poll(number),
            Observation::Block { entries, .. } => self.add_block(entries),
            _ => {}
        }
    }

    /// Takes a poll.
    fn add_poll(&mut self, number: u8)
        ensures { self.new ≡ left_out_with_poll self.old number }
    {
        self.polls = one_more_if(true, self.polls);
        self.passed = one_more_if(is_next_of(self.waits, number), self.passed);
        self.others = one_more_if(is_other_of(self.waits, number), self.others);
        self.waits = Some(number);
    }

    /// Takes a block answer with this many entries.
    fn add_block(&mut self, entries: usize)
        ensures { self.new ≡ left_out_with_block self.old entries }
    {
        self.empty = one_more_if(entries == 0, self.empty);
        self.waits = None;
    }

    /// Returns whether the block answers without entries seem to be left out of a log with `blocks` others: it has none, a quarter or
    /// more of 8 or more polls ask for the next number below a poll without an answer, and none asks there for another one than these two.
    pub fn are_left_out(&self, blocks: u32) -> bool
        ensures { result ≡ are_left_out self.now blocks }
    {
        let (polls, passed) = (self.polls, self.passed);
        blocks > 0
            && polls >= 8
            && u64::from(polls) <= 4 * u64::from(passed)
            && self.others == 0
            && self.empty == 0
    }
}

/// Returns whether a poll asks for the next number below one that waits.
fn is_next_of(waits: Option<u8>, number: u8) -> bool
    ensures { result ≡ is_next_of waits number }
{
    match waits {
        Some(above) => number == above.wrapping_add(1),
        None => false,
    }
}

/// Returns whether a poll asks for neither the next number below one that waits, nor for that poll's own.
fn is_other_of(waits: Option<u8>, number: u8) -> bool
    ensures { result ≡ is_other_of waits number }
{
    match waits {
        Some(above) => number != above.wrapping_add(1) && number != above,
        None => false,
    }
}
