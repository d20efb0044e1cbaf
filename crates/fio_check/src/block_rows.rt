//! The rows of numbers that the block answers of a log continue: two links have two rows.
ghost use Rattle.std.specs.Prelude.{◌≡◌};
ghost use Rattle.fio_check.specs.LogSigns.{are_two_links, goes_on, is_late_in, no_rows, row_with, rows_with};

use crate::repeated_frames::one_more_if;

/// What is kept of the numbers of the block answers above, to detect a log of two links.
#[derive(Clone, Copy, Debug, PartialEq, Eq, Hash)]
pub struct BlockRows {
    /// The last number of the row of the latest block answer.
    pub first: Option<u8>,
    /// The last number of the other row.
    pub second: Option<u8>,
    /// How many block answers continued the other row than the one above, up to 2^32 - 1.
    pub changes: u32,
    /// How many started a row in place of another one, up to 2^32 - 1.
    pub jumps: u32,
}

impl BlockRows {
    /// Returns what is kept above the first frame.
    pub fn new() -> BlockRows
        ensures { result ≡ no_rows }
    {
        BlockRows {
            first: None,
            second: None,
            changes: 0,
            jumps: 0,
        }
    }

    /// Takes the number of a block answer.
    pub fn add(&mut self, number: u8)
        ensures { self.new ≡ rows_with self.old number }
    {
        if goes_on(self.first, number) {
            self.first = row_with(self.first, number);
        } else if goes_on(self.second, number) {
            let second = self.first;
            self.first = row_with(self.second, number);
            self.second = second;
            self.changes = one_more_if(true, self.changes);
        } else {
            self.jumps = one_more_if(self.second.is_some(), self.jumps);
            self.second = self.first;
            self.first = Some(number);
        }
    }

    /// Returns whether the log seems to be of two links: of `blocks` block answers, 8 or more, at least a quarter continued the
    /// other row than the one above, and at most one in ten started a row in place of another one.
    pub fn are_two_links(&self, blocks: u32) -> bool
        ensures { result ≡ are_two_links self.now blocks }
    {
        let (changes, jumps) = (self.changes, self.jumps);
        blocks >= 8
            && u64::from(blocks) <= 4 * u64::from(changes)
            && 10 * u64::from(jumps) <= u64::from(blocks)
    }
}

/// Returns whether a row continues with a number: its own, the next one, or that of a late block.
fn goes_on(row: Option<u8>, number: u8) -> bool
    ensures { result ≡ goes_on row number }
{
    match row {
        Some(latest) => {
            is_late_in(row, number) || number == latest || number == latest.wrapping_add(1)
        }
        None => false,
    }
}

/// Returns whether a number is the one before a row's, so that its block is late.
fn is_late_in(row: Option<u8>, number: u8) -> bool
    ensures { result ≡ is_late_in row number }
{
    match row {
        Some(latest) => latest == number.wrapping_add(1),
        None => false,
    }
}

/// Returns a row after a number, if it continues with that.
fn row_with(row: Option<u8>, number: u8) -> Option<u8>
    ensures { result ≡ row_with row number }
{
    if is_late_in(row, number) {
        row
    } else {
        Some(number)
    }
}
