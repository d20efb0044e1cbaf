//! Polls, whose numbers go up one by one: they show a log of commands alone.
use crate::evidence::times;
use crate::known::Mark;
use fio_guess::table::{POLL_TENTHS, POLLS, POLLS_UP};

/// The type of a poll.
pub(crate) const POLL: u8 = 54;

/// Polls that are counted, from the first one on.
#[derive(Clone, Copy, Default)]
pub(crate) struct Polls {
    count: u32,
    /// Those whose number is that of the poll above or one more.
    steps: u32,
    /// Those whose number is one more.
    rises: u32,
    /// Whether one goes from 09 to 10, as decimal numbers do.
    is_decimal: bool,
    /// The number of the last one.
    last: u8,
}

/// Returns whether a number follows another one if both are decimal.
fn is_next_ten(last: u8, number: u8) -> bool {
    last % 16 == 9 && last < 0x99 && number == last + 7
}

impl Polls {
    /// Counts a message if it is a poll.
    pub(crate) fn add(&mut self, mark: &Mark) {
        let [code, number] = mark.first;
        if code != POLL || mark.count < 2 {
            return;
        }
        let is_rise = number == self.last.wrapping_add(1);
        self.is_decimal = self.is_decimal || self.count > 0 && is_next_ten(self.last, number);
        let is_step = self.count == 0 || is_rise || number == self.last;
        self.count = self.count.saturating_add(1);
        self.steps = self.steps.saturating_add(u32::from(is_step));
        self.rises = self.rises.saturating_add(u32::from(is_rise));
        self.last = number;
    }

    /// Returns whether they are those of a link: this many whose numbers stay or go up by one, and some go up.
    pub(crate) fn are_shown(&self) -> bool {
        !self.is_decimal
            && self.count as usize >= POLLS
            && times(10, self.steps) >= times(POLL_TENTHS, self.count)
            && times(4, self.rises) >= u64::from(self.count)
    }

    /// Returns whether they may be those of a log with nothing else: their number stays, or goes up one by one, and they are enough.
    pub(crate) fn are_alone(&self) -> bool {
        let are_up = self.rises >= self.count.saturating_sub(1);
        let least = if are_up { POLLS_UP } else { POLLS };
        self.steps == self.count && self.count as usize >= least
    }
}
