//! The lines of a window that are read, and the messages in them.
use crate::polls::{POLL, Polls};
use fio_form::is_answer;
use fio_guess::table::LINES;

/// What is kept of a message, to compare it with others.
#[derive(Clone, Copy)]
pub(crate) struct Mark {
    /// A hash of its octets.
    pub(crate) hash: u32,
    /// Its first two octets; 0 in place of one that it lacks.
    pub(crate) first: [u8; 2],
    /// How many of these two it has.
    pub(crate) count: u8,
    /// Whether it is a block of which E says that it was asked for again.
    pub(crate) is_again: bool,
}

/// The type of a block, and E of its status, which is the fifth octet from its end.
const BLOCK: u8 = 182;

const AGAIN: u8 = 2;

/// Returns whether a message is a block that has E.
fn is_again(message: &[u8]) -> bool {
    match message {
        [BLOCK, .., status, _, _, _, _] => *status & AGAIN != 0,
        _ => false,
    }
}

/// Returns what is kept of a message.
pub(crate) fn mark_of(message: &[u8]) -> Mark {
    let mut hash: u64 = 0xcbf2_9ce4_8422_2325;
    for octet in message {
        hash = (hash ^ u64::from(*octet)).wrapping_mul(0x0000_0100_0000_01b3);
    }
    let (first, count) = match message {
        [first, second, ..] => ([*first, *second], 2),
        [first] => ([*first, 0], 1),
        [] => ([0, 0], 0),
    };
    Mark {
        hash: ((hash ^ hash >> 32) & 0xffff_ffff) as u32,
        first,
        count,
        is_again: is_again(message),
    }
}

impl Mark {
    /// Returns the first two octets, or those of them that it has.
    pub(crate) fn octets(&self) -> &[u8] {
        &self.first[..usize::from(self.count.min(2))]
    }

    /// Returns whether it is a command.
    pub(crate) fn is_command(&self) -> bool {
        self.first[0] < 128
    }

    /// Returns whether one of the two messages may be the answer to the other one.
    pub(crate) fn is_paired(&self, other: Option<Mark>) -> bool {
        match other {
            Some(other) => is_answer(self.octets(), other.octets())
                || is_answer(other.octets(), self.octets()),
            None => false,
        }
    }

    /// Returns whether the two messages are the same.
    pub(crate) fn is_same(&self, other: Option<Mark>) -> bool {
        match other {
            Some(other) => other.hash == self.hash,
            None => false,
        }
    }
}

/// The lines that are read: for each whether a form has it, and the message that begins in it.
#[derive(Drop)]
pub(crate) struct Known {
    taken: [bool; LINES],
    marks: [Option<Mark>; LINES],
}

impl Known {
    /// Returns that of no line.
    pub(crate) fn new() -> Known {
        Known {
            taken: [false; LINES],
            marks: [None; LINES],
        }
    }

    /// Forgets all lines.
    pub(crate) fn clear(&mut self) {
        for taken in &mut self.taken {
            *taken = false;
        }
        for mark in &mut self.marks {
            *mark = None;
        }
    }

    /// Returns whether a form has a line.
    pub(crate) fn is_taken(&self, at: usize) -> bool {
        at < LINES && self.taken[at]
    }

    /// Returns the number of lines that forms have.
    pub(crate) fn lines(&self) -> usize {
        self.taken.iter().filter(|taken| **taken).count()
    }

    /// Returns the number of messages.
    pub(crate) fn messages(&self) -> usize {
        self.marks.iter().filter(|mark| mark.is_some()).count()
    }

    /// Returns whether one of the messages is an answer.
    pub(crate) fn has_answer(&self) -> bool {
        self.marks.iter().any(|mark| match mark {
            Some(mark) => !mark.is_command(),
            None => false,
        })
    }

    /// Returns the polls.
    fn polls(&self) -> Polls {
        let mut polls = Polls::default();
        for mark in &self.marks {
            if let Some(mark) = mark {
                polls.add(mark);
            }
        }
        polls
    }

    /// Returns whether the polls are those of a link.
    pub(crate) fn are_polls(&self) -> bool {
        self.polls().are_shown()
    }

    /// Returns whether the polls may be those of a log with nothing else.
    pub(crate) fn are_polls_alone(&self) -> bool {
        self.polls().are_alone()
    }

    /// Returns the nearest message above a line.
    pub(crate) fn above(&self, at: usize) -> Option<Mark> {
        for mark in self.marks[..at.min(LINES)].iter().rev() {
            if mark.is_some() {
                return *mark;
            }
        }
        None
    }

    /// Returns the nearest message from a line on.
    pub(crate) fn below(&self, at: usize) -> Option<Mark> {
        for mark in &self.marks[at.min(LINES)..] {
            if mark.is_some() {
                return *mark;
            }
        }
        None
    }

    /// Returns how many messages have one of some types.
    pub(crate) fn count(&self, types: &[bool; 256]) -> u32 {
        let mut count: u32 = 0;
        for mark in &self.marks {
            if let Some(mark) = mark {
                count = count.saturating_add(u32::from(types[usize::from(mark.first[0])]));
            }
        }
        count
    }

    /// Returns whether the next answer from a line on has E, and the two polls above it have different numbers.
    pub(crate) fn lacks_poll(&self, at: usize) -> bool {
        for below in at..LINES {
            if let Some(mark) = self.marks[below] {
                if !mark.is_command() {
                    return mark.is_again && self.has_new_poll(below);
                }
            }
        }
        false
    }

    /// Returns whether the last two polls above a line have different numbers.
    fn has_new_poll(&self, at: usize) -> bool {
        let mut last = None;
        for mark in self.marks[..at.min(LINES)].iter().rev() {
            match (mark, last) {
                (Some(mark), None) if mark.first[0] == POLL => last = Some(*mark),
                (Some(mark), Some(_)) if mark.first[0] == POLL => return !mark.is_same(last),
                _ => {}
            }
        }
        false
    }

    /// Takes the lines from the first one up to the end.
    pub(crate) fn take(&mut self, first: usize, end: usize) {
        for at in first..end.min(LINES) {
            self.taken[at] = true;
        }
    }

    /// Keeps a message that begins in a line.
    pub(crate) fn mark(&mut self, at: usize, message: &[u8]) {
        if at < LINES {
            self.marks[at] = Some(mark_of(message));
        }
    }
}
