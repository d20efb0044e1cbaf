//! What is counted of the frames of a log.
ghost use Rattle.std.specs.Prelude.{◌≡◌};
ghost use Rattle.fio_message.specs.Views.{answer_of, command_of, entries_of};
ghost use Rattle.fio_check.specs.LogCounts.{counted_answer, counted_awaited, counted_block, counted_command, counted_entries, counted_lost, counted_poll, counted_reset, counted_sent, counts_above, counts_with, is_awaited, raised, raised_by, time_taken, time_to_answer, time_to_frame};

use fio_message::types::ANSWER;
use fio_message::{AnswerView, BlockStatus, CommandView, EntriesView, read_answer, read_command};

/// P, bit 7 of the flags of a status answer: the module was reset. Flags with it are these or more.
const RESET: u8 = 0x80;

/// How many types of messages have a count of their own.
const TYPES: usize = 256;

/// How many inputs have a count of their own: an entry has seven bits for its input.
const INPUT_NUMBERS: usize = 128;

/// What is counted of the frames of a log, and what must be known of the frames above to count the next one. Numbers are modulo
/// 2^64.
#[derive(Clone, Copy, Debug)]
#[repr(C)]
pub struct LogCounts {
    /// The frames.
    pub frames: u64,
    /// The polls.
    pub polls: u64,
    /// The polls with the number of the poll above.
    pub repeats: u64,
    /// The polls after which a command comes before a block answer.
    pub unanswered: u64,
    /// The gap marks.
    pub marks: u64,
    /// The entries of blocks.
    pub entries: u64,
    /// How often the module says that it was reset, though it did not say so before.
    pub restarts: u64,
    /// The messages of each type.
    pub types: [u64; TYPES],
    /// The entries of each input.
    pub inputs: [u64; INPUT_NUMBERS],
    /// The blocks with each number of entries.
    pub fills: [u64; TYPES],
    /// When the command above was sent, in microseconds.
    pub sent_at: u64,
    /// 1 if that is known.
    pub has_sent_at: u8,
    /// The type of the latest command, until it is answered.
    pub command: u8,
    /// 1 if there is one.
    pub has_command: u8,
    /// The number of the latest poll.
    pub polled: u8,
    /// 1 if there is one.
    pub has_polled: u8,
    /// 1 if that poll is not answered yet.
    pub waits: u8,
    /// The number of the latest block answer.
    pub block: u8,
    /// 1 if there is one.
    pub has_block: u8,
    /// 1 if the latest status answer says that the module was reset.
    pub reset: u8,
    /// 1 if the first one says so.
    pub first_reset: u8,
    /// 1 if there is one.
    pub has_reset: u8,
    /// 0 in each octet that the library writes.
    pub reserved: [u8; 5],
}

impl LogCounts {
    /// Returns the counts of no frame.
    pub fn new() -> LogCounts
        ensures { result ≡ counts_above }
    {
        LogCounts {
            frames: 0,
            polls: 0,
            repeats: 0,
            unanswered: 0,
            marks: 0,
            entries: 0,
            restarts: 0,
            types: [0; TYPES],
            inputs: [0; INPUT_NUMBERS],
            fills: [0; TYPES],
            sent_at: 0,
            has_sent_at: 0,
            command: 0,
            has_command: 0,
            polled: 0,
            has_polled: 0,
            waits: 0,
            block: 0,
            has_block: 0,
            reset: 0,
            first_reset: 0,
            has_reset: 0,
            reserved: [0; 5],
        }
    }

    /// Takes a place where a frame may be lost: it is then unknown whether the latest poll and command were answered.
    pub fn lose(&mut self)
        ensures { self.new ≡ counted_lost self.old }
    {
        self.waits = 0;
        self.has_command = 0;
    }

    /// Counts a frame, with its time in microseconds, if it has one. Returns how long the module took for its answer, if the
    /// frame is the answer that the latest command waits for, both have a time, and the answer's is not the earlier one.
    pub fn frame(&mut self, time: Option<u64>, octets: &[u8]) -> Option<u64>
        ensures time { result ≡ time_to_frame self.old time octets.now }
        ensures next { self.new ≡ counts_with self.old time octets.now }
    {
        self.frames = self.frames.wrapping_add(1);
        if let Ok(command) = read_command(octets) {
            self.count_command(time, &command);
            return None;
        }
        match read_answer(octets) {
            Ok(answer) => self.count_answer(time, &answer),
            Err(_) => None,
        }
    }

    // ---- Commands

    /// Counts a command.
    fn count_command(&mut self, time: Option<u64>, command: &CommandView<'_>)
        ensures { self.new ≡ counted_command self.old time (command_of command.now) }
    {
        let code = command.code();
        raise(&mut self.types, code);
        if self.waits != 0 {
            self.unanswered = self.unanswered.wrapping_add(1);
        }
        self.waits = 0;
        self.command = code;
        self.has_command = 1;
        self.set_sent_at(time);
        if let CommandView::Poll { block } = *command {
            self.count_poll(block);
        }
    }

    /// Keeps when a command was sent.
    fn set_sent_at(&mut self, time: Option<u64>)
        ensures { self.new ≡ counted_sent self.old time }
    {
        self.sent_at = time.unwrap_or(0);
        self.has_sent_at = u8::from(time.is_some());
    }

    /// Counts what a poll has beyond other commands.
    fn count_poll(&mut self, number: u8)
        ensures { self.new ≡ counted_poll self.old number }
    {
        self.polls = self.polls.wrapping_add(1);
        if self.has_polled != 0 && self.polled == number {
            self.repeats = self.repeats.wrapping_add(1);
        }
        self.polled = number;
        self.has_polled = 1;
        self.waits = 1;
    }

    // ---- Answers

    /// Counts an answer, and returns how long the module took for it, if that is known.
    fn count_answer(&mut self, time: Option<u64>, answer: &AnswerView<'_>) -> Option<u64>
        ensures time { result ≡ time_to_answer self.old time (answer_of answer.now) }
        ensures next { self.new ≡ counted_answer self.old time (answer_of answer.now) }
    {
        let code = answer.code();
        raise(&mut self.types, code);
        let taken = self.time_taken(time, code);
        self.answer_command(code);
        match *answer {
            AnswerView::Status { flags, .. } => self.count_reset(flags >= RESET),
            AnswerView::Block {
                block,
                entries,
                status,
                ..
            } => self.count_block(block, &entries, BlockStatus::from_octet(status)),
            _ => {}
        }
        taken
    }

    /// Returns whether the latest command waits for an answer of this type.
    fn is_awaited(&self, code: u8) -> bool
        ensures { result ≡ is_awaited self.now code }
    {
        self.has_command != 0 && code == self.command.wrapping_add(ANSWER)
    }

    /// Returns how long the module took for an answer of this type, if that is known.
    fn time_taken(&self, time: Option<u64>, code: u8) -> Option<u64>
        ensures { result ≡ time_taken self.now time code }
    {
        let time = time?;
        if self.is_awaited(code) && self.has_sent_at != 0 && time >= self.sent_at {
            Some(time - self.sent_at)
        } else {
            None
        }
    }

    /// Ends the wait of the latest command, if it waits for an answer of this type.
    fn answer_command(&mut self, code: u8)
        ensures { self.new ≡ counted_awaited self.old code }
    {
        if self.is_awaited(code) {
            self.has_command = 0;
        }
    }

    /// Counts a status answer that says, or does not say, that the module was reset.
    fn count_reset(&mut self, is_reset: bool)
        ensures { self.new ≡ counted_reset self.old is_reset }
    {
        if self.has_reset == 0 {
            self.first_reset = u8::from(is_reset);
        } else if is_reset && self.reset == 0 {
            self.restarts = self.restarts.wrapping_add(1);
        }
        self.reset = u8::from(is_reset);
        self.has_reset = 1;
    }

    /// Counts a block answer: one that is sent again is counted once.
    fn count_block(&mut self, number: u8, entries: &EntriesView<'_>, status: BlockStatus)
        ensures { self.new ≡ counted_block self.old number (entries_of entries.now) status }
    {
        let is_repeat = status.again() && self.has_block != 0 && self.block == number;
        self.waits = 0;
        self.block = number;
        self.has_block = 1;
        if !is_repeat {
            self.count_entries(entries, status);
        }
    }

    /// Counts the entries of a block, and its gap mark, if it has one.
    fn count_entries(&mut self, entries: &EntriesView<'_>, status: BlockStatus)
        ensures { self.new ≡ counted_entries self.old (entries_of entries.now) status }
    {
        if status.lost() {
            self.marks = self.marks.wrapping_add(1);
        }
        let count = entries.len();
        self.entries = self.entries.wrapping_add(count as u64);
        raise(&mut self.fills, count as u8);
        raise_inputs(&mut self.inputs, entries);
    }
}

/// Adds one to the count of the input of each entry.
fn raise_inputs(counts: &mut [u64], entries: &EntriesView<'_>)
    ensures { counts.new ≡ raised_by counts.old (entries_of entries.now) }
{
    for entry in entries.iter() {
        raise(counts, entry.input.get());
    }
}

/// Adds one to the count of a number, if the table has a place for it.
fn raise(counts: &mut [u64], number: u8)
    ensures { counts.new ≡ raised counts.old number }
{
    let place = usize::from(number);
    if place < counts.len() {
        counts[place] = counts[place].wrapping_add(1);
    }
}
