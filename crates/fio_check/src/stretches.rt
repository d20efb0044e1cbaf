//! The stretches of a log.
ghost use Rattle.std.specs.Prelude.{◌≡◌, ◌≤◌, Some, length};
ghost use Rattle.std.specs.Str.{bytes_eq};
ghost use Rattle.fio_message.specs.Decoding.{answer_in, command_in};
ghost use Rattle.fio_message.specs.Views.{command_of};
ghost use Rattle.fio_check.specs.Stretches.{sum_with, cause_above, elapsed, seam_if_any, is_seamless, is_same_block, octets_above_status, items_kept, known, block_kept, no_stretches, stretches_below, stretches_counted, stretches_kept, stretches_polled, stretches_sent, stretches_timed, stretches_with, seam_above, seam_of, seam_of_block, stretches_with_block};

use crate::seam::{SeamCause, ToldBlock};
use fio_message::{BlockStatus, CommandView, FRAME_OCTETS, read_command};

/// How many octets a block answer has from its status on.
const ENDING: usize = 5;

/// A place of a log where a stretch ends, or transitions are lost: above a block answer.
#[derive(Clone, Copy, Debug, PartialEq, Eq, Hash)]
pub struct Seam {
    /// Why the stretch ends; `None` if transitions are lost alone.
    pub cause: Option<SeamCause>,
    /// Whether the block says that transitions are lost above it: the module's buffer overflowed.
    pub is_lost: bool,
    /// How long the poll above came after the poll above that, in microseconds, if both have a time.
    pub pause: Option<u64>,
}

impl Seam {
    /// Returns whether the stretch goes on here, and nothing is lost.
    fn does_go_on(self) -> bool
        ensures { result ≡ is_seamless self }
    {
        self.cause.is_none() && !self.is_lost
    }

    /// Returns the place, if a stretch ends or transitions are lost.
    fn seam_if_any(self) -> Option<Seam>
        ensures { result ≡ seam_if_any self }
    {
        if self.does_go_on() { None } else { Some(self) }
    }
}

/// What a log records of the transitions of one module. A stretch is a piece of that in which each transition of the module's list is
/// there once and in order. A stretch goes on from block answer to block answer, and ends where the log shows that transitions are
/// lost or may be missing, that the module was restarted, or that a block is not to be believed. Numbers are modulo 2^64.
///
/// # Examples
///
/// ```rust
/// use fio_check::{LogStretches, SeamCause};
///
/// let mut stretches = LogStretches::new();
/// stretches.frame(None, &[0xb6, 5, 0, 0, 0, 0, 0, 10], true);
/// // F says that transitions were pushed out of the module's buffer.
/// let lost = stretches.frame(None, &[0xb6, 6, 0, 4, 0, 0, 0, 20], true);
/// assert!(rt; lost.is_some_and(|seam| seam.is_lost && seam.cause.is_none()));
/// // Blocks 7 and 8 are not in the log.
/// let missing = stretches.frame(None, &[0xb6, 9, 0, 0, 0, 0, 0, 30], true);
/// assert!(rt; missing.is_some_and(|seam| seam.cause == Some(SeamCause::Missing(2))));
/// ```
#[derive(Clone, Copy, Debug)]
#[repr(C)]
pub struct LogStretches {
    /// The block answers; one that is sent again as it was is not counted.
    pub blocks: u64,
    /// Their entries.
    pub transitions: u64,
    /// The places above which transitions are lost.
    pub lost: u64,
    /// The places where blocks are not in the log.
    pub missing: u64,
    /// How many blocks these are, at least one at each place; so many with a CPU that passes over no number.
    pub missing_blocks: u64,
    /// The places where the module did not get the polls of the numbers between.
    pub passed_over: u64,
    /// The places of which the log does not show whether transitions follow.
    pub unknown: u64,
    /// The restarts.
    pub restarts: u64,
    /// The blocks that are not to be believed.
    pub disbelieved: u64,
    /// The microseconds between neighbouring blocks with times that rise.
    pub timed: u64,
    /// Those of them within stretches.
    pub timed_whole: u64,
    /// The milliseconds between neighbouring blocks by their stamps, unless these go back.
    pub stamped: u64,
    /// Those of them within stretches.
    pub stamped_whole: u64,
    /// The loads of the counter.
    pub loads: u64,
    /// The longest time between two neighbouring polls, in microseconds.
    pub longest_pause: u64,
    /// The time between the latest two polls, in microseconds.
    pub pause: u64,
    /// The time of the latest poll, in microseconds.
    pub polled_at: u64,
    /// The time of the latest block, in microseconds.
    pub block_at: u64,
    /// The stamp of the latest block, in milliseconds.
    pub stamp: u32,
    /// How many octets it has above its status.
    pub length: u16,
    /// How many entries it has.
    pub entries: u8,
    /// Its number.
    pub number: u8,
    /// Its status octet.
    pub status: u8,
    /// 1 if there is a latest block.
    pub has_block: u8,
    /// 1 if its time is known.
    pub has_block_at: u8,
    /// 1 if the time of the latest poll is known.
    pub has_polled_at: u8,
    /// 1 if the time between the latest two polls is known.
    pub has_pause: u8,
    /// 1 if the counter was loaded below the latest block.
    pub is_loaded: u8,
    /// The octets of the latest block above its status.
    pub items: [u8; FRAME_OCTETS],
    /// 0 in each octet that the library writes.
    pub reserved: [u8; 5],
}

impl LogStretches {
    /// Returns what is kept above the first frame.
    pub fn new() -> LogStretches
        ensures { result ≡ no_stretches }
    {
        LogStretches {
            blocks: 0,
            transitions: 0,
            lost: 0,
            missing: 0,
            missing_blocks: 0,
            passed_over: 0,
            unknown: 0,
            restarts: 0,
            disbelieved: 0,
            timed: 0,
            timed_whole: 0,
            stamped: 0,
            stamped_whole: 0,
            loads: 0,
            longest_pause: 0,
            pause: 0,
            polled_at: 0,
            block_at: 0,
            stamp: 0,
            length: 0,
            entries: 0,
            number: 0,
            status: 0,
            has_block: 0,
            has_block_at: 0,
            has_polled_at: 0,
            has_pause: 0,
            is_loaded: 0,
            items: [0; FRAME_OCTETS],
            reserved: [0; 5],
        }
    }

    /// Takes a frame, with its time in microseconds if it has one; `is_believed` is false of a block answer that breaks a rule on
    /// what entries say. Returns the place above it, if it is a block where a stretch ends or transitions are lost.
    pub fn frame(&mut self, time: Option<u64>, octets: &[u8], is_believed: bool) -> Option<Seam>
        ensures seam { result ≡ seam_of self.old octets.now is_believed }
        ensures next { self.new ≡ stretches_with self.old time octets.now is_believed }
    {
        if let Ok(command) = read_command(octets) {
            self.take_command(time, &command);
            return None;
        }
        match ToldBlock::of(octets) {
            Some(block) => self.take_block(time, block, octets, is_believed),
            None => None,
        }
    }

    // ---- Commands

    /// Takes a command.
    fn take_command(&mut self, time: Option<u64>, command: &CommandView<'_>)
        ensures { self.new ≡ stretches_sent self.old time (command_of command.now) }
    {
        match *command {
            CommandView::Poll { .. } => self.take_poll(time),
            CommandView::LoadCounter { .. } => {
                self.loads = self.loads.wrapping_add(1);
                self.is_loaded = 1;
            }
            _ => {}
        }
    }

    /// Takes a poll.
    fn take_poll(&mut self, time: Option<u64>)
        ensures { self.new ≡ stretches_polled self.old time }
    {
        let pause = elapsed(known(self.has_polled_at, self.polled_at), time);
        self.pause = pause.unwrap_or(0);
        self.has_pause = u8::from(pause.is_some());
        self.longest_pause = self.longest_pause.max(self.pause);
        self.polled_at = time.unwrap_or(0);
        self.has_polled_at = u8::from(time.is_some());
    }

    // ---- Blocks

    /// Returns what the latest block says.
    fn latest(&self) -> ToldBlock
        ensures { result ≡ block_kept self.now }
    {
        ToldBlock {
            stamp: self.stamp,
            entries: self.entries,
            number: self.number,
            status: self.status,
        }
    }

    /// Returns whether a block answer is the latest one again.
    fn is_same_block(&self, block: ToldBlock, octets: &[u8]) -> bool
        ensures { result ≡ is_same_block self.now block octets.now }
    {
        let length = usize::from(self.length).min(FRAME_OCTETS);
        self.has_block != 0
            && block.says_same(self.latest())
            && are_same(items_of(octets), &self.items[..length])
    }

    /// Returns what is between the latest block answer and this one.
    fn seam_above(&self, block: ToldBlock, is_believed: bool) -> Seam
        ensures { result ≡ seam_above self.now block is_believed }
    {
        Seam {
            cause: self.cause_above(block, is_believed),
            is_lost: BlockStatus::from_octet(block.status).lost(),
            pause: known(self.has_pause, self.pause),
        }
    }

    /// Returns why the stretch does not go on with a block answer.
    fn cause_above(&self, block: ToldBlock, is_believed: bool) -> Option<SeamCause>
        ensures { result ≡ cause_above self.now block is_believed }
    {
        if !is_believed {
            Some(SeamCause::Disbelieved)
        } else if self.has_block != 0 {
            block.cause_below(self.latest(), self.is_loaded != 0)
        } else {
            None
        }
    }

    /// Takes a block answer, and returns the place above it, if a stretch ends there or transitions are lost.
    fn take_block(
        &mut self,
        time: Option<u64>,
        block: ToldBlock,
        octets: &[u8],
        is_believed: bool,
    ) -> Option<Seam>
        ensures seam { result ≡ seam_of_block self.old octets.now is_believed block }
        ensures next { self.new ≡ stretches_with_block self.old time octets.now is_believed (Some block) }
    {
        if self.is_same_block(block, octets) {
            return None;
        }
        let seam = self.seam_above(block, is_believed);
        self.take_other(time, block, octets, seam);
        seam.seam_if_any()
    }

    /// Takes a block answer that is another one than the latest, with what is above it.
    fn take_other(&mut self, time: Option<u64>, block: ToldBlock, octets: &[u8], seam: Seam)
        ensures { self.new ≡ stretches_below self.old time block octets.now seam }
    {
        self.count_block(block, seam);
        self.keep_times(time, block, seam);
        self.keep_block(time, block, octets);
    }

    /// Counts a block answer, with what is above it.
    fn count_block(&mut self, block: ToldBlock, seam: Seam)
        ensures { self.new ≡ stretches_counted self.old block seam }
    {
        self.blocks = self.blocks.wrapping_add(1);
        self.transitions = self.transitions.wrapping_add(u64::from(block.entries));
        self.lost = self.lost.wrapping_add(u64::from(seam.is_lost));
        match seam.cause {
            Some(SeamCause::Missing(blocks)) => {
                self.missing = self.missing.wrapping_add(1);
                self.missing_blocks = self.missing_blocks.wrapping_add(u64::from(blocks));
            }
            Some(SeamCause::PassedOver) => self.passed_over = self.passed_over.wrapping_add(1),
            Some(SeamCause::Unknown) => self.unknown = self.unknown.wrapping_add(1),
            Some(SeamCause::Restart) => self.restarts = self.restarts.wrapping_add(1),
            Some(SeamCause::Disbelieved) => self.disbelieved = self.disbelieved.wrapping_add(1),
            None => {}
        }
    }

    /// Counts the time between the latest block answer and this one.
    fn keep_times(&mut self, time: Option<u64>, block: ToldBlock, seam: Seam)
        ensures { self.new ≡ stretches_timed self.old time block seam }
    {
        if self.has_block == 0 {
            return;
        }
        let by_lines = elapsed(known(self.has_block_at, self.block_at), time).unwrap_or(0);
        let by_stamps = u64::from(block.milliseconds_below(self.latest()));
        self.timed = self.timed.wrapping_add(by_lines);
        self.stamped = self.stamped.wrapping_add(by_stamps);
        if seam.does_go_on() {
            self.timed_whole = self.timed_whole.wrapping_add(by_lines);
            self.stamped_whole = self.stamped_whole.wrapping_add(by_stamps);
        }
    }

    /// Keeps a block answer as the latest one.
    fn keep_block(&mut self, time: Option<u64>, block: ToldBlock, octets: &[u8])
        ensures { self.new ≡ stretches_kept self.old time block octets.now }
    {
        let items = items_of(octets);
        self.items[..items.len()].copy_from_slice(items);
        self.length = items.len() as u16;
        self.stamp = block.stamp;
        self.entries = block.entries;
        self.number = block.number;
        self.status = block.status;
        self.has_block = 1;
        self.block_at = time.unwrap_or(0);
        self.has_block_at = u8::from(time.is_some());
        self.is_loaded = 0;
    }
}

/// Returns the octets that a block answer has above its status.
fn items_of(octets: &[u8]) -> &[u8]
    ensures items { result.now ≡ octets_above_status octets.now }
    ensures few { length result.now ≤ FRAME_OCTETS }
{
    &octets[..octets.len().saturating_sub(ENDING).min(FRAME_OCTETS)]
}

/// Returns whether octets are the same.
fn are_same(octets: &[u8], other: &[u8]) -> bool
    ensures { result ≡ bytes_eq octets.now other.now }
{
    octets == other
}

/// Returns a number, if it is known.
fn known(has: u8, number: u64) -> Option<u64>
    ensures { result ≡ known has number }
{
    if has == 0 { None } else { Some(number) }
}

/// Returns how long after a time another one is, if both are known and the first is not the later one.
fn elapsed(first: Option<u64>, last: Option<u64>) -> Option<u64>
    ensures { result ≡ elapsed first last }
{
    match (first, last) {
        (Some(first), Some(last)) if first <= last => Some(last - first),
        _ => None,
    }
}
