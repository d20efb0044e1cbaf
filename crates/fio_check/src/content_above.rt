//! What the rules on content keep of the events above, in plain memory that C code can hold too. A flag is an octet, and
//! 0 is false.
ghost use Rattle.std.specs.Prelude.{◌≡◌, ℕ, None, Some, false, if◌then◌else◌};
ghost use Rattle.std.specs.Option.{option_or};
ghost use Rattle.fio_message.specs.Views.{answer_of, command_of, items_of};
ghost use Rattle.fio_check.specs.ContentSaid.{accepts_items, items_sent, stamp_of};
ghost use Rattle.fio_check.specs.ContentEvents.{Heard, Sent};
ghost use Rattle.fio_check.specs.ContentFacts.{below_answer, content_begun, content_step, content_with, forgetting, is_aging, no_content, seen_with, with_command, with_items, with_since_poll};
ghost use Rattle.fio_check.specs.ContentKept.{facts_kept};

use crate::content_inputs::ContentInputs;
use crate::content_times::is_far;
use crate::observation::names_absent_item;
use fio_message::{AnswerView, BlockStatus, CommandView, ItemsView, says_error};

/// What the rules on content keep of the events above.
#[derive(Clone, Copy, Debug)]
#[repr(C)]
pub struct ContentAbove {
    /// What is kept of each input.
    pub(crate) inputs: ContentInputs,
    /// The states of the latest 181.
    pub(crate) seen_levels: u64,
    /// The inputs for which an item was sent below the first poll for the block that is due.
    pub(crate) since_poll: u64,
    /// The latest stamp, but not that of a repeated block.
    pub(crate) clock: u32,
    /// The stamp of the latest block without C, if times are known.
    pub(crate) full: u32,
    /// The time with which the next entry is compared.
    pub(crate) floor: u32,
    /// The stamp of the latest 181.
    pub(crate) seen: u32,
    /// How many loads of the counter were sent and have excused no breach yet. The count stays at 255.
    pub(crate) excuses: u8,
    /// Whether an answer to a watchdog was heard.
    pub(crate) watchdog_set: u8,
    /// The flags that the command which awaits its answer clears.
    pub(crate) clearing: u8,
    /// Whether that command names an input above 63.
    pub(crate) absent_named: u8,
    pub(crate) has_clock: u8,
    /// Whether a clear block is above.
    pub(crate) clear: u8,
    /// Whether the latest block was made so long after the latest one without C that 16 bits do not determine the times
    /// of its entries.
    pub(crate) aged: u8,
    /// What has the time of the floor: 1 an entry, 2 a block without C, 0 neither.
    pub(crate) floor_kind: u8,
    /// The input of that entry.
    pub(crate) floor_input: u8,
    /// Whether the record has not come to the latest 181.
    pub(crate) has_seen: u8,
    /// Whether a poll was sent since the latest block.
    pub(crate) polled: u8,
    /// Whether a block was heard since times were forgotten.
    pub(crate) block_heard: u8,
    /// Whether times are known: since then the end of a clear block that was heard is above.
    pub(crate) timely: u8,
    /// Padding to a multiple of 8 octets.
    reserved: [u8; 3],
}

impl ContentAbove {
    /// Returns what is kept if nothing is above.
    #[inline(always)]
    pub(crate) fn new() -> ContentAbove
        ensures { facts_kept result ≡ no_content }
    {
        ContentAbove {
            inputs: ContentInputs::new(),
            seen_levels: 0,
            since_poll: 0,
            clock: 0,
            full: 0,
            floor: 0,
            seen: 0,
            excuses: 0,
            watchdog_set: 0,
            clearing: 0,
            absent_named: 0,
            has_clock: 0,
            clear: 0,
            aged: 0,
            floor_kind: 0,
            floor_input: 0,
            has_seen: 0,
            polled: 0,
            block_heard: 0,
            timely: 0,
            reserved: [0; 3],
        }
    }

    /// Returns what is kept if nothing is above, except this number of loads of the counter that may still take effect.
    #[inline(always)]
    pub(crate) fn below_loads(loads: u8) -> ContentAbove
        ensures { facts_kept result ≡ (record no_content { excuses = loads }) }
    {
        ContentAbove {
            excuses: loads,
            ..ContentAbove::new()
        }
    }

    /// Returns what is kept if both ends begin.
    #[inline(always)]
    pub(crate) fn begun() -> ContentAbove
        ensures { facts_kept result ≡ content_begun }
    {
        ContentAbove {
            inputs: ContentInputs::begun(),
            clock: 0,
            has_clock: 1,
            clear: 1,
            block_heard: 1,
            timely: 1,
            full: 0,
            floor: 0,
            floor_kind: 2,
            ..ContentAbove::new()
        }
    }

    // ---- Commands

    /// Adds a command that is sent: it breaks no rule, so it is not excused.
    pub(crate) fn add_command(&mut self, command: &CommandView<'_>)
        ensures { facts_kept self.new ≡ content_with (facts_kept self.old) (Sent (command_of command.now)) }
    {
        self.step_command(command);
    }

    /// Adds a command that is not excused.
    fn step_command(&mut self, command: &CommandView<'_>)
        ensures { facts_kept self.new ≡ content_step (facts_kept self.old) (Sent (command_of command.now)) }
    {
        self.begin_command(command);
        self.add_items_of(command);
        self.add_since_poll();
    }

    /// Adds a command before its items.
    fn begin_command(&mut self, command: &CommandView<'_>)
        ensures { facts_kept self.new ≡ with_command (facts_kept self.old) (command_of command.now) }
    {
        self.inputs.begin_command();
        self.clearing = 0;
        self.absent_named = 0;
        match *command {
            CommandView::Poll { .. } => self.polled = 1,
            CommandView::Status { clear } => self.clearing = clear,
            CommandView::LoadCounter { .. } => self.excuses = self.excuses.saturating_add(1),
            CommandView::ConfigureInputs { items } => {
                self.absent_named = u8::from(names_absent_item(&items));
            }
            _ => {}
        }
    }

    /// Adds the items of a command, if it has some.
    fn add_items_of(&mut self, command: &CommandView<'_>)
        requires { (input : ℕ) → ((facts_kept self.old).inputs input).named ≡ false }
        ensures { facts_kept self.new ≡ with_items (facts_kept self.old) (items_sent (command_of command.now)) }
    {
        if let CommandView::ConfigureInputs { items } = *command {
            self.add_items(&items);
        }
    }

    /// Adds the items of a command, the last one first: for each input that one counts.
    fn add_items(&mut self, items: &ItemsView<'_>)
        requires { (input : ℕ) → ((facts_kept self.old).inputs input).named ≡ false }
        ensures { facts_kept self.new ≡ with_items (facts_kept self.old) (items_of items.now) }
    {
        let mut left = items.len();
        'items: while left > 0 {
            left -= 1;
            self.inputs.add_item(items.item(left));
        }
    }

    /// Adds the items of a command to those sent since the first poll for the block that is due, if that is above.
    fn add_since_poll(&mut self)
        ensures { facts_kept self.new ≡ with_since_poll (facts_kept self.old) }
    {
        if self.polled != 0 {
            self.since_poll = self.inputs.named() | self.since_poll;
        }
    }

    // ---- Answers

    /// Adds an answer that is heard.
    pub(crate) fn add_answer(&mut self, answer: &AnswerView<'_>)
        ensures { facts_kept self.new ≡ content_with (facts_kept self.old) (Heard (answer_of answer.now)) }
    {
        let excused = self.is_answer_excused(answer);
        self.step_answer(answer);
        self.forget(excused);
    }

    /// Adds an answer, whether or not it is excused.
    fn step_answer(&mut self, answer: &AnswerView<'_>)
        ensures { facts_kept self.new ≡ content_step (facts_kept self.old) (Heard (answer_of answer.now)) }
    {
        self.end_command(answer);
        match *answer {
            AnswerView::Watchdog { .. } => self.watchdog_set = 1,
            AnswerView::FilteredInputs { inputs, stamp } => self.set_seen(inputs, stamp),
            AnswerView::Block { stamp, .. } => {
                self.block_heard = 1;
                self.begin_block(stamp);
            }
            _ => {}
        }
    }

    /// Ends the command that the answer is to, and sets the latest stamp.
    fn end_command(&mut self, answer: &AnswerView<'_>)
        ensures { facts_kept self.new ≡ below_answer (facts_kept self.old) (answer_of answer.now) }
    {
        self.inputs.add_answer(accepts_items(answer));
        self.clearing = 0;
        self.absent_named = 0;
        self.set_clock(stamp_of(answer));
    }

    /// Sets the latest stamp, if there is one.
    fn set_clock(&mut self, stamp: Option<u32>)
        ensures { facts_kept self.new ≡ (record (facts_kept self.old) {
          clock = option_or stamp (facts_kept self.old).clock;
        }) }
    {
        if let Some(stamp) = stamp {
            self.has_clock = 1;
            self.clock = stamp;
        }
    }

    /// Sets the states of the latest 181, if times are known.
    fn set_seen(&mut self, levels: u64, stamp: u32)
        ensures { facts_kept self.new ≡ (record (facts_kept self.old) {
          seen = seen_with (facts_kept self.old) (Some (record { stamp = stamp; levels = levels }));
        }) }
    {
        self.has_seen = self.timely;
        self.seen = stamp;
        self.seen_levels = levels;
    }

    /// Begins a block with this stamp, and sets whether 16 bits determine the times of its entries.
    fn begin_block(&mut self, stamp: u32)
        ensures { facts_kept self.new ≡ (record (facts_kept self.old) {
          aged = is_aging (facts_kept self.old) (Some stamp);
          seen = if is_aging (facts_kept self.old) (Some stamp) then None else (facts_kept self.old).seen;
        }) }
    {
        let aged = self.timely != 0 && is_far(self.full, stamp);
        self.aged = u8::from(aged);
        if aged {
            self.has_seen = 0;
        }
    }

    // ---- Times

    /// Uses an excuse and forgets all that is known of times, if an event is excused.
    pub(crate) fn forget(&mut self, excused: bool)
        ensures { facts_kept self.new ≡ forgetting excused (facts_kept self.old) }
    {
        if !excused {
            return;
        }
        if self.excuses < u8::MAX {
            self.excuses = self.excuses.saturating_sub(1);
        }
        self.has_clock = 0;
        self.block_heard = 0;
        self.timely = 0;
        self.aged = 0;
        self.floor_kind = 0;
        self.has_seen = 0;
        self.inputs.forget_times();
    }
}

/// Returns whether an answer says that a configuration was taken.
fn accepts_items(answer: &AnswerView<'_>) -> bool
    ensures { result ≡ accepts_items (answer_of answer.now) }
{
    match *answer {
        AnswerView::ConfigureInputs { status } => !says_error(status),
        _ => false,
    }
}

/// Returns the stamp of an answer, unless it is a repeated block.
pub(crate) fn stamp_of(answer: &AnswerView<'_>) -> Option<u32>
    ensures { result ≡ stamp_of (answer_of answer.now) }
{
    match *answer {
        AnswerView::Status { stamp, .. }
        | AnswerView::RawInputs { stamp, .. }
        | AnswerView::FilteredInputs { stamp, .. } => Some(stamp),
        AnswerView::Block { status, stamp, .. } if !BlockStatus::from_octet(status).again() => {
            Some(stamp)
        }
        _ => None,
    }
}
