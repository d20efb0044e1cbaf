//! The checker of the rules on content, one frame at a time.
ghost use Rattle.std.specs.Prelude.{◌≡◌, ◌+◌, ◌≤◌, ◌++◌, ℕ, fold, length, map, max, true, false, None};
ghost use Rattle.std.specs.Option.{option_or};
ghost use Rattle.fio_message.specs.Status.{says_lost};
ghost use Rattle.fio_message.specs.Views.{answer_of, command_of, entries_of};
ghost use Rattle.fio_cpu.specs.Record.{gap_if, item_of};
ghost use Rattle.fio_cpu.specs.declared.record.Item.TheVariants as Item;
ghost use Rattle.fio_check.specs.ContentCheckers.{breach_among, breach_below, breach_found, checking_at_start, checking_with, checking_with_answer, checking_with_command, found_in_answer, found_in_frame, kept_below};
ghost use Rattle.fio_check.specs.ContentEvents.{Ended, Heard, Recorded, events_of_answer, items_and_end, number_with_answer, number_with_command};
ghost use Rattle.fio_check.specs.ContentFacts.{content_with};
ghost use Rattle.fio_check.specs.LinkJudges.{checking_again, with_loads};
ghost use Rattle.fio_check.specs.ContentKept.{content_checking, content_kept, facts_kept, is_flagged};

use crate::content_above::ContentAbove;
use crate::content_rules::{BrokenRule, ContentRule};
use fio_input::widen;
use fio_message::{
    AnswerView, BlockStatus, CommandView, EntriesView, Entry, InputNumber, read_answer,
    read_command,
};

/// Where a frame breaks a rule on content.
#[derive(Clone, Copy, Debug, PartialEq, Eq, Hash)]
pub struct ContentBreach {
    /// How many items of the frame's block are recorded above the breach: none for an answer, all for the end of a block.
    pub items: u16,
    /// The input of the entry that breaks the rule, or the input with another state; `None` for an answer.
    pub input: Option<u8>,
    /// The first rule that is broken.
    pub rule: ContentRule,
}

/// A checker of the rules on content: what it keeps of the frames that it took. It judges what a CPU's end takes that starts
/// at the first poll: its answers, but of the block answers only those with that end's number, and their entries. So a
/// repeated block is judged once. Answers above the first command are skipped in a log that begins later than both ends.
#[derive(Clone, Copy, Debug)]
#[repr(C)]
pub struct ContentChecker {
    /// What is above the next frame.
    above: ContentAbove,
    /// Whether a poll is above.
    has_number: u8,
    /// The number that the next block to be taken has.
    number: u8,
    /// Whether answers are judged: a command is above, or the log begins with both ends.
    begun: u8,
    /// Padding to a multiple of 8 octets.
    reserved: [u8; 5],
}

impl ContentChecker {
    /// Returns a checker above the first frame of a log, whose ends may have begun long before.
    #[inline(always)]
    pub fn new() -> ContentChecker
        ensures { content_checking result ≡ checking_at_start false }
    {
        ContentChecker::above(ContentAbove::new(), 0)
    }

    /// Returns a checker above the first frame of a log that begins with both ends. It knows how the
    /// module begins, so it finds more.
    #[inline(always)]
    #[tactic(auto, using(crate::proofs::ContentStart::begun_is))]
    pub fn begun() -> ContentChecker
        ensures { content_checking result ≡ checking_at_start true }
    {
        ContentChecker::above(ContentAbove::begun(), 1)
    }

    #[inline(always)]
    fn above(above: ContentAbove, begun: u8) -> ContentChecker
        ensures { content_checking result
            ≡ (record { begun = is_flagged begun; kept = record { number = None; facts = facts_kept above } }) }
    {
        ContentChecker {
            above,
            has_number: 0,
            number: 0,
            begun,
            reserved: [0; 5],
        }
    }

    /// Returns how many loads of the counter may still take effect: that were sent and have excused no breach yet. The count
    /// stays at 255.
    pub fn loads_left(&self) -> u8
        ensures { result ≡ (content_kept self.now).facts.excuses }
    {
        self.above.excuses
    }

    /// Begins anew, and keeps only how many loads of the counter may still take effect.
    pub fn begin_again(&mut self)
        ensures { content_checking self.new ≡ checking_again (content_kept self.old).facts.excuses }
    {
        *self = ContentChecker::above(ContentAbove::below_loads(self.above.excuses), 0);
    }

    /// Takes a place where lines are lost: one of them may have been a load of the counter.
    pub fn may_miss_load(&mut self)
        ensures { content_checking self.new
            ≡ with_loads (max 1 (content_kept self.old).facts.excuses) (content_checking self.old) }
    {
        if self.above.excuses == 0 {
            self.above.excuses = 1;
        }
    }

    /// Takes a frame that the CPU's end sent.
    pub fn sent(&mut self, octets: &[u8])
        ensures { content_checking self.new ≡ checking_with (content_checking self.old) true octets.now }
    {
        match read_command(octets) {
            Ok(command) => self.send(&command),
            Err(_) => self.begun = 1,
        }
    }

    /// Takes a frame that the CPU's end heard, and returns its first breach of a rule on content. All of the
    /// frame is kept, below a breach too.
    pub fn heard(&mut self, octets: &[u8]) -> Option<ContentBreach>
        ensures found { result ≡ found_in_frame (content_checking self.old) false octets.now }
        ensures next { content_checking self.new ≡ checking_with (content_checking self.old) false octets.now }
    {
        match read_answer(octets) {
            Ok(answer) => self.hear(&answer),
            Err(_) => None,
        }
    }

    /// Takes a decoded command, as `sent` takes its octets.
    #[inline]
    pub fn send(&mut self, command: &CommandView<'_>)
        ensures { content_checking self.new ≡ checking_with_command (content_checking self.old) (command_of command.now) }
    {
        self.begin_with(command);
        self.above.add_command(command);
    }

    /// Judges from a command on, and takes the number of the first poll.
    #[inline(always)]
    fn begin_with(&mut self, command: &CommandView<'_>)
        ensures { content_checking self.new ≡ (record {
          begun = true;
          kept = record { number = number_with_command (content_kept self.old).number (command_of command.now); facts = (content_kept self.old).facts };
        }) }
    {
        self.begun = 1;
        if let CommandView::Poll { block } = *command {
            if self.has_number == 0 {
                self.has_number = 1;
                self.number = block;
            }
        }
    }

    /// Takes a decoded answer, as `heard` takes its octets.
    #[inline]
    pub fn hear(&mut self, answer: &AnswerView<'_>) -> Option<ContentBreach>
        ensures found { result ≡ found_in_answer (content_checking self.old) (answer_of answer.now) }
        ensures next { content_checking self.new ≡ checking_with_answer (content_checking self.old) (answer_of answer.now) }
    {
        if self.begun == 0 {
            return None;
        }
        self.judge(answer)
    }

    /// Judges an answer, and takes it.
    #[inline(always)]
    fn judge(&mut self, answer: &AnswerView<'_>) -> Option<ContentBreach>
        ensures found { result ≡ breach_among (content_kept self.old).facts 0 (events_of_answer (content_kept self.old).number (answer_of answer.now)) }
        ensures next { content_kept self.new ≡ kept_below (content_kept self.old) (number_with_answer (content_kept self.old).number (answer_of answer.now)) (events_of_answer (content_kept self.old).number (answer_of answer.now)) }
        ensures begun { self.new.begun ≡ self.old.begun }
    {
        match *answer {
            AnswerView::Block {
                block,
                entries,
                status,
                stamp,
            } => {
                if self.has_number == 0 || block != self.number {
                    return None;
                }
                self.number = block.wrapping_add(1);
                let found = take_answer(&mut self.above, answer);
                take_items(&mut self.above, found, &entries, status, stamp)
            }
            _ => take_answer(&mut self.above, answer),
        }
    }
}

/// Returns the breach of a rule below this number of items of its frame.
fn breach_below(items: u16, broken: BrokenRule) -> ContentBreach
    ensures { result ≡ breach_below items broken }
{
    ContentBreach {
        items,
        input: broken.input,
        rule: broken.rule,
    }
}

/// Takes an answer without the items of a block, and returns its breach.
fn take_answer(above: &mut ContentAbove, answer: &AnswerView<'_>) -> Option<ContentBreach>
    ensures found { result ≡ breach_found (facts_kept above.old) 0 (Heard (answer_of answer.now)) }
    ensures next { facts_kept above.new ≡ content_with (facts_kept above.old) (Heard (answer_of answer.now)) }
{
    let broken = above.broken_by_answer(answer);
    above.add_answer(answer);
    Some(breach_below(0, broken?))
}

/// Takes the items of a block and its end, and returns the first breach so far.
fn take_items(
    above: &mut ContentAbove,
    found: Option<ContentBreach>,
    entries: &EntriesView<'_>,
    status: u8,
    stamp: u32,
) -> Option<ContentBreach>
    ensures found { result ≡ option_or found (breach_among (facts_kept above.old) 0
        (items_and_end (gap_if (says_lost status) ++ map (item_of stamp) (entries_of entries.now)) status stamp)) }
    ensures next { facts_kept above.new ≡ fold content_with (facts_kept above.old)
        (items_and_end (gap_if (says_lost status) ++ map (item_of stamp) (entries_of entries.now)) status stamp) }
{
    let items = begin_block(above, status);
    let found = take_entries(above, found, items, entries, stamp);
    take_end(above, found, items + entries.len() as u16, status, stamp)
}

/// Begins a block, with a gap mark if entries were lost, and returns how many items that is.
fn begin_block(above: &mut ContentAbove, status: u8) -> u16
    ensures items { result ≡ length (gap_if (says_lost status)) }
    ensures next { facts_kept above.new ≡ fold content_with (facts_kept above.old)
        (map Recorded (gap_if (says_lost status))) }
{
    if BlockStatus::from_octet(status).lost() {
        above.add_gap();
        return 1;
    }
    0
}

/// Takes the entries of a block below this number of its items, and returns the first breach so far.
fn take_entries(
    above: &mut ContentAbove,
    found: Option<ContentBreach>,
    items: u16,
    entries: &EntriesView<'_>,
    stamp: u32,
) -> Option<ContentBreach>
    requires { items ≤ 1 }
    ensures found { result ≡ option_or found (breach_among (facts_kept above.old) items
        (map Recorded (map (item_of stamp) (entries_of entries.now)))) }
    ensures next { facts_kept above.new ≡ fold content_with (facts_kept above.old)
        (map Recorded (map (item_of stamp) (entries_of entries.now))) }
{
    let mut found = found;
    let mut items = items;
    'entries: for entry in entries.iter() {
        found = take_entry(above, found, items, entry, stamp);
        items += 1;
    }
    found
}

/// Takes an entry below this number of items of its block, and returns the first breach so far.
fn take_entry(
    above: &mut ContentAbove,
    found: Option<ContentBreach>,
    items: u16,
    entry: Entry,
    stamp: u32,
) -> Option<ContentBreach>
    ensures found { result
        ≡ option_or found (breach_found (facts_kept above.old) items (Recorded (item_of stamp entry))) }
    ensures next { facts_kept above.new ≡ content_with (facts_kept above.old) (Recorded (item_of stamp entry)) }
{
    let wide = widen(stamp, entry.stamp);
    let Entry { input, level, .. } = entry;
    let found = entry_breach(above, found, items, input, level, wide);
    above.add_entry(input, level, wide);
    found
}

/// Returns the first breach so far, with an entry of this wide time. The rules are tried only if there is none yet.
fn entry_breach(
    above: &ContentAbove,
    found: Option<ContentBreach>,
    items: u16,
    input: InputNumber,
    level: bool,
    wide: u32,
) -> Option<ContentBreach>
    ensures { (stamp : ℕ) → result ≡ option_or found (breach_found (facts_kept above.now) items
        (Recorded (Item.Entry input level stamp wide))) }
{
    if found.is_some() {
        return found;
    }
    let broken = above.broken_by_entry(input, level, wide)?;
    Some(breach_below(items, broken))
}

/// Takes the end of a block below this number of its items, and returns the first breach so far.
fn take_end(
    above: &mut ContentAbove,
    found: Option<ContentBreach>,
    items: u16,
    status: u8,
    stamp: u32,
) -> Option<ContentBreach>
    ensures found { result ≡ option_or found (breach_found (facts_kept above.old) items (Ended status stamp)) }
    ensures next { facts_kept above.new ≡ content_with (facts_kept above.old) (Ended status stamp) }
{
    let broken = above.broken_by_end(status, stamp);
    above.end_block(status, stamp);
    if found.is_some() {
        return found;
    }
    Some(breach_below(items, broken?))
}
