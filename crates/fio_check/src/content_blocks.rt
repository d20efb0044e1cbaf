//! What the items of a block and its end change in what the rules on content keep.
ghost use Rattle.std.specs.Prelude.{◌≡◌, ◌==◌, ◌&&◌, ◌||◌, ℕ, Bool, None, Some, false, nat_lt, not, if◌then◌else◌};
ghost use Rattle.fio_message.specs.Status.{says_again, says_more};
ghost use Rattle.fio_message.specs.declared.limits.TheConstants.{INPUTS};
ghost use Rattle.fio_cpu.specs.declared.record.Item.TheVariants.{Entry, Gap};
ghost use Rattle.fio_check.specs.ContentEvents.{Ended, Recorded};
ghost use Rattle.fio_check.specs.ContentFacts.{coming, content_step, content_with, input_with_entry, input_ended, seen_below, settles, timely_below};
ghost use Rattle.fio_check.specs.ContentKnown.{input_coming};
ghost use Rattle.fio_check.specs.ContentKept.{facts_kept, is_flagged};

use crate::content_above::ContentAbove;
use crate::content_times::{is_before, is_later};
use fio_message::{BlockStatus, INPUTS, InputNumber};

impl ContentAbove {
    // ---- Its items

    /// Adds a gap mark.
    pub(crate) fn add_gap(&mut self)
        ensures { facts_kept self.new ≡ content_with (facts_kept self.old) (Recorded Gap) }
    {
        self.has_seen = 0;
        self.inputs.add_gap();
    }

    /// Adds an entry with this wide time.
    pub(crate) fn add_entry(&mut self, input: InputNumber, level: bool, wide: u32)
        ensures { (stamp : ℕ) → facts_kept self.new
            ≡ content_with (facts_kept self.old) (Recorded (Entry input level stamp wide)) }
    {
        let excused = self.is_entry_excused(input, level, wide);
        self.step_entry(input, level, wide);
        self.forget(excused);
    }

    /// Adds an entry, whether or not it is excused.
    fn step_entry(&mut self, input: InputNumber, level: bool, wide: u32)
        ensures { (stamp : ℕ) → facts_kept self.new
            ≡ content_step (facts_kept self.old) (Recorded (Entry input level stamp wide)) }
    {
        self.come_to(wide);
        self.set_floor(input, wide);
        self.add_to_input(input, level, wide);
    }

    /// The record comes to the states of the latest 181, if an entry of this wide time is later.
    fn come_to(&mut self, wide: u32)
        ensures { (recorded stamp : ℕ) (level : Bool) → facts_kept self.new ≡ (record (facts_kept self.old) {
          seen = seen_below (Recorded (Entry recorded level stamp wide)) (facts_kept self.old).seen;
          inputs = λ input. input_coming input (coming (facts_kept self.old) (Recorded (Entry recorded level stamp wide)))
              ((facts_kept self.old).inputs input);
        }) }
    {
        if self.has_seen != 0 && is_later(wide, self.seen) {
            self.has_seen = 0;
            self.inputs.come_to(self.seen_levels);
        }
    }

    /// The record comes to the states of the latest 181, if the stamp of a block without C is not before them.
    fn come_to_end(&mut self, status: u8, stamp: u32)
        requires { says_more status ≡ false }
        ensures { facts_kept self.new ≡ (record (facts_kept self.old) {
          seen = seen_below (Ended status stamp) (facts_kept self.old).seen;
          inputs = λ input. input_coming input (coming (facts_kept self.old) (Ended status stamp))
              ((facts_kept self.old).inputs input);
        }) }
    {
        if self.has_seen != 0 && !is_before(stamp, self.seen) {
            self.has_seen = 0;
            self.inputs.come_to(self.seen_levels);
        }
    }

    /// Sets the floor to an entry of this input and wide time, if its time is known.
    fn set_floor(&mut self, input: InputNumber, wide: u32)
        ensures { facts_kept self.new ≡ (record (facts_kept self.old) {
          floor = if (facts_kept self.old).aged then None else Some (record { time = wide; input = Some input });
        }) }
    {
        self.floor = wide;
        self.floor_input = input.get();
        self.floor_kind = if self.aged == 0 { 1 } else { 0 };
    }

    /// Adds an entry to what is kept of its input.
    fn add_to_input(&mut self, input: InputNumber, level: bool, wide: u32)
        ensures { facts_kept self.new ≡ (record (facts_kept self.old) {
          inputs = λ other. if other == input && nat_lt other INPUTS
              then input_with_entry (facts_kept self.old) level wide ((facts_kept self.old).inputs other)
              else (facts_kept self.old).inputs other;
        }) }
    {
        let place = usize::from(input.get());
        if place < INPUTS {
            let timely = self.timely != 0 && self.aged == 0;
            self.inputs
                .add_entry(place, level, wide, self.clear != 0, timely);
        }
    }

    // ---- Its end

    /// Adds the end of a block.
    pub(crate) fn end_block(&mut self, status: u8, stamp: u32)
        ensures { facts_kept self.new ≡ content_with (facts_kept self.old) (Ended status stamp) }
    {
        let excused = self.is_end_excused(status, stamp);
        self.step_end(status, stamp);
        self.forget(excused);
    }

    /// Adds the end of a block, whether or not it is excused.
    fn step_end(&mut self, status: u8, stamp: u32)
        ensures { facts_kept self.new ≡ content_step (facts_kept self.old) (Ended status stamp) }
    {
        if !BlockStatus::from_octet(status).more() {
            self.come_to_end(status, stamp);
            self.settle(status);
            self.end_full(status, stamp);
        }
        self.polled = 0;
        self.since_poll = 0;
    }

    /// Settles the inputs that the end of a block without C settles.
    fn settle(&mut self, status: u8)
        requires { says_more status ≡ false }
        ensures { (stamp : ℕ) → facts_kept self.new ≡ (record (facts_kept self.old) {
          inputs = λ input. input_ended (settles (facts_kept self.old) input (Ended status stamp)) ((facts_kept self.old).inputs input);
        }) }
    {
        if !BlockStatus::from_octet(status).again() {
            self.inputs.settle_but(0);
        } else if self.clear != 0 {
            self.inputs.settle_but(self.since_poll);
        }
    }

    /// Keeps the stamp of a block without C.
    fn end_full(&mut self, status: u8, stamp: u32)
        requires { says_more status ≡ false }
        ensures { facts_kept self.new ≡ (record (facts_kept self.old) {
          clear = not (says_again status) || (facts_kept self.old).clear;
          timely = timely_below (not (says_again status)) (facts_kept self.old);
          full = if timely_below (not (says_again status)) (facts_kept self.old) then Some stamp else None;
          floor = Some (record { time = stamp; input = None });
        }) }
    {
        self.floor_kind = 2;
        self.floor = stamp;
        self.full = stamp;
        if !BlockStatus::from_octet(status).again() {
            self.clear = 1;
            self.timely = self.timely_below_clear();
        }
    }

    /// Returns whether times are known below the end of a clear block.
    fn timely_below_clear(&self) -> u8
        ensures { is_flagged result ≡ ((facts_kept self.now).block_heard || (facts_kept self.now).timely) }
    {
        u8::from(self.block_heard != 0 || self.timely != 0)
    }
}
