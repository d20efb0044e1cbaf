//! Which rule on content an answer, an entry or the end of a block breaks.
ghost use Rattle.std.specs.Prelude.{◌≡◌, ℕ, Bool, find};
ghost use Rattle.fio_message.specs.Views.{answer_of};
ghost use Rattle.fio_cpu.specs.declared.record.Item.TheVariants.{Entry};
ghost use Rattle.fio_check.specs.ContentEvents.{Ended, Heard, Recorded};
ghost use Rattle.fio_check.specs.ContentKept.{facts_kept, seen_kept};
ghost use Rattle.fio_check.specs.ContentRules.{are_times_judged, breaks_answer, breaks_entry, breaks_time, broken_state, differs, entry_rules, first_differing, is_excused, rule_broken_by, state_breach, without_excuse};

use crate::content_above::{ContentAbove, stamp_of};
use crate::content_rules::{BrokenRule, ContentRule};
use crate::content_times::{is_before, is_later, milliseconds_between};
use crate::input_sets::has_input;
use fio_message::{AnswerView, BlockStatus, INPUTS, InputNumber, says_error, says_set_before};

impl ContentAbove {
    // ---- Answers

    /// Returns the first rule that an answer breaks.
    pub(crate) fn broken_by_answer(&self, answer: &AnswerView<'_>) -> Option<BrokenRule>
        ensures { result ≡ rule_broken_by (facts_kept self.now) (Heard (answer_of answer.now)) }
    {
        let rules = [
            ContentRule::Done,
            ContentRule::Accepted,
            ContentRule::Cleared,
            ContentRule::Watchdog,
            ContentRule::Clock,
        ];
        'rules: for rule in rules {
            if self.breaks_answer(answer, rule) {
                return Some(BrokenRule { input: None, rule });
            }
        }
        None
    }

    /// Returns whether an answer breaks a rule.
    fn breaks_answer(&self, answer: &AnswerView<'_>, rule: ContentRule) -> bool
        ensures { result ≡ breaks_answer (facts_kept self.now) (answer_of answer.now) rule }
    {
        match (rule, *answer) {
            (ContentRule::Done, AnswerView::LoadCounter { status }) => says_error(status),
            (ContentRule::Accepted, AnswerView::ConfigureInputs { status }) => {
                says_error(status) && self.absent_named == 0
            }
            (ContentRule::Cleared, AnswerView::Status { flags, .. }) => flags & self.clearing != 0,
            (ContentRule::Watchdog, AnswerView::Watchdog { status }) => {
                !says_set_before(status) && self.watchdog_set != 0
            }
            (ContentRule::Clock, _) => self.excuses == 0 && self.is_out_of_time(answer),
            _ => false,
        }
    }

    /// Returns whether the stamp of an answer is before the latest one.
    fn is_out_of_time(&self, answer: &AnswerView<'_>) -> bool
        ensures { result ≡ breaks_answer (without_excuse (facts_kept self.now)) (answer_of answer.now) ContentRule.Clock }
    {
        match stamp_of(answer) {
            Some(stamp) => self.has_clock != 0 && is_before(stamp, self.clock),
            None => false,
        }
    }

    /// Returns whether a load of the counter excuses an answer.
    #[tactic(auto, unfolding(crate::specs::ContentRules::is_excused))]
    pub(crate) fn is_answer_excused(&self, answer: &AnswerView<'_>) -> bool
        ensures { result ≡ is_excused (facts_kept self.now) (Heard (answer_of answer.now)) }
    {
        self.excuses != 0 && self.is_out_of_time(answer)
    }

    // ---- Entries

    /// Returns the first rule that an entry breaks.
    pub(crate) fn broken_by_entry(
        &self,
        input: InputNumber,
        level: bool,
        wide: u32,
    ) -> Option<BrokenRule>
        ensures { (stamp : ℕ) → result
            ≡ rule_broken_by (facts_kept self.now) (Recorded (Entry input level stamp wide)) }
    {
        if self.excuses == 0 {
            if let Some(broken) = self.state_broken_by_entry(wide) {
                return Some(broken);
            }
        }
        let rule = self.broken_entry_rule(input, level, wide)?;
        Some(BrokenRule {
            input: Some(input.get()),
            rule,
        })
    }

    /// Returns whether a load of the counter excuses an entry.
    #[tactic(auto, unfolding(crate::specs::ContentRules::is_excused))]
    pub(crate) fn is_entry_excused(&self, input: InputNumber, level: bool, wide: u32) -> bool
        ensures { (stamp : ℕ) → result
            ≡ is_excused (facts_kept self.now) (Recorded (Entry input level stamp wide)) }
    {
        self.excuses != 0 && self.is_untimely(input, level, wide)
    }

    /// Returns whether an entry breaks a rule on time.
    fn is_untimely(&self, input: InputNumber, level: bool, wide: u32) -> bool
        ensures { (stamp : ℕ) → result
            ≡ breaks_time (without_excuse (facts_kept self.now)) (Recorded (Entry input level stamp wide)) }
    {
        let place = usize::from(input.get());
        self.state_broken_by_entry(wide).is_some()
            || self.is_disordered(input, level, wide)
            || self.is_late(input, level, wide)
            || self.is_too_near(place, level, wide)
            || self.is_otherwise(place, level, wide)
    }

    /// Returns the breach of the states that were asked for, if the record comes to them with an entry.
    fn state_broken_by_entry(&self, wide: u32) -> Option<BrokenRule>
        ensures { (input stamp : ℕ) (level : Bool) → result
            ≡ broken_state (without_excuse (facts_kept self.now)) (Recorded (Entry input level stamp wide)) (facts_kept self.now).seen }
    {
        if self.has_seen == 0 {
            return None;
        }
        self.broken_state(is_later(wide, self.seen))
    }

    /// Returns the first rule that an entry breaks, apart from the rule on states.
    fn broken_entry_rule(&self, input: InputNumber, level: bool, wide: u32) -> Option<ContentRule>
        ensures { result ≡ find (breaks_entry (facts_kept self.now) input
            (record { level = level; wide = wide })) entry_rules }
    {
        let rules = [
            ContentRule::Order,
            ContentRule::Fresh,
            ContentRule::Alternate,
            ContentRule::Apart,
            ContentRule::Ignored,
            ContentRule::State,
        ];
        'rules: for rule in rules {
            if self.breaks_entry(input, level, wide, rule) {
                return Some(rule);
            }
        }
        None
    }

    /// Returns whether an entry breaks a rule.
    fn breaks_entry(&self, input: InputNumber, level: bool, wide: u32, rule: ContentRule) -> bool
        ensures { result ≡ breaks_entry (facts_kept self.now) input
            (record { level = level; wide = wide }) rule }
    {
        let place = usize::from(input.get());
        match rule {
            ContentRule::Order => self.excuses == 0 && self.is_disordered(input, level, wide),
            ContentRule::Fresh => self.excuses == 0 && self.is_late(input, level, wide),
            ContentRule::Alternate => self.inputs.watched(place) == Some(level),
            ContentRule::Apart => self.excuses == 0 && self.is_too_near(place, level, wide),
            ContentRule::Ignored => self.inputs.is_shut(place),
            ContentRule::State => self.excuses == 0 && self.is_otherwise(place, level, wide),
            _ => false,
        }
    }

    /// Returns whether the times of entries that are recorded now are known.
    fn are_times_known(&self) -> bool
        ensures { result ≡ are_times_judged (without_excuse (facts_kept self.now)) }
    {
        self.timely != 0 && self.aged == 0
    }

    fn is_disordered(&self, input: InputNumber, level: bool, wide: u32) -> bool
        ensures { result ≡ breaks_entry (without_excuse (facts_kept self.now)) input
            (record { level = level; wide = wide }) ContentRule.Order }
    {
        if !self.are_times_known() || self.floor_kind != 1 {
            return false;
        }
        let same = wide == self.floor && self.floor_input < input.get();
        !is_later(wide, self.floor) && !same
    }

    fn is_late(&self, input: InputNumber, level: bool, wide: u32) -> bool
        ensures { result ≡ breaks_entry (without_excuse (facts_kept self.now)) input
            (record { level = level; wide = wide }) ContentRule.Fresh }
    {
        if !self.are_times_known() || self.floor_kind < 2 {
            return false;
        }
        !is_later(wide, self.floor)
    }

    /// Returns whether an entry of an input contradicts what a 181 shows of it.
    fn is_otherwise(&self, place: usize, level: bool, wide: u32) -> bool
        ensures { result ≡ breaks_entry (without_excuse (facts_kept self.now)) place
            (record { level = level; wide = wide }) ContentRule.State }
    {
        if self.has_seen != 0 && is_later(wide, self.seen) {
            return self
                .inputs
                .is_shown_otherwise_by(place, level, self.seen_levels);
        }
        self.inputs.is_shown_otherwise(place, level)
    }

    /// Returns whether an entry is nearer to the latest one of its input than the lowest filter that can be in
    /// force.
    fn is_too_near(&self, place: usize, level: bool, wide: u32) -> bool
        ensures { result ≡ breaks_entry (without_excuse (facts_kept self.now)) place
            (record { level = level; wide = wide }) ContentRule.Apart }
    {
        match self.inputs.timed(place) {
            Some(earlier) if self.are_times_known() => {
                let filter = self.inputs.filter_towards(place, level);
                milliseconds_between(earlier, wide) < u32::from(filter)
            }
            _ => false,
        }
    }

    // ---- The states that were asked for

    /// Returns the breach of the end of a block.
    pub(crate) fn broken_by_end(&self, status: u8, stamp: u32) -> Option<BrokenRule>
        ensures { result ≡ rule_broken_by (facts_kept self.now) (Ended status stamp) }
    {
        if self.excuses != 0 {
            return None;
        }
        self.state_broken_by_end(status, stamp)
    }

    /// Returns whether a load of the counter excuses the end of a block.
    #[tactic(auto, unfolding(crate::specs::ContentRules::is_excused))]
    pub(crate) fn is_end_excused(&self, status: u8, stamp: u32) -> bool
        ensures { result ≡ is_excused (facts_kept self.now) (Ended status stamp) }
    {
        self.excuses != 0 && self.state_broken_by_end(status, stamp).is_some()
    }

    /// Returns the breach of the end of a block, as if no load excused it.
    fn state_broken_by_end(&self, status: u8, stamp: u32) -> Option<BrokenRule>
        ensures { result ≡ broken_state (without_excuse (facts_kept self.now)) (Ended status stamp) (facts_kept self.now).seen }
    {
        if self.has_seen == 0 {
            return None;
        }
        let more = BlockStatus::from_octet(status).more();
        self.broken_state(!more && !is_before(stamp, self.seen))
    }

    /// Returns the breach of the states that were asked for, if the record comes to them and no load excuses it.
    fn broken_state(&self, comes: bool) -> Option<BrokenRule>
        ensures { result ≡ state_breach comes (first_differing (without_excuse (facts_kept self.now)) (seen_kept self.now)) }
    {
        if !comes {
            return None;
        }
        let input = self.first_differing()?;
        Some(BrokenRule {
            input: Some(input),
            rule: ContentRule::State,
        })
    }

    /// Returns the lowest input that has another state in the record than in the latest 181.
    fn first_differing(&self) -> Option<u8>
        ensures { result ≡ first_differing (without_excuse (facts_kept self.now)) (seen_kept self.now) }
    {
        'inputs: for place in 0..INPUTS {
            if self.differs(place) {
                return Some(place as u8);
            }
        }
        None
    }

    fn differs(&self, place: usize) -> bool
        ensures { result ≡ differs (seen_kept self.now) place ((facts_kept self.now).inputs place) }
    {
        match self.inputs.steady(place) {
            Some(level) => level != has_input(self.seen_levels, place),
            None => false,
        }
    }
}
