//! The judge of a link: which end a log accuses, if lines of it may be lost and the module may be restarted.
ghost use Rattle.std.specs.Prelude.{◌≡◌, None, false, if◌then◌else◌, true};
ghost use Rattle.fio_message.specs.Views.{answer_of};
ghost use Rattle.fio_check.specs.LinkJudges.{any_stamp_in, is_answer_set_back, is_set_back, judging_anywhere, judging_begun, judging_below_outcome, judging_lost, judging_passed, judging_with, loads_below, loads_left, may_answer_anew, may_be_anew, outcome_anew, outcome_in, outcome_judged, outcome_set_back, place_lost, stamp_above, unjudged_by};
ghost use Rattle.fio_check.specs.LinkKept.{judging};
ghost use Rattle.fio_check.specs.LogJudges.{judging_lost_unloaded, without_content};
ghost use Rattle.fio_check.specs.Observations.{observation_in};

use crate::checker::{Checker, Skips};
use crate::content::ContentChecker;
use crate::content_times::is_before;
use crate::frame_stamps::{any_stamp_in, any_stamp_of};
use crate::limits::RuleLimits;
use crate::link_frames::{take_content, unjudged_by};
use crate::observation::Observation;
use crate::outcome::{Excuse, FrameOutcome, LogPlace};
use crate::rules::Rule;
use fio_message::{AnswerView, BlockStatus, read_answer};

/// The judge of a link: it takes a log frame by frame, and returns the outcome of each. What lost lines may explain accuses
/// nobody, and neither a restart of the module nor a load of the counter is a fault.
///
/// Below a lost line, a restart, a load that took effect, and a breach of a rule of transcripts nothing is judged until the
/// next poll. From there on all rules apply anew.
///
/// # Examples
///
/// ```rust
/// use fio_check::{FrameOutcome, LinkJudge, LogPlace, RuleLimits, Unjudged};
///
/// let mut judge = LinkJudge::anywhere(RuleLimits::standard());
/// assert_eq!(rt; judge.frame(LogPlace::Cpu, true, &[0x36, 5]), FrameOutcome::Kept);
/// judge.lose();
/// let answer = judge.frame(LogPlace::Cpu, false, &[0xb3, 0]);
/// assert_eq!(rt; answer, FrameOutcome::NotJudged(Unjudged::PlaceLost));
/// assert_eq!(rt; judge.frame(LogPlace::Cpu, true, &[0x36, 9]), FrameOutcome::Kept);
/// ```
#[derive(Clone, Copy, Debug)]
pub struct LinkJudge {
    /// The checker of the rules of transcripts.
    pub checker: Checker,
    /// The checker of the rules on content.
    pub content: ContentChecker,
    /// The latest stamp that was judged, but not that of a repeated block.
    pub latest: Option<u32>,
    /// The latest stamp at the time of the first poll for the block that is due.
    pub asked: Option<u32>,
    /// The number of polls below the latest stamp, up to 2.
    pub polls: u8,
}

impl LinkJudge {
    /// Returns a judge above the first line of a log that begins anywhere, of a module with these limits.
    pub fn anywhere(limits: RuleLimits) -> LinkJudge
        ensures { judging result ≡ judging_anywhere limits }
    {
        LinkJudge::above(Checker::anywhere(limits), ContentChecker::new())
    }

    /// Returns a judge above the first line of a log that begins with both ends, of a module with these limits.
    pub fn begun(limits: RuleLimits) -> LinkJudge
        ensures { judging result ≡ judging_begun limits }
    {
        LinkJudge::above(Checker::within(limits), ContentChecker::begun())
    }

    #[inline(always)]
    fn above(checker: Checker, content: ContentChecker) -> LinkJudge
        ensures { result ≡ (record { checker = checker; content = content; latest = None; asked = None; polls = 0 }) }
    {
        LinkJudge {
            checker,
            content,
            latest: None,
            asked: None,
            polls: 0,
        }
    }

    /// Takes a place where lines are lost, or where a part of a log ends and another begins.
    pub fn lose(&mut self)
        ensures { judging self.new ≡ judging_lost (judging self.old) }
    {
        self.lose_unloaded();
        self.content.may_miss_load();
    }

    /// Takes such a place, if none of the lines that are lost was a load of the counter.
    pub fn lose_unloaded(&mut self)
        ensures { judging self.new ≡ judging_lost_unloaded (judging self.old) }
    {
        if !matches!(self.checker.skips, Skips::ToCommand) {
            self.checker = Checker::skipping(Skips::ToPoll, self.checker.limits);
        }
    }

    /// Takes a frame that was logged at `at` and that the CPU's end sent or heard, and returns its outcome.
    pub fn frame(&mut self, at: LogPlace, from_cpu: bool, octets: &[u8]) -> FrameOutcome
        ensures outcome { result ≡ outcome_in (judging self.old) at from_cpu octets.now }
        ensures next { judging self.new ≡ judging_with (judging self.old) at from_cpu octets.now }
    {
        let observation = Observation::of(from_cpu, octets);
        if self.checker.passes_over(from_cpu, observation) {
            return self.pass_over(from_cpu, octets);
        }
        if self.is_set_back(from_cpu, octets) {
            return self.set_back(from_cpu, octets);
        }
        if self.may_be_anew(from_cpu, octets) {
            return self.judge_anew(at, from_cpu, octets, observation);
        }
        self.judge(at, from_cpu, octets, observation)
    }

    /// Takes a frame that is not judged: a command may be a load of the counter.
    fn pass_over(&mut self, from_cpu: bool, octets: &[u8]) -> FrameOutcome
        ensures outcome { result ≡ FrameOutcome.NotJudged (unjudged_by self.old.checker.skips) }
        ensures next { judging self.new ≡ judging_passed (judging self.old) from_cpu octets.now }
    {
        if from_cpu {
            self.content.sent(octets);
        }
        FrameOutcome::NotJudged(unjudged_by(self.checker.skips))
    }

    // ---- Stamps

    /// Returns whether the stamp of a frame is earlier than it may be if the counter runs on.
    fn is_set_back(&self, from_cpu: bool, octets: &[u8]) -> bool
        ensures { result ≡ is_set_back (judging self.now) from_cpu octets.now }
    {
        if from_cpu {
            return false;
        }
        match read_answer(octets) {
            Ok(answer) => self.is_answer_set_back(&answer),
            Err(_) => false,
        }
    }

    /// Returns whether the stamp of an answer is earlier than it may be if the counter runs on.
    fn is_answer_set_back(&self, answer: &AnswerView<'_>) -> bool
        ensures { result ≡ is_answer_set_back (judging self.now) (answer_of answer.now) }
    {
        match (any_stamp_of(answer), self.stamp_above(answer)) {
            (Some(stamp), Some(above)) => is_before(stamp, above),
            _ => false,
        }
    }

    /// Returns the earliest stamp that an answer may have if the counter runs on. A repeated block was made after the first
    /// poll for it.
    fn stamp_above(&self, answer: &AnswerView<'_>) -> Option<u32>
        ensures { result ≡ stamp_above (judging self.now) (answer_of answer.now) }
    {
        match *answer {
            AnswerView::Block { status, .. } if BlockStatus::from_octet(status).again() =>
                self.asked,
            _ => self.latest,
        }
    }

    /// Takes a frame whose stamp is set back.
    fn set_back(&mut self, from_cpu: bool, octets: &[u8]) -> FrameOutcome
        ensures outcome { result ≡ outcome_set_back (judging self.old) }
        ensures next { judging self.new ≡ place_lost (judging self.old)
            (loads_below (judging self.old) from_cpu octets.now) (any_stamp_in from_cpu octets.now) }
    {
        let loaded = self.content.loads_left() > 0;
        self.lose_place_at(from_cpu, octets);
        if loaded {
            FrameOutcome::Excused(Excuse::Load)
        } else {
            FrameOutcome::Restarted
        }
    }

    /// Returns whether a module that was restarted below the latest stamp may have sent a frame that is not set back.
    fn may_be_anew(&self, from_cpu: bool, octets: &[u8]) -> bool
        ensures { result ≡ may_be_anew (judging self.now) from_cpu octets.now }
    {
        if from_cpu || self.polls < 2 {
            return false;
        }
        match read_answer(octets) {
            Ok(answer) => self.may_answer_anew(&answer),
            Err(_) => false,
        }
    }

    /// Returns whether a module that was restarted below the latest stamp may have sent an answer that is not set back.
    fn may_answer_anew(&self, answer: &AnswerView<'_>) -> bool
        ensures { result ≡ may_answer_anew (judging self.now) (answer_of answer.now) }
    {
        match (*answer, self.latest) {
            (AnswerView::Block { status, stamp, .. }, Some(latest)) => {
                BlockStatus::from_octet(status).again()
                    && self.polls >= 2
                    && is_before(stamp, latest)
            }
            _ => false,
        }
    }

    /// Judges a frame that a module that was restarted may have sent: if that broke a rule by what is known from above the
    /// restart, there was one.
    fn judge_anew(
        &mut self,
        at: LogPlace,
        from_cpu: bool,
        octets: &[u8],
        observation: Observation,
    ) -> FrameOutcome
        requires { observation ≡ observation_in from_cpu octets.now }
        ensures outcome { result ≡ outcome_anew true (outcome_judged (judging self.old) at from_cpu octets.now) }
        ensures next { judging self.new ≡ judging_below_outcome result (judging self.old) from_cpu octets.now }
    {
        let mut below = *self;
        let outcome = below.judge(at, from_cpu, octets, observation);
        if shows_restart(outcome) {
            self.lose_place_at(from_cpu, octets);
            return FrameOutcome::Restarted;
        }
        *self = below;
        outcome
    }

    /// Loses the place at a frame: below its stamp, if it has one.
    fn lose_place_at(&mut self, from_cpu: bool, octets: &[u8])
        ensures { judging self.new ≡ place_lost (judging self.old)
            (loads_below (judging self.old) from_cpu octets.now) (any_stamp_in from_cpu octets.now) }
    {
        let _excused = take_content(&mut self.content, from_cpu, octets);
        self.lose_place(any_stamp_in(from_cpu, octets));
    }

    /// Loses the place below a stamp, if there is one.
    pub(crate) fn lose_place(&mut self, stamp: Option<u32>)
        ensures { judging self.new ≡ place_lost (judging self.old) (loads_left (judging self.old)) stamp }
    {
        self.checker = Checker::skipping(Skips::ToPoll, self.checker.limits);
        self.content.begin_again();
        self.latest = stamp;
        self.asked = None;
        self.polls = 0;
    }

    /// Forgets content and stamps, except the loads of the counter.
    pub(crate) fn forget_content(&mut self)
        ensures { judging self.new ≡ without_content (judging self.old) }
    {
        self.content.begin_again();
        self.latest = None;
        self.asked = None;
    }
}

/// Returns whether a frame with this outcome shows that the module was restarted, if a module that was restarted may have sent it.
fn shows_restart(outcome: FrameOutcome) -> bool
    ensures { outcome_anew true outcome ≡ (if result then FrameOutcome.Restarted else outcome) }
{
    match outcome {
        FrameOutcome::BrokenContent(_) => true,
        FrameOutcome::Broken(breach) => matches!(breach.rule, Rule::Rest),
        _ => false,
    }
}
