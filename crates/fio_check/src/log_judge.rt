//! The judge of a log: which end a log accuses, by the frames that a reader finds in it and by what it says of the lines
//! between them.
ghost use Rattle.std.specs.Prelude.{◌≡◌};
ghost use Rattle.fio_check.specs.LinkKept.{judging};
ghost use Rattle.fio_check.specs.LogJudges.{end_of, is_excused_late, is_explained, is_of_late, judging_in_time, link_lost, log_counting, log_forgetting, log_heading, log_judging, log_kept_late, log_lost, log_missing, log_possible, log_reaching, log_starting, log_unloaded, log_with, log_with_late, outcome_in_log, outcome_in_time, outcome_kept_late, outcome_late, place_of};
ghost use Rattle.fio_check.specs.Observations.{observation_in};
ghost use Rattle.fio_check.specs.declared.log_judge.LogOutcome.TheVariants.{Late};

use crate::checker::Skips;
use crate::late_answers::{LateAnswers, Lateness};
use crate::limits::RuleLimits;
use crate::link_judge::LinkJudge;
use crate::missing_frames::MissingFrames;
use crate::observation::Observation;
use crate::outcome::{Excuse, FrameOutcome, LogPlace};
use crate::rules::Rule;

/// How a log begins, and what is in it.
#[derive(Clone, Copy, Debug, PartialEq, Eq, Hash)]
pub enum LogStart {
    /// The log begins anywhere.
    Anywhere,
    /// The log begins when both ends start; then more is found.
    Begun,
    /// The log begins anywhere, and the CPU's end waits for each answer only until a deadline: late answers are left out.
    LateAnswers,
}

/// What a frame of a log is.
#[derive(Clone, Copy, Debug, PartialEq, Eq, Hash)]
pub enum LogOutcome {
    /// The outcome that the judge of a link gives.
    Link(FrameOutcome),
    /// The frame is a late answer.
    Late,
    /// The frame would break a rule, but a late answer above may be the reason.
    LateAbove,
}

/// The judge of a log: takes the frames of a log in order, and what is known of the lines between them, and returns for each frame
/// whether it breaks a rule, and so accuses its sender, or why it does not.
///
/// # Examples
///
/// The CPU polls for block 6 though block 5 was not answered. That breaks the rule `advance`, unless a line between says that
/// frames were lost:
///
/// ```rust
/// use fio_check::{FrameOutcome, LogJudge, LogOutcome, LogStart, RuleLimits};
///
/// let mut judge = LogJudge::new(RuleLimits::standard(), None, LogStart::Anywhere);
/// assert_eq!(rt; judge.frame(true, Some(true), &[0x36, 5]), LogOutcome::Link(FrameOutcome::Kept));
/// judge.miss();
/// assert_eq!(rt; judge.frame(true, Some(true), &[0x36, 6]), LogOutcome::Link(FrameOutcome::Kept));
/// ```
///
/// # Where the log was taken
///
/// A log from the module or from the bus has answers that the CPU's end may not have heard, so a poll that asks again for an
/// answered block accuses nobody there. If `new` gets no place, the judge decides at each frame: at the CPU's end, if its line names
/// a sender, and so far at least four of five lines that do so name the right one; else on the bus.
#[derive(Clone, Copy, Debug)]
pub struct LogJudge {
    /// The judge of the link.
    pub link: LinkJudge,
    /// What decides which answers are late, if these are left out.
    pub late: Option<LateAnswers>,
    /// Where the log was taken, if that is known.
    pub place: Option<LogPlace>,
    /// How many frames were sent by the end that their line names, up to 2^32 - 1.
    pub agreeing: u32,
    /// How many frames were sent by the other end, up to 2^32 - 1.
    pub contrary: u32,
    /// Whether a frame is above.
    pub has_frames: bool,
    /// Where frames may be missing, since a line speaks of loss.
    pub missing: MissingFrames,
    /// Whether no load of the counter is among lines that are lost.
    pub never_loads: bool,
}

impl LogJudge {
    /// Returns a judge above the first line of a log of a module with these limits. `place` says where the log was taken, if
    /// that is known.
    pub fn new(limits: RuleLimits, place: Option<LogPlace>, start: LogStart) -> LogJudge
        ensures { log_judging result ≡ log_starting limits place start }
    {
        let (link, late) = match start {
            LogStart::Anywhere => (LinkJudge::anywhere(limits), None),
            LogStart::Begun => (LinkJudge::begun(limits), None),
            LogStart::LateAnswers => (LinkJudge::anywhere(limits), Some(LateAnswers::new())),
        };
        LogJudge {
            link,
            late,
            place,
            agreeing: 0,
            contrary: 0,
            has_frames: false,
            missing: MissingFrames::Nowhere,
            never_loads: false,
        }
    }

    /// Takes that the CPU of this log never loads the counter, so that no load is among lines that are lost. That ends at a load in
    /// the log.
    pub fn never_loads(&mut self)
        ensures { log_judging self.new ≡ log_unloaded (log_judging self.old) }
    {
        self.never_loads = true;
    }

    /// Takes a line that may have held a frame: nothing is judged until the next poll.
    pub fn lose(&mut self)
        ensures { log_judging self.new ≡ log_lost (log_judging self.old) }
    {
        self.lose_link();
        if let Some(late) = &mut self.late {
            late.settled = false;
        }
    }

    /// Takes lines that are lost to the judge of the link: one of them may have been a load of the counter, unless the CPU never
    /// loads it.
    fn lose_link(&mut self)
        ensures { log_judging self.new
            ≡ (record (log_judging self.old) { link = link_lost self.old.never_loads (judging self.old.link) }) }
    {
        if self.never_loads {
            self.link.lose_unloaded();
        } else {
            self.link.lose();
        }
    }

    /// Takes a line that says a message which nothing confirms: if a frame is above, or if frames are judged from the first one on,
    /// nothing is judged until the next poll.
    pub fn possible(&mut self)
        ensures { log_judging self.new ≡ log_possible (log_judging self.old) }
    {
        if self.has_frames || matches!(self.link.checker.skips, Skips::Nothing) {
            self.lose();
        }
    }

    /// Takes the heading of a log or of a part of one: if a frame is above, nothing is judged until the next poll.
    pub fn heading(&mut self)
        ensures { log_judging self.new ≡ log_heading (log_judging self.old) }
    {
        if self.has_frames {
            self.lose();
        }
    }

    /// Takes a line that speaks of loss, and has no octets: a breach that a frame explains which is missing here is none. A poll that
    /// is missing here can be the reason why the block below the next poll is one sent again.
    pub fn miss(&mut self)
        ensures { log_judging self.new ≡ log_missing (log_judging self.old) }
    {
        self.missing = MissingFrames::Below;
    }

    /// Takes a frame, and returns its outcome. `from_cpu` says whether the CPU's end sent it, and `said` whether its line says
    /// so, if the line names the sender.
    pub fn frame(&mut self, from_cpu: bool, said: Option<bool>, octets: &[u8]) -> LogOutcome
        ensures outcome { result ≡ outcome_in_log (log_judging self.old) from_cpu said octets.now }
        ensures next { log_judging self.new ≡ log_with (log_judging self.old) from_cpu said octets.now }
    {
        let observation = Observation::of(from_cpu, octets);
        self.reach(from_cpu, said, observation);
        let at = self.place_of(said);
        match self.late {
            None => LogOutcome::Link(self.link.frame(at, from_cpu, octets)),
            Some(late) => self.judge_late(late, at, from_cpu, octets, observation),
        }
    }

    // ---- Above a frame

    /// Notes who sent a frame that says this and whether it is a load, and loses the place if frames that are missing above explain
    /// what it breaks.
    fn reach(&mut self, from_cpu: bool, said: Option<bool>, observation: Observation)
        ensures { log_judging self.new ≡ log_reaching (log_judging self.old) from_cpu said observation }
    {
        self.count_side(from_cpu, said);
        if self.is_explained(from_cpu, observation) {
            self.lose();
        }
        self.missing = self.missing.below(observation);
        self.has_frames = true;
        self.never_loads = self.never_loads && !observation.is_load();
    }

    /// Counts whether the log names the end that sent a frame, or the other one.
    fn count_side(&mut self, from_cpu: bool, said: Option<bool>)
        ensures { log_judging self.new ≡ log_counting (log_judging self.old) from_cpu said }
    {
        match said {
            Some(by_cpu) if by_cpu == from_cpu => self.agreeing = self.agreeing.saturating_add(1),
            Some(_) => self.contrary = self.contrary.saturating_add(1),
            None => {}
        }
    }

    /// Returns whether frames that are missing above a frame that says this explain what it breaks.
    fn is_explained(&self, from_cpu: bool, observation: Observation) -> bool
        ensures { result ≡ is_explained (log_judging self.now) from_cpu observation }
    {
        if matches!(self.missing, MissingFrames::Nowhere) {
            return false;
        }
        let mut checker = self.link.checker;
        match checker.take(from_cpu, observation) {
            Some(breach) => self.missing.explain(breach.rule),
            None => false,
        }
    }

    /// Returns where a frame was logged whose line names this sender, or none.
    fn place_of(&self, said: Option<bool>) -> LogPlace
        ensures { result ≡ place_of (log_judging self.now) said }
    {
        match (self.place, said) {
            (Some(place), _) => place,
            (None, None) => LogPlace::Bus,
            (None, Some(_)) => self.end_of(),
        }
    }

    /// Returns where a frame with a direction was logged, by how many directions agree with the types of the messages.
    fn end_of(&self) -> LogPlace
        ensures { result ≡ end_of (log_judging self.now) }
    {
        let (agreeing, contrary) = (u64::from(self.agreeing), u64::from(self.contrary));
        if 4 * contrary <= agreeing {
            LogPlace::Cpu
        } else {
            LogPlace::Bus
        }
    }

    // ---- Late answers

    /// Judges a frame of a log from which late answers are left out.
    fn judge_late(
        &mut self,
        late: LateAnswers,
        at: LogPlace,
        from_cpu: bool,
        octets: &[u8],
        observation: Observation,
    ) -> LogOutcome
        requires { observation ≡ observation_in from_cpu octets.now }
        ensures outcome { result ≡ outcome_late (log_judging self.old) late at from_cpu octets.now }
        ensures next { log_judging self.new ≡ log_with_late (log_judging self.old) late at from_cpu octets.now }
    {
        let lateness = late.lateness(observation);
        let mut below = late;
        below.add(observation);
        match lateness {
            Lateness::InTime => {
                let outcome = self.judge_in_time(at, from_cpu, octets, observation);
                self.keep_late(below, at, outcome)
            }
            Lateness::Late => self.leave_out(below),
            Lateness::LateButTaken => {
                self.lose_link();
                self.leave_out(below)
            }
        }
    }

    /// Leaves out a late answer, after which `below` is kept of the answers.
    fn leave_out(&mut self, below: LateAnswers) -> LogOutcome
        ensures outcome { result ≡ Late }
        ensures next { log_judging self.new ≡ log_forgetting (log_judging self.old) below }
    {
        self.link.forget_content();
        self.late = Some(below);
        LogOutcome::Late
    }

    /// Judges a frame that is not a late answer. The rules on content get only commands and block answers.
    fn judge_in_time(
        &mut self,
        at: LogPlace,
        from_cpu: bool,
        octets: &[u8],
        observation: Observation,
    ) -> FrameOutcome
        requires { observation ≡ observation_in from_cpu octets.now }
        ensures outcome { result ≡ outcome_in_time (judging self.old.link) at from_cpu octets.now }
        ensures next { log_judging self.new ≡ (record (log_judging self.old) {
          link = judging_in_time (judging self.old.link) at from_cpu octets.now;
        }) }
    {
        if from_cpu || matches!(observation, Observation::Block { .. }) {
            self.link.frame(at, from_cpu, octets)
        } else {
            self.link.answer_without_content(observation)
        }
    }

    /// Goes on after a frame with this outcome of the judge of the link, with what is kept of the answers, and returns the
    /// outcome of the frame.
    fn keep_late(&mut self, below: LateAnswers, at: LogPlace, outcome: FrameOutcome) -> LogOutcome
        ensures outcome { result ≡ outcome_kept_late below at outcome }
        ensures next { log_judging self.new ≡ log_kept_late (log_judging self.old) below at outcome }
    {
        let mut below = below;
        below.settled = below.settled && !is_of_late(at, outcome);
        if !below.settled {
            self.link.forget_content();
        }
        self.late = Some(below);
        if is_excused_late(at, below.settled, outcome) {
            LogOutcome::LateAbove
        } else {
            LogOutcome::Link(outcome)
        }
    }
}

/// Returns whether a frame breaks a rule that late answers may break in a log of this place.
fn is_of_late(at: LogPlace, outcome: FrameOutcome) -> bool
    ensures { result ≡ is_of_late at outcome }
{
    match outcome {
        FrameOutcome::Broken(breach) => match breach.rule {
            Rule::Same | Rule::Refusal => true,
            Rule::Advance => !matches!(at, LogPlace::Cpu),
            _ => false,
        },
        _ => false,
    }
}

/// Returns whether a frame with this outcome of the judge of the link is excused in a log of this place. `settled` says that no
/// answer to a command above can still come.
fn is_excused_late(at: LogPlace, settled: bool, outcome: FrameOutcome) -> bool
    ensures { result ≡ is_excused_late at settled outcome }
{
    match outcome {
        FrameOutcome::BrokenContent(_)
        | FrameOutcome::Restarted
        | FrameOutcome::Excused(Excuse::Load) => !settled,
        _ => is_of_late(at, outcome),
    }
}
