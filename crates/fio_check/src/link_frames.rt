//! How the judge of a link judges a frame whose stamp shows no restart: by the rules of transcripts, then by those on content.
ghost use Rattle.std.specs.Prelude.{◌≡◌, Bool, None, false, true};
ghost use Rattle.fio_check.specs.ContentCheckers.{checking_with, found_in_frame};
ghost use Rattle.fio_check.specs.Checkers.{checker_with};
ghost use Rattle.fio_check.specs.ContentKept.{content_checking};
ghost use Rattle.fio_check.specs.LinkJudges.{any_stamp_in, asked_below, content_here, is_asked_again, is_at_cpu, is_unheard, judging_at, judging_below_outcome, outcome_found, outcome_judged, polls_below, unjudged_by};
ghost use Rattle.fio_check.specs.LinkKept.{judging};
ghost use Rattle.fio_check.specs.LogJudges.{outcome_without_content};
ghost use Rattle.fio_check.specs.Observations.{observation_in};

use crate::checker::{Checker, Skips};
use crate::content::{ContentBreach, ContentChecker};
use crate::content_rules::ContentRule;
use crate::facts::Facts;
use crate::frame_stamps::{any_stamp_in, stamp_in};
use crate::link_judge::LinkJudge;
use crate::observation::Observation;
use crate::outcome::{Excuse, FrameOutcome, LogPlace, Unjudged};

impl LinkJudge {
    /// Takes an answer with this observation, keeps it from the rules on content, and returns its outcome.
    pub(crate) fn answer_without_content(&mut self, observation: Observation) -> FrameOutcome
        ensures outcome { result ≡ outcome_without_content (judging self.old) observation }
        ensures next { judging self.new ≡ (record (judging self.old) {
          checker = checker_with self.old.checker false observation;
        }) }
    {
        if self.checker.passes_over(false, observation) {
            return FrameOutcome::NotJudged(unjudged_by(self.checker.skips));
        }
        match self.checker.take(false, observation) {
            Some(breach) => FrameOutcome::Broken(breach),
            None => FrameOutcome::Kept,
        }
    }

    /// Judges a frame with this observation, without a look at its stamp.
    pub(crate) fn judge(
        &mut self,
        at: LogPlace,
        from_cpu: bool,
        octets: &[u8],
        observation: Observation,
    ) -> FrameOutcome
        requires { observation ≡ observation_in from_cpu octets.now }
        ensures outcome { result ≡ outcome_judged (judging self.old) at from_cpu octets.now }
        ensures next { judging self.new ≡ judging_below_outcome result (judging self.old) from_cpu octets.now }
    {
        let mut checker = self.checker;
        match checker.take(from_cpu, observation) {
            None => self.judge_content(checker, from_cpu, octets, observation),
            Some(_) if self.is_unheard(at, observation) => {
                let mut anew = Checker::within(self.checker.limits);
                let _none = anew.take(from_cpu, observation);
                let _nothing = self.take(anew, from_cpu, octets, observation);
                FrameOutcome::Excused(Excuse::Unheard)
            }
            Some(breach) => {
                self.checker = checker;
                FrameOutcome::Broken(breach)
            }
        }
    }

    /// Judges a frame that keeps the rules of transcripts, by the rules on content.
    fn judge_content(
        &mut self,
        checker: Checker,
        from_cpu: bool,
        octets: &[u8],
        observation: Observation,
    ) -> FrameOutcome
        requires said { observation ≡ observation_in from_cpu octets.now }
        requires checker { checker ≡ checker_with self.old.checker from_cpu observation }
        ensures outcome { (unheard : Bool) → result
            ≡ outcome_found unheard None (found_in_frame (content_here (judging self.old)) from_cpu octets.now) }
        ensures next { judging self.new ≡ judging_below_outcome result (judging self.old) from_cpu octets.now }
    {
        match self.take(checker, from_cpu, octets, observation) {
            Some(breach) if breach.rule == ContentRule::Watchdog => {
                self.lose_place(any_stamp_in(from_cpu, octets));
                FrameOutcome::Restarted
            }
            Some(breach) => {
                self.set_latest(stamp_in(from_cpu, octets));
                FrameOutcome::BrokenContent(breach)
            }
            None => {
                self.set_latest(stamp_in(from_cpu, octets));
                FrameOutcome::Kept
            }
        }
    }

    /// Takes a frame after which the checker of transcripts is this one, and returns its breach of a rule on content.
    fn take(
        &mut self,
        checker: Checker,
        from_cpu: bool,
        octets: &[u8],
        observation: Observation,
    ) -> Option<ContentBreach>
        requires { observation ≡ observation_in from_cpu octets.now }
        ensures found { result ≡ found_in_frame (content_here (judging self.old)) from_cpu octets.now }
        ensures next { judging self.new ≡ (record (judging self.old) {
          checker = checker;
          content = checking_with (content_here (judging self.old)) from_cpu octets.now;
          asked = asked_below (judging self.old) (observation_in from_cpu octets.now);
          polls = polls_below self.old.polls (observation_in from_cpu octets.now);
        }) }
    {
        self.asked = self.asked_below(observation);
        self.polls = polls_below(self.polls, observation);
        self.begin_content();
        self.checker = checker;
        take_content(&mut self.content, from_cpu, octets)
    }

    /// Begins the rules on content anew, if the place is lost above.
    fn begin_content(&mut self)
        ensures { judging self.new ≡ (record (judging self.old) { content = content_here (judging self.old) }) }
    {
        if matches!(self.checker.skips, Skips::ToPoll) {
            self.content.begin_again();
        }
    }

    /// Sets the latest stamp, if there is one.
    fn set_latest(&mut self, stamp: Option<u32>)
        ensures { judging self.new ≡ judging_at (judging self.old) stamp }
    {
        if stamp.is_some() {
            self.latest = stamp;
            self.polls = 0;
        }
    }

    /// Returns the latest stamp at the first poll for the block that is due, after a frame with this observation.
    fn asked_below(&self, observation: Observation) -> Option<u32>
        ensures { result ≡ asked_below (judging self.now) observation }
    {
        match observation {
            Observation::Poll { number } => {
                let polled = self.checker.facts.polled?;
                if number == polled {
                    self.asked
                } else {
                    self.latest
                }
            }
            _ => self.asked,
        }
    }

    /// Returns whether a frame with this observation may be right, because the CPU's end did not hear an answer above.
    fn is_unheard(&self, at: LogPlace, observation: Observation) -> bool
        ensures { result ≡ is_unheard (judging self.now) at observation }
    {
        !is_at_cpu(at) && is_asked_again(&self.checker.facts, observation)
    }
}

/// Returns the number of polls below the latest stamp, up to 2, after a frame with this observation.
fn polls_below(polls: u8, observation: Observation) -> u8
    ensures { result ≡ polls_below polls observation }
{
    match observation {
        Observation::Poll { .. } if polls < 2 => polls + 1,
        Observation::Poll { .. } => 2,
        _ => polls,
    }
}

/// Takes a frame, by whether the CPU's end sent it, and returns its breach of a rule on content.
pub(crate) fn take_content(
    content: &mut ContentChecker,
    from_cpu: bool,
    octets: &[u8],
) -> Option<ContentBreach>
    ensures found { result ≡ found_in_frame (content_checking content.old) from_cpu octets.now }
    ensures next { content_checking content.new ≡ checking_with (content_checking content.old) from_cpu octets.now }
{
    if from_cpu {
        content.sent(octets);
        return None;
    }
    content.heard(octets)
}

/// Returns whether a log is taken at the CPU's end, so that the CPU's end heard each answer in it.
fn is_at_cpu(at: LogPlace) -> bool
    ensures { result ≡ is_at_cpu at }
{
    match at {
        LogPlace::Cpu => true,
        _ => false,
    }
}

/// Returns whether a frame with this observation is a poll with the number of the latest one.
fn is_asked_again(facts: &Facts, observation: Observation) -> bool
    ensures { result ≡ is_asked_again facts.now observation }
{
    match (observation, facts.polled) {
        (Observation::Poll { number }, Some(polled)) => number == polled,
        _ => false,
    }
}

/// Returns why a frame is not judged, by what is skipped.
pub(crate) fn unjudged_by(skips: Skips) -> Unjudged
    ensures { result ≡ unjudged_by skips }
{
    match skips {
        Skips::ToCommand => Unjudged::AboveCommand,
        _ => Unjudged::PlaceLost,
    }
}
