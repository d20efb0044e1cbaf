//! The checker of a transcript, one frame at a time.
ghost use Rattle.std.specs.Prelude.{◌≡◌, true, false};
ghost use Rattle.fio_check.specs.Checkers.{breach_of, checker_anywhere, checker_skipping, checker_with, checker_within, due_in, found_by, new_checker, passes_over, skips_frame};
ghost use Rattle.fio_check.specs.Observations.{observation_in};

use crate::facts::Facts;
use crate::limits::RuleLimits;
use crate::observation::Observation;
use crate::rules::{Rule, rule_broken_within};
use fio_message::types::BLOCK_ANSWER;

/// A number or a type that was due.
#[derive(Clone, Copy, Debug, PartialEq, Eq, Hash)]
pub struct Due {
    /// What the frame had to have.
    pub expected: u8,
    /// What the frame has.
    pub actual: u8,
}

/// What a checker finds in a frame that breaks a rule.
#[derive(Clone, Copy, Debug, PartialEq, Eq, Hash)]
pub struct Breach {
    /// The first rule that the frame breaks.
    pub rule: Rule,
    /// The number of a poll (rule `advance`) or of a block answer (`number`), or the type of an
    /// answer below a command (`pair`).
    pub due: Option<Due>,
}

/// What a checker skips.
#[derive(Clone, Copy, Debug, PartialEq, Eq, Hash)]
pub enum Skips {
    /// Nothing.
    Nothing,
    /// What the CPU's end hears before the first frame that it sends: in a log that begins anywhere.
    ToCommand,
    /// All frames before the next poll: below a breach.
    ToPoll,
}

/// A checker: what it keeps of the frames that it took.
#[derive(Clone, Copy, Debug, PartialEq, Eq, Hash)]
pub struct Checker {
    /// The limits of the module.
    pub limits: RuleLimits,
    /// What is above the next frame.
    pub facts: Facts,
    /// What the checker skips.
    pub skips: Skips,
}

impl Checker {
    /// Returns a checker above the first frame, of a module with the limits of TEES 2009.
    pub fn new() -> Checker
        ensures { result ≡ new_checker }
    {
        Checker::within(RuleLimits::standard())
    }

    /// Returns a checker above the first frame, of a module with these limits.
    pub fn within(limits: RuleLimits) -> Checker
        ensures { result ≡ checker_within limits }
    {
        Checker::skipping(Skips::Nothing, limits)
    }

    /// Returns a checker above the first frame of a log that begins anywhere, of a module with these limits. It skips what
    /// the CPU's end hears above the first frame that it sends.
    pub fn anywhere(limits: RuleLimits) -> Checker
        ensures { result ≡ checker_anywhere limits }
    {
        Checker::skipping(Skips::ToCommand, limits)
    }

    pub(crate) fn skipping(skips: Skips, limits: RuleLimits) -> Checker
        ensures { result ≡ checker_skipping skips limits }
    {
        Checker {
            limits,
            facts: Facts::default(),
            skips,
        }
    }

    /// Takes a frame that the CPU's end sent, and returns its breach. After a breach it continues like a checker that
    /// starts at the next poll.
    pub fn sent(&mut self, octets: &[u8]) -> Option<Breach>
        ensures breach { result ≡ found_by self.old true (observation_in true octets.now) }
        ensures next { self.new ≡ checker_with self.old true (observation_in true octets.now) }
    {
        self.take(true, Observation::of(true, octets))
    }

    /// Takes a frame that the CPU's end heard, and returns its breach. After a breach it continues like a checker that
    /// starts at the next poll.
    pub fn heard(&mut self, octets: &[u8]) -> Option<Breach>
        ensures breach { result ≡ found_by self.old false (observation_in false octets.now) }
        ensures next { self.new ≡ checker_with self.old false (observation_in false octets.now) }
    {
        self.take(false, Observation::of(false, octets))
    }

    /// Takes a frame with this observation, and returns its breach.
    pub(crate) fn take(&mut self, from_cpu: bool, observation: Observation) -> Option<Breach>
        ensures breach { result ≡ found_by self.old from_cpu observation }
        ensures next { self.new ≡ checker_with self.old from_cpu observation }
    {
        if self.passes_over(from_cpu, observation) {
            return None;
        }
        let breach = breach_of(self.limits, &self.facts, observation);
        if breach.is_some() {
            *self = Checker::skipping(Skips::ToPoll, self.limits);
        } else {
            self.facts.add(observation);
            self.skips = Skips::Nothing;
        }
        breach
    }

    /// Returns whether the checker skips a frame with this observation.
    pub(crate) fn passes_over(&self, from_cpu: bool, observation: Observation) -> bool
        ensures { result ≡ passes_over self.now from_cpu observation }
    {
        match observation {
            Observation::Poll { .. } => false,
            _ => self.skips.skips_frame(from_cpu),
        }
    }
}

impl Skips {
    fn skips_frame(self, from_cpu: bool) -> bool
        ensures { result ≡ skips_frame self from_cpu }
    {
        match self {
            Skips::Nothing => false,
            Skips::ToCommand => !from_cpu,
            Skips::ToPoll => true,
        }
    }
}

/// Returns the breach of a frame with this observation, given the facts above it and the limits.
fn breach_of(limits: RuleLimits, facts: &Facts, observation: Observation) -> Option<Breach>
    ensures { result ≡ breach_of limits facts.now observation }
{
    match rule_broken_within(limits, facts, observation) {
        Some(rule) => {
            let due = due_in(facts, observation, rule);
            Some(Breach { rule, due })
        }
        None => None,
    }
}

/// Returns what was due by a rule, and what the frame has.
fn due_in(facts: &Facts, observation: Observation, rule: Rule) -> Option<Due>
    ensures { result ≡ due_in facts.now observation rule }
{
    let (expected, actual) = match (rule, observation) {
        (Rule::Pair, Observation::Answer { code, .. }) => (facts.awaited, code),
        (Rule::Pair, Observation::Block { .. }) => (facts.awaited, BLOCK_ANSWER),
        (Rule::Number, Observation::Block { number, .. }) => (facts.polled, number),
        (Rule::Advance, Observation::Poll { number }) => (facts.number_due(), number),
        _ => (None, 0),
    };
    let expected = expected?;
    Some(Due { expected, actual })
}
