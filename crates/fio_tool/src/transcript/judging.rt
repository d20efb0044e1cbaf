//! The verdict on the lines of a transcript, line by line.
ghost use Rattle.std.specs.Prelude.{◌≡◌, None};
ghost use Rattle.fio_check.specs.Facts.{no_facts};
ghost use Rattle.fio_tool.specs.Judging.{IsJudged};

use fio_check::{Facts, Observation, Verdict, rule_broken};

/// What is kept of the lines so far: the first breach, and as long as there is none, what the rules need.
#[derive(Clone, Copy)]
pub(crate) struct Judging {
    pub(super) facts: Facts,
    pub(super) breach: Option<Verdict>,
}

impl Judging {
    /// Returns what is kept before the first line.
    pub(super) fn new() -> Judging
        ensures facts { result.facts ≡ no_facts }
        ensures breach { result.breach ≡ None }
    {
        Judging {
            facts: Facts::default(),
            breach: None,
        }
    }

    /// Adds a line with this number, which says this.
    #[inline(always)]
    pub(super) fn add(&mut self, number: usize, observation: Observation)
        ensures { IsJudged self.old number observation self.new }
    {
        if self.breach.is_some() {
            return;
        }
        match rule_broken(&self.facts, observation) {
            Some(rule) => self.breach = Some(Verdict::Broken { number, rule }),
            None => self.facts.add(observation),
        }
    }
}
