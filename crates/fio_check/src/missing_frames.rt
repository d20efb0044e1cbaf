//! Where frames may be missing, by the lines of a log that speak of loss.
ghost use Rattle.std.specs.Prelude.{◌≡◌};
ghost use Rattle.fio_check.specs.MissingFrames.{do_explain, missing_below};

use crate::observation::Observation;
use crate::rules::Rule;

/// Where frames may be missing, since a line of the log speaks of loss.
#[derive(Clone, Copy, Debug, PartialEq, Eq, Hash)]
pub enum MissingFrames {
    /// Nowhere below the latest block answer.
    Nowhere,
    /// Below the latest poll and the latest block answer.
    Below,
    /// Above the latest poll, and below the latest block answer.
    AbovePoll,
}

impl MissingFrames {
    /// Returns where frames may be missing below a frame that says this.
    pub fn below(self, observation: Observation) -> MissingFrames
        ensures { result ≡ missing_below self observation }
    {
        match (self, observation) {
            (MissingFrames::Nowhere, _) | (_, Observation::Block { .. }) => MissingFrames::Nowhere,
            (_, Observation::Poll { .. }) => MissingFrames::AbovePoll,
            (missing, _) => missing,
        }
    }

    /// Returns whether they can be the reason why a frame breaks this rule.
    pub fn explain(self, rule: Rule) -> bool
        ensures { result ≡ do_explain self rule }
    {
        match self {
            MissingFrames::Nowhere => false,
            MissingFrames::Below => {
                matches!(
                    rule,
                    Rule::Pair | Rule::Number | Rule::Advance | Rule::Same | Rule::Refusal
                )
            }
            MissingFrames::AbovePoll => matches!(rule, Rule::Same),
        }
    }
}
