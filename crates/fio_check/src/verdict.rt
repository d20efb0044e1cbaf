//! The verdict on a transcript.
ghost use Rattle.std.specs.Prelude.{◌≡◌};
ghost use Rattle.fio_check.specs.Verdicts.{verdict_on};

use crate::facts::Facts;
use crate::line::Line;
use crate::observation::Observation;
use crate::rules::{Rule, rule_broken};

/// The verdict on a transcript.
#[derive(Clone, Copy, Debug, PartialEq, Eq, Hash)]
pub enum Verdict {
    /// No line breaks a rule.
    Good {
        /// The number of lines.
        frames: usize,
    },
    /// A line breaks a rule, and no line above it does.
    Broken {
        /// The number of the line.
        number: usize,
        /// The first rule that it breaks.
        rule: Rule,
    },
}

/// Returns the verdict on a transcript: good if no line breaks a rule, else the number of the first
/// line that does, and the first rule that it breaks. It reads the lines once and allocates
/// nothing.
pub fn check_trace(lines: &[Line]) -> Verdict
    ensures { result ≡ verdict_on lines.now }
{
    let mut facts = Facts::default();
    for line in lines {
        let observation = Observation::on(line);
        if let Some(rule) = rule_broken(&facts, observation) {
            let number = line.number;
            return Verdict::Broken { number, rule };
        }
        facts.add(observation);
    }
    Verdict::Good {
        frames: lines.len(),
    }
}
