//! The rules of a transcript, by what is above a line and what the line says.
ghost use Rattle.std.specs.Prelude.{◌≡◌};
ghost use Rattle.fio_check.specs.Rules.{breaks_within, first_broken, first_broken_within, is_overfull_within, rule_name, rule_number, rule_of_number};

use crate::facts::Facts;
use crate::limits::RuleLimits;
use crate::observation::Observation;
use fio_message::BlockStatus;
use fio_message::types::BLOCK_ANSWER;

/// What a line of a transcript may break, in the order in which the rules are tried (own profile). `Advance` also says
/// what a breach means: with the number ahead of block N, which was due, and with an earlier number. The source of a rule is that
/// of what the module or the CPU does, and that of the octets and bits that the rule reads, by docs/PROTOCOL.md.
/// `tools/generate-constants` makes the words of pages and tools of these.
#[derive(Clone, Copy, Debug, PartialEq, Eq, PartialOrd, Ord, Hash)]
pub enum Rule {
    /// Broken by a line that is no message of its direction.
    ///
    /// Source: behaviour TEES 2009, layout own profile.
    Readable,
    /// Broken by a line that is an answer, but not directly below a command whose type is 128 less.
    ///
    /// Source: behaviour TEES 2009, layout TEES 2009.
    Pair,
    /// Broken by a line that is a block answer with another number than the poll directly above.
    ///
    /// Source: behaviour TEES 2009, layout TEES 2009.
    Number,
    /// Broken by a line that is a poll, not the first, with another number than the one due: that of
    /// the poll before, plus one modulo 256 if a block answer is directly below that poll.
    ///
    /// Breach ahead: the CPU went on without an answer, and what block N had may be lost, which TEES allows; or the log lost
    /// a line
    ///
    /// Breach behind: the CPU asks again for a block that was answered; or it did not hear that answer, and the log is
    /// not its own
    ///
    /// Source: behaviour own profile, layout TEES 2009.
    Advance,
    /// Broken by a line that is a block answer with E, though the poll directly above has another
    /// number than the poll before that.
    ///
    /// Source: behaviour TEES 2009, layout own profile.
    Same,
    /// Broken by a line that is a block answer with G and E, or with G and a block answer before it.
    ///
    /// Source: behaviour TEES 2009 and own profile, layout own profile.
    Sequence,
    /// Broken by a line that is a block answer with F and without C, or with C and a count other
    /// than 255, or with an input above 63. With other limits of the module: F without C only if more
    /// entries may wait than a block takes, and C with any other count than a block takes.
    ///
    /// Source: behaviour TEES 2009 and own profile, layout own profile.
    RuleLimits,
    /// Broken by a line that is a block answer without entries, and the block answer before it has C.
    ///
    /// Source: behaviour TEES 2009, layout own profile.
    Rest,
    /// Broken by a line that is an answer 179 that says done (bit 0 is 0) to a configuration 51 that
    /// names an input above 63.
    ///
    /// Source: behaviour own profile, layout own profile.
    Refusal,
}

impl Rule {
    /// The rules, in the order in which they are tried.
    pub const ALL: [Rule; 9] = [
        Rule::Readable,
        Rule::Pair,
        Rule::Number,
        Rule::Advance,
        Rule::Same,
        Rule::Sequence,
        Rule::RuleLimits,
        Rule::Rest,
        Rule::Refusal,
    ];

    /// Returns the name of the rule, in lower case.
    pub fn name(self) -> &'static str
        ensures { result.now ≡ rule_name self }
    {
        match self {
            Rule::Readable => "readable",
            Rule::Pair => "pair",
            Rule::Number => "number",
            Rule::Advance => "advance",
            Rule::Same => "same",
            Rule::Sequence => "sequence",
            Rule::RuleLimits => "limits",
            Rule::Rest => "rest",
            Rule::Refusal => "refusal",
        }
    }

    /// Returns the place of the rule in `Rule::ALL`, from 1, which is its number in C and the bindings.
    pub fn number(self) -> u8
        ensures { result ≡ rule_number self }
    {
        match self {
            Rule::Readable => 1,
            Rule::Pair => 2,
            Rule::Number => 3,
            Rule::Advance => 4,
            Rule::Same => 5,
            Rule::Sequence => 6,
            Rule::RuleLimits => 7,
            Rule::Rest => 8,
            Rule::Refusal => 9,
        }
    }

    /// Returns the rule with this number, if there is one.
    pub fn of_number(number: u8) -> Option<Rule>
        ensures { result ≡ rule_of_number number }
    {
        match number {
            1 => Some(Rule::Readable),
            2 => Some(Rule::Pair),
            3 => Some(Rule::Number),
            4 => Some(Rule::Advance),
            5 => Some(Rule::Same),
            6 => Some(Rule::Sequence),
            7 => Some(Rule::RuleLimits),
            8 => Some(Rule::Rest),
            9 => Some(Rule::Refusal),
            _ => None,
        }
    }

    /// Returns whether a line with this observation breaks the rule, given the facts above it, of a module with these
    /// limits.
    #[inline(always)]
    pub fn is_broken(self, limits: RuleLimits, facts: &Facts, observation: Observation) -> bool
        ensures { result ≡ breaks_within limits facts.now observation self }
    {
        match (self, observation) {
            (Rule::Readable, Observation::Unreadable) => true,
            (Rule::Pair, Observation::Answer { code, .. }) => facts.awaited != Some(code),
            (Rule::Pair, Observation::Block { .. }) => facts.awaited != Some(BLOCK_ANSWER),
            (Rule::Number, Observation::Block { number, .. }) => {
                matches!(facts.polled, Some(polled) if polled != number)
            }
            (Rule::Advance, Observation::Poll { number }) => {
                matches!(facts.number_due(), Some(due) if due != number)
            }
            (Rule::Same, Observation::Block { status, .. }) => {
                BlockStatus::from_octet(status).again() && facts.advanced
            }
            (Rule::Sequence, Observation::Block { status, .. }) => {
                let status = BlockStatus::from_octet(status);
                status.out_of_sequence() && (status.again() || facts.more.is_some())
            }
            (
                Rule::RuleLimits,
                Observation::Block {
                    status,
                    entries,
                    names_absent,
                    ..
                },
            ) => is_overfull(limits, status, entries) || names_absent,
            (Rule::Rest, Observation::Block { entries, .. }) => {
                entries == 0 && facts.more == Some(true)
            }
            (Rule::Refusal, Observation::Answer { accepts, .. }) => accepts && facts.absent_named,
            _ => false,
        }
    }
}

/// Returns the first rule that a line with this observation breaks, given the facts above it, of a module with the
/// limits of TEES 2009.
#[inline(always)]
pub fn rule_broken(facts: &Facts, observation: Observation) -> Option<Rule>
    ensures { result ≡ first_broken facts.now observation }
{
    rule_broken_within(RuleLimits::standard(), facts, observation)
}

/// As `rule_broken`, of a module with these limits.
#[inline(always)]
pub fn rule_broken_within(
    limits: RuleLimits,
    facts: &Facts,
    observation: Observation,
) -> Option<Rule>
    ensures { result ≡ first_broken_within limits facts.now observation }
{
    'rules: for rule in Rule::ALL {
        if rule.is_broken(limits, facts, observation) {
            return Some(rule);
        }
    }
    None
}

/// Returns whether a block answer has F without C, if more entries may wait than a block takes, or C with another count
/// than a block takes.
fn is_overfull(limits: RuleLimits, status: u8, entries: usize) -> bool
    ensures { result ≡ is_overfull_within limits status entries }
{
    let status = BlockStatus::from_octet(status);
    let per_block = usize::from(limits.per_block);
    per_block < usize::from(limits.waiting) && status.lost() && !status.more()
        || status.more() && entries != per_block
}
