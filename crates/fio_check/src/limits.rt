//! The limits of the module of a transcript, as far as the rules read them.
use fio_message::BLOCK_ENTRIES;

/// The limits of a module: the most entries of one block, and the most that wait for a poll (own profile; TEES 2009
/// has 255 and 1,024).
#[derive(Clone, Copy, Debug, PartialEq, Eq, Hash)]
pub struct RuleLimits {
    /// The most entries of a block.
    pub per_block: u8,
    /// The most entries that wait.
    pub waiting: u16,
}

impl RuleLimits {
    ghost use Rattle.std.specs.Prelude.{◌≡◌};
    ghost use Rattle.fio_check.specs.Rules.{standard_rule_limits};

    /// Returns the limits of TEES 2009.
    pub fn standard() -> RuleLimits
        ensures { result ≡ standard_rule_limits }
    {
        RuleLimits {
            per_block: BLOCK_ENTRIES as u8,
            waiting: 1024,
        }
    }
}
