//! The limits of a module: how many entries a block has, how many may wait, and how long a watchdog waits.
use fio_message::BLOCK_ENTRIES;
use std::marker::Model;

/// The most entries that wait if the caller gives no limits (TEES 2009), and the least that a caller may give as that limit
/// (own profile).
pub const STANDARD_WAITING: u16 = 1024;

/// The most that a caller may give as that limit (own profile).
pub const MOST_WAITING: u16 = 8192;

/// The least timeout of the watchdog in milliseconds: less is taken as this (TEES 2009).
pub const LEAST_TIMEOUT: u8 = 10;

/// The greatest timeout of the watchdog in milliseconds: more is taken as this (TEES 2009).
pub const MOST_TIMEOUT: u8 = 100;

/// The limits of a module: the most entries of one block, 1 to 255, and the most entries that wait
/// for a poll, 1,024 to 8,192 (own profile; TEES 2009 has 255 and 1,024).
#[derive(Clone, Copy, Debug, PartialEq, Eq, Hash)]
pub struct Limits {
    per_block: u8,
    waiting: u16,
}

impl Model for Limits {
    ghost use Rattle.std.specs.Prelude.{◌≤◌};
    ghost use Rattle.fio_module.specs.Limits.{Limits as Values};
    ghost use Rattle.fio_module.specs.declared.limits.TheConstants.{STANDARD_WAITING, MOST_WAITING};

    ghost Value = { Values };

    ghost view = { λ limits. record { per_block = limits.per_block; waiting = limits.waiting } };

    ghost invariant = { λ limits.
        (1 ≤ limits.per_block) × (STANDARD_WAITING ≤ limits.waiting)
        × (limits.waiting ≤ MOST_WAITING) };

    ghost inverse = { λ values. record { per_block = values.per_block; waiting = values.waiting } };
}

impl Default for Limits {
    ghost use Rattle.std.specs.Prelude.{◌≡◌};
    ghost use Rattle.fio_module.specs.Limits.{standard_limits};

    ghost is_default = { λ limits. limits ≡ standard_limits };

    /// Returns the limits of TEES 2009.
    fn default() -> Self {
        Self::STANDARD
    }
}

impl Limits {
    ghost use Rattle.std.specs.Prelude.{◌≡◌, Some, None, if◌then◌else◌};
    ghost use Rattle.fio_module.specs.Limits.{are_limits};

    /// The limits of TEES 2009, which a module has if the caller gives none.
    pub const STANDARD: Limits = Limits {
        per_block: BLOCK_ENTRIES as u8,
        waiting: STANDARD_WAITING,
    };

    /// Returns the limits with these numbers, or `None` if one is out of its range: `per_block` 1 to
    /// 255, `waiting` 1,024 to 8,192.
    pub fn new(per_block: u8, waiting: u16) -> Option<Limits>
        ensures { result
            ≡ (if are_limits per_block waiting
            then Some (record { per_block = per_block; waiting = waiting })
            else None) }
    {
        if per_block >= 1 && waiting >= STANDARD_WAITING && waiting <= MOST_WAITING {
            Some(Limits { per_block, waiting })
        } else {
            None
        }
    }

    /// Returns the most entries of one block.
    pub(crate) fn per_block(self) -> u8
        ensures { result ≡ self.per_block }
    {
        self.per_block
    }

    /// Returns the most entries that wait.
    pub(crate) fn waiting(self) -> u16
        ensures { result ≡ self.waiting }
    {
        self.waiting
    }
}
