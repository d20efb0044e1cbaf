//! Sets of inputs as words: bit i is input i.
ghost use Rattle.std.specs.Prelude.{◌≡◌, ◌==◌, ◌<◌, ℕ, true, if◌then◌else◌};
ghost use Rattle.fio_message.specs.Bits.{is_set};
ghost use Rattle.fio_message.specs.declared.limits.TheConstants.{INPUTS};

use fio_message::INPUTS;

/// Returns whether an input is in a set.
#[inline]
pub(crate) fn has_input(set: u64, input: usize) -> bool
    ensures set { result ≡ is_set set input }
    ensures within { result ≡ true → input < INPUTS }
{
    input < INPUTS && (set >> input) & 1 == 1
}

/// Returns the set with an input put in or taken out.
#[inline]
pub(crate) fn with_input(set: u64, input: usize, holds: bool) -> u64
    requires { input < INPUTS }
    ensures { (other : ℕ) → is_set result other ≡ (if other == input then holds else is_set set other) }
{
    let bit = 1 << input;
    if holds { set | bit } else { set & !bit }
}
