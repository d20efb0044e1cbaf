//! Times of 32 bits that are compared, modulo 2^32.
ghost use Rattle.std.specs.Prelude.{◌≡◌};
ghost use Rattle.fio_check.specs.ContentSaid.{is_before, is_far, is_later, milliseconds_between};

/// Half of all times: a time that is this far after another, or farther, counts as before it.
const HALF: u32 = 1 << 31;

/// Returns the milliseconds from an earlier time to a later one.
pub(crate) fn milliseconds_between(earlier: u32, later: u32) -> u32
    ensures { result ≡ milliseconds_between earlier later }
{
    later.wrapping_sub(earlier)
}

/// Returns whether a time is before another.
pub(crate) fn is_before(time: u32, other: u32) -> bool
    ensures { result ≡ is_before time other }
{
    milliseconds_between(other, time) >= HALF
}

/// Returns whether a time is so far after an earlier one that 16 bits do not determine it.
pub(crate) fn is_far(earlier: u32, later: u32) -> bool
    ensures { result ≡ is_far earlier later }
{
    milliseconds_between(earlier, later) >= 1 << 16
}

/// Returns whether a time is after another.
pub(crate) fn is_later(time: u32, other: u32) -> bool
    ensures { result ≡ is_later time other }
{
    time != other && !is_before(time, other)
}
