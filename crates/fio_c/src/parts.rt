//! Messages with a list of parts, written into a buffer of the caller: the items of a configuration and
//! the entries of a block have three octets each.
ghost use Rattle.std.specs.Prelude.{◌≡◌, ◌<◌, ◌≤◌, ◌+◌, ◌*◌, ◌++◌, ◌&&◌, ℕ, List, length, nat_le, true};
ghost use Rattle.std.specs.List.{flat_map, list_all};
ghost use Rattle.fio_message.specs.declared.fields.TheConstants.{INPUT_NUMBERS};
ghost use Rattle.fio_message.specs.declared.limits.TheConstants.{FRAME_OCTETS};
ghost use Rattle.fio_c.specs.Flat.{can_be_named};
ghost use Rattle.fio_flat.specs.Written.{Writes, buffer_with};

use crate::written::write_at;
use fio_message::INPUT_NUMBERS;

/// An item or an entry from C.
pub(crate) trait FlatPart {
    /// The input that the message names.
    ghost named: { Self → ℕ };

    /// The octets that encode it in a message.
    ghost spelled: { Self → List ℕ };

    ghost three: { (part : Self) → length (spelled part) ≡ 3 };

    /// Returns the input that the message names.
    fn input(&self) -> u8
        ensures { result ≡ named self.now };

    /// Returns the octets that encode it in a message.
    fn octets(&self) -> [u8; 3]
        requires { named self.now < INPUT_NUMBERS }
        ensures { result ≡ spelled self.now };
}

/// Returns whether there are at most `most` parts, each of an input that a message can name.
pub(crate) fn are_parts<T: FlatPart>(parts: &[T], most: usize) -> bool
    ensures { result ≡ (nat_le (length parts.now) most && list_all (λ part. can_be_named (T.named part)) parts.now) }
{
    parts.len() <= most && are_named(parts)
}

/// Returns whether a message can name the input of each part. It looks at all parts, so that the
/// compiler can test many at a time.
fn are_named<T: FlatPart>(parts: &[T]) -> bool
    ensures { result ≡ list_all (λ part. can_be_named (T.named part)) parts.now }
{
    let mut named = true;
    for part in parts {
        named = named & (part.input() < INPUT_NUMBERS);
    }
    named
}

/// Writes a message if there is room for it: the octets before its parts, the parts, and the octets
/// after them. Returns how many octets it has.
#[inline]
pub(crate) fn write_with_parts<T: FlatPart>(
    before: &[u8],
    parts: &[T],
    after: &[u8],
    out: &mut [u8],
) -> usize
    requires named { list_all (λ part. can_be_named (T.named part)) parts.now ≡ true }
    requires short { length before.now + 3 * length parts.now + length after.now ≤ FRAME_OCTETS }
    ensures { Writes (before.now ++ (flat_map T.spelled parts.now ++ after.now)) out.old out.new result }
{
    let inner = before.len() + 3 * parts.len();
    let length = inner + after.len();
    if length <= out.len() {
        write_at(0, before, out);
        write_parts(parts, before.len(), out);
        write_at(inner, after, out);
    }
    length
}

/// Writes parts from an index on, three octets each.
fn write_parts<T: FlatPart>(parts: &[T], from: usize, out: &mut [u8])
    requires named { list_all (λ part. can_be_named (T.named part)) parts.now ≡ true }
    requires room { from + 3 * length parts.now ≤ length out.old }
    ensures { out.new ≡ buffer_with from (flat_map T.spelled parts.now) out.old }
{
    let mut place = from;
    for part in parts {
        write_at(place, &part.octets(), out);
        place += 3;
    }
}
