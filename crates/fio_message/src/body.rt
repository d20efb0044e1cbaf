//! The octets after the type of a message of which only the body is read, in place.
ghost use Rattle.std.specs.Prelude.{◌≡◌, ◌≤◌, ◌==◌, length};
ghost use Rattle.fio_message.specs.declared.limits.TheConstants.{BODY_OCTETS};

use crate::frames::Body;
use crate::limits::BODY_OCTETS;
use crate::reading::body_of;

/// The octets after the type of a message, at most 772, in its frame.
#[derive(Clone, Copy, Debug)]
pub struct BodyView<'a> {
    octets: &'a [u8],
    ghost fits: { length octets.now ≤ BODY_OCTETS },
}

impl<'a> BodyView<'a> {
    ghost use Rattle.fio_message.specs.Views.{body_of};

    /// Returns the body of these octets.
    pub(crate) fn of_octets(octets: &'a [u8]) -> BodyView<'a>
        requires { length octets.now ≤ BODY_OCTETS }
        ensures { body_of result ≡ octets.now }
    {
        BodyView { octets }
    }

    /// Returns the octets, at most 772.
    pub fn as_slice(&self) -> &'a [u8]
        ensures value { result.now ≡ body_of self.now }
        ensures fits { length (body_of self.now) ≤ BODY_OCTETS }
    {
        self.octets
    }

    /// Returns the number of octets, at most 772.
    pub fn len(&self) -> usize
        ensures value { result ≡ length (body_of self.now) }
        ensures fits { result ≤ BODY_OCTETS }
    {
        self.octets.len()
    }

    /// Returns whether the body is empty.
    pub fn is_empty(&self) -> bool
        ensures { result ≡ (length (body_of self.now) == 0) }
    {
        self.octets.is_empty()
    }

    /// Returns a copy of the octets.
    pub fn to_body(&self) -> Body
        ensures { result.items ≡ body_of self.now }
    {
        body_of(self.octets)
    }
}
