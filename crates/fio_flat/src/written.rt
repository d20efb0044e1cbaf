//! What calls that write into an array of the caller return.

/// The count of octets of a message that does not exist, and the count of entries or items if the octets carry none: more
/// than any array can have.
pub const NO_MESSAGE: usize = usize::MAX;

/// The count of octets of an answer of the maker that is refused, since none is awaited: more than any array can have.
pub const NOT_AWAITED: usize = usize::MAX - 1;

/// The same, since the answer to a command of another type is awaited.
pub const OTHER_AWAITED: usize = usize::MAX - 2;

/// The same, since no message has so long a body.
pub const BODY_TOO_LONG: usize = usize::MAX - 3;
