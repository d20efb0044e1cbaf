//! Places of a log where octets are written.

/// Where octets are written in a log. Colour sequences, NULs by themselves and byte order marks do not count as characters of a
/// line.
#[derive(Clone, Copy, Debug, Default, PartialEq, Eq)]
pub struct Place {
    /// The number of the line, from 1.
    pub line: u64,
    /// The index of the first character.
    pub start: usize,
    /// The index after the last character.
    pub end: usize,
}
