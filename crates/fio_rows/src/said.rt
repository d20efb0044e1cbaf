//! What is said of a line.
use fio_form::Found;

/// What a line says.
#[derive(Clone, Copy, Debug, PartialEq, Eq)]
pub enum Said {
    /// A message, whose last row it is.
    Frame,
    /// Octets of a message that may go on in the next line.
    Part,
    /// Octets of a stream.
    Stream,
    /// Octets before and after a message, and none.
    Idle,
    /// A row of a dump whose beginning is not open.
    Stray,
    /// A form has the line, and it says no message.
    Damaged,
    /// No form has the line.
    Other,
}

/// What is said of a line.
#[derive(Clone, Copy, Debug, PartialEq, Eq)]
pub struct LineSaid {
    /// What the line says.
    pub said: Said,
    /// Whether a message above was begun and not ended.
    pub is_broken: bool,
    /// Whether a message of any length ended with the line above: `Reading::ended` has it.
    pub is_ended: bool,
    /// Whether the octets of the line go on with those of the open message.
    pub goes_on: bool,
    /// The form that has the line, by its index; 0 if none has it.
    pub form: usize,
    /// Where its octets are.
    pub found: Found,
}
