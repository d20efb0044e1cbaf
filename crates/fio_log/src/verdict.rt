//! What a reader says of the lines of a log.
ghost use Rattle.std.specs.Prelude.{◌≡◌};

use crate::clock::Moment;
use crate::directions::Direction;
use crate::header::{FrameHeader, NO_HEADER};

/// How lines are read. As `Frames` or `Transcript` they are read as `show` or `check` reads them, with two differences:
/// colour sequences, NULs by themselves and byte order marks are removed, and a line also ends at CR.
#[derive(Clone, Copy, Debug, PartialEq, Eq)]
pub enum Form {
    /// As lines of any log: frames are found by what the octets of a line say, and by what makes that sure.
    Auto,
    /// As frames, one a line, like the input of `show`.
    Frames,
    /// As a transcript, like the input of `check`.
    Transcript,
}

/// What a line is.
#[derive(Clone, Copy, Debug, PartialEq, Eq)]
pub enum Kind {
    /// The line is blank.
    Blank,
    /// The line has one frame or more, or the first octets of one.
    Frames,
    /// The line has further octets of the frames of a line above.
    Part,
    /// No form has the line, and it may have held a frame.
    Possible,
    /// The line may have held a frame, but gave none.
    Damaged,
    /// The line is none of these.
    PassedOver,
}

/// Why a line gave no frame, or what is beside its frames.
#[derive(Clone, Copy, Debug, PartialEq, Eq)]
pub enum Reason {
    /// The line gave frames and nothing else, or is blank, or a part.
    None,
    /// The line has no octets in the notation of a form.
    NoOctets,
    /// The line's octets are no message.
    NoMessage,
    /// No form has the line, and it has octets that may be a message.
    NoForm,
    /// No form has the line, and it has a message between two flags, with a right check.
    UnreadFrame,
    /// Beside its frames the line has octets that may be a message.
    More,
    /// The line is longer than a line that is kept, or its octets are more than are kept of several lines.
    TooLong,
    /// The line is not one of the text that it is read as.
    BadLine,
    /// The line has no octets, and speaks of loss.
    Loss,
    /// The line says no message, and is the heading of a log or of a part of one.
    Heading,
    /// The line repeats the frame above it.
    Copy,
    /// The message of the lines above is not whole, and does not go on in this line.
    Broken,
}

/// What a reader says of a line.
#[derive(Clone, Copy, Debug, PartialEq, Eq)]
pub struct LineVerdict {
    /// The number of the line, from 1.
    pub line: u64,
    /// What the line is.
    pub kind: Kind,
    /// Why the line gave no frame.
    pub reason: Reason,
    /// How many frames the line gives, with those of the lines below that continue it.
    pub frames: usize,
    /// At how many places the octets of the frames are written.
    pub places: usize,
    /// The time of its frames.
    pub time: Option<Moment>,
    /// Who sent the octets of its frames, as the line says by the words before them; `None` if it does not. A transcript
    /// says it in each line.
    pub said: Option<Direction>,
    /// The header of its frames, if all have one and the same.
    pub header: FrameHeader,
    /// The type of the message that the line has in place of frames, if this protocol has none of that type; or 55, 180 or 181, if it
    /// has another number of octets of inputs or outputs, which `header.control` says: of a module of another size; or 183, if its only
    /// frame answers such a 55 in the line above; else 0.
    pub foreign: u8,
}

impl LineVerdict {
    /// Returns a verdict on a line; its frames and places are still to be counted.
    pub(crate) fn of(line: u64, kind: Kind, reason: Reason, said: Option<Direction>) -> LineVerdict
        ensures line { result.line ≡ line }
        ensures kind { result.kind ≡ kind }
        ensures reason { result.reason ≡ reason }
        ensures said { result.said ≡ said }
    {
        LineVerdict {
            line,
            kind,
            reason,
            frames: 0,
            places: 0,
            time: None,
            said,
            header: NO_HEADER,
            foreign: 0,
        }
    }
}
