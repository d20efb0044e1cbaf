//! The outcome that the judge of a link gives a frame.
use crate::checker::Breach;
use crate::content::ContentBreach;

/// Where a frame was logged.
#[derive(Clone, Copy, Debug, PartialEq, Eq, Hash)]
pub enum LogPlace {
    /// At the CPU's end, which sent or heard it.
    Cpu,
    /// At the module: the CPU's end may not have heard an answer.
    Module,
    /// On the bus between them, or at an unknown place: either end may not have heard it.
    Bus,
}

/// Why a frame that would break a rule is not held against its sender.
#[derive(Clone, Copy, Debug, PartialEq, Eq, Hash)]
pub enum Excuse {
    /// The frame's stamp is before the latest one, and a load of the counter may have taken effect.
    Load,
    /// The frame is a poll with the number of the latest one, and the CPU's end may not have heard the answer
    /// to that.
    Unheard,
}

/// Why a frame is not judged.
#[derive(Clone, Copy, Debug, PartialEq, Eq, Hash)]
pub enum Unjudged {
    /// The frame is heard above the first command of a log that begins anywhere.
    AboveCommand,
    /// The place is lost, and no poll is between that and the frame.
    PlaceLost,
}

/// The outcome of a frame.
#[derive(Clone, Copy, Debug, PartialEq, Eq, Hash)]
pub enum FrameOutcome {
    /// The frame keeps all rules.
    Kept,
    /// The frame breaks a rule of transcripts.
    Broken(Breach),
    /// The frame breaks a rule on content.
    BrokenContent(ContentBreach),
    /// The frame would break a rule, but may be right.
    Excused(Excuse),
    /// The module was restarted above the frame, or the frame's stamp is wrong. (Or the module has forgotten its watchdog. Or the
    /// frame is a repeated block with an earlier stamp than the latest one, and what it says is wrong.)
    Restarted,
    /// No rule is applied to the frame.
    NotJudged(Unjudged),
}
