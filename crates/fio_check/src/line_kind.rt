//! What a line of a log is to the judge of the log: the table of events.
ghost use Rattle.std.specs.Prelude.{◌≡◌, length, nat_lt};
ghost use Rattle.fio_check.specs.LineKinds.{events_below_frame, events_of_line};
ghost use Rattle.fio_check.specs.LogJudges.{log_below_events, log_judging};

use crate::log_judge::LogJudge;

/// What a line of a log is to its judge. A line that is not surely without a further frame is an event: there a frame may be
/// missing, and what is unread is evidence against nobody. The end of a log is no kind of its own: if it cuts off a message, the
/// line that has the front of it is damaged.
#[derive(Clone, Copy, Debug, PartialEq, Eq, Hash)]
pub enum LogLineKind {
    /// The line has frames, and nothing else that may be a message.
    Frames,
    /// The line has frames, and something that may be of others, or the message above breaks off at it.
    FramesAndMore,
    /// A form has the line, which has no frame.
    Damaged,
    /// The line is longer than what is kept.
    TooLong,
    /// The line has no frame, and the message above breaks off at it.
    BreakingOff,
    /// No form has the line, and it may have held a frame.
    Possible,
    /// The line has no octets, and its text speaks of loss.
    Loss,
    /// The line is the heading of a log or of a part of one.
    Heading,
    /// The line has no frame: it is blank, a part of a message, a copy of the frame above, or other text.
    Other,
}

impl LogLineKind {
    /// Returns whether a frame may be missing at a line of this kind.
    pub fn is_event(self) -> bool
        ensures { result ≡ nat_lt 0 (length (events_of_line self)) }
    {
        !matches!(self, LogLineKind::Frames | LogLineKind::Other)
    }
}

impl LogJudge {
    /// Takes a line of this kind, above its frames if it has any.
    pub fn line(&mut self, kind: LogLineKind)
        ensures { log_judging self.new ≡ log_below_events (log_judging self.old) (events_of_line kind) }
    {
        match kind {
            LogLineKind::FramesAndMore
            | LogLineKind::Damaged
            | LogLineKind::TooLong
            | LogLineKind::BreakingOff => self.lose(),
            LogLineKind::Possible => self.possible(),
            LogLineKind::Heading => self.heading(),
            LogLineKind::Loss => self.miss(),
            LogLineKind::Frames | LogLineKind::Other => {}
        }
    }

    /// Takes what is below a frame of a line of this kind.
    pub fn below_frame(&mut self, kind: LogLineKind)
        ensures { log_judging self.new ≡ log_below_events (log_judging self.old) (events_below_frame kind) }
    {
        if kind == LogLineKind::FramesAndMore {
            self.lose();
        }
    }
}
