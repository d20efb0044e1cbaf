//! An event as a script keeps it, in 24 octets.
ghost use Rattle.std.specs.Prelude.{◌≡◌};
ghost use Rattle.fio_world.specs.Steps.{event_of};

use super::command_word::CommandWord;
use fio_link::Event;

/// An event of a script. The command after `send` stays a word of the text.
#[derive(Clone, Copy)]
pub(crate) enum ScriptStep<'a> {
    /// `Event::Scan`.
    Scan(u64),
    /// `Event::LineSync`.
    LineSync,
    /// `Event::Raise`.
    Raise(u8),
    /// `Event::Poll`.
    Poll,
    /// The CPU sends the command that the word denotes.
    Send(CommandWord<'a>),
    /// `Event::ToModule`.
    ToModule(usize),
    /// `Event::ToCpu`.
    ToCpu(usize),
    /// `Event::Restart`.
    Restart,
}

impl ScriptStep<'_> {
    /// Returns the event.
    pub(crate) fn event(&self) -> Event
        ensures { result ≡ event_of self.now }
    {
        match self {
            ScriptStep::Scan(raw) => Event::Scan(*raw),
            ScriptStep::LineSync => Event::LineSync,
            ScriptStep::Raise(mask) => Event::Raise(*mask),
            ScriptStep::Poll => Event::Poll,
            ScriptStep::Send(word) => Event::Send(word.command()),
            ScriptStep::ToModule(index) => Event::ToModule(*index),
            ScriptStep::ToCpu(index) => Event::ToCpu(*index),
            ScriptStep::Restart => Event::Restart,
        }
    }
}
