//! What is above a line of a transcript, as far as the rules read it.
ghost use Rattle.std.specs.Prelude.{◌≡◌};
ghost use Rattle.fio_check.specs.Facts.{facts_with, number_due};

use crate::observation::Observation;
use fio_message::BlockStatus;
use fio_message::types::BLOCK_ANSWER;

/// What the rules read of the lines above. `default()` is for the first line, above which nothing
/// is.
#[derive(Clone, Copy, Debug, Default, PartialEq, Eq, Hash)]
pub struct Facts {
    /// The type of the answer to the command directly above, if a command is directly above.
    pub awaited: Option<u8>,
    /// Whether that command names an input above 63.
    pub absent_named: bool,
    /// The number of the latest poll.
    pub polled: Option<u8>,
    /// Whether the latest poll or block answer is a block answer.
    pub answered: bool,
    /// Whether the latest poll has another number than the poll before it.
    pub advanced: bool,
    /// Whether the latest block answer has C.
    pub more: Option<bool>,
}

impl Facts {
    /// Adds a line with this observation.
    pub fn add(&mut self, observation: Observation)
        ensures { self.new ≡ facts_with self.old observation }
    {
        match observation {
            Observation::Poll { number } => self.add_poll(number),
            Observation::Command {
                answer,
                names_absent,
            } => self.add_command(Some(answer), names_absent),
            Observation::Block { status, .. } => {
                self.answered = true;
                self.more = Some(BlockStatus::from_octet(status).more());
                self.add_command(None, false);
            }
            Observation::Answer { .. } | Observation::Unreadable => self.add_command(None, false),
        }
    }

    /// Returns the number that the next poll must have; `None` if no poll is above.
    pub fn number_due(&self) -> Option<u8>
        ensures { result ≡ number_due self.now }
    {
        let polled = self.polled?;
        if self.answered {
            Some(polled.wrapping_add(1))
        } else {
            Some(polled)
        }
    }

    fn add_poll(&mut self, number: u8)
        ensures { self.new ≡ facts_with self.old (Observation.Poll number) }
    {
        self.advanced = matches!(self.polled, Some(polled) if polled != number);
        self.polled = Some(number);
        self.answered = false;
        self.add_command(Some(BLOCK_ANSWER), false);
    }

    /// Adds what every line says about the next one: the answer that a command awaits there.
    fn add_command(&mut self, awaited: Option<u8>, absent_named: bool)
        ensures { self.new ≡ (record self.old { awaited = awaited; absent_named = absent_named }) }
    {
        self.awaited = awaited;
        self.absent_named = absent_named;
    }
}
