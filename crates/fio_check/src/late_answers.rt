//! Late answers: what a CPU's end that waits for each answer only until a deadline hears late or twice.
ghost use Rattle.std.specs.Prelude.{◌≡◌, None};
ghost use Rattle.fio_check.specs.LateAnswers.{awaits, late_above, late_below_answer, late_below_block, late_below_command, late_below_poll, late_with, lateness_of, lateness_of_block};

use crate::observation::Observation;
use fio_message::types::BLOCK_ANSWER;

/// Whether a frame is a late answer.
#[derive(Clone, Copy, Debug, PartialEq, Eq, Hash)]
pub enum Lateness {
    /// The frame is not a late answer.
    InTime,
    /// The frame is a late answer, and the CPU's end does not take it.
    Late,
    /// The frame is a late answer, and the CPU's end may take it as the answer to its latest poll.
    LateButTaken,
}

/// What is kept of the frames above, to decide which answers are late.
#[derive(Clone, Copy, Debug, PartialEq, Eq, Hash)]
pub struct LateAnswers {
    /// Whether no answer to a command above can still come.
    pub settled: bool,
    /// The type of the answer to the latest command, until that is heard.
    pub awaited: Option<u8>,
    /// The number of the latest poll.
    pub polled: Option<u8>,
    /// Whether that poll is the first with its number.
    pub first: bool,
    /// Whether a block with that number is below that poll.
    pub answered: bool,
}

impl LateAnswers {
    /// Returns what is kept above the first frame.
    pub fn new() -> LateAnswers
        ensures { result ≡ late_above }
    {
        LateAnswers {
            settled: false,
            awaited: None,
            polled: None,
            first: false,
            answered: false,
        }
    }

    /// Returns whether a frame with this observation is a late answer.
    pub fn lateness(&self, observation: Observation) -> Lateness
        ensures { result ≡ lateness_of self.now observation }
    {
        match observation {
            Observation::Block { number, .. } => self.lateness_of_block(number),
            Observation::Answer { code, .. } if !self.awaits(code) => Lateness::Late,
            _ => Lateness::InTime,
        }
    }

    /// Returns whether a block answer with this number is late.
    fn lateness_of_block(&self, number: u8) -> Lateness
        ensures { result ≡ lateness_of_block self.now number }
    {
        let Some(polled) = self.polled else {
            return Lateness::Late;
        };
        if polled == number.wrapping_add(1) {
            Lateness::Late
        } else if polled != number || self.awaits(BLOCK_ANSWER) {
            Lateness::InTime
        } else if self.answered {
            Lateness::Late
        } else {
            Lateness::LateButTaken
        }
    }

    /// Returns whether the latest command still waits for an answer of this type.
    fn awaits(&self, code: u8) -> bool
        ensures { result ≡ awaits self.now code }
    {
        match self.awaited {
            Some(awaited) => awaited == code,
            None => false,
        }
    }

    /// Takes a frame with this observation.
    pub fn add(&mut self, observation: Observation)
        ensures { self.new ≡ late_with self.old observation }
    {
        match observation {
            Observation::Poll { number } => self.add_poll(number),
            Observation::Command { answer, .. } => self.add_command(Some(answer)),
            Observation::Block { number, .. } => self.add_block(number),
            Observation::Answer { .. } => {
                let lateness = self.lateness(observation);
                self.add_answer(lateness, false);
            }
            Observation::Unreadable => {}
        }
    }

    /// Takes a poll.
    fn add_poll(&mut self, number: u8)
        ensures { self.new ≡ late_below_poll self.old number }
    {
        self.add_command(Some(BLOCK_ANSWER));
        self.first = !matches!(self.polled, Some(polled) if polled == number);
        self.polled = Some(number);
        self.answered = false;
    }

    /// Takes a command with an answer of this type.
    fn add_command(&mut self, answer: Option<u8>)
        ensures { self.new ≡ late_below_command self.old answer }
    {
        self.settled = self.settled && self.awaited.is_none();
        self.awaited = answer;
    }

    /// Takes a block answer.
    fn add_block(&mut self, number: u8)
        ensures { self.new ≡ late_below_block self.old number }
    {
        let lateness = self.lateness_of_block(number);
        if matches!(self.polled, Some(polled) if polled == number) {
            self.answered = true;
        }
        self.add_answer(lateness, self.first);
    }

    /// Takes an answer, by whether it is late and whether it settles what is above.
    fn add_answer(&mut self, lateness: Lateness, settles: bool)
        ensures { self.new ≡ late_below_answer self.old lateness settles }
    {
        match lateness {
            Lateness::InTime => {
                self.settled = self.settled || settles;
                self.awaited = None;
            }
            _ => self.settled = false,
        }
    }
}
