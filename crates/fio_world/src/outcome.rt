//! The outcome of an event, and why it may not happen.
ghost use Rattle.std.specs.Prelude.{Some};
ghost use Rattle.fio_world.specs.Faults.{run_error_text, world_error_text};

use fio_cpu::Heard;
use fio_message::{Frame, Memory};
use std::fmt;
use std::fmt::{Display, Formatter};
use thiserror::Error;

/// The outcome of an event.
#[derive(Clone, Debug, Drop, PartialEq, Eq, Hash)]
pub enum Outcome {
    /// A frame was sent: a command of the CPU, or the module's answer.
    Sent {
        /// Its number among all frames ever sent in its direction, from 1.
        index: usize,
        /// Its octets.
        frame: Frame,
    },
    /// The CPU heard a frame.
    Heard(Heard),
    /// There is nothing to report.
    Quiet,
}

/// Why an event did not happen: the first of these that applies. The world is unchanged.
#[derive(Clone, Copy, Debug, PartialEq, Eq, Hash, Error)]
pub enum WorldError {
    /// No frame with this number was sent in that direction: it is 0, or above the number sent.
    NotSent {
        /// The number in the delivery.
        index: usize,
    },
    /// A frame with a higher number was delivered in that direction already.
    OutOfOrder {
        /// The number in the delivery.
        index: usize,
        /// The number that was delivered last.
        last: usize,
    },
    /// The command to send is a poll: only `Event::Poll` sends polls.
    PollIsOurs,
    /// There was no memory for what the event adds.
    Memory,
}

impl Display for WorldError {
    ghost output = { λ fault. Some (world_error_text fault) };

    fn fmt<W: fmt::Write>(&self, f: &mut Formatter<W>) -> fmt::Result {
        match *self {
            WorldError::NotSent { index } => write!(f, "not sent {index}"),
            WorldError::OutOfOrder { index, last } => {
                write!(f, "out of order {index} after {last}")
            }
            WorldError::PollIsOurs => f.write_str("poll is ours"),
            WorldError::Memory => Memory.fmt(f),
        }
    }
}

/// What stopped a run.
#[derive(Clone, Copy, Debug, PartialEq, Eq, Hash, Error)]
pub struct RunError {
    /// How many events were done; 0 also if there was no memory to start.
    pub place: usize,
    /// Why the next event was not done.
    pub fault: WorldError,
}

impl Display for RunError {
    ghost output = { λ stop. Some (run_error_text stop.place stop.fault) };

    fn fmt<W: fmt::Write>(&self, f: &mut Formatter<W>) -> fmt::Result {
        let RunError { place, fault } = *self;
        write!(f, "after {place} events: {fault}")
    }
}
