//! The events of the link: what may happen to the two ends and the bus.
use fio_message::Command;
use std::alloc::AllocError;

/// What happens next. Each direction of the bus is the list of all frames ever sent in it, numbered from 1, and a delivery
/// names one of them. The numbers delivered in one direction never fall: skipping a number loses that frame, and giving the
/// same number again repeats it.
#[derive(Debug, Drop, PartialEq, Eq, Hash)]
pub enum Event {
    /// The module steps its millisecond counter and samples all inputs: bit i is the raw level of input i.
    Scan(u64),
    /// LINESYNC goes from 0 to 1 at the module: a load of its counter that was requested happens now (TEES 2009).
    LineSync,
    /// The module's status flags whose bits are 1 are raised.
    Raise(u8),
    /// The CPU sends a poll with its present block number (TEES 2009, command 54).
    Poll,
    /// The CPU sends this command. A poll is refused here: only `Poll` sends polls.
    Send(Command),
    /// The module receives the frame with this number among those sent to it, and sends its answer,
    /// if any.
    ToModule(usize),
    /// The CPU hears the frame with this number among those sent to it.
    ToCpu(usize),
    /// The module restarts: it is like a new one with the same identification and limits. Frames under way stay under way
    /// (own profile).
    Restart,
}

// A copy takes no memory, so it always succeeds, and it is the same event.
impl Clone for Event {
    ghost use Rattle.std.specs.Prelude.{◌≡◌, ⊤};

    ghost is_clone = { λ event copy. copy ≡ event };

    ghost is_infallible = { λ _. ⊤ };

    fn clone(&self) -> Result<Event, AllocError> {
        Ok(match self {
            Event::Scan(raw) => Event::Scan(*raw),
            Event::LineSync => Event::LineSync,
            Event::Raise(mask) => Event::Raise(*mask),
            Event::Poll => Event::Poll,
            Event::Send(command) => Event::Send(command.clone()?),
            Event::ToModule(index) => Event::ToModule(*index),
            Event::ToCpu(index) => Event::ToCpu(*index),
            Event::Restart => Event::Restart,
        })
    }
}
