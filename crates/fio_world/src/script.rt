//! Scripts: what they are, why a text is not one, and how a text is read as one.
ghost use Rattle.std.specs.Prelude.{◌≡◌, ◌≢◌, [], map, Ok, Some, IfOk, IfErr, OnErr};
ghost use Rattle.fio_world.specs.Faults.{script_error_text};
ghost use Rattle.fio_text.specs.Lines.{lines_of};
ghost use Rattle.fio_world.specs.Scripts.{scenario_below, scenario_of, script_in, HasGoodFront};
ghost use Rattle.fio_world.specs.Steps.{event_of};

mod command_word;
mod events;
mod header;
mod steps;

pub(crate) use self::command_word::CommandWord;
use self::events::read_steps;
pub(crate) use self::header::Header;
use self::header::read_header;
pub(crate) use self::steps::ScriptStep;
use fio_link::Event;
use fio_message::{DecodeError, Memory};
use fio_module::Limits;
use fio_text::{BadLine, split_line};
use std::alloc::{AllocFailed, Global};
use std::fmt;
use std::fmt::{Display, Formatter};
use thiserror::Error;

/// What a module and a CPU are made with, and what happens then.
#[derive(Debug, Drop)]
pub struct Script {
    /// The module's identification octet.
    pub id: u8,
    /// The block number of the CPU's first poll.
    pub first: u8,
    /// The module's limits.
    pub limits: Limits,
    /// What happens, in order: at most 10,000 events (own profile).
    pub events: Vec<Event>,
}

/// Why a text is not a script: the fault of the first faulty line, and for one line the first of these that applies (own
/// profile). Lines count from 1.
#[derive(Clone, Copy, Debug, PartialEq, Eq, Hash, Error)]
pub enum ScriptError {
    /// The first line is not a header of a known version, or there is no line.
    BadHeader,
    /// 10,000 events come before the line, whatever it holds.
    TooManyEvents {
        /// The number of the line.
        line: usize,
    },
    /// The line has no form of an event.
    BadLine {
        /// The number of the line.
        line: usize,
    },
    /// The line sends octets that encode no command.
    BadFrame {
        /// The number of the line.
        line: usize,
        /// Why they encode none.
        fault: DecodeError,
    },
    /// The events or the octets of a frame had to grow, and there was no memory.
    Memory,
}

impl Display for ScriptError {
    ghost output = { λ fault. Some (script_error_text fault) };

    fn fmt<W: fmt::Write>(&self, f: &mut Formatter<W>) -> fmt::Result {
        match *self {
            ScriptError::BadHeader => f.write_str("line 1: bad header"),
            ScriptError::TooManyEvents { line } => write!(f, "line {line}: too many events"),
            ScriptError::BadLine { line } => BadLine { line }.fmt(f),
            ScriptError::BadFrame { line, fault } => write!(f, "line {line}: bad frame {fault}"),
            ScriptError::Memory => Memory.fmt(f),
        }
    }
}

impl From<Memory> for ScriptError {
    ghost use Rattle.fio_world.specs.declared.script.ScriptError.TheVariants as errors;

    ghost from_gives = { λ _ e. e ≡ errors.Memory };

    fn from(_fault: Memory) -> ScriptError {
        ScriptError::Memory
    }
}

impl<T: Drop> From<AllocFailed<T>> for ScriptError {
    ghost use Rattle.fio_world.specs.declared.script.ScriptError.TheVariants as errors;

    ghost from_gives = { λ _ e. e ≡ errors.Memory };

    fn from(_fault: AllocFailed<T>) -> ScriptError {
        ScriptError::Memory
    }
}

/// Returns the script of a text.
///
/// # Errors
/// The fault of the first faulty line; `Memory` if the list of events had to grow before that line and there was no memory.
/// The line at which that happened, and all lines before it, are good.
pub fn read_script(alloc: Global, text: &[u8]) -> Result<Script, ScriptError>
    ensures ok { IfOk result (λ script. script_in text.now ≡ Ok (scenario_of script)) }
    ensures err { IfErr result (λ fault. fault ≢ ScriptError.Memory
        → script_in text.now ≡ Err fault) }
    ensures memory { result ≡ Err ScriptError.Memory → HasGoodFront (lines_of text.now) }
{
    let (header, steps) = read_header_and_steps(alloc, text)?;
    let events = events_of(alloc, &steps)?;
    Ok(Script {
        id: header.id,
        first: header.first,
        limits: header.limits,
        events,
    })
}

/// Returns the header of the script of a text, and its steps.
///
/// # Errors
/// Those of `read_script`.
pub(crate) fn read_header_and_steps(
    alloc: Global,
    text: &[u8],
) -> Result<(Header, Vec<ScriptStep<'_>>), ScriptError>
    ensures ok { IfOk result (λ read.
        script_in text.now ≡ Ok (scenario_below read.0 (map event_of read.1.items))) }
    ensures front { IfOk result (λ read.
        read.1.items ≢ [] → HasGoodFront (lines_of text.now)) }
    ensures err { IfErr result (λ fault. fault ≢ ScriptError.Memory
        → script_in text.now ≡ Err fault) }
    ensures memory { result ≡ Err ScriptError.Memory → HasGoodFront (lines_of text.now) }
{
    let Some((line, rest)) = split_line(text) else {
        return Err(ScriptError::BadHeader);
    };
    let Some(header) = read_header(line) else {
        return Err(ScriptError::BadHeader);
    };
    let steps = read_steps(alloc, rest, header.restarts)?;
    Ok((header, steps))
}

/// Returns the events that steps represent.
fn events_of(alloc: Global, steps: &[ScriptStep<'_>]) -> Result<Vec<Event>, Memory>
    ensures ok { IfOk result (λ events. events.items ≡ map event_of steps.now) }
    ensures err { OnErr result (steps.now ≢ []) }
{
    let mut events = Vec::with_capacity(alloc, steps.len())?;
    'steps: for step in steps {
        events.push(step.event())?;
    }
    Ok(events)
}
