//! The lines of a script after the first: one event each.
ghost use Rattle.std.specs.Prelude.{◌≡◌, ◌≢◌, Ok, IfOk, IfErr, IfSome, map, option_map};
ghost use Rattle.std.specs.Str.{bytes_eq};
ghost use Rattle.fio_world.specs.EventLines.{delivery_in, event_at, event_with_value, plain_event, IsReadAs};
ghost use Rattle.fio_text.specs.Lines.{lines_of};
ghost use Rattle.fio_world.specs.Scripts.{script_events, HaveGoodFront};
ghost use Rattle.fio_world.specs.Steps.{event_of, event_read};

use super::ScriptError;
use super::command_word::CommandWord;
use super::steps::ScriptStep;
use fio_text::{after_prefix, numbered_lines, read_inputs, read_number, read_octet};
use std::alloc::Global;

/// The most events of a script (own profile).
const MAX_EVENTS: usize = 10_000;

/// Returns the steps of the lines after a header; whether the module may restart is given.
pub(crate) fn read_steps<'a>(
    alloc: Global,
    text: &'a [u8],
    restarts: bool,
) -> Result<Vec<ScriptStep<'a>>, ScriptError>
    ensures ok { IfOk result (λ steps. script_events restarts (lines_of text.now) ≡ Ok (map event_of steps.items)) }
    ensures err { IfErr result (λ fault. fault ≢ ScriptError.Memory
        → script_events restarts (lines_of text.now) ≡ Err fault) }
    ensures memory { result ≡ Err ScriptError.Memory
        → HaveGoodFront restarts (lines_of text.now) }
{
    let mut steps = Vec::new(alloc);
    let mut above: &[u8] = &[];
    let mut last = None;
    'lines: for (number, line) in numbered_lines(text, 2) {
        if steps.len() == MAX_EVENTS {
            return Err(ScriptError::TooManyEvents { line: number });
        }
        let step = read_below(above, last, number, line, restarts)?;
        above = line;
        last = Some(step);
        steps.push(step)?;
    }
    Ok(steps)
}

/// Returns the step of a line that follows one which was read as the step `last`. Most lines of a long script are scans at
/// which nothing changes, and so are equal to the line before.
fn read_below<'a>(
    above: &[u8],
    last: Option<ScriptStep<'a>>,
    number: usize,
    line: &'a [u8],
    restarts: bool,
) -> Result<ScriptStep<'a>, ScriptError>
    requires { IfSome last (λ step. IsReadAs restarts above.now (event_of step)) }
    ensures { event_read result ≡ event_at restarts (number, line.now) }
{
    match last {
        Some(step) if are_same(above, line) => Ok(step),
        _ => read_step(number, line, restarts),
    }
}

fn are_same(line: &[u8], other: &[u8]) -> bool
    ensures { result ≡ bytes_eq line.now other.now }
{
    line == other
}

/// Returns the step of the line with this number; whether the module may restart is given. It allocates nothing.
fn read_step<'a>(
    number: usize,
    line: &'a [u8],
    restarts: bool,
) -> Result<ScriptStep<'a>, ScriptError>
    ensures { event_read result ≡ event_at restarts (number, line.now) }
{
    if let Some(word) = after_prefix(line, b"send ") {
        return Ok(ScriptStep::Send(CommandWord::read(number, word)?));
    }
    match read_plain(line, restarts) {
        Some(step) => Ok(step),
        None => Err(ScriptError::BadLine { line: number }),
    }
}

/// Returns the step of a line that sends no command.
fn read_plain<'a>(line: &'a [u8], restarts: bool) -> Option<ScriptStep<'a>>
    ensures { option_map event_of result ≡ plain_event restarts line.now }
{
    if line == b"sync".as_slice() {
        return Some(ScriptStep::LineSync);
    }
    if line == b"poll".as_slice() {
        return Some(ScriptStep::Poll);
    }
    if line == b"restart".as_slice() {
        return restarts.then_some(ScriptStep::Restart);
    }
    read_with_value(line)
}

/// Returns the step of a line that has a value after its first word, and sends no command.
// Inlined, since it is called for each line that differs from the one before.
#[inline(always)]
fn read_with_value<'a>(line: &'a [u8]) -> Option<ScriptStep<'a>>
    ensures { option_map event_of result ≡ event_with_value line.now }
{
    if let Some(word) = after_prefix(line, b"scan ") {
        return Some(ScriptStep::Scan(read_inputs(word)?));
    }
    if let Some(word) = after_prefix(line, b"raise ") {
        return Some(ScriptStep::Raise(read_octet(word)?));
    }
    read_delivery(line)
}

/// Returns the step of a line that delivers a frame.
// Inlined, since it is called for each line that differs from the one before.
#[inline(always)]
fn read_delivery<'a>(line: &'a [u8]) -> Option<ScriptStep<'a>>
    ensures { option_map event_of result ≡ delivery_in line.now }
{
    if let Some(word) = after_prefix(line, b"to-module ") {
        return Some(ScriptStep::ToModule(read_number(word)?));
    }
    let word = after_prefix(line, b"to-cpu ")?;
    Some(ScriptStep::ToCpu(read_number(word)?))
}
