//! The lines of a report, appended to its text.
ghost use Rattle.std.specs.Prelude.{◌≡◌, ℕ, ◌++◌, IsSomeAnd, OnOk};
ghost use Rattle.fio_module.specs.Settings.{Settings};
ghost use Rattle.fio_link.specs.Link.{Machine};
ghost use Rattle.fio_world.specs.ReportLines.{ending_lines, ending_text, heard_line, outcome_line, refusal_in, refused_line, sent_line};
ghost use Rattle.fio_world.specs.Worlds.{ShowsMachine};
ghost use Rattle.fio_world.specs.declared.outcome.Outcome.TheVariants as outcomes;

use crate::outcome::WorldError;
use crate::world::World;
use fio_cpu::{Heard, Item};
use fio_message::Memory;
use fio_show::{LINE_OCTETS, push_items, put_heard};
use fio_text::{push_hexadecimal, push_line};
use std::alloc::AllocError;

pub(crate) fn push_quiet(text: &mut Vec<u8>, number: usize) -> Result<(), AllocError>
    ensures { OnOk result (text.new.items
        ≡ text.old.items ++ outcome_line number outcomes.Quiet) }
{
    push_line!(text; {number as u64} b" quiet\n")
}

/// Appends that a frame was sent.
pub(crate) fn push_sent(
    text: &mut Vec<u8>,
    number: usize,
    index: usize,
    octets: &[u8],
) -> Result<(), AllocError>
    ensures { OnOk result (text.new.items
        ≡ text.old.items ++ sent_line number index octets.now) }
{
    push_line!(text; {number as u64} b" sent " {index as u64} b" ")?;
    push_hexadecimal(text, octets)?;
    text.extend_from_slice(b"\n")
}

/// Appends what the CPU received.
pub(crate) fn push_heard(text: &mut Vec<u8>, number: usize, heard: Heard) -> Result<(), AllocError>
    ensures { OnOk result (text.new.items
        ≡ text.old.items ++ heard_line number heard) }
{
    let mut line = [0; LINE_OCTETS];
    let start = put_heard(&mut line, heard);
    push_line!(text; {number as u64} b" ")?;
    text.extend_from_slice(&line[start..])?;
    text.extend_from_slice(b"\n")
}

/// Appends why the event with this number did not happen, if that is a refusal.
///
/// # Errors
/// `Memory` if the event ran out of memory, or the text could not grow.
pub(crate) fn push_refusal(
    text: &mut Vec<u8>,
    number: usize,
    fault: WorldError,
) -> Result<(), Memory>
    ensures { OnOk result (IsSomeAnd (refusal_in fault) (λ refusal.
        text.new.items ≡ text.old.items ++ refused_line number refusal)) }
{
    if fault == WorldError::Memory {
        return Err(Memory);
    }
    let line = format!(in *text.allocator(); "{number} refused {fault}\n")?;
    text.extend_from_slice(line.as_bytes())?;
    Ok(())
}

/// Appends how a run ended: the module's counter, the CPU's number, how many entries wait, and the record.
pub(crate) fn push_ending(text: &mut Vec<u8>, world: &World) -> Result<(), AllocError>
    ensures { (settings : Settings) (first : ℕ) (machine : Machine)
        → ShowsMachine settings first machine world.now
        → OnOk result (text.new.items
        ≡ text.old.items ++ ending_text settings first machine) }
{
    let counter = world.module().counter();
    let number = world.poller().number();
    let waiting = world.module().waiting();
    push_counts(text, counter, number, waiting, world.poller().items())
}

fn push_counts(
    text: &mut Vec<u8>,
    counter: u32,
    number: u8,
    waiting: usize,
    items: &[Item],
) -> Result<(), AllocError>
    ensures { OnOk result (text.new.items
        ≡ text.old.items ++ ending_lines counter number waiting items.now) }
{
    push_line!(
        text;
        b"counter " {counter} b"\nnumber " {number} b"\nwaiting " {waiting as u64}
        b"\nrecord " {items.len() as u64} b"\n"
    )?;
    push_items(text, items)
}
