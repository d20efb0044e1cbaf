//! Hearing: how a CPU responds to octets, wherever its record is kept.
ghost use Rattle.std.specs.Prelude.{◌≡◌, ◌+◌, ◌%◌, [], length, Some, OnOk, OnErr, IfOk, IfErr};
ghost use Rattle.fio_message.specs.Blocks.{block_answer};
ghost use Rattle.fio_message.specs.Decoding.{answered_block, decoded_answer, block_in};
ghost use Rattle.fio_message.specs.Views.{answer_of, entries_of};
ghost use Rattle.fio_cpu.specs.declared.poller.Heard.TheVariants as heards;
ghost use Rattle.fio_cpu.specs.Record.{items_of_block};
ghost use Rattle.fio_cpu.specs.Hearing.{block_shown, new_items, heard_answer, heard_as, next_number};
ghost use Rattle.fio_cpu.specs.Hearing.{HasFewEntries};

use crate::block_items::BlockItems;
use crate::poller::Heard;
use crate::record::Record;
use fio_message::{AnswerView, EntriesView, read_answer};

/// Hears the octets of a frame, given the number that the next poll carries and the record. A block answer (TEES 2009,
/// answer 182) with this number is taken whole: what it adds is appended to the record, and the number rises by one modulo
/// 256. Anything else is reported and changes nothing (own profile).
///
/// # Errors
/// Why the record has no room for what a block adds. Then nothing is appended, and the number stays.
#[inline]
pub fn hear_frame<R: Record>(
    number: &mut u8,
    items: &mut R,
    octets: &[u8],
) -> Result<Heard, R::NoRoom>
    ensures heard { IfOk result (λ heard.
        heard ≡ heard_as number.old (decoded_answer octets.now)) }
    ensures few { IfOk result HasFewEntries }
    ensures next { OnOk result (number.new ≡ next_number number.old (block_in octets.now)) }
    ensures gained { OnOk result
        (R.Gains items.old (new_items number.old (block_in octets.now)) items.new) }
    ensures kept { OnErr result (number.new ≡ number.old) }
    ensures unchanged { OnErr result (R.Gains items.old [] items.new) }
    ensures room { IfErr result (λ reason.
        R.LacksRoom items.old (new_items number.old (block_in octets.now)) reason) }
{
    match read_answer(octets) {
        Ok(answer) => hear_read_answer(number, items, &answer),
        Err(fault) => Ok(Heard::Unreadable(fault)),
    }
}

/// Hears an answer that has been read already, as `hear_frame` hears its octets.
///
/// # Errors
/// Why the record has no room for what a block adds. Then nothing is appended, and the number stays.
#[inline(always)]
pub fn hear_read_answer<R: Record>(
    number: &mut u8,
    items: &mut R,
    answer: &AnswerView<'_>,
) -> Result<Heard, R::NoRoom>
    ensures heard { IfOk result (λ heard. heard ≡ heard_answer number.old (answer_of answer.now)) }
    ensures few { IfOk result HasFewEntries }
    ensures next { OnOk result (number.new
        ≡ next_number number.old (answered_block (Some (answer_of answer.now)))) }
    ensures gained { OnOk result (R.Gains items.old
        (new_items number.old (answered_block (Some (answer_of answer.now)))) items.new) }
    ensures kept { OnErr result (number.new ≡ number.old) }
    ensures unchanged { OnErr result (R.Gains items.old [] items.new) }
    ensures room { IfErr result (λ reason. R.LacksRoom items.old
        (new_items number.old (answered_block (Some (answer_of answer.now)))) reason) }
{
    match *answer {
        AnswerView::Block {
            block,
            entries,
            status,
            stamp,
        } => hear_block(number, items, block, entries, status, stamp),
        _ => Ok(Heard::Other {
            code: answer.code(),
        }),
    }
}

/// Hears a block answer: takes it if it has the CPU's number, and otherwise reports it as stale.
#[inline(always)]
fn hear_block<R: Record>(
    number: &mut u8,
    items: &mut R,
    block: u8,
    entries: EntriesView<'_>,
    status: u8,
    stamp: u32,
) -> Result<Heard, R::NoRoom>
    ensures heard { IfOk result (λ heard. heard ≡ heard_answer number.old
        (block_answer (block_shown block entries.entry status stamp))) }
    ensures few { IfOk result HasFewEntries }
    ensures next { OnOk result (number.new ≡ next_number number.old
        (Some (block_shown block entries.entry status stamp))) }
    ensures gained { OnOk result (R.Gains items.old
        (new_items number.old (Some (block_shown block entries.entry status stamp))) items.new) }
    ensures kept { OnErr result (number.new ≡ number.old) }
    ensures unchanged { OnErr result (R.Gains items.old [] items.new) }
    ensures room { IfErr result (λ reason. R.LacksRoom items.old
        (new_items number.old (Some (block_shown block entries.entry status stamp))) reason) }
{
    if block != *number {
        return Ok(Heard::Stale { block });
    }
    take_block(number, items, entries, status, stamp)
}

/// Takes a block that has the CPU's number: appends what it adds, and raises the number by one modulo 256.
#[inline]
fn take_block<R: Record>(
    number: &mut u8,
    items: &mut R,
    entries: EntriesView<'_>,
    status: u8,
    stamp: u32,
) -> Result<Heard, R::NoRoom>
    ensures heard { IfOk result (λ heard.
        heard ≡ heards.Block (length (entries_of entries.entry)) status) }
    ensures few { IfOk result HasFewEntries }
    ensures next { OnOk result (number.new ≡ (number.old + 1) % 256) }
    ensures gained { OnOk result (R.Gains items.old
        (items_of_block (block_shown number.old entries.entry status stamp)) items.new) }
    ensures kept { OnErr result (number.new ≡ number.old) }
    ensures unchanged { OnErr result (R.Gains items.old [] items.new) }
    ensures room { IfErr result (λ reason. R.LacksRoom items.old
        (items_of_block (block_shown number.old entries.entry status stamp)) reason) }
{
    items.append(&BlockItems::new(entries, status, stamp))?;
    *number = number.wrapping_add(1);
    Ok(Heard::Block {
        entries: entries.len(),
        status,
    })
}
