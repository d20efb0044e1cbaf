//! The text with the record of a transcript's CPU, judged by the rules on content.
ghost use Rattle.std.specs.Prelude.{◌≡◌, ◌++◌, List, IfOk, OnOk, Some, is_some, not, take};
ghost use Rattle.fio_cpu.specs.declared.record.Item.{Item as ItemOf};
ghost use Rattle.fio_tool.specs.Record.{fault_front, content_fault_line, is_record_good, items_of_cpu, judged_record, record_lines, record_text};
ghost use Rattle.fio_tool.specs.Recordings.{fault_of_recording, fault_of_item};

use super::check::{report_of_bad_line, report_of_verdict};
use super::{is_too_long, report_too_long};
use crate::transcript::{BrokenItem, Recording, TraceError, record_lines};
use fio_check::Verdict;
use fio_cpu::Item;
use fio_message::Memory;
use fio_show::push_items;
use fio_text::{BadLine, Report, push_line};
use std::alloc::{AllocError, Global};

/// Returns the text with the record of the CPU in the input's transcript: `record N`, and then a line for each of its N items,
/// `gap` or `input I state L stamp S wide W`. That CPU starts at the first poll with the number of that poll, and hears each
/// frame after it. The transcript may begin anywhere: what is heard above its first command is skipped.
///
/// If a rule on content is broken, the text has only the items before the first breach, and then the line `line L input I
/// breaks RULE` or, for an answer, `line L breaks RULE`, where L is the number of the line; the report is not good. If from
/// the first command on a rule of transcripts is broken, it is the line of that breach, as `check_text` has it, without a record.
///
/// # Errors
/// `Memory` if an allocation failed, for the record or its text.
pub fn record_text(alloc: Global, input: &[u8]) -> Result<Report, Memory>
    ensures text { IfOk result (λ report. report.text.items ≡ record_text input.now) }
    ensures good { IfOk result (λ report. report.good ≡ is_record_good input.now) }
{
    if is_too_long(input) {
        return report_too_long(alloc);
    }
    match record_lines(alloc, input) {
        Ok((Verdict::Good { .. }, recording)) => report_of_recording(alloc, &recording),
        Ok((verdict, _)) => report_of_verdict(alloc, verdict),
        Err(TraceError::BadLine { line }) => report_of_bad_line(alloc, BadLine { line }),
        Err(TraceError::Memory) => Err(Memory),
    }
}

/// Returns the report of what a pass over a transcript kept.
///
/// # Errors
/// `Memory` if there is none for its lines.
fn report_of_recording(alloc: Global, recording: &Recording) -> Result<Report, Memory>
    ensures text { IfOk result (λ report. report.text.items
        ≡ judged_record (fault_of_recording recording.now) (items_of_cpu recording.now.cpu)) }
    ensures good { IfOk result (λ report.
        report.good ≡ not (is_some (fault_of_recording recording.now))) }
{
    let mut text = Vec::new(alloc);
    push_recording(&mut text, recording)?;
    Ok(Report {
        text,
        good: recording.broken.is_none(),
    })
}

/// Appends the lines for what a pass over a transcript kept.
fn push_recording(text: &mut Vec<u8>, recording: &Recording) -> Result<(), AllocError>
    ensures { OnOk result (text.new.items ≡ text.old.items
        ++ judged_record (fault_of_recording recording.now) (items_of_cpu recording.now.cpu)) }
{
    let items = recording.items();
    match recording.broken {
        None => push_record(text, items),
        Some(broken) => push_broken(text, items, broken),
    }
}

/// Appends the lines of the items before a fault, and the line of the fault.
fn push_broken(text: &mut Vec<u8>, items: &[Item], broken: BrokenItem) -> Result<(), AllocError>
    ensures { OnOk result (text.new.items ≡ text.old.items
        ++ judged_record (Some (fault_of_item items.now broken)) items.now) }
{
    push_record(text, first_items(items, broken.above))?;
    push_broken_line(text, broken)
}

/// Returns the first `count` items, or all if there are fewer.
#[tactic(auto, using(std::proofs::lemmas::List::take_min))]
fn first_items(items: &[Item], count: usize) -> &[Item]
    ensures { result.now ≡ take count items.now }
{
    &items[..count.min(items.len())]
}

/// Appends the line of a fault.
fn push_broken_line(text: &mut Vec<u8>, broken: BrokenItem) -> Result<(), AllocError>
    ensures { (items : List ItemOf) → OnOk result (text.new.items
        ≡ text.old.items ++ content_fault_line (fault_of_item items broken)) }
{
    push_broken_front(text, broken.line, broken.input)?;
    text.extend_from_slice(broken.rule.name().as_bytes())?;
    text.extend_from_slice(b"\n")
}

/// Appends the beginning of the line of a fault.
fn push_broken_front(text: &mut Vec<u8>, line: usize, input: Option<u8>) -> Result<(), AllocError>
    ensures { OnOk result (text.new.items ≡ text.old.items ++ fault_front line input) }
{
    let line = line as u64;
    match input {
        Some(input) => push_line!(text; b"line " {line} b" input " {input} b" breaks "),
        None => push_line!(text; b"line " {line} b" breaks "),
    }
}

/// Appends the lines of a record.
fn push_record(text: &mut Vec<u8>, items: &[Item]) -> Result<(), AllocError>
    ensures { OnOk result (text.new.items ≡ text.old.items ++ record_lines items.now) }
{
    push_line!(text; b"record " {items.len() as u64} b"\n")?;
    push_items(text, items)
}
