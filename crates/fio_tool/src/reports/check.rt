//! The text that says whether a transcript keeps the rules.
ghost use Rattle.std.specs.Prelude.{◌≡◌, ◌++◌, IfOk, OnOk, codes, false, string_bytes};
ghost use Rattle.fio_text.specs.LineFaults.{bad_line_text};
ghost use Rattle.fio_tool.specs.Check.{check_text, is_check_good, is_good, verdict_text};

use super::{is_too_long, report_too_long};
use crate::transcript::judge_lines;
use fio_check::Verdict;
use fio_message::Memory;
use fio_text::{BadLine, Report};
use std::alloc::{AllocError, Global};

/// Room for the longest line of a text, the one for `sequence` at line 1,048,576.
const LONGEST_LINE: usize = 32;

/// Returns the text that says whether the transcript in the input keeps the rules: `good N frames`, or `line N breaks RULE`
/// with the first line that breaks one. If a line is not a frame, the text is the one line `line N: bad line` for the first
/// of these, even if a line breaks a rule; for an input of more than 1,048,576 octets it is the one line `input too long`.
/// The report is good only for `good N frames`.
///
/// # Errors
/// `Memory` if there is none for the text's one line, for which room is requested once. Nothing else allocates: the
/// transcript is checked in one pass over the input.
pub fn check_text(alloc: Global, input: &[u8]) -> Result<Report, Memory>
    ensures text { IfOk result (λ report. report.text.items ≡ check_text input.now) }
    ensures good { IfOk result (λ report. report.good ≡ is_check_good input.now) }
{
    if is_too_long(input) {
        return report_too_long(alloc);
    }
    match judge_lines(input) {
        Ok(verdict) => report_of_verdict(alloc, verdict),
        Err(fault) => report_of_bad_line(alloc, fault),
    }
}

/// Returns the report of a verdict.
///
/// # Errors
/// `Memory` if there is none for its line.
pub(super) fn report_of_verdict(alloc: Global, verdict: Verdict) -> Result<Report, Memory>
    ensures text { IfOk result (λ report. report.text.items ≡ verdict_text verdict) }
    ensures good { IfOk result (λ report. report.good ≡ is_good verdict) }
{
    let mut text = String::with_capacity(alloc, LONGEST_LINE)?;
    push_verdict(&mut text, verdict)?;
    Ok(Report {
        text: text.into_bytes(),
        good: matches!(verdict, Verdict::Good { .. }),
    })
}

/// Returns the report of the first line that is no frame.
///
/// # Errors
/// `Memory` if there is none for its line.
pub(super) fn report_of_bad_line(alloc: Global, fault: BadLine) -> Result<Report, Memory>
    ensures text { IfOk result (λ report.
        report.text.items ≡ bad_line_text fault.line ++ codes "\n") }
    ensures good { IfOk result (λ report. report.good ≡ false) }
{
    let mut text = String::with_capacity(alloc, LONGEST_LINE)?;
    write!(text, "{fault}\n")?;
    Ok(Report {
        text: text.into_bytes(),
        good: false,
    })
}

/// Appends the line of a verdict.
fn push_verdict(text: &mut String, verdict: Verdict) -> Result<(), AllocError>
    ensures { OnOk result (string_bytes text.new ≡ string_bytes text.old ++ verdict_text verdict) }
{
    match verdict {
        Verdict::Good { frames } => write!(text, "good {frames} frames\n"),
        Verdict::Broken { number, rule } => {
            let rule = rule.name();
            write!(text, "line {number} breaks {rule}\n")
        }
    }
}
