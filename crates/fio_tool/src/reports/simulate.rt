//! The text of a script's run.
ghost use Rattle.std.specs.Prelude.{◌≡◌, ◌++◌, IfOk, codes, false};
ghost use Rattle.fio_tool.specs.Simulate.{is_simulate_good, simulate_text};
ghost use Rattle.fio_world.specs.Faults.{script_error_text};

use super::{is_too_long, report_too_long};
use fio_message::Memory;
use fio_text::Report;
use fio_world::{ScriptError, report_text};
use std::alloc::Global;

/// Returns the text of the run of the script in the input: its report, which is good unless an event is refused. A script
/// with a fault is not run: the text is one line for its first faulty line. For an input of more than 1,048,576 octets the
/// text is the one line `input too long`.
///
/// # Errors
/// `Memory` if an allocation failed, for the script, its run or its text.
pub fn simulate_text(alloc: Global, input: &[u8]) -> Result<Report, Memory>
    ensures text { IfOk result (λ report. report.text.items ≡ simulate_text input.now) }
    ensures good { IfOk result (λ report. report.good ≡ is_simulate_good input.now) }
{
    if is_too_long(input) {
        return report_too_long(alloc);
    }
    match report_text(alloc, input) {
        Ok(report) => Ok(report),
        Err(ScriptError::Memory) => Err(Memory),
        Err(fault) => report_fault(alloc, fault),
    }
}

/// Returns the text for a script's first faulty line.
fn report_fault(alloc: Global, fault: ScriptError) -> Result<Report, Memory>
    ensures text { IfOk result (λ report. report.text.items ≡ script_error_text fault ++ codes "\n") }
    ensures good { IfOk result (λ report. report.good ≡ false) }
{
    let text = format!(in alloc; "{fault}\n")?;
    Ok(Report {
        text: text.into_bytes(),
        good: false,
    })
}
