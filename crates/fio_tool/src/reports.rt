//! The texts that the tools write, each for the octets of an input.
ghost use Rattle.std.specs.Prelude.{◌≡◌, IfOk, false};
ghost use Rattle.fio_tool.specs.InputFaults.{is_too_long, too_long_text};

mod check;
mod record;
mod show;
mod simulate;

pub use check::check_text;
use fio_message::Memory;
use fio_text::Report;
pub use record::record_text;
pub use show::show_text;
pub use simulate::simulate_text;
use std::alloc::Global;

/// The greatest number of octets of an input (own profile).
pub(crate) const MAX_INPUT: usize = 1_048_576;

/// Returns whether an input has more octets than it may have.
fn is_too_long(input: &[u8]) -> bool
    ensures { result ≡ is_too_long input.now }
{
    input.len() > MAX_INPUT
}

/// Returns the report for such an input.
fn report_too_long(alloc: Global) -> Result<Report, Memory>
    ensures text { IfOk result (λ report. report.text.items ≡ too_long_text) }
    ensures good { IfOk result (λ report. report.good ≡ false) }
{
    let mut text = String::new(alloc);
    text.push_str("input too long\n")?;
    Ok(Report {
        text: text.into_bytes(),
        good: false,
    })
}
