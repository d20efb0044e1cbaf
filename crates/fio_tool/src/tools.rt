//! The tools of the program, over any reader and writer.
ghost use Rattle.std.specs.Prelude.{◌≡◌, IfOk};
ghost use Rattle.fio_tool.specs.Program.{HasRun, is_program_good, program_text};

use crate::endings::{Ending, ToolFault};
use crate::help;
use crate::reports::{check_text, record_text, show_text, simulate_text};
use crate::streams::{read_input, write_report};
use fio_message::Memory;
use fio_text::Report;
use std::alloc::Global;
use std::io::{Read, Write};

/// A tool of the program.
#[derive(Clone, Copy, Debug, PartialEq, Eq, Hash)]
pub enum Tool {
    /// Reports what each frame of the input says.
    Show,
    /// Runs a script, and reports the outcome of each of its events.
    Simulate,
    /// Reports whether a transcript keeps the rules.
    Check,
    /// Reports what the CPU of a transcript recorded.
    Record,
}

/// What the command line says about a tool.
#[derive(Clone, Copy)]
pub(crate) struct Words {
    /// The name of the subcommand.
    pub(crate) name: &'static str,
    /// What the tool does.
    pub(crate) about: &'static str,
    /// How to call it.
    pub(crate) usage: &'static str,
    /// What it reads and writes, its statuses, and an example.
    pub(crate) after_help: &'static str,
}

impl Tool {
    ghost use Rattle.fio_tool.specs.CommandLine.{name_of};

    /// The tools, in the order in which help lists them.
    pub(crate) const ALL: [Tool; 4] = [Tool::Show, Tool::Simulate, Tool::Check, Tool::Record];

    /// Returns what the command line says about the tool.
    pub(crate) fn words(self) -> Words
        ensures { result.name.now ≡ name_of self }
    {
        match self {
            Tool::Show => Words {
                name: "show",
                about: "Reports what the frames on standard input say, a line of hexadecimal digits each",
                usage: "fio2070 show < FILE",
                after_help: help::SHOW,
            },
            Tool::Simulate => Words {
                name: "simulate",
                about: "Runs a script of events on both ends of the link, and reports their outcomes",
                usage: "fio2070 simulate < FILE",
                after_help: help::SIMULATE,
            },
            Tool::Check => Words {
                name: "check",
                about: "Reports whether a transcript on standard input keeps the rules of the link",
                usage: "fio2070 check < FILE",
                after_help: help::CHECK,
            },
            Tool::Record => Words {
                name: "record",
                about: "Reports what the CPU of a transcript on standard input recorded",
                usage: "fio2070 record < FILE",
                after_help: help::RECORD,
            },
        }
    }

    /// Returns the text that the tool writes for an input.
    fn text(self, alloc: Global, input: &[u8]) -> Result<Report, Memory>
        ensures text { IfOk result (λ report. report.text.items ≡ program_text self input.now) }
        ensures good { IfOk result (λ report. report.good ≡ is_program_good self input.now) }
    {
        match self {
            Tool::Show => show_text(alloc, input),
            Tool::Simulate => simulate_text(alloc, input),
            Tool::Check => check_text(alloc, input),
            Tool::Record => record_text(alloc, input),
        }
    }
}

/// Reads the whole input, up to one octet more than it may have; makes the tool's whole text of it; then writes and flushes
/// the text.
///
/// # Errors
/// `Read`, `Write` and `Memory`, as at `ToolFault`. On `Read` and `Memory` nothing has been written.
pub fn run_tool<R: Read, W: Write>(
    alloc: Global,
    tool: Tool,
    reader: &mut R,
    writer: &mut W,
) -> Result<Ending, ToolFault>
    ensures { HasRun tool result (R.remaining reader.old) (R.remaining reader.new)
        (W.contents writer.old) (W.contents writer.new) }
{
    let input = read_input(alloc, reader)?;
    let report = tool.text(alloc, input.as_slice())?;
    write_report(writer, &report)
}
