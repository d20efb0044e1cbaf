//! The program without `main`: its exit status, and the lines of the program itself.
ghost use Rattle.std.specs.Prelude.{◌≡◌, ◌≢◌, ◌⊎◌, ◌≤◌, ℕ, List, [], None, map};
ghost use Rattle.clap.specs.Faults.{fault_of};
ghost use Rattle.clap.specs.Values.{kind_of};
ghost use Rattle.fio_tool.specs.CommandLine.{NamesTool, chosen_name, command_line};
ghost use Rattle.fio_tool.specs.Program.{HasReported, IsRefusalStatus, fault_line, no_subcommand_line, program_status, refusal_status};
ghost use Rattle.fio_tool.specs.Streams.{TakesAtMost};
ghost use Rattle.fio_tool.specs.declared.streams.TheConstants.{MOST_READ};
ghost use Rattle.fio_tool.specs.declared.tools.Tool.{Tool};

use crate::command_line::choose;
use crate::endings::{ToolFault, status_of};
use crate::streams::write_text;
use crate::tools::{Tool, run_tool};
use arrayvec::ArrayString;
use clap::error::ErrorKind;
use std::alloc::Global;
use std::io::{Read, Write};

/// Runs the tool that the words of a command line name, and returns the exit status of the program. The first word is the
/// program's name.
///
/// | Status | When |
/// |---|---|
/// | 0 | the text reports no fault; also if help or the version was asked for |
/// | 1 | the text reports a fault, or an input that is too long |
/// | 2 | the command line names no subcommand, or is invalid |
/// | 3 | a read or a write failed, or memory ran out |
///
/// With status 3 and if there is no subcommand, the program prints one line, `fio2070: read fault` or the like. For any
/// other invalid command line it prints `clap`'s text. A failure to print these is ignored.
pub fn run_program<'a, R: Read, W: Write>(
    alloc: Global,
    words: &'a [&'a str],
    reader: &mut R,
    writer: &mut W,
) -> u8
    ensures known { result ≤ 3 }
    ensures taken { TakesAtMost MOST_READ (R.remaining reader.old) (R.remaining reader.new) }
    // If the command line names no tool, nothing is read.
    ensures unread { ((tool : Tool) → NamesTool (map (λ word. word.now) words.entry.now) tool → ⊥)
        → reader.new ≡ reader.old }
    // If it names a tool, a status of 0 or 1 says that the tool has reported what it read.
    ensures reported { (tool : Tool) → NamesTool (map (λ word. word.now) words.entry.now) tool
        → result ≤ 1
        → (input : List ℕ)
        × HasReported tool input (R.remaining reader.old) (R.remaining reader.new)
        (W.contents writer.old) (W.contents writer.new)
        × (result ≡ program_status tool input) }
    // Status 2 means that the command line names no tool.
    ensures named { (tool : Tool) → NamesTool (map (λ word. word.now) words.entry.now) tool
        → result ≢ 2 }
    // A valid command line that names no tool gives status 2, or 3 if memory runs out.
    ensures no_subcommand { fault_of command_line (map (λ word. word.now) words.entry.now) ≡ []
        → chosen_name (map (λ word. word.now) words.entry.now) ≡ None
        → (result ≡ 2) ⊎ (result ≡ 3) }
    // An invalid one gives the status of its fault, 0 or 2, or 3 if memory runs out.
    ensures refused { fault_of command_line (map (λ word. word.now) words.entry.now) ≢ []
        → IsRefusalStatus
        (fault_of command_line (map (λ word. word.now) words.entry.now)) result }
{
    match choose(alloc, words) {
        Ok(Some(tool)) => report_tool(alloc, tool, reader, writer),
        Ok(None) => {
            say(writer, no_subcommand_line());
            2
        }
        Err(error) => refuse(alloc, &error, writer),
    }
}

/// Runs a tool, reports its fault, and returns the exit status.
fn report_tool<R: Read, W: Write>(alloc: Global, tool: Tool, reader: &mut R, writer: &mut W) -> u8
    ensures known { result ≤ 3 }
    ensures never_two { result ≢ 2 }
    ensures taken { TakesAtMost MOST_READ (R.remaining reader.old) (R.remaining reader.new) }
    ensures reported { result ≤ 1
        → (input : List ℕ)
        × HasReported tool input (R.remaining reader.old) (R.remaining reader.new)
        (W.contents writer.old) (W.contents writer.new)
        × (result ≡ program_status tool input) }
{
    let ending = run_tool(alloc, tool, reader, writer);
    if let Err(fault) = ending {
        say(writer, fault_line(fault).as_str());
    }
    status_of(ending)
}

/// Returns the line that reports a tool's fault.
fn fault_line(fault: ToolFault) -> ArrayString<23>
    ensures { result.bytes ≡ fault_line fault }
{
    let mut line = ArrayString::new();
    line.push_str("fio2070: ");
    line.push_str(fault.words());
    line.push_str("\n");
    line
}

/// Returns the line for a command line that names no subcommand.
fn no_subcommand_line() -> &'static str
    ensures { result.now ≡ no_subcommand_line }
{
    "fio2070: no subcommand\n"
}

/// Reports why a command line selects no tool, and returns the exit status: that of the error's kind, or 3 if memory runs
/// out.
fn refuse<W: Write>(alloc: Global, error: &clap::Error, writer: &mut W) -> u8
    ensures { (result ≡ refusal_status (kind_of error.now)) ⊎ (result ≡ 3) }
{
    let kind = error.kind();
    if kind != ErrorKind::OutOfMemory {
        if let Ok(text) = format!(in alloc; "{error}") {
            say(writer, text.as_str());
            return refusal_status(kind);
        }
    }
    say(writer, fault_line(ToolFault::Memory).as_str());
    3
}

/// Returns the exit status if `clap` returns an error of this kind.
fn refusal_status(kind: ErrorKind) -> u8
    ensures status { result ≡ refusal_status kind }
    ensures known { result ≤ 3 }
{
    match kind {
        ErrorKind::DisplayHelp | ErrorKind::DisplayVersion => 0,
        ErrorKind::OutOfMemory => 3,
        _ => 2,
    }
}

/// Writes a text of the program itself, as far as the writer takes it.
fn say<W: Write>(writer: &mut W, text: &str) {
    let _ = write_text(writer, text.as_bytes());
}
