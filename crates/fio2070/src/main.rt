//! The program `fio2070`: it calls the crate `fio_tool` with the words of the command line and the standard streams.
#![tactic(auto)]

mod words;

use fio_tool::{ToolFault, run_program};
use std::alloc::AllocError;
use std::io::IsTerminal;
use std::process::ExitCode;

/// The exit status if memory runs out.
const FAILED: u8 = 3;

/// What standard error says below `good N frames` of `check`, if it is a terminal.
const CHECK_NOTE: &str =
    "fio2070: check judges the order of messages; fio2070 record judges what their entries say";

/// What standard error says below a text of `show` that has a fault, if it is a terminal.
const SHOW_NOTE: &str =
    "fio2070: show reads frames, a line of hexadecimal digits each; fiolog reads logs of other tools";

/// What standard error says if the last argument is none and may name a file, and it is a terminal.
const FILE_NOTE: &str =
    "fio2070: give a file as standard input, as in: fio2070 show < FILE; fiolog reads logs of other tools";

fn main(rt: HostRuntime) -> ExitCode {
    match run(&rt) {
        Ok(status) => ExitCode::from(status),
        Err(AllocError) => {
            let fault = ToolFault::Memory;
            let _ = println!(rt; "fio2070: {fault}");
            ExitCode::from(FAILED)
        }
    }
}

/// Returns the exit status, or an error if there is no memory for the words of the command line.
fn run(rt: &HostRuntime) -> Result<u8, AllocError> {
    let alloc = rt.alloc();
    let words: Vec<String> = words::words(rt, alloc)?;
    let words: Vec<&str> = words.iter().map(|word| word.as_str()).collect(alloc)?;
    let status = run_program(alloc, words.as_slice(), &mut rt.stdin(), &mut rt.stdout());
    if let Some(note) = note(words.as_slice(), status)
        && rt.stderr().is_terminal()
    {
        let _ = eprintln!(rt; "{note}");
    }
    Ok(status)
}

/// Returns what a terminal is told after a command with these words ended with this status, if anything.
fn note(words: &[&str], status: u8) -> Option<&'static str> {
    if words.len() == 2 && words[1] == "check" && status == 0 {
        Some(CHECK_NOTE)
    } else if words.len() == 2 && words[1] == "show" && status == 1 {
        Some(SHOW_NOTE)
    } else if words.len() > 1 && !words[words.len() - 1].starts_with('-') && status == 2 {
        Some(FILE_NOTE)
    } else {
        None
    }
}
