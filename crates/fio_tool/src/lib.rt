//! The tools of the program `fio2070`: texts about the messages between the CPU and the field I/O module of a Model 2070
//! controller, over any reader and writer, and the command line that selects a tool.
//!
//! What the program relies on: each tool writes exactly the text for what it read, and nothing if a read fails or memory
//! runs out; the words of a command line select exactly the tool that `clap`'s own function of them names; and after such
//! words, an exit status of 0 or 1 says that the tool has done so, and the status is never 2.
//!
//! The definitions are in `specs/`. `Program` comes first: the text that each tool writes for an input, and the exit status;
//! then the command line (`CommandLine`). The four texts are `Show`, over the lines of each frame (`FrameLines` of
//! `fio_show`); `Simulate`; `Check`, over the lines of a transcript (`Transcript`), whose rules and verdict are those of
//! `fio_check`; and `Record`, what the CPU of a transcript recorded. What is reported for an input with a fault is in
//! `InputFaults`, what is read and written in `Streams`. The laws are the contracts of the module `laws`.
//!
//! # What is proved
//!
//! Each tool (`run_tool`) takes at most 1,048,577 octets, and writes nothing if a read failed or
//! memory ran out. `choose` gives the tool that `clap` finds (`tool`, `fault`), and each tool's name gives that tool
//! (`a_name_names_its_tool`). `run_program` ends with a status of 0 to 3 (`known`, `reported`, `named`, `no_subcommand`,
//! `refused`), and reads nothing if no tool is named (`unread`).
//!
//! # Examples
//!
//! ```rust
//! use fio_tool::{Rule, Verdict, check_trace, read_trace};
//!
//! let lines = read_trace(rt.alloc(), b"> 3605\n> 3606\n")?;
//! let verdict = check_trace(&lines);
//! assert_eq!(rt; verdict, Verdict::Broken { number: 2, rule: Rule::Advance });
//! ```
#![tactic(auto)]

mod command_line;
mod endings;
mod help;
pub mod laws;
mod program;
mod reports;
mod streams;
mod tools;
mod transcript;

pub use command_line::choose;
pub use endings::{Ending, ToolFault};
pub use fio_check::{Line, Rule, Verdict, check_trace};
pub use program::run_program;
pub use reports::{check_text, record_text, show_text, simulate_text};
pub use tools::{Tool, run_tool};
pub use transcript::{TraceError, read_trace};
