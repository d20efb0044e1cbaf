//! The command line.
ghost use Rattle.std.specs.Prelude.{◌≡◌, false, Some, IfOk, IfSome, IfNone, option_map, map};
ghost use Rattle.clap.specs.Faults.{fault_of};
ghost use Rattle.clap.specs.Kinds.{FailsBy};
ghost use Rattle.clap.specs.Matches.{subcommand_name_of};
ghost use Rattle.clap.specs.Simple.{app_of, new_shape, shape_of};
ghost use Rattle.clap.specs.declared.builder.command.Command.TheViews.{out-Command as fields_of};
ghost use Rattle.fio_tool.specs.CommandLine.{chosen_name, command_line, name_of, program};
ghost use Rattle.fio_tool.specs.declared.tools.Tool.{Tool};

use crate::help;
use crate::tools::Tool;
use clap::{ArgMatches, Command, Error};
use std::alloc::{AllocError, Global};

/// What `--version` prints after the program's name.
const VERSION: &str = "1.0.0";

const ABOUT: &str =
    "Reads the messages between the CPU and the field I/O module of a Model 2070 controller";

/// How to call the program.
const USAGE: &str = "fio2070 COMMAND < FILE";

/// Returns the tool that the words of a command line name, or `None` if they name no subcommand. The first word is the
/// program's name.
///
/// # Errors
/// `clap`'s: exactly if the command line is invalid or asks for help or the version, or if an allocation failed.
pub fn choose<'a>(alloc: Global, words: &'a [&'a str]) -> Result<Option<Tool>, Error>
    ensures tool { IfOk result (λ tool.
        option_map name_of tool ≡ chosen_name (map (λ word. word.now) words.entry.now)) }
    // It returns `Ok` only if the command line is valid, and `Err` only if it is not or memory runs out.
    ensures fault { FailsBy
        (fault_of command_line (map (λ word. word.now) words.entry.now)) result }
{
    let command = command_line(alloc)?;
    let matches = command.try_get_matches_from(words)?;
    Ok(tool_met(&matches))
}

/// Returns the tool whose subcommand was given, if one was.
fn tool_met(matches: &ArgMatches<'_>) -> Option<Tool>
    ensures known { IfSome result (λ tool.
        subcommand_name_of matches.now ≡ Some (name_of tool)) }
    ensures unknown { IfNone result ((tool : Tool) →
        subcommand_name_of matches.now ≡ Some (name_of tool) → ⊥) }
{
    tool_named(matches.subcommand_name()?)
}

/// Returns the command line, with a subcommand for each tool.
fn command_line<'a>(alloc: Global) -> Result<Command<'a>, AllocError>
    ensures { IfOk result (λ command. app_of command ≡ command_line) }
{
    let mut command = program(alloc);
    'tools: for tool in Tool::ALL {
        command = command.subcommand(subcommand(alloc, tool))?;
    }
    Ok(command)
}

/// Returns the command line without its subcommands.
fn program<'a>(alloc: Global) -> Command<'a>
    ensures { app_of result ≡ program }
{
    Command::new(alloc, "fio2070")
        .about(ABOUT)
        .override_usage(USAGE)
        .after_help(help::PROGRAM)
        .version(VERSION)
        .disable_help_subcommand(true)
}

/// Returns the subcommand of a tool. It takes no words.
fn subcommand<'a>(alloc: Global, tool: Tool) -> Command<'a>
    ensures shape { shape_of result ≡ new_shape (name_of tool) }
    ensures local { (fields_of result).has_globals ≡ false }
{
    let words = tool.words();
    let name: &'a str = words.name;
    let about: &'a str = words.about;
    let usage: &'a str = words.usage;
    let after_help: &'a str = words.after_help;
    Command::new(alloc, name)
        .about(about)
        .override_usage(usage)
        .after_help(after_help)
}

/// Returns the tool of a subcommand.
fn tool_named(name: &str) -> Option<Tool>
    ensures known { IfSome result (λ tool. name_of tool ≡ name.now) }
    ensures unknown { IfNone result ((tool : Tool) → name_of tool ≡ name.now → ⊥) }
{
    'tools: for tool in Tool::ALL {
        if tool.words().name == name {
            return Some(tool);
        }
    }
    None
}
