//! A command read in place: its items, its outputs and its body stay in the octets.
ghost use Rattle.std.specs.Prelude.{◌≡◌, ◌≤◌, ◌+◌, ◌∷◌, ◌↔◌, length, Some, Ok, Err, MatchResult};
ghost use Rattle.fio_message.specs.Commands.{SpellsCommand, command_code, command_length};
ghost use Rattle.fio_message.specs.Reading.{command_at};
ghost use Rattle.fio_message.specs.Refusals.{Refuses};
ghost use Rattle.fio_message.specs.Decoding.{decoded_command};
ghost use Rattle.fio_message.specs.Views.{command_of, command_read};
ghost use Rattle.fio_message.specs.declared.commands.Command.{Command};
ghost use Rattle.fio_message.specs.declared.faults.DecodeError.{DecodeError};
ghost use Rattle.fio_message.specs.declared.limits.TheConstants.{BODY_OCTETS};

use crate::body::BodyView;
use crate::commands::{Command, OtherCommand};
use crate::decoding::{code_and_fields, command_length};
use crate::faults::DecodeError;
use crate::limits::BODY_OCTETS;
use crate::parts::ItemsView;
use crate::reading::{eight_at, u32_of};
use crate::types::{
    COMPLEX_OUTPUTS, CONFIGURE_INPUTS, CONTROLLER_ID, FILTERED_INPUTS, IDENTIFY, LOAD_COUNTER,
    POLL, RAW_INPUTS, SET_OUTPUTS, STATUS, TRACK_INPUTS, WATCHDOG,
};

/// A command whose items, outputs and body stay in the octets that it was read from. `Command` documents the fields.
#[derive(Clone, Copy, Debug)]
pub enum CommandView<'a> {
    /// Type 49.
    Status {
        /// The flags to clear.
        clear: u8,
    },
    /// Type 50.
    LoadCounter {
        /// The number to load, in milliseconds.
        load: u32,
    },
    /// Type 51.
    ConfigureInputs {
        /// The settings of the inputs that are named.
        items: ItemsView<'a>,
    },
    /// Type 52.
    RawInputs,
    /// Type 53.
    FilteredInputs,
    /// Type 54.
    Poll {
        /// The block number.
        block: u8,
    },
    /// Type 55.
    SetOutputs {
        /// The data octets.
        levels: &'a [u8; 8],
        /// The control octets.
        controls: &'a [u8; 8],
    },
    /// Type 58.
    Watchdog {
        /// The timeout in milliseconds, as sent.
        timeout: u8,
    },
    /// Type 60.
    Identify,
    /// Types 56, 57 and 59.
    Other {
        /// The type.
        kind: OtherCommand,
        /// The octets after the type.
        body: BodyView<'a>,
    },
}

impl CommandView<'_> {
    /// Returns the type of the message, its first octet: 49 to 60.
    pub fn code(&self) -> u8
        ensures { result ≡ command_code (command_of self.now) }
    {
        match *self {
            CommandView::Status { .. } => STATUS,
            CommandView::LoadCounter { .. } => LOAD_COUNTER,
            CommandView::ConfigureInputs { .. } => CONFIGURE_INPUTS,
            CommandView::RawInputs => RAW_INPUTS,
            CommandView::FilteredInputs => FILTERED_INPUTS,
            CommandView::Poll { .. } => POLL,
            CommandView::SetOutputs { .. } => SET_OUTPUTS,
            CommandView::Watchdog { .. } => WATCHDOG,
            CommandView::Identify => IDENTIFY,
            CommandView::Other { kind, .. } => kind.code(),
        }
    }

    /// Returns the command, with its items, its outputs and its body copied: about a kilobyte.
    #[inline(always)]
    pub fn to_command(&self) -> Command
        ensures { result ≡ command_of self.now }
    {
        match *self {
            CommandView::Status { clear } => Command::Status { clear },
            CommandView::LoadCounter { load } => Command::LoadCounter { load },
            CommandView::ConfigureInputs { items } => Command::ConfigureInputs {
                items: items.to_array(),
            },
            CommandView::RawInputs => Command::RawInputs,
            CommandView::FilteredInputs => Command::FilteredInputs,
            CommandView::Poll { block } => Command::Poll { block },
            CommandView::SetOutputs { levels, controls } => Command::SetOutputs {
                levels: *levels,
                controls: *controls,
            },
            CommandView::Watchdog { timeout } => Command::Watchdog { timeout },
            CommandView::Identify => Command::Identify,
            CommandView::Other { kind, body } => Command::Other {
                kind,
                body: body.to_body(),
            },
        }
    }
}

/// Returns the command with this type and these octets after it, which have the length that it needs.
#[inline(always)]
fn view_of(code: u8, fields: &[u8]) -> CommandView<'_>
    requires frame { length fields.now ≤ BODY_OCTETS }
    requires needs { command_length (code ∷ fields.now) ≡ Some (length fields.now + 1) }
    ensures { command_of result ≡ command_at code fields.now }
{
    match code {
        STATUS => CommandView::Status { clear: fields[0] },
        LOAD_COUNTER => CommandView::LoadCounter {
            load: u32_of(fields),
        },
        CONFIGURE_INPUTS => CommandView::ConfigureInputs {
            items: ItemsView::of_octets(&fields[1..]),
        },
        RAW_INPUTS => CommandView::RawInputs,
        FILTERED_INPUTS => CommandView::FilteredInputs,
        POLL => CommandView::Poll { block: fields[0] },
        SET_OUTPUTS => CommandView::SetOutputs {
            levels: eight_at(fields),
            controls: eight_at(&fields[8..]),
        },
        TRACK_INPUTS => other(OtherCommand::TrackInputs, fields),
        COMPLEX_OUTPUTS => other(OtherCommand::ComplexOutputs, fields),
        WATCHDOG => CommandView::Watchdog { timeout: fields[0] },
        CONTROLLER_ID => other(OtherCommand::ControllerId, fields),
        IDENTIFY => CommandView::Identify,
        _ => unreachable!(),
    }
}

/// Returns a command that has only a body.
#[inline(always)]
fn other(kind: OtherCommand, fields: &[u8]) -> CommandView<'_>
    requires { length fields.now ≤ BODY_OCTETS }
    ensures { command_of result ≡ Command.Other kind (record { items = fields.now }) }
{
    CommandView::Other {
        kind,
        body: BodyView::of_octets(fields),
    }
}

/// Returns the command that the octets spell, of types 49 to 60, read in place: only its numbers are copied.
///
/// # Errors
/// The first that applies: `Empty`; `TooLong` over 773 octets; `UnknownType` for any other first octet; `WrongLength` if the
/// type and the count need another length. Bits that have no name are kept as they come and never refused (own profile).
#[inline(always)]
pub fn read_command(octets: &[u8]) -> Result<CommandView<'_>, DecodeError>
    ensures accepted { (command : Command)
        → (command_read result ≡ Ok command) ↔ SpellsCommand command octets.now }
    ensures refused { (fault : DecodeError)
        → (result ≡ Err fault) ↔ Refuses (command_length octets.now) octets.now fault }
    ensures exact { MatchResult result
        (λ view. decoded_command octets.now ≡ Ok (command_of view))
        (λ fault. decoded_command octets.now ≡ Err fault) }
{
    let (code, fields) = code_and_fields(octets, command_length(octets))?;
    Ok(view_of(code, fields))
}
