//! Commands, written into a buffer of the caller.
ghost use Rattle.std.specs.Prelude.{◌≡◌, ◌<◌, ◌≤◌, ◌+◌, ◌*◌, ℕ, List, length, Some, None, true, false};
ghost use Rattle.std.specs.List.{flat_map, list_all};
ghost use Rattle.fio_message.specs.declared.fields.TheConstants.{INPUT_NUMBERS};
ghost use Rattle.fio_message.specs.Commands.{command_octets};
ghost use Rattle.fio_message.specs.Octets.{item_octets};
ghost use Rattle.fio_message.specs.declared.commands.Command.{Command as AnyCommand};
ghost use Rattle.fio_message.specs.declared.commands.Command.TheVariants as commands;
ghost use Rattle.fio_c.specs.Flat.{are_items, can_be_named, read_item, read_items};
ghost use Rattle.fio_c.specs.Given.{IsCommandGiven, command_by_type, fixed_command};
ghost use Rattle.fio_flat.specs.Written.{Writes, WritesNoMessage, buffer_with};

use crate::commands::{ConfigurationItem, FlatCommand, command_of_type};
use crate::parts::{FlatPart, are_parts, write_with_parts};
use crate::written::{write_front, write_with_body};
use fio_flat::NO_MESSAGE;
use fio_message::types::{
    COMPLEX_OUTPUTS, CONFIGURE_INPUTS, CONTROLLER_ID, FILTERED_INPUTS, IDENTIFY, LOAD_COUNTER,
    POLL, RAW_INPUTS, SET_OUTPUTS, STATUS, TRACK_INPUTS, WATCHDOG,
};
use fio_message::{
    CONFIGURATION_ITEMS, Command, InputItem, InputNumber, OtherCommand, before_items,
    encode_command,
};

/// Writes a command from what the decoder and its calls give of it: the struct, the items of a configuration, and the octets
/// after the type of a command that has only a body. Returns how many octets it has; without room for them nothing is
/// written. If no command has all of this, the result is `NO_MESSAGE`: also if a field that the type does not have is not 0,
/// an item names an input above 127, or a body has more than 772 octets.
#[unsafe(no_mangle)]
pub extern "C" fn fio2070_encode_command(
    command: &FlatCommand,
    items: &[ConfigurationItem],
    body: &[u8],
    out: &mut [u8],
) -> usize
    ensures written { (message : AnyCommand) → IsCommandGiven command.now items.now body.now message
        → Writes (command_octets message) out.old out.new result }
    ensures refused { ((message : AnyCommand) → IsCommandGiven command.now items.now body.now message → ⊥)
        → WritesNoMessage out.old out.new result }
{
    if !is_whole(command, items.len(), body.len()) {
        return NO_MESSAGE;
    }
    if command.code == CONFIGURE_INPUTS {
        return write_items(items, out);
    }
    match OtherCommand::of_type(command.code) {
        Some(kind) => write_with_body(kind.code(), body, out),
        None => write_fixed(command, out),
    }
}

/// Returns whether a struct counts so many items and so many octets of a body, and the fields that its type does not have
/// are 0.
fn is_whole(command: &FlatCommand, items: usize, body: usize) -> bool
    ensures whole { result ≡ true
        → (command.now.count ≡ items) × (command.now.body ≡ body) × (command.now ≡ command_by_type command.now) }
    ensures other { command.now.count ≡ items → command.now.body ≡ body → command.now ≡ command_by_type command.now
        → result ≡ true }
{
    usize::from(command.count) == items
        && usize::from(command.body) == body
        && *command == by_type(command)
}

/// Returns the command with the fields of its type alone.
fn by_type(command: &FlatCommand) -> FlatCommand
    ensures { result ≡ command_by_type command.now }
{
    let mut kept = command_of_type(command.code);
    match command.code {
        STATUS => kept.clear = command.clear,
        LOAD_COUNTER => kept.load = command.load,
        CONFIGURE_INPUTS => kept.count = command.count,
        POLL => kept.block = command.block,
        SET_OUTPUTS => {
            kept = FlatCommand {
                levels: command.levels,
                controls: command.controls,
                ..kept
            };
        }
        WATCHDOG => kept.timeout = command.timeout,
        TRACK_INPUTS | COMPLEX_OUTPUTS | CONTROLLER_ID => kept.body = command.body,
        _ => {}
    }
    kept
}

/// Writes a configuration with these items, if a message can have them.
fn write_items(items: &[ConfigurationItem], out: &mut [u8]) -> usize
    ensures written { are_items items.now ≡ true
        → Writes (command_octets (commands.ConfigureInputs (record { items = read_items items.now })))
        out.old out.new result }
    ensures refused { are_items items.now ≡ false → WritesNoMessage out.old out.new result }
{
    if !are_parts(items, CONFIGURATION_ITEMS) {
        return NO_MESSAGE;
    }
    write_with_parts(&before_items(items.len() as u8), items, &[], out)
}

/// Writes the command without items and body that has the type and the fields of a struct, if there is one.
fn write_fixed(command: &FlatCommand, out: &mut [u8]) -> usize
    ensures written { (message : AnyCommand) → fixed_command command.now ≡ Some message
        → Writes (command_octets message) out.old out.new result }
    ensures refused { fixed_command command.now ≡ None → WritesNoMessage out.old out.new result }
{
    match fixed(command) {
        Some(fixed) => write_command(&fixed, out),
        None => NO_MESSAGE,
    }
}

/// Returns that command.
fn fixed(command: &FlatCommand) -> Option<Command>
    ensures { result ≡ fixed_command command.now }
{
    match command.code {
        STATUS => Some(Command::Status {
            clear: command.clear,
        }),
        LOAD_COUNTER => Some(Command::LoadCounter { load: command.load }),
        RAW_INPUTS => Some(Command::RawInputs),
        FILTERED_INPUTS => Some(Command::FilteredInputs),
        POLL => Some(Command::Poll {
            block: command.block,
        }),
        SET_OUTPUTS => Some(Command::SetOutputs {
            levels: command.levels,
            controls: command.controls,
        }),
        WATCHDOG => Some(Command::Watchdog {
            timeout: command.timeout,
        }),
        IDENTIFY => Some(Command::Identify),
        _ => None,
    }
}

/// Writes a command if there is room for it, and returns how many octets it has. Inlined, so that no
/// command and no frame is made if the type is known.
#[inline(always)]
pub(crate) fn write_command(command: &Command, out: &mut [u8]) -> usize
    ensures { Writes (command_octets command.now) out.old out.new result }
{
    write_front(encode_command(command).as_slice(), out)
}

impl FlatPart for ConfigurationItem {
    ghost use Rattle.std.proofs.Common.{refl};

    ghost named = { λ item. item.input };

    ghost spelled = { λ item. item_octets (read_item item) };

    ghost three = { λ item. refl };

    fn input(&self) -> u8 {
        self.input
    }

    fn octets(&self) -> [u8; 3] {
        read_item(self).octets()
    }
}

/// Returns the item from an item of C.
#[inline]
pub(crate) fn read_item(item: &ConfigurationItem) -> InputItem
    requires { item.now.input < INPUT_NUMBERS }
    ensures { result ≡ read_item item.now }
{
    match InputNumber::new(item.input) {
        Some(input) => InputItem {
            input,
            ignore: item.ignore != 0,
            leading: item.leading,
            trailing: item.trailing,
        },
        None => unreachable!(),
    }
}
