//! Commands, read into structs of the caller.
ghost use Rattle.std.specs.Prelude.{◌≡◌, ◌≤◌, ◌++◌, List, length, map, drop, Some, None};
ghost use Rattle.fio_message.specs.Decoding.{command_in, decoded_command};
ghost use Rattle.fio_message.specs.declared.fields.InputItem.{InputItem as ItemOf};
ghost use Rattle.fio_message.specs.Views.{command_of, items_of};
ghost use Rattle.fio_flat.specs.Faults.{Reads};
ghost use Rattle.fio_c.specs.Flat.{command_of_type, flat_command, flat_item, configured_items};
ghost use Rattle.fio_flat.specs.Written.{Writes, WritesNoMessage};

use crate::faults::{NO_FAULT, fault_from};
use fio_flat::{Fault, NO_MESSAGE};
use fio_message::{CommandView, InputItem, ItemsView, read_command};

/// A command of the CPU: the fields of its type, the others 0.
#[derive(Clone, Copy, PartialEq, Eq)]
#[repr(C)]
pub struct FlatCommand {
    /// The type: 49 to 60 (TEES 2009).
    pub code: u8,
    /// Type 49: the flags to clear.
    pub clear: u8,
    /// Type 54: the block number.
    pub block: u8,
    /// Type 58: the timeout in milliseconds, as it is sent.
    pub timeout: u8,
    /// Type 51: how many items there are. `fio2070_command_items` copies them.
    pub count: u8,
    /// 0 where the library writes it.
    pub reserved: u8,
    /// Types 56, 57 and 59: how many octets follow the type. They are not read further.
    pub body: u16,
    /// Type 50: the number to load, in milliseconds.
    pub load: u32,
    /// Type 55: the data octets.
    pub levels: [u8; 8],
    /// Type 55: the control octets.
    pub controls: [u8; 8],
}

/// How one input is to be read: an item of a configuration (TEES 2009).
#[derive(Clone, Copy)]
#[repr(C)]
pub struct ConfigurationItem {
    /// The input, from 0 to 127. The module has the inputs 0 to 63.
    pub input: u8,
    /// 1 if the input's transitions are left out of the blocks, else 0. In an item from the caller any
    /// number other than 0 counts as 1.
    pub ignore: u8,
    /// The leading filter: how many successive samples of 0 change the state from 1 to 0; 0 acts as 1.
    pub leading: u8,
    /// The trailing filter: how many successive samples of 1 change the state from 0 to 1; 0 acts as 1.
    pub trailing: u8,
}

/// Returns a command of this type with all its fields 0.
pub(crate) const fn command_of_type(code: u8) -> FlatCommand
    ensures { result ≡ command_of_type code }
{
    FlatCommand {
        code,
        clear: 0,
        block: 0,
        timeout: 0,
        count: 0,
        reserved: 0,
        body: 0,
        load: 0,
        levels: [0; 8],
        controls: [0; 8],
    }
}

/// Returns a command in its flat form.
fn flat_command(command: CommandView<'_>) -> FlatCommand
    ensures { result ≡ flat_command (command_of command.entry) }
{
    let mut flat = command_of_type(command.code());
    match command {
        CommandView::Status { clear } => flat.clear = clear,
        CommandView::LoadCounter { load } => flat.load = load,
        CommandView::ConfigureInputs { items } => flat.count = items.len() as u8,
        CommandView::RawInputs | CommandView::FilteredInputs | CommandView::Identify => {}
        CommandView::Poll { block } => flat.block = block,
        CommandView::SetOutputs { levels, controls } => {
            flat = FlatCommand {
                levels: *levels,
                controls: *controls,
                ..flat
            };
        }
        CommandView::Watchdog { timeout } => flat.timeout = timeout,
        CommandView::Other { body, .. } => flat.body = body.len() as u16,
    }
    flat
}

/// Reads any command. The items of a configuration and the octets of a body are not copied. After a
/// fault `command` is unchanged.
#[unsafe(no_mangle)]
pub extern "C" fn fio2070_decode_command(octets: &[u8], command: &mut FlatCommand) -> Fault
    ensures { Reads flat_command (decoded_command octets.now) command.old command.new result }
{
    match read_command(octets) {
        Ok(view) => {
            *command = flat_command(view);
            NO_FAULT
        }
        Err(error) => fault_from(error),
    }
}

/// Copies the items of a configuration (TEES 2009, command 51) if there is room for all of them, and
/// returns how many they are. If the octets are no configuration, nothing is copied, and the result is
/// `NO_MESSAGE`.
#[unsafe(no_mangle)]
pub extern "C" fn fio2070_command_items(octets: &[u8], items: &mut [ConfigurationItem]) -> usize
    ensures configuration { (read : List ItemOf) → configured_items (command_in octets.now) ≡ Some read
        → Writes (map flat_item read) items.old items.new result }
    ensures refused { configured_items (command_in octets.now) ≡ None
        → WritesNoMessage items.old items.new result }
{
    match read_command(octets) {
        Ok(CommandView::ConfigureInputs { items: read }) => {
            let count = read.len();
            if count <= items.len() {
                copy_items(read, items);
            }
            count
        }
        _ => NO_MESSAGE,
    }
}

/// Copies these items, for which there is room.
fn copy_items(read: ItemsView<'_>, items: &mut [ConfigurationItem])
    requires { length (items_of read) ≤ length items.old }
    ensures { items.new
        ≡ map flat_item (items_of read.entry) ++ drop (length (items_of read.entry)) items.old }
{
    let mut place = 0;
    for item in read.iter() {
        items[place] = item_of(item);
        place += 1;
    }
}

/// Returns an item in its flat form.
fn item_of(item: InputItem) -> ConfigurationItem
    ensures { result ≡ flat_item item }
{
    ConfigurationItem {
        input: item.input.get(),
        ignore: u8::from(item.ignore),
        leading: item.leading,
        trailing: item.trailing,
    }
}
