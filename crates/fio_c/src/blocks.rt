//! Block answers, read in place.
ghost use Rattle.std.specs.Prelude.{◌≡◌, ◌≤◌, ◌++◌, length, map, drop};
ghost use Rattle.fio_message.specs.Answers.{block_length};
ghost use Rattle.fio_message.specs.Blocks.{Block, SpellsBlock};
ghost use Rattle.fio_message.specs.Refusals.{Refuses};
ghost use Rattle.fio_message.specs.declared.faults.DecodeError.{DecodeError};
ghost use Rattle.fio_flat.specs.Faults.{ReadsBlock};
ghost use Rattle.fio_c.specs.Flat.{flat_header, flat_entry};
ghost use Rattle.fio_flat.specs.Written.{Writes, WritesNoMessage};

use crate::faults::{NO_FAULT, fault_from};
use fio_flat::{Fault, NO_MESSAGE};
use fio_message::{BlockView, read_block};

/// A block answer (TEES 2009, answer 182) without its entries.
#[derive(Clone, Copy)]
#[repr(C)]
pub struct BlockHeader {
    /// The block number.
    pub number: u8,
    /// The status, with C, F, E and G in bits 3 to 0 (places own profile), and other bits as they
    /// come.
    pub status: u8,
    /// How many entries the block has, from 0 to 255.
    pub count: u8,
    /// 0 where the library writes it.
    pub reserved: u8,
    /// The module's millisecond counter when the block was made.
    pub stamp: u32,
}

/// A transition, as a block carries it (TEES 2009).
#[derive(Clone, Copy)]
#[repr(C)]
pub struct FlatEntry {
    /// The input that changed, from 0 to 127.
    pub input: u8,
    /// The filtered state after the transition, 0 or 1. Calls that are given an entry take any number
    /// but 0 as 1.
    pub state: u8,
    /// The low 16 bits of the module's millisecond counter at the transition.
    pub stamp: u16,
}

/// Returns the view of a block without its entries.
fn header_of(view: &BlockView) -> BlockHeader
    ensures { result ≡ flat_header view.now }
{
    BlockHeader {
        number: view.block(),
        status: view.status(),
        count: view.len() as u8,
        reserved: 0,
        stamp: view.stamp(),
    }
}

/// Returns an entry in its flat form.
fn entry_of(entry: fio_message::Entry) -> FlatEntry
    ensures { result ≡ flat_entry entry }
{
    FlatEntry {
        input: entry.input.get(),
        state: u8::from(entry.level),
        stamp: entry.stamp,
    }
}

/// Reads a block answer without its entries. After a fault `header` is unchanged.
#[unsafe(no_mangle)]
pub extern "C" fn fio2070_read_block(octets: &[u8], header: &mut BlockHeader) -> Fault
    ensures { ReadsBlock flat_header octets.now header.old header.new result }
{
    match read_block(octets) {
        Ok(view) => {
            *header = header_of(&view);
            NO_FAULT
        }
        Err(error) => fault_from(error),
    }
}

/// Copies the entries of a block answer if there is room for all of them, and returns how many they
/// are. If the octets are no block answer, nothing is copied, and the result is `NO_MESSAGE`.
#[unsafe(no_mangle)]
pub extern "C" fn fio2070_block_entries(octets: &[u8], entries: &mut [FlatEntry]) -> usize
    ensures block { (block : Block) → SpellsBlock block octets.now
        → Writes (map flat_entry block.entries) entries.old entries.new result }
    ensures refused { (error : DecodeError) → Refuses (block_length octets.now) octets.now error
        → WritesNoMessage entries.old entries.new result }
{
    match read_block(octets) {
        Ok(view) => {
            let count = view.len();
            if count <= entries.len() {
                copy_entries(&view, entries);
            }
            count
        }
        Err(_) => NO_MESSAGE,
    }
}

/// Copies the entries of a block, for which there is room.
fn copy_entries(view: &BlockView, entries: &mut [FlatEntry])
    requires { length view.now.entries ≤ length entries.old }
    ensures { entries.new
        ≡ map flat_entry view.now.entries ++ drop (length view.now.entries) entries.old }
{
    let mut place = 0;
    for entry in view.entries() {
        entries[place] = entry_of(entry);
        place += 1;
    }
}
