//! The record: its items, and where they are kept.
ghost use Rattle.std.specs.Prelude.{◌≡◌, ◌≢◌, ◌+◌, ◌≤◌, List, [], ◌++◌, length, vec_len, OnOk, OnErr, IfErr};
ghost use Rattle.std.specs.Vec.{vec_capacity};

use crate::block_items::BlockItems;
use fio_message::{InputNumber, Memory};
use std::mem;

/// An item of the record.
#[derive(Clone, Copy, Debug, PartialEq, Eq, Hash)]
pub enum Item {
    /// A transition that a block carried.
    Entry {
        /// The input that changed.
        input: InputNumber,
        /// The filtered state after the transition.
        level: bool,
        /// The low 16 bits of the module's millisecond counter at the transition.
        stamp: u16,
        /// The time in milliseconds, in 32 bits: the one number with these low 16 bits that is at or before the answer's
        /// stamp, counting back modulo 2^32, by less than 65,536 (own profile).
        wide: u32,
    },
    /// Some transitions are missing here: the module pushed out entries before the next block.
    Gap,
}

/// Where a poller keeps its record.
pub trait Record {
    ghost use Rattle.fio_cpu.specs.declared.record.Item.{Item as ItemOf};

    /// Why there is no room for items.
    type NoRoom;

    /// Relates the record before, the items appended to it, and the record after.
    ghost Gains: { Self → List ItemOf → Self → Type 0 };

    /// The record has no room for these items, for this reason.
    ghost LacksRoom: { Self → List ItemOf → Self.NoRoom → Type 0 };

    /// Appends what a block adds: all of it, or nothing if there is no room.
    ///
    /// # Errors
    /// Why there is no room.
    fn append(&mut self, items: &BlockItems<'_>) -> Result<(), Self::NoRoom>
        ensures gained { OnOk result (Gains self.old items.now self.new) }
        ensures unchanged { OnErr result (Gains self.old [] self.new) }
        ensures room { IfErr result (λ reason. LacksRoom self.old items.now reason) };

    ghost none_gained: { (before : Self) → Gains before [] before };
}

impl Record for Vec<Item> {
    ghost use Rattle.std.proofs.Common.{rules};

    type NoRoom = Memory;

    ghost Gains = { λ before items after. after.items ≡ before.items ++ items };

    ghost LacksRoom = { λ _ items _. items ≢ [] };

    ghost none_gained = { Prim.search rules };

    /// Reserves room for all of the items once, before any is appended, and none if there are no items.
    fn append(&mut self, items: &BlockItems<'_>) -> Result<(), Memory> {
        if items.is_empty() {
            return Ok(());
        }
        self.reserve(items.len())?;
        let empty = Vec::new(*self.allocator());
        *self = extended(mem::replace(self, empty), items);
        Ok(())
    }
}

/// Returns a list with items appended, for which there is room. The list is moved here for the loop: with a list behind a
/// reference, each push would write the length to memory and read the address of the items again.
fn extended(mut kept: Vec<Item>, items: &BlockItems<'_>) -> Vec<Item>
    requires { vec_len kept + length items.now ≤ vec_capacity kept }
    ensures { result.items ≡ kept.items ++ items.now }
{
    for item in items.iter() {
        kept.push_reserved(item);
    }
    kept
}
