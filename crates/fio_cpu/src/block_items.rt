//! What a block adds to the record: a view of these items, and an iterator over them.
ghost use Rattle.std.specs.Prelude.{◌≡◌, ◌≤◌, ◌==◌, ◌++◌, length, map};
ghost use Rattle.fio_message.specs.Status.{says_lost};
ghost use Rattle.fio_message.specs.Views.{entries_of};
ghost use Rattle.fio_cpu.specs.Record.{gap_if, item_of};

use crate::record::Item;
use fio_input::widen;
use fio_message::{BlockEntries, BlockStatus, EntriesView, Entry};
use std::marker::Model;

/// What taking a block appends to the record, in the octets of the answer: one gap mark if F is set, then all its entries in
/// order. Contracts describe it as the list of these items.
#[derive(Debug, Drop)]
pub struct BlockItems<'a> {
    lost: bool,
    stamp: u32,
    entries: EntriesView<'a>,
}

impl<'a> Model for BlockItems<'a> {
    ghost use Rattle.std.specs.Prelude.{List, ◌++◌, map};
    ghost use Rattle.fio_message.specs.Views.{entries_of};
    ghost use Rattle.fio_cpu.specs.Record.{gap_if, item_of};
    ghost use Rattle.fio_cpu.specs.declared.record.Item.{Item as ItemOf};

    ghost Value = { List ItemOf };

    ghost view = { λ v. gap_if v.lost ++ map (item_of v.stamp) (entries_of v.entries) };
}

impl<'a> BlockItems<'a> {
    /// Returns what a block with these entries, this status and this stamp adds to the record.
    pub(crate) fn new(entries: EntriesView<'a>, status: u8, stamp: u32) -> BlockItems<'a>
        ensures { result
            ≡ gap_if (says_lost status) ++ map (item_of stamp) (entries_of entries.entry) }
    {
        BlockItems {
            lost: BlockStatus::from_octet(status).lost(),
            stamp,
            entries,
        }
    }

    /// Returns the number of items, at most 256.
    pub fn len(&self) -> usize
        ensures value { result ≡ length self.now }
        ensures fits { result ≤ 256 }
    {
        usize::from(self.lost) + self.entries.len()
    }

    /// Returns whether there are no items.
    pub fn is_empty(&self) -> bool
        ensures { result ≡ (length self.now == 0) }
    {
        self.len() == 0
    }

    /// Returns the items in order, each made when it is asked for.
    pub fn iter(&self) -> RecordItems<'a>
        ensures { result ≡ self.now }
    {
        RecordItems {
            lost: self.lost,
            stamp: self.stamp,
            entries: self.entries.iter(),
        }
    }
}

/// The items that a block adds and that remain to be taken. Contracts describe it as the list of these.
#[derive(Debug, Drop)]
pub struct RecordItems<'a> {
    lost: bool,
    stamp: u32,
    entries: BlockEntries<'a>,
}

impl<'a> Model for RecordItems<'a> {
    ghost use Rattle.std.specs.Prelude.{List, ◌++◌, map};
    ghost use Rattle.fio_cpu.specs.Record.{gap_if, item_of};
    ghost use Rattle.fio_cpu.specs.declared.record.Item.{Item as ItemOf};

    ghost Value = { List ItemOf };

    ghost view = { λ v. gap_if v.lost ++ map (item_of v.stamp) v.entries };
}

impl Iterator for RecordItems<'_> {
    ghost use Rattle.std.specs.Iterator.{YieldsFirst, item_count};

    type Item = Item;

    ghost next_gives = { YieldsFirst (λ rest. rest) };

    ghost remaining = { item_count (λ rest. rest) };

    #[inline]
    fn next(&mut self) -> Option<Item> {
        if self.lost {
            self.lost = false;
            return Some(Item::Gap);
        }
        let entry = self.entries.next()?;
        Some(item_of(self.stamp, entry))
    }
}

/// Returns an entry of an answer with this stamp, as an item of the record.
#[inline]
fn item_of(stamp: u32, entry: Entry) -> Item
    ensures { result ≡ item_of stamp entry }
{
    Item::Entry {
        input: entry.input,
        level: entry.level,
        stamp: entry.stamp,
        wide: widen(stamp, entry.stamp),
    }
}
