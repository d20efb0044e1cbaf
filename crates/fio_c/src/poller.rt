//! The CPU's end, in memory of the caller.
ghost use Rattle.std.specs.Prelude.{◌≡◌, ◌<◌, ◌≤◌, ◌++◌, length, map, drop, Some};
ghost use Rattle.fio_message.specs.declared.faults.DecodeError.{DecodeError};
ghost use Rattle.fio_message.specs.Commands.{command_octets};
ghost use Rattle.fio_message.specs.Decoding.{answered_block};
ghost use Rattle.fio_message.specs.Views.{answer_of};
ghost use Rattle.fio_message.specs.declared.commands.Command.TheVariants as commands;
ghost use Rattle.fio_cpu.specs.declared.poller.Heard.TheVariants as outcomes;
ghost use Rattle.fio_cpu.specs.Hearing.{heard_answer, items_added, HasFewEntries};
ghost use Rattle.fio_flat.specs.Faults.{NeedFitsFrame};
ghost use Rattle.fio_flat.specs.Hearing.{Hears, HearsAs, flat_heard, flat_record_item, with_block};
ghost use Rattle.fio_flat.specs.Written.{Writes};

use crate::command_frames::write_command;
use crate::faults::{NO_FAULT, fault_from};
use fio_cpu::{BlockItems, Item, Record, hear_read_answer};
use fio_flat::{FlatHeard, FlatPoller, RecordItem};
use fio_message::{AnswerView, BlockStatus, Command, read_answer};

/// A gap mark.
const GAP: RecordItem = RecordItem {
    gap: 1,
    input: 0,
    state: 0,
    reserved: [0; 3],
    stamp: 0,
    wide: 0,
};

/// A struct for what was heard with all numbers 0.
const HEARD_NOTHING: FlatHeard = FlatHeard {
    kind: 0,
    code: 0,
    number: 0,
    status: 0,
    stamp: 0,
    items: 0,
    entries: 0,
    reserved: [0; 5],
    fault: NO_FAULT,
};

/// Starts a poller whose first poll has this block number, 0 to 255 (own profile). A CPU that continues
/// with the number that it kept loses nothing and records nothing twice. A CPU that starts anew with the
/// number of the module's last poll gets that poll's block again, with E, and records it a second time.
#[unsafe(no_mangle)]
pub extern "C" fn fio2070_poller_start(poller: &mut FlatPoller, number: u8)
    ensures { poller.new ≡ record { number = number } }
{
    *poller = FlatPoller { number };
}

/// Writes a poll with the present block number (TEES 2009, command 54). Returns how many octets it has;
/// without room for it nothing is written.
#[unsafe(no_mangle)]
pub extern "C" fn fio2070_poller_poll(poller: &FlatPoller, out: &mut [u8]) -> usize
    ensures { Writes (command_octets (commands.Poll poller.now.number)) out.old out.new result }
{
    let poll = Command::Poll {
        block: poller.number,
    };
    write_command(&poll, out)
}

/// Hears the octets of a frame. A block answer (TEES 2009, answer 182) with the present number is taken
/// whole: what it adds to the record is written to the front of `items`, a gap mark if F is set and then
/// its entries in order, and the number rises by one modulo 256. Without room for all of it nothing
/// changes, and the result says how many items there are; room for 256 is always enough. Anything else is
/// reported and changes nothing (own profile). For any block answer the result has the number and the
/// stamp.
#[unsafe(no_mangle)]
#[tactic(auto, using(crate::proofs::Decoded::block_decoded))]
pub extern "C" fn fio2070_poller_hear(
    poller: &mut FlatPoller,
    octets: &[u8],
    items: &mut [RecordItem],
) -> FlatHeard
    ensures { Hears poller.old.number octets.now items.old items.new poller.new.number result }
{
    match read_answer(octets) {
        Ok(answer) => hear_answer(poller, &answer, items),
        Err(error) => FlatHeard {
            kind: 1,
            fault: fault_from(error),
            ..HEARD_NOTHING
        },
    }
}

/// Hears a decoded answer.
fn hear_answer(
    poller: &mut FlatPoller,
    answer: &AnswerView<'_>,
    items: &mut [RecordItem],
) -> FlatHeard
    ensures { HearsAs poller.old.number (heard_answer poller.old.number (answer_of answer.now))
        (answered_block (Some (answer_of answer.now))) items.old items.new poller.new.number result }
{
    let mut places = ItemSlots { items };
    let heard = match hear_read_answer(&mut poller.number, &mut places, answer) {
        Ok(heard) => flat_heard(heard),
        Err(count) => FlatHeard {
            kind: 4,
            items: count,
            ..HEARD_NOTHING
        },
    };
    with_block(heard, answer)
}

/// Returns what was heard, with the number and the stamp of the answer, if it is a block.
fn with_block(heard: FlatHeard, answer: &AnswerView<'_>) -> FlatHeard
    ensures { result ≡ with_block (answered_block (Some (answer_of answer.now))) heard }
{
    match *answer {
        AnswerView::Block { block, stamp, .. } => FlatHeard {
            number: block,
            stamp,
            ..heard
        },
        _ => heard,
    }
}

/// Returns what was heard in its flat form, with the number of items that it adds to the record.
fn flat_heard(heard: fio_cpu::Heard) -> FlatHeard
    requires few { HasFewEntries heard }
    requires need { (error : DecodeError) → heard ≡ outcomes.Unreadable error → NeedFitsFrame error }
    ensures { result ≡ flat_heard (items_added heard) heard }
{
    match heard {
        fio_cpu::Heard::Block { entries, status } => FlatHeard {
            status,
            entries: entries as u8,
            items: u16::from(BlockStatus::from_octet(status).lost()) + entries as u16,
            ..HEARD_NOTHING
        },
        fio_cpu::Heard::Unreadable(error) => FlatHeard {
            kind: 1,
            fault: fault_from(error),
            ..HEARD_NOTHING
        },
        fio_cpu::Heard::Other { code } => FlatHeard {
            kind: 2,
            code,
            ..HEARD_NOTHING
        },
        fio_cpu::Heard::Stale { .. } => FlatHeard {
            kind: 3,
            ..HEARD_NOTHING
        },
    }
}

/// The slots of the caller for items of the record.
#[derive(Drop)]
struct ItemSlots<'a> {
    items: &'a mut [RecordItem],
}

impl Record for ItemSlots<'_> {
    ghost use Rattle.fio_flat.specs.Hearing.{Gain};
    ghost use Rattle.std.proofs.Common.{rules};

    /// The number of items.
    type NoRoom = u16;

    ghost Gains = { λ before items after. Gain before.items items after.items };

    ghost LacksRoom = { λ before items count.
        (count ≡ length items) × (length before.items.now < length items) };

    ghost none_gained = { Prim.search rules };

    fn append(&mut self, items: &BlockItems<'_>) -> Result<(), u16> {
        let count = items.len();
        if self.items.len() < count {
            return Err(count as u16);
        }
        write_items(items, self.items);
        Ok(())
    }
}

/// Writes items to the front of the slots, which are enough.
fn write_items(items: &BlockItems<'_>, places: &mut [RecordItem])
    requires { length items.now ≤ length places.old }
    ensures { places.new ≡ map flat_record_item items.now ++ drop (length items.now) places.old }
{
    let mut place = 0;
    for item in items.iter() {
        places[place] = flat_item(item);
        place += 1;
    }
}

/// Returns an item of the record in its flat form.
fn flat_item(item: Item) -> RecordItem
    ensures { result ≡ flat_record_item item }
{
    match item {
        Item::Gap => GAP,
        Item::Entry {
            input,
            level,
            stamp,
            wide,
        } => RecordItem {
            gap: 0,
            input: input.get(),
            state: u8::from(level),
            reserved: [0; 3],
            stamp,
            wide,
        },
    }
}
