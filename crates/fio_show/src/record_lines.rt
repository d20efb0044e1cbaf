//! The lines of a record. They are gathered in room on the stack, so that the text grows once for many of them.
ghost use Rattle.std.specs.Prelude.{◌≡◌, ◌+◌, ◌≤◌, ◌++◌, length, take, IfOk, OnOk};
ghost use Rattle.std.specs.List.{flat_map};
ghost use Rattle.fio_show.specs.EntryLines.{item_line};
ghost use Rattle.fio_show.specs.declared.record_lines.TheConstants.{LINE_ROOM, ROOM};

use crate::entry_lines::{EntryLines, STATE_OCTETS};
use crate::fronts::{FRONT_ROOM, Fronts};
use fio_cpu::Item;
use std::alloc::AllocError;

/// The room in which lines are gathered.
const ROOM: usize = 4096;

/// The most room that the line of an item takes.
const LINE_ROOM: usize = FRONT_ROOM + STATE_OCTETS;

/// Appends a line for each item of a record: `gap`, or `input I state L stamp S wide W`.
///
/// # Errors
/// `AllocError` if the text could not grow.
pub fn push_items(text: &mut Vec<u8>, items: &[Item]) -> Result<(), AllocError>
    ensures { OnOk result (text.new.items ≡ text.old.items ++ flat_map item_line items.now) }
{
    let fronts = Fronts::new();
    let mut entry_lines = EntryLines::new();
    let mut room = [0; ROOM];
    let mut end = 0;
    for item in items {
        let free = append_full(text, &room, end)?;
        end = put_line(&mut room, free, &fronts, &mut entry_lines, *item);
    }
    text.extend_from_slice(&room[..end])
}

/// Appends the lines in the room, which end at `end`, unless there is room for one more after them. Returns where the lines
/// end that remain in the room.
// Inlined, so that the end of the lines stays in a register.
#[inline(always)]
fn append_full(text: &mut Vec<u8>, room: &[u8; ROOM], end: usize) -> Result<usize, AllocError>
    requires { end ≤ ROOM }
    ensures free { IfOk result (λ left. left + LINE_ROOM ≤ ROOM) }
    ensures same { IfOk result (λ left. text.new.items ++ take left room.now
        ≡ text.old.items ++ take end room.now) }
{
    if end <= ROOM - LINE_ROOM {
        return Ok(end);
    }
    text.extend_from_slice(&room[..end])?;
    Ok(0)
}

/// Puts the line of an item after the lines in the room, and returns where it ends.
// Inlined, so that the end of the lines stays in a register.
#[inline(always)]
fn put_line(
    room: &mut [u8; ROOM],
    end: usize,
    fronts: &Fronts,
    entry_lines: &mut EntryLines,
    item: Item,
) -> usize
    requires { end + LINE_ROOM ≤ ROOM }
    ensures within { result ≤ ROOM }
    ensures put { take result room.new ≡ take end room.old ++ item_line item }
{
    match item {
        Item::Gap => put_part(room, end, b"gap\n", 4),
        Item::Entry {
            input,
            level,
            stamp,
            wide,
        } => {
            let front = fronts.of(input);
            let state = put_part(room, end, &front.octets, front.count);
            let (octets, count) = entry_lines.from_state(level, stamp, wide);
            put_part(room, state, octets, count)
        }
    }
}

/// Puts the first `count` of these octets after the lines in the room, and returns where they end. All octets are copied: a
/// constant length needs no call to `memcpy`.
// Inlined, so that the number of octets is known at compile time.
#[inline(always)]
fn put_part(room: &mut [u8; ROOM], end: usize, octets: &[u8], count: usize) -> usize
    requires room { end + length octets.now ≤ ROOM }
    requires part { count ≤ length octets.now }
    ensures end { result ≡ end + count }
    ensures put { take result room.new ≡ take end room.old ++ take count octets.now }
{
    room[end..end + octets.len()].copy_from_slice(octets);
    end + count
}
