//! The lines of entries.
ghost use Rattle.std.specs.Prelude.{◌≡◌, ◌+◌, ◌<◌, ◌≤◌, ◌++◌, ◌∷◌, [], length, take, drop, codes, decimal};
ghost use Rattle.fio_message.specs.Bits.{bit_of};
ghost use Rattle.fio_show.specs.EntryLines.{entry_line, scan_ending};
ghost use Rattle.fio_show.specs.declared.entry_lines.TheConstants.{ENDING, ENDING_ROOM, ENTRY_OCTETS, STATE_OCTETS};
ghost use Rattle.fio_text.specs.declared.pieces.TheConstants.{LINE_OCTETS};

use fio_message::Entry;
use fio_text::{LINE_OCTETS, put, put_pieces};
use std::marker::Model;

/// The index at which the ending of a line starts, after room for what precedes it.
const ENDING: usize = 64;

/// The room for the line of an entry. All of it is copied: a constant length needs no call to `memcpy`.
pub(crate) const ENTRY_OCTETS: usize = 64;

/// The room for an ending, which has at most 29 octets.
const ENDING_ROOM: usize = 32;

/// The room for the line of an entry from its state on, which is copied whole too.
pub(crate) const STATE_OCTETS: usize = ENDING_ROOM;

/// The room for the line of an entry. The entries of one scan have the same stamp and the same wide time, so the ending of a
/// line, ` stamp S wide W` and its line feed, stays for the next entry of the same scan. It starts at a fixed index, and
/// what is put before it ends there.
#[derive(Debug, Drop)]
pub(crate) struct EntryLines {
    line: [u8; LINE_OCTETS],
    /// The number of octets of the ending.
    ending: usize,
    stamp: u16,
    wide: u32,
}

impl Model for EntryLines {
    ghost use Rattle.std.specs.Prelude.{◌≡◌, ◌<◌, take, drop};
    ghost use Rattle.fio_show.specs.EntryLines.{scan_ending};
    ghost use Rattle.fio_show.specs.declared.entry_lines.TheConstants.{ENDING, ENDING_ROOM};

    // Contracts say nothing about the room.
    ghost Value = { Unit {0} };

    ghost view = { λ v. tt };

    // The stamp and the wide time are in the ending.
    ghost invariant = { λ v. (take v.ending (drop ENDING v.line) ≡ scan_ending v.stamp v.wide)
        × (v.ending < ENDING_ROOM) };
}

impl EntryLines {
    /// Returns room that does not hold the line of an entry yet.
    pub(crate) fn new() -> EntryLines {
        let mut line = [0; LINE_OCTETS];
        let ending = put_ending(&mut line, 0, 0);
        EntryLines {
            line,
            ending,
            stamp: 0,
            wide: 0,
        }
    }

    /// Returns the line of an entry with this wide time, after a margin of at most 8 octets: `input I state L stamp S wide
    /// W`. It is at the front of the `ENTRY_OCTETS`, and the number is how many octets it has.
    // Inlined, so that the length of the margin is known at compile time.
    #[inline(always)]
    pub(crate) fn line<const N: usize>(
        &mut self,
        margin: &[u8; N],
        entry: Entry,
        wide: u32,
    ) -> (&[u8], usize)
        requires { N ≤ 8 }
        ensures room { length result.0.now ≡ ENTRY_OCTETS }
        ensures within { result.1 ≤ ENTRY_OCTETS }
        ensures line { take result.1 result.0.now
            ≡ margin.now ++ entry_line entry.input entry.level entry.stamp wide }
    {
        if entry.stamp != self.stamp || wide != self.wide {
            self.ending = put_ending(&mut self.line, entry.stamp, wide);
            self.stamp = entry.stamp;
            self.wide = wide;
        }
        let start = put_front(&mut self.line, margin, entry);
        let count = ENDING - start + self.ending;
        let room = &self.line;
        (&room[start..start + ENTRY_OCTETS], count)
    }

    /// Returns the line of an entry with this state, stamp and wide time from its state on: `L stamp S wide W`. It is at the
    /// front of the `STATE_OCTETS`, and the number is how many octets it has.
    // Inlined, since it is called for each entry.
    #[inline(always)]
    pub(crate) fn from_state(&mut self, level: bool, stamp: u16, wide: u32) -> (&[u8], usize)
        ensures room { length result.0.now ≡ STATE_OCTETS }
        ensures within { result.1 ≤ STATE_OCTETS }
        ensures line { take result.1 result.0.now ≡ decimal (bit_of level) ++ scan_ending stamp wide }
    {
        if stamp != self.stamp || wide != self.wide {
            self.ending = put_ending(&mut self.line, stamp, wide);
            self.stamp = stamp;
            self.wide = wide;
        }
        self.line[ENDING - 1] = digit_of(level);
        let count = 1 + self.ending;
        let room = &self.line;
        (&room[ENDING - 1..ENDING - 1 + STATE_OCTETS], count)
    }
}

/// Returns the digit of a state.
// Inlined, since it is called for each entry.
#[inline(always)]
fn digit_of(level: bool) -> u8
    ensures { result ∷ [] ≡ decimal (bit_of level) }
{
    b'0' + u8::from(level)
}

/// Puts a margin of at most 8 octets and `input I state L`, at most 25 octets together, before the ending of a line, and
/// returns the index at which they start.
// Inlined, so that the length of the margin is known at compile time.
#[inline(always)]
fn put_front<const N: usize>(line: &mut [u8; LINE_OCTETS], margin: &[u8; N], entry: Entry) -> usize
    requires { N ≤ 8 }
    ensures start { (result ≤ ENDING) × (ENDING ≤ result + 25) }
    ensures put { drop result line.new ≡ margin.now ++ (codes "input " ++ (decimal entry.input
        ++ (codes " state " ++ (decimal (bit_of entry.level) ++ drop ENDING line.old)))) }
    ensures kept { drop ENDING line.new ≡ drop ENDING line.old }
{
    put_pieces!(
        *line, ENDING;
        (margin) b"input " {entry.input.get()} b" state " {entry.level}
    )
}

/// Puts the ending of a line with this stamp and wide time at its index, and returns how many octets it has.
// Not inlined, so that the loop over the entries of a block stays short.
#[inline(never)]
fn put_ending(line: &mut [u8; LINE_OCTETS], stamp: u16, wide: u32) -> usize
    ensures length { result < ENDING_ROOM }
    ensures put { take result (drop ENDING line.new) ≡ scan_ending stamp wide }
{
    let end = ENDING + ENDING_ROOM;
    let start = put_pieces!(*line, end; b" stamp " {stamp} b" wide " {wide} b"\n");
    // This moves all the room: a constant length needs no call to `memcpy`.
    let mut moved = [0; ENDING_ROOM];
    moved.copy_from_slice(&line[start..start + ENDING_ROOM]);
    put(line, end, &moved);
    end - start
}
