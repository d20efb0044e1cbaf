//! The beginnings of the lines of entries, made once for each input.
ghost use Rattle.std.specs.Prelude.{◌≡◌, ◌<◌, ◌≤◌, ◌++◌, take, codes, decimal};
ghost use Rattle.fio_message.specs.declared.fields.TheConstants.{INPUT_NUMBERS};
ghost use Rattle.fio_show.specs.declared.fronts.TheConstants.{FRONT_ROOM};

use fio_message::{INPUT_NUMBERS, InputNumber};
use fio_text::LINE_OCTETS;
use std::marker::Model;

/// The room for the beginning of a line. All of it is copied: a constant length needs no call to `memcpy`.
pub(crate) const FRONT_ROOM: usize = 16;

/// `input I state `, at the front of its room.
#[derive(Clone, Copy)]
pub(crate) struct Front {
    pub(crate) octets: [u8; FRONT_ROOM],
    /// The number of octets.
    pub(crate) count: usize,
}

/// The beginnings of the lines of all inputs.
#[derive(Drop)]
pub(crate) struct Fronts {
    fronts: [Front; INPUT_NUMBERS as usize],
}

impl Model for Fronts {
    ghost use Rattle.std.specs.Prelude.{ℕ, ◌≡◌, ◌<◌, ◌≤◌, ◌++◌, take, codes, decimal, slice_index_or};
    ghost use Rattle.fio_show.specs.declared.fronts.Front.{Front as FrontOf};

    // Contracts say nothing about the room.
    ghost Value = { Unit {0} };

    ghost view = { λ v. tt };

    ghost invariant = { λ v. (input : ℕ) (other : FrontOf) → input < 128
        → (take (slice_index_or v.fronts input other).count (slice_index_or v.fronts input other).octets ≡ codes "input " ++ (decimal input ++ codes " state "))
        × ((slice_index_or v.fronts input other).count ≤ 16) };
}

impl Fronts {
    pub(crate) fn new() -> Fronts {
        let empty = Front {
            octets: [0; FRONT_ROOM],
            count: 0,
        };
        let mut fronts = [empty; INPUT_NUMBERS as usize];
        for input in 0..INPUT_NUMBERS {
            fronts[input as usize] = front_of(input);
        }
        Fronts { fronts }
    }

    /// Returns the beginning of the line of an entry of this input.
    // Inlined, since it is called for each entry.
    #[inline(always)]
    pub(crate) fn of(&self, input: InputNumber) -> Front
        ensures front { take result.count result.octets ≡ codes "input " ++ (decimal input ++ codes " state ") }
        ensures within { result.count ≤ FRONT_ROOM }
    {
        self.fronts[input.get() as usize]
    }
}

fn front_of(input: u8) -> Front
    requires { input < INPUT_NUMBERS }
    ensures front { take result.count result.octets ≡ codes "input " ++ (decimal input ++ codes " state ") }
    ensures within { result.count ≤ FRONT_ROOM }
{
    let mut line = [0; LINE_OCTETS];
    let end = LINE_OCTETS - FRONT_ROOM;
    let start = fio_text::put_pieces!(line, end; b"input " {input} b" state ");
    let mut octets = [0; FRONT_ROOM];
    octets.copy_from_slice(&line[start..start + FRONT_ROOM]);
    Front {
        octets,
        count: end - start,
    }
}
