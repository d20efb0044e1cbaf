//! Which messages that this protocol has not are no damage: those of which several exchanges show it.
ghost use Rattle.std.specs.Prelude.{◌≡◌, slice_index};
ghost use Rattle.fio_log.specs.Others.{answers_others, are_usual, counted, counted_at, foreign_below, is_exchange, message_of, no_others, passed, passes, size_place, taken_below};

use crate::foreign::{Foreign, NONE};
use crate::verdict::{Kind, LineVerdict};
use fio_message::types::{
    ANSWER, FILTERED_INPUTS_ANSWER, RAW_INPUTS_ANSWER, SET_OUTPUTS, SET_OUTPUTS_ANSWER,
};

/// More exchanges of one type, or of one size, are no damage.
const FEW: u32 = 3;

/// Of the messages of a type that this protocol has too, at least one in so many has that size.
const SHARE: u64 = 4;

/// How many types there are.
const TYPES: usize = 256;

/// How many sizes there are, with 0.
const SIZES: usize = 33;

/// What is counted of the messages of a log: exchanges, and those of a size.
#[derive(Clone, Copy)]
pub(crate) struct Others {
    /// The message of the line above that is not blank; none if it has several.
    above: Foreign,
    /// How many exchanges there are of each type, by that of the command.
    types: [u32; TYPES],
    /// How many exchanges there are of each size.
    sizes: [u32; SIZES],
    /// How many messages there are of each type.
    all: [u32; TYPES],
    /// How many of 180, of 181 and of 55 have each size.
    sized: [u32; 3 * SIZES],
    /// Whether the line above is passed over.
    is_passed: bool,
}

/// Adds one to the count at a place, if the table has it.
fn raise(counts: &mut [u32], place: usize)
    ensures { counts.new ≡ counted_at counts.old place }
{
    if place < counts.len() {
        counts[place] = counts[place].saturating_add(1);
    }
}

/// Returns the count at a place; 0 if the table does not have it.
fn count_at(counts: &[u32], place: usize) -> u32
    ensures { result ≡ slice_index counts.now place }
{
    counts.get(place).copied().unwrap_or(0)
}

/// Returns the place of a message among those of a size.
fn size_place(message: Foreign) -> usize
    ensures { result ≡ size_place message }
{
    let size = usize::from(message.octets);
    match message.code {
        RAW_INPUTS_ANSWER => size,
        FILTERED_INPUTS_ANSWER => SIZES + size,
        SET_OUTPUTS => 2 * SIZES + size,
        _ => 3 * SIZES,
    }
}

/// Returns whether a message answers the one above.
fn is_exchange(above: Foreign, message: Foreign) -> bool
    ensures { result ≡ is_exchange above message }
{
    above.code > 0 && message.code > ANSWER && message.code - ANSWER == above.code
}

/// Returns the message of a line: that of its only frame, which has this type, or the one that this protocol has not.
fn message_of(verdict: &LineVerdict, code: u8) -> Foreign
    ensures { result ≡ message_of verdict.now code }
{
    if verdict.frames == 1 {
        Foreign { code, octets: 0 }
    } else if verdict.foreign > 0 {
        Foreign {
            code: verdict.foreign,
            octets: verdict.header.control,
        }
    } else {
        NONE
    }
}

impl Others {
    /// Returns the counts above the first line.
    pub(crate) fn new() -> Others
        ensures { result ≡ no_others }
    {
        Others {
            above: NONE,
            types: [0; TYPES],
            sizes: [0; SIZES],
            all: [0; TYPES],
            sized: [0; 3 * SIZES],
            is_passed: false,
        }
    }

    /// Returns what `LineVerdict::foreign` says of a line, whose first frame has this type: 183 if it answers another module's outputs.
    pub(crate) fn foreign_of(&self, verdict: &LineVerdict, code: u8) -> u8
        ensures { result ≡ foreign_below self.now verdict.now code }
    {
        if self.is_answered_by(verdict, code) {
            SET_OUTPUTS_ANSWER
        } else {
            verdict.foreign
        }
    }

    /// Takes a line, whose first frame has this type.
    pub(crate) fn take(&mut self, verdict: &LineVerdict, code: u8)
        ensures { self.new ≡ taken_below self.old verdict.now code }
    {
        if verdict.kind != Kind::Blank {
            self.count(message_of(verdict, code));
        }
    }

    /// Returns whether a line has nothing but the answer to the outputs above it, which are those of a module of another size.
    fn is_answered_by(&self, verdict: &LineVerdict, code: u8) -> bool
        ensures { result ≡ answers_others self.now verdict.now code }
    {
        verdict.kind != Kind::Blank
            && verdict.frames == 1
            && code == SET_OUTPUTS_ANSWER
            && self.above.code == SET_OUTPUTS
            && self.above.octets > 0
    }

    /// Counts a message.
    fn count(&mut self, message: Foreign)
        ensures { self.new ≡ counted self.old message }
    {
        if is_exchange(self.above, message) {
            let size = self.above.octets.max(message.octets);
            if size > 0 {
                raise(&mut self.sizes, usize::from(size));
            } else {
                raise(&mut self.types, usize::from(self.above.code));
            }
        }
        raise(&mut self.all, usize::from(message.code));
        raise(&mut self.sized, size_place(message));
        self.above = message;
    }

    /// Returns whether messages of a type, or of a size, are no damage.
    fn are_usual(&self, message: Foreign) -> bool
        ensures { result ≡ are_usual self.now message }
    {
        if message.octets == 0 {
            return count_at(&self.types, usize::from(message.code % ANSWER)) > FEW;
        }
        let same = count_at(&self.sized, size_place(message));
        let all = count_at(&self.all, usize::from(message.code));
        count_at(&self.sizes, usize::from(message.octets)) > FEW
            && SHARE * u64::from(same) >= u64::from(all)
    }

    /// Takes a line of a kind, with a message that this protocol has not or none; returns whether it is passed over.
    pub(crate) fn pass(&mut self, kind: Kind, message: Foreign) -> bool
        ensures tells { result ≡ passes self.old kind message }
        ensures next { self.new ≡ passed self.old kind message }
    {
        if kind == Kind::Blank {
            return false;
        }
        self.is_passed = match kind {
            _ if message.code == 0 => false,
            Kind::Frames => self.is_passed,
            Kind::PassedOver => true,
            _ => self.are_usual(message),
        };
        self.is_passed
    }
}
