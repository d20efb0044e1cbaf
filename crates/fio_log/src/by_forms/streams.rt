//! Lines of a stream of octets, which is divided into messages.
ghost use Rattle.std.specs.Prelude.{◌≡◌, ◌≤◌, ℕ, List, length, false, true};
ghost use Rattle.fio_rows.specs.Lines.{is_message_open};
ghost use Rattle.fio_rows.specs.Rows.{state_of};
ghost use Rattle.fio_log.specs.Heard.{KeepsFirst, is_of_stream};
ghost use Rattle.fio_log.specs.Verdicts.{has_frames, has_reason};
ghost use Rattle.fio_log.specs.Wordings.{SaysWords};

use crate::by_forms::{FormReader, LineHeard};
use crate::header::frame_header;
use crate::heading::Heading;
use crate::lines::NumberedLine;
use crate::places::Place;
use crate::rows::StreamRow;
use crate::told::Told;
use crate::verdict::{Kind, Reason};
use fio_form::LineRows;
use fio_rows::{KEPT, Next};

impl FormReader {
    /// Forgets the octets that are in no message yet: what comes next does not go on with them.
    pub(super) fn break_off(&mut self)
        ensures forms { self.new.forms ≡ self.old.forms }
        ensures closed { is_message_open (state_of self.new.reading).pending ≡ false }
    {
        self.reading.close();
        self.break_stream();
    }

    /// Forgets the octets of the stream that are in no message yet.
    pub(super) fn break_stream(&mut self)
        ensures kept { self.new ≡ record self.old { stream = self.new.stream; stream_rows = self.new.stream_rows } }
    {
        self.stream.clear();
        self.stream_rows.clear();
    }

    /// Takes the octets of a stream that a line has, and the messages that they end.
    pub(super) fn tell_stream(
        &mut self,
        line: NumberedLine,
        heard: LineHeard,
        said: Heading,
        told: &mut Told,
    ) -> (Kind, Reason)
        ensures told { is_of_stream result.0 ≡ true }
        ensures forms { self.new.forms ≡ self.old.forms }
        ensures open { is_message_open (state_of self.new.reading).pending ≡ true → self.new.reading ≡ self.old.reading }
        ensures reason { has_reason result.0 result.1 ≡ true }
        ensures frames { has_frames result.0 (length told.new.frames) ≡ true }
        ensures words { (text : List ℕ) → SaysWords text result.1 }
        ensures blank { result.0 ≡ Kind.Blank → ⊥ }
    {
        let count = self.reading.octets.len();
        let found = heard.said.found;
        let place = Place {
            line: line.number,
            start: found.start,
            end: found.end,
        };
        let is_all = self.is_quiet_from(line.text, found.end)
            && !self.has_odd_tail(line.text, heard.said);
        // an offset may be below the last row of a dump
        let is_bare = match self.forms.get(heard.said.form) {
            Some(form) => form.front().is_empty(),
            None => false,
        };
        let is_short = self.widths.take(count) && is_bare && !line.is_last;
        let is_kept = self.stream_rows.push(StreamRow::of(place, count, said));
        let mut is_whole = is_kept && is_all && !is_short;
        let is_flags = self.is_of_flags();
        for at in 0..count {
            if let Some(octet) = self.reading.octets.get(at).copied() {
                is_whole = self.stream.take(octet) && is_whole;
                is_whole = self.divide(is_flags, told) && is_whole;
            }
        }
        if !is_all {
            self.break_off();
        }
        kind_of_stream(is_whole, told.frames())
    }

    /// Returns whether the frames of a stream are between flags.
    pub(super) fn is_of_flags(&self) -> bool {
        self.forms
            .list()
            .iter()
            .any(|form| form.rows == LineRows::Flags)
    }

    /// Divides off what the octets of the stream have ended; returns whether that was all messages.
    fn divide(&mut self, is_flags: bool, told: &mut Told) -> bool
        ensures forms { self.new.forms ≡ self.old.forms }
        ensures reading { self.new.reading ≡ self.old.reading }
    {
        let mut is_whole = true;
        'parts: for _ in 0..KEPT {
            let begin = inside_of(&self.stream.octets);
            let next = if is_flags {
                self.stream.unframe()
            } else {
                self.stream.divide()
            };
            match next {
                Next::Message(count) => {
                    if is_flags {
                        let (flags, first) = begin;
                        let message = self.stream.message.len();
                        self.headers
                            .add(frame_header(count.saturating_sub(flags), message, &first));
                    }
                    is_whole = self.tell_of_stream(count, told) && is_whole;
                }
                Next::Broken(count) => {
                    self.stream_rows.take(count, false, told);
                    is_whole = false;
                }
                Next::Idle(count) => {
                    self.stream_rows.take(count, false, told);
                }
                Next::Wait => return is_whole,
            }
        }
        is_whole
    }

    /// Takes a message of the stream, which has this many of its octets; returns whether there was room. The row of its first octet
    /// says the time of the first message of a line, and who sent it.
    pub(super) fn tell_of_stream(&mut self, count: usize, told: &mut Told) -> bool
        ensures more { length told.old.frames ≤ length told.new.frames }
        ensures first { KeepsFirst told.old.frames told.new.frames }
        ensures forms { self.new.forms ≡ self.old.forms }
        ensures reading { self.new.reading ≡ self.old.reading }
    {
        if told.frames() == 0 {
            self.begun = self.stream_rows.top();
        }
        let is_told = told.add_frame(&self.stream.message);
        self.stream_rows.take(count, true, told) && is_told
    }
}

/// Returns how many flags a frame has with which octets begin, and the first four octets after the first flag; zeros if there are fewer.
fn inside_of(octets: &[u8]) -> (usize, [u8; 4]) {
    match octets {
        [0x7e, first, second, third, fourth, ..] => (2, [*first, *second, *third, *fourth]),
        [first, second, third, fourth, ..] => (1, [*first, *second, *third, *fourth]),
        _ => (0, [0; 4]),
    }
}

/// Returns what a line of a stream is that has this many frames; `is_whole`: its other octets may be of a message that is open.
fn kind_of_stream(is_whole: bool, frames: usize) -> (Kind, Reason)
    ensures told { is_of_stream result.0 ≡ true }
    ensures reason { has_reason result.0 result.1 ≡ true }
    ensures frames { has_frames result.0 frames ≡ true }
    ensures words { (text : List ℕ) → SaysWords text result.1 }
    ensures blank { result.0 ≡ Kind.Blank → ⊥ }
{
    match (is_whole, frames) {
        (true, 0) => (Kind::Part, Reason::None),
        (false, 0) => (Kind::Damaged, Reason::NoMessage),
        (true, _) => (Kind::Frames, Reason::None),
        (false, _) => (Kind::Frames, Reason::Broken),
    }
}
