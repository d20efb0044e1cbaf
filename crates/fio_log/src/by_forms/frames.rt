//! Reports the frames of a line: its message, echoes of the one above, and further messages.
ghost use Rattle.std.specs.Prelude.{◌≡◌, ◌<◌, ◌≤◌, ◌↔◌, ℕ, List, [], IsTrue, length, true, false, slice_get, take};
ghost use Rattle.fio_log.specs.Blanks.{is_blank_line};
ghost use Rattle.fio_log.specs.Heard.{HasNoLine, HasNothingBeside, HasRowRoom, KeepsFirst, TellsEcho, TellsFrame, TellsMessage, is_of_echoes, known_of, rows_going_on};
ghost use Rattle.fio_log.specs.Verdicts.{has_frames, has_reason};
ghost use Rattle.fio_log.specs.Wordings.{SaysWords};

use crate::by_forms::{FormReader, LineHeard, take_message};
use crate::cut::ends_in_gap;
use crate::header::{FrameHeader, NO_HEADER, header_before};
use crate::heading::Heading;
use crate::lines::NumberedLine;
use crate::places::Place;
use crate::second::{is_quiet_between, may_follow, second_in};
use crate::told::Told;
use crate::verdict::{Kind, Reason};
use fio_form::Whole;
use fio_rows::LineSaid;

impl FormReader {
    /// Takes the row of a message that a line has; returns whether there was room.
    pub(crate) fn take_row(&mut self, number: u64, heard: LineHeard, said: Heading) -> bool
        ensures room { IsTrue result ↔ HasRowRoom (length self.old.rows.places.items) heard }
        ensures rows { IsTrue result → length self.new.rows.places.items ≡ rows_going_on heard.goes_on (length self.old.rows.places.items) }
        ensures kept { self.new ≡ record self.old { rows = self.new.rows; begun = self.new.begun } }
    {
        if !heard.goes_on {
            self.rows.clear();
            self.begun = said;
        }
        let found = heard.said.found;
        self.rows.push(Place {
            line: number,
            start: found.start,
            end: found.end,
        })
    }

    /// Takes the message that ends with a line, and those after it; an echo is a copy of the frame above it, or damaged.
    pub(crate) fn tell_frame(
        &mut self,
        line: NumberedLine,
        heard: LineHeard,
        said: Heading,
        told: &mut Told,
    ) -> (Kind, Reason)
        requires { told.old.frames ≡ [] }
        ensures told { TellsFrame (known_of self.old) line.entry.text.now heard result.0 result.1 told.new.frames }
        ensures forms { self.new.forms ≡ self.old.forms }
        ensures reading { self.new.reading ≡ self.old.reading }
        ensures reason { has_reason result.0 result.1 ≡ true }
        ensures frames { has_frames result.0 (length told.new.frames) ≡ true }
        ensures words { SaysWords line.entry.text.now result.1 }
        ensures blank { result.0 ≡ Kind.Blank → is_blank_line (record { octets = line.entry.text.now; is_long = line.entry.is_long }) ≡ true }
    {
        if self.is_of_echoes(heard.said.form) {
            return self.tell_echo();
        }
        self.tell_message(line, heard, said, told)
    }

    /// Returns whether a form, by its index, is of echoes.
    fn is_of_echoes(&self, form: usize) -> bool
        ensures { result ≡ is_of_echoes (slice_get self.now.forms form) }
    {
        match self.forms.get(form) {
            Some(form) => form.is_echo,
            None => false,
        }
    }

    /// Returns what an echo is.
    fn tell_echo(&self) -> (Kind, Reason)
        ensures told { TellsEcho self.now.reading.message.items self.now.last.items result.0 }
        ensures reason { has_reason result.0 result.1 ≡ true }
        ensures frames { has_frames result.0 0 ≡ true }
        ensures words { (text : List ℕ) → SaysWords text result.1 }
        ensures blank { result.0 ≡ Kind.Blank → ⊥ }
    {
        if self.reading.message.as_slice() == self.last.as_slice() {
            (Kind::PassedOver, Reason::Copy)
        } else {
            (Kind::Damaged, Reason::NoMessage)
        }
    }

    /// Takes the message that ends with a line that is no echo, and those after it.
    fn tell_message(
        &mut self,
        line: NumberedLine,
        heard: LineHeard,
        said: Heading,
        told: &mut Told,
    ) -> (Kind, Reason)
        requires { told.old.frames ≡ [] }
        ensures told { TellsMessage self.old.forms self.old.reading.message.items line.entry.text.now (length self.old.rows.places.items) heard result.0 result.1 told.new.frames }
        ensures forms { self.new.forms ≡ self.old.forms }
        ensures reading { self.new.reading ≡ self.old.reading }
        ensures reason { has_reason result.0 result.1 ≡ true }
        ensures frames { has_frames result.0 (length told.new.frames) ≡ true }
        ensures words { SaysWords line.entry.text.now result.1 }
        ensures blank { result.0 ≡ Kind.Blank → is_blank_line (record { octets = line.entry.text.now; is_long = line.entry.is_long }) ≡ true }
    {
        let is_kept = self.take_row(line.number, heard, said);
        if !is_kept {
            return (Kind::Damaged, Reason::TooLong);
        }
        let is_taken = take_message(&self.reading.message, &self.rows, &mut self.last, told);
        if !is_taken {
            return (Kind::Damaged, Reason::TooLong);
        }
        let is_alone = self.is_alone(line.text, heard);
        let is_quiet = self.tell_seconds(line, heard.said.found.end, told);
        if !is_alone || !is_quiet {
            return (Kind::Frames, Reason::More);
        }
        (Kind::Frames, Reason::None)
    }

    /// Returns whether nothing that may be octets is before those of a line, or directly after them.
    fn is_alone(&mut self, line: &[u8], heard: LineHeard) -> bool
        ensures forms { self.new.forms ≡ self.old.forms }
        ensures reading { self.new.reading ≡ self.old.reading }
        ensures whole { HasNothingBeside self.old.forms heard.said.found line.now → result ≡ true }
    {
        if self.has_near_tail(line, heard.said) || self.is_cut(line, heard) {
            return false;
        }
        self.is_first(line, heard)
    }

    /// Returns whether a line ends within an octet after those that it has.
    fn is_cut(&self, line: &[u8], heard: LineHeard) -> bool
        ensures { heard.said.found.end ≡ length line.now → result ≡ false }
    {
        let end = heard.said.found.end;
        match self.forms.get(heard.said.form) {
            Some(form) => end <= line.len() && ends_in_gap(form, &line[end..]),
            None => false,
        }
    }

    /// Returns whether the text after the octets of a line is nearer to them than those of the lines above.
    pub(crate) fn has_near_tail(&self, line: &[u8], said: LineSaid) -> bool
        ensures { said.found.end ≡ length line.now → result ≡ false }
    {
        let end = said.found.end;
        end < line.len()
            && (self.above.lacks_octets(line) || self.counts.has_near_tail(said.form, &line[end..]))
    }

    /// Returns whether no message is before that of a line. Only a form whose front may begin anywhere leaves one out.
    fn is_first(&mut self, line: &[u8], heard: LineHeard) -> bool
        ensures forms { self.new.forms ≡ self.old.forms }
        ensures reading { self.new.reading ≡ self.old.reading }
        ensures begins { HasNoLine self.old.forms (take heard.said.found.front line.now) → result ≡ true }
    {
        let front = heard.said.found.front;
        match self.forms.get(heard.said.form) {
            Some(form) if form.is_anywhere && front <= line.len() => second_in(
                self.forms.list(),
                &line[..front],
                0,
                &mut self.octets,
                &mut self.held,
            )
            .is_none(),
            _ => true,
        }
    }

    /// Returns the header of a further message, before which the line has this many octets.
    fn header_of_second(&self, is_framed: bool, count: usize) -> FrameHeader {
        if is_framed || self.are_addresses {
            header_before(count, &self.octets)
        } else {
            NO_HEADER
        }
    }

    /// Takes the messages after the first one of a line; returns whether nothing else of it may be one.
    fn tell_seconds(&mut self, line: NumberedLine, end: usize, told: &mut Told) -> bool
        ensures more { length told.old.frames ≤ length told.new.frames }
        ensures first { KeepsFirst told.old.frames told.new.frames }
        ensures forms { self.new.forms ≡ self.old.forms }
        ensures reading { self.new.reading ≡ self.old.reading }
        ensures none { end ≡ length line.entry.text.now → (result ≡ true) × (told.new.frames ≡ told.old.frames) }
    {
        let mut from = end;
        let mut is_all = true;
        'seconds: for _ in end..line.text.len() {
            if from >= line.text.len() {
                break;
            }
            let Some((found, whole, is_framed)) = second_in(
                self.forms.list(),
                line.text,
                from,
                &mut self.octets,
                &mut self.held,
            ) else {
                break;
            };
            let (start, stop) = match whole {
                Whole::Message { start, end } | Whole::Any { start, end } => (start, end),
                _ => (0, 0),
            };
            if start >= stop || stop > self.octets.len() || found.end <= from {
                return false;
            }
            let place = Place {
                line: line.number,
                start: found.start,
                end: found.end,
            };
            let is_told = add_second(&self.octets[start..stop], place, told);
            let header = self.header_of_second(is_framed, start);
            self.headers.add(header);
            is_all = is_all && may_follow(&self.last, &self.octets[start..stop]);
            self.last.clear();
            let _fits = self.last.try_extend_from_slice(&self.octets[start..stop]);
            is_all = is_all
                && is_told
                && is_quiet_between(
                    self.forms.list(),
                    line.text,
                    from,
                    found.front,
                    &mut self.octets,
                );
            from = found.end;
        }
        is_all && self.is_quiet_from(line.text, from)
    }
}

/// Adds a further message of a line, with its place; returns whether there was room.
fn add_second(message: &[u8], place: Place, told: &mut Told) -> bool
    ensures more { length told.old.frames ≤ length told.new.frames }
    ensures first { KeepsFirst told.old.frames told.new.frames }
{
    told.add_frame(message) && told.add_place(place)
}
