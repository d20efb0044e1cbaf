//! Lines read by the forms that are known.
ghost use Rattle.std.specs.Prelude.{◌≡◌, ◌<◌, ℕ, List, [], ◌∷◌, length, true, false};
ghost use Rattle.fio_rows.specs.Laws.{SaysMessages};
ghost use Rattle.fio_form.specs.Messages.{is_message};
ghost use Rattle.fio_rows.specs.Lines.{is_message_open, is_message_whole};
ghost use Rattle.fio_rows.specs.Rows.{rows_of, state_of};
ghost use Rattle.fio_log.specs.Heard.{HasMore, IsHeardOf, IsPassed, IsReadOf, TellsOnly, ended_message, says_octets};
ghost use Rattle.fio_log.specs.Knowing.{SaysOf};
ghost use Rattle.fio_log.specs.Lines.{Text};
ghost use Rattle.fio_log.specs.OwnTexts.{spells};
ghost use Rattle.fio_log.specs.Verdicts.{Agrees, has_reason};
ghost use Rattle.fio_log.specs.Wordings.{SaysWords};
ghost use Rattle.fio_log.specs.declared.verdict.Kind.TheVariants.{Frames};

use crate::addressed::addresses_in;
use crate::ahead::look_ahead;
use crate::counts::{Counts, ReadAs};
use crate::header::Headers;
use crate::heading::{Heading, LineAbove};
use crate::heads::Heads;
use crate::known_forms::KnownForms;
use crate::lines::NumberedLine;
use crate::quiet::is_plain_quiet;
use crate::rows::{MessageRows, RowWidths, StreamRows};
use crate::shapes::Shapes;
use crate::told::Told;
use crate::verdict::{Kind, LineVerdict, Reason};
use arrayvec::ArrayVec;
use fio_form::{LineForm, Octets, Piece};
use fio_guess::{Window, hash_of};
use fio_rows::{LineSaid, Next, Reading, Said, Stream};
use fio_sniff::Forms;

/// What a line says by the forms, before its verdict is made.
#[derive(Clone, Copy)]
pub(crate) struct LineHeard {
    /// What it says.
    pub said: LineSaid,
    /// Whether its octets go on with those of the lines above.
    pub goes_on: bool,
    /// Whether it is longer than a line that is kept.
    pub is_long: bool,
    /// Whether a part of it is gone.
    pub has_gap: bool,
}

mod frames;
mod streams;
mod telling;

/// Reads lines by forms.
#[derive(Drop)]
pub(crate) struct FormReader {
    forms: KnownForms,
    counts: Counts,
    reading: Reading,
    /// The rows of the message that is open.
    rows: MessageRows,
    stream: Stream,
    /// The rows of the octets of the stream that are in no message yet.
    stream_rows: StreamRows,
    widths: RowWidths,
    above: LineAbove,
    /// What is said of the message that is open.
    begun: Heading,
    /// The headers of the frames of the line that is reported.
    headers: Headers,
    /// The last frame.
    last: Octets,
    octets: Octets,
    held: Octets,
    shapes: Shapes,
    heads: Heads,
    /// Whether the last line that no form has had octets that may be a message.
    is_loud: bool,
    /// How many forms were given by samples.
    given: usize,
    /// Whether octets before messages without a frame check are addresses.
    are_addresses: bool,
}

/// Returns the index of a form, if it is known; the number of forms if not.
fn place_of(forms: &[LineForm], form: &LineForm) -> usize {
    for (at, one) in forms.iter().enumerate() {
        if is_same(one, form) {
            return at;
        }
    }
    forms.len()
}

/// Returns whether two forms are one.
fn is_same(one: &LineForm, other: &LineForm) -> bool {
    hash_of(one) == hash_of(other)
        && one.is_echo == other.is_echo
        && one.values.as_slice() == other.values.as_slice()
}

/// Returns the first forms, which were given; at most this many.
fn given_of(forms: &[LineForm], given: usize) -> &[LineForm] {
    &forms[..given.min(forms.len())]
}

/// Returns whether a form is among others.
fn has_same(forms: &[LineForm], form: &LineForm) -> bool {
    place_of(forms, form) < forms.len()
}

/// Returns whether one of some forms has a front.
fn has_front(forms: &[LineForm], front: &[Piece]) -> bool {
    for form in forms {
        if form.front() == front {
            return true;
        }
    }
    false
}

impl FormReader {
    /// Returns a reader without forms.
    pub(crate) fn new() -> FormReader
        ensures closed { is_message_open (state_of result.reading).pending ≡ false }
    {
        FormReader {
            forms: KnownForms::new(),
            counts: Counts::new(),
            reading: Reading::new(),
            rows: MessageRows::new(),
            stream: Stream::new(),
            stream_rows: StreamRows::new(),
            widths: RowWidths::default(),
            above: LineAbove::new(),
            begun: Heading::new(),
            headers: Headers::new(),
            last: ArrayVec::new(),
            octets: ArrayVec::new(),
            held: ArrayVec::new(),
            shapes: Shapes::new(),
            heads: Heads::new(),
            is_loud: false,
            given: 0,
            are_addresses: true,
        }
    }

    /// Begins without forms.
    pub(crate) fn clear(&mut self)
        ensures closed { is_message_open (state_of self.new.reading).pending ≡ false }
    {
        self.forms.clear();
        self.counts.clear();
        self.reading.close();
        self.rows.clear();
        self.stream.clear();
        self.stream_rows.clear();
        self.widths = RowWidths::default();
        self.above.clear();
        self.begun = Heading::new();
        self.headers.clear();
        self.last.clear();
        self.shapes.clear();
        self.heads.clear();
        self.is_loud = false;
        self.given = 0;
        self.are_addresses = true;
    }

    /// Returns the forms.
    pub(crate) fn forms(&self) -> &[LineForm] {
        self.forms.list()
    }

    /// Returns how the lines of a form look, and how many there are.
    pub(crate) fn read_as(&self, form: usize) -> Option<ReadAs<'_>> {
        let is_echo = self.forms.get(form)?.is_echo;
        self.counts.get(form, is_echo)
    }

    /// Adds forms after those that are known, as far as there is room.
    pub(crate) fn add(&mut self, forms: &[LineForm])
        ensures reading { self.new.reading ≡ self.old.reading }
        ensures rows { self.new.rows ≡ self.old.rows }
    {
        for form in forms {
            if self.forms.push(form.copied()) {
                self.counts.add();
            }
        }
    }

    /// Learns from the lines of the window what is above octets, which shapes of lines recur, and whether octets before messages are
    /// addresses.
    pub(crate) fn look_ahead(&mut self, window: &Window)
        ensures reading { self.new.reading ≡ self.old.reading }
        ensures rows { self.new.rows ≡ self.old.rows }
    {
        look_ahead(
            window,
            self.forms.list(),
            &mut self.heads,
            &mut self.counts,
            &mut self.shapes,
            &mut self.octets,
            &mut self.held,
        );
        self.are_addresses = addresses_in(
            self.forms.list(),
            window,
            &mut self.octets,
            &mut self.held,
        ).are_addresses();
    }

    /// Adds forms that are given by samples: they stay, and come before those that are learnt.
    pub(crate) fn give(&mut self, forms: &[LineForm])
        ensures reading { self.new.reading ≡ self.old.reading }
        ensures rows { self.new.rows ≡ self.old.rows }
    {
        self.add(forms);
        self.given = self.forms.list().len();
    }

    /// Returns whether other forms may be taken: no message is open, and no octets of a stream are held.
    pub(crate) fn is_between(&self) -> bool {
        !self.reading.is_open() && self.stream.octets.is_empty()
    }

    /// Reads by these forms from the next line on. Of those that were known the given ones stay, and those with a front that none of
    /// these has.
    pub(crate) fn adopt(&mut self, forms: &[LineForm])
        ensures reading { self.new.reading ≡ self.old.reading }
        ensures rows { self.new.rows ≡ self.old.rows }
    {
        let mut kept: Forms = ArrayVec::new();
        let mut counts = Counts::new();
        counts.copy_others(&self.counts);
        for (at, form) in self.forms.list().iter().enumerate() {
            if at < self.given && kept.try_push(form.copied()).is_ok() {
                counts.add_from(&self.counts, at);
            }
        }
        for form in forms {
            if !has_same(given_of(self.forms.list(), self.given), form)
                && kept.try_push(form.copied()).is_ok()
            {
                counts.add_from(&self.counts, place_of(self.forms.list(), form));
            }
        }
        for (at, form) in self.forms.list().iter().enumerate() {
            if at >= self.given
                && !has_front(forms, form.front())
                && kept.try_push(form.copied()).is_ok()
            {
                counts.add_from(&self.counts, at);
            }
        }
        self.forms.set(kept);
        self.counts = counts;
    }

    /// Returns whether the last line, which no form has, may be of a form that is not known.
    pub(crate) fn is_new(&mut self, verdict: LineVerdict, line: &[u8]) -> bool
        ensures forms { self.new.forms ≡ self.old.forms }
        ensures reading { self.new.reading ≡ self.old.reading }
        ensures rows { self.new.rows ≡ self.old.rows }
    {
        match verdict.kind {
            Kind::Possible | Kind::Damaged => true,
            Kind::PassedOver => self.is_loud
                || self.forms.list().is_empty() && !is_plain_quiet(line, &mut self.octets),
            _ => false,
        }
    }

    /// Hears what a line says, after the line above it.
    pub(crate) fn hear(&mut self, line: NumberedLine) -> LineHeard
        ensures heard { IsHeardOf self.old.forms (record { octets = line.entry.text.now; is_long = line.entry.is_long }) (state_of self.old.reading) result self.new.reading }
        ensures kept { self.new ≡ record self.old { reading = self.new.reading } }
    {
        let has_gap = line.has_gap();
        let said = self.hear_text(line.text, !line.is_long && !has_gap);
        let goes_on = said.goes_on && matches!(said.said, Said::Frame | Said::Part | Said::Damaged);
        LineHeard {
            said,
            goes_on,
            is_long: line.is_long,
            has_gap,
        }
    }

    /// Hears what the text of a line says, if that is to be read.
    fn hear_text(&mut self, text: &[u8], is_read: bool) -> LineSaid
        ensures read { is_read ≡ true → IsReadOf self.old.forms text.now (state_of self.old.reading) result self.new.reading }
        ensures passed { is_read ≡ false → IsPassed (state_of self.old.reading) result self.new.reading }
        ensures ended { result.is_ended ≡ true → self.new.reading.ended.items ≡ self.old.reading.message.items }
        ensures messages { SaysMessages (rows_of result.said self.new.reading) }
        ensures form { says_octets result.said ≡ true → result.form < length self.old.forms }
        ensures kept { self.new ≡ record self.old { reading = self.new.reading } }
    {
        if is_read {
            self.reading.read(self.forms.list(), text)
        } else {
            self.reading.skip()
        }
    }

    /// Returns whether the verdict of a line that was heard last waits for the next line, or the end of the log, which may end a
    /// message.
    pub(crate) fn waits(&self, heard: LineHeard) -> bool
        ensures { result ≡ false → is_message_whole self.now.reading.pending ≡ false }
    {
        heard.said.said == Said::Stream
            || self.reading.may_have_ended()
            || !self.stream.octets.is_empty()
    }

    /// Returns whether the next line shows if a message has ended with the one that was heard last.
    pub(crate) fn is_open(&self) -> bool
        ensures { result ≡ is_message_whole self.now.reading.pending }
    {
        self.reading.may_have_ended()
    }

    /// Reports the message that ended with the line above the one that was heard last, or with the log.
    pub(crate) fn tell_ended(
        &mut self,
        above: LineVerdict,
        is_end: bool,
        told: &mut Told,
    ) -> LineVerdict
        ensures told { is_message (ended_message is_end self.old.reading) ≡ true
            → TellsOnly (ended_message is_end self.old.reading) result.kind told.new.frames }
        ensures forms { self.new.forms ≡ self.old.forms }
        ensures reading { self.new.reading ≡ self.old.reading }
        ensures rows { self.new.rows ≡ self.old.rows }
        ensures agrees { Agrees result (length told.new.frames) }
        ensures said { (text : Text) → SaysOf text result }
    {
        let message = ended_message(&self.reading, is_end);
        let is_told = take_message(message, &self.rows, &mut self.last, told);
        if !is_told {
            return LineVerdict {
                kind: Kind::Damaged,
                reason: Reason::TooLong,
                ..above
            };
        }
        LineVerdict {
            kind: Kind::Frames,
            reason: reason_of_frames(above),
            time: self.begun.time,
            said: self.begun.said,
            ..above
        }
    }

    /// Reports the messages that end with the log, if there are any, in the verdict on its last line, whose frames are reported.
    pub(crate) fn tell_end(&mut self, last: LineVerdict, told: &mut Told) -> LineVerdict
        requires { Agrees last (length told.old.frames) }
        ensures told { is_message_whole self.old.reading.pending ≡ true → is_message self.old.reading.message.items ≡ true
            → TellsOnly self.old.reading.message.items result.kind told.new.frames }
        ensures more { is_message_whole self.old.reading.pending ≡ false → HasMore last.kind last.reason told.old.frames result.kind result.reason told.new.frames }
        ensures forms { self.new.forms ≡ self.old.forms }
        ensures agrees { Agrees result (length told.new.frames) }
        ensures said { (text : Text) → SaysOf text last → SaysOf text result }
    {
        let is_whole = self.reading.end();
        if is_whole {
            return self.tell_ended(last, true, told);
        }
        let is_flags = self.is_of_flags();
        if !is_flags && let Next::Message(count) = self.stream.end() {
            self.tell_of_stream(count, told);
        }
        match told.frames() {
            0 => last,
            1 if last.kind != Kind::Frames => LineVerdict {
                kind: Kind::Frames,
                reason: Reason::None,
                said: self.begun.said,
                time: self.begun.time,
                ..last
            },
            _ => LineVerdict {
                kind: Kind::Frames,
                reason: reason_of_frames(last),
                ..last
            },
        }
    }
}

/// Returns the reason of a verdict whose frames are reported, if lines with frames may have it.
fn reason_of_frames(verdict: LineVerdict) -> Reason
    ensures reason { has_reason Frames result ≡ true }
    ensures words { (text : List ℕ) → SaysWords text result }
{
    match verdict.reason {
        Reason::More => Reason::More,
        Reason::Broken => Reason::Broken,
        _ => Reason::None,
    }
}

/// Returns the message of any length that ended, with the log or above the line that was heard last.
fn ended_message(reading: &Reading, is_end: bool) -> &[u8]
    ensures { result.now ≡ ended_message is_end reading.now }
{
    if is_end {
        reading.message.as_slice()
    } else {
        reading.ended.as_slice()
    }
}

/// Takes a message, with the places of its rows, as the only frame; returns whether there was room.
fn take_message(message: &[u8], rows: &MessageRows, last: &mut Octets, told: &mut Told) -> bool
    ensures taken { result ≡ true → told.new.frames ≡ message.now ∷ [] }
    ensures room { spells message.now ≡ true → result ≡ true }
    ensures none { result ≡ false → told.new.frames ≡ [] }
{
    told.clear();
    if !told.add_frame(message) || !rows.add_to(told) {
        told.clear();
        return false;
    }
    last.clear();
    let _fits = last.try_extend_from_slice(message);
    true
}
