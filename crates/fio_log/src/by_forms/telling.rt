//! Verdicts on lines that were heard.
ghost use Rattle.std.specs.Prelude.{◌≡◌, ◌<◌, ◌≤◌, ℕ, List, [], length, true, false};
ghost use Rattle.fio_rows.specs.Lines.{is_message_open};
ghost use Rattle.fio_rows.specs.Rows.{state_of};
ghost use Rattle.fio_log.specs.Blanks.{is_blank_line};
ghost use Rattle.fio_log.specs.Heard.{LeavesOpen, Tells, TellsSaid, above_of, is_of_others, known_of, lacks_octets};
ghost use Rattle.fio_log.specs.Verdicts.{Agrees, has_frames, has_reason};
ghost use Rattle.fio_log.specs.Wordings.{SaysWords};

use crate::ahead::is_part;
use crate::by_forms::{FormReader, LineHeard};
use crate::cut::is_cut_line;
use crate::foreign::{Foreign, NONE, foreign_in};
use crate::header::{FrameHeader, NO_HEADER, header_by};
use crate::heading::Heading;
use crate::heads::is_border;
use crate::lines::NumberedLine;
use crate::quiet::{Hidden, has_fronts, has_further, held_by_text};
use crate::second::is_quiet_between;
use crate::spoilt::has_odd_digits;
use crate::told::Told;
use crate::verdict::{Kind, LineVerdict, Reason};
use crate::wordings::{reason_beside_octets, reason_without_octets};
use fio_form::{LineRows, is_cut};
use fio_rows::{LineSaid, Said};

impl FormReader {
    /// Returns the verdict on the line that was heard last, and takes its frames.
    pub(crate) fn tell(
        &mut self,
        line: NumberedLine,
        heard: LineHeard,
        told: &mut Told,
    ) -> LineVerdict
        ensures agrees { Agrees result (length told.new.frames) }
        ensures told { Tells (known_of self.old) line.entry.text.now heard result.kind result.reason told.new.frames }
        ensures forms { self.new.forms ≡ self.old.forms }
        ensures left { LeavesOpen (length self.old.rows.places.items) heard result.kind self.old.reading (above_of self.new) }
        ensures words { SaysWords line.entry.text.now result.reason }
        ensures blank { result.kind ≡ Kind.Blank → is_blank_line (record { octets = line.entry.text.now; is_long = line.entry.is_long }) ≡ true }
    {
        told.clear();
        let found = heard.said.found;
        let place = if heard.said.said == Said::Other {
            line.text.len()
        } else {
            found.start
        };
        let own = Heading::of(line.text, place);
        let said = self.heading_of(own, heard);
        let (kind, reason) = self.tell_kind(line, heard, said, told);
        match (kind, heard.said.said) {
            (Kind::PassedOver, Said::Other) => {}
            (Kind::Blank, _) => self.above.pass_blank(),
            (_, Said::Other) => self.above.pass(),
            _ => self.above.pass_row(),
        }
        self.heads.take(
            line.text,
            heard.said.said != Said::Other,
            kind == Kind::Frames,
        );
        let foreign = self.foreign_of(line.text, heard, kind);
        self.count(line, heard, kind);
        let shown = if kind == Kind::Frames {
            self.begun
        } else {
            said
        };
        let header = self.header_of(line.text, heard, kind);
        LineVerdict {
            time: shown.time,
            header: if foreign.octets > 0 {
                foreign.header()
            } else {
                header
            },
            foreign: foreign.code,
            ..LineVerdict::of(
                line.number,
                kind,
                with_break(kind, reason, heard),
                shown.said,
            )
        }
    }

    /// Returns what a line says of its octets by itself, or else what the line above it says.
    fn heading_of(&mut self, own: Heading, heard: LineHeard) -> Heading
        ensures { self.new ≡ record self.old { above = self.new.above } }
    {
        match self.forms.get(heard.said.form) {
            Some(form) if heard.said.found.end > 0 && !heard.goes_on => {
                own.or(self.above.of(form))
            }
            _ => own,
        }
    }

    /// Returns the header of the frames that a line ends, or of the one whose rows are open, if all have one and the same.
    fn header_of(&mut self, line: &[u8], heard: LineHeard, kind: Kind) -> FrameHeader
        ensures { self.new ≡ record self.old { headers = self.new.headers; octets = self.new.octets } }
    {
        let mut headers = self.headers;
        self.headers.clear();
        if !matches!(kind, Kind::Frames | Kind::Part) {
            return NO_HEADER;
        }
        if matches!(heard.said.said, Said::Frame | Said::Part) {
            headers.add(self.header_of_first(line, heard));
        }
        headers.common()
    }

    /// Returns the message that a line has in place of frames, if this protocol has it not.
    fn foreign_of(&self, line: &[u8], heard: LineHeard, kind: Kind) -> Foreign {
        let is_whole = !heard.goes_on && !heard.is_long && !heard.has_gap;
        let end = heard.said.found.end;
        match (heard.said.said, kind, self.forms.get(heard.said.form)) {
            (Said::Damaged, Kind::Damaged, Some(form)) | (Said::Idle, Kind::PassedOver, Some(form))
                if is_whole && form.rows == LineRows::One => {
                let (_, tail) = line.split_at(end.min(line.len()));
                let is_cut = is_cut(tail)
                    || has_odd_digits(form, tail)
                    || self.has_near_tail(line, heard.said);
                foreign_in(form, &self.reading.octets, is_cut)
            }
            _ => NONE,
        }
    }

    /// Returns the header of the message that a line ends or goes on with. Octets before one without a frame check are none, if they are
    /// no addresses.
    fn header_of_first(&mut self, line: &[u8], heard: LineHeard) -> FrameHeader
        ensures { self.new ≡ record self.old { octets = self.new.octets } }
    {
        let octets = &self.reading.octets;
        match self.forms.get(heard.said.form) {
            Some(form) if form.is_framed || self.are_addresses => header_by(
                form,
                line,
                heard.said.found.start,
                octets,
                self.reading.message.len(),
                &mut self.octets,
            ),
            _ => NO_HEADER,
        }
    }

    /// Returns what a line is, and takes its frames.
    fn tell_kind(
        &mut self,
        line: NumberedLine,
        heard: LineHeard,
        said: Heading,
        told: &mut Told,
    ) -> (Kind, Reason)
        requires { told.old.frames ≡ [] }
        ensures told { Tells (known_of self.old) line.entry.text.now heard result.0 result.1 told.new.frames }
        ensures forms { self.new.forms ≡ self.old.forms }
        ensures left { LeavesOpen (length self.old.rows.places.items) heard result.0 self.old.reading (above_of self.new) }
        ensures reason { has_reason result.0 result.1 ≡ true }
        ensures frames { has_frames result.0 (length told.new.frames) ≡ true }
        ensures words { SaysWords line.entry.text.now result.1 }
        ensures blank { result.0 ≡ Kind.Blank → is_blank_line (record { octets = line.entry.text.now; is_long = line.entry.is_long }) ≡ true }
    {
        if heard.is_long {
            self.break_off();
            return (Kind::Damaged, Reason::TooLong);
        }
        if self.lacks_octets(line.text, heard) {
            self.break_off();
            return (Kind::Damaged, Reason::NoMessage);
        }
        self.tell_said(line, heard, said, told)
    }

    /// Returns what a line is by what it says, and takes its frames.
    fn tell_said(
        &mut self,
        line: NumberedLine,
        heard: LineHeard,
        said: Heading,
        told: &mut Told,
    ) -> (Kind, Reason)
        requires { told.old.frames ≡ [] }
        ensures told { TellsSaid heard.said.said (known_of self.old) line.entry.text.now heard result.0 result.1 told.new.frames }
        ensures forms { self.new.forms ≡ self.old.forms }
        ensures left { LeavesOpen (length self.old.rows.places.items) heard result.0 self.old.reading (above_of self.new) }
        ensures reason { has_reason result.0 result.1 ≡ true }
        ensures frames { has_frames result.0 (length told.new.frames) ≡ true }
        ensures words { SaysWords line.entry.text.now result.1 }
        ensures blank { result.0 ≡ Kind.Blank → is_blank_line (record { octets = line.entry.text.now; is_long = line.entry.is_long }) ≡ true }
    {
        match heard.said.said {
            Said::Frame => self.tell_frame(line, heard, said, told),
            Said::Part => {
                if self.take_row(line.number, heard, said) {
                    (Kind::Part, Reason::None)
                } else {
                    self.reading.close();
                    (Kind::Damaged, Reason::TooLong)
                }
            }
            Said::Stream => self.tell_stream(line, heard, said, told),
            Said::Idle => (Kind::PassedOver, Reason::NoMessage),
            Said::Stray | Said::Damaged => (Kind::Damaged, Reason::NoMessage),
            Said::Other => self.tell_other(line),
        }
    }

    /// Returns whether a part of a line is gone, or its octets end within a word of digits, so that it is not known which of them are
    /// octets.
    fn lacks_octets(&self, line: &[u8], heard: LineHeard) -> bool
        ensures { result ≡ lacks_octets self.now.forms line.now heard }
    {
        if heard.has_gap {
            return true;
        }
        let is_read = matches!(heard.said.said, Said::Frame | Said::Part | Said::Stream);
        let end = heard.said.found.end;
        match self.forms.get(heard.said.form) {
            Some(form) if is_read && end <= line.len() => has_odd_digits(form, &line[end..]),
            _ => false,
        }
    }

    /// Counts the line for its form.
    fn count(&mut self, line: NumberedLine, heard: LineHeard, kind: Kind)
        ensures forms { self.new.forms ≡ self.old.forms }
        ensures reading { self.new.reading ≡ self.old.reading }
        ensures rows { self.new.rows ≡ self.old.rows }
    {
        if heard.said.said != Said::Other && !heard.is_long && !heard.has_gap {
            self.counts.count(
                heard.said.form,
                line.number,
                line.text,
                heard.said.found,
                kind == Kind::Damaged,
            );
        }
    }

    /// Returns whether the text after the octets of a row is nearer to them than those of the rows above, or has another row; or the offset
    /// before them is not whole.
    pub(super) fn has_odd_tail(&mut self, line: &[u8], said: LineSaid) -> bool
        ensures kept { self.new ≡ record self.old { octets = self.new.octets } }
    {
        let front = line.get(said.found.front..said.found.start);
        self.has_near_tail(line, said)
            || front.is_some_and(|front| self.counts.lacks_offset(said.form, front))
            || said.found.end <= line.len()
                && has_further(self.forms.list(), &line[said.found.end..], &mut self.octets)
    }

    /// Returns whether a line has no octets that may be a message from a place on.
    pub(super) fn is_quiet_from(&mut self, line: &[u8], from: usize) -> bool
        ensures forms { self.new.forms ≡ self.old.forms }
        ensures reading { self.new.reading ≡ self.old.reading }
        ensures none { length line.now ≤ from → result ≡ true }
    {
        is_quiet_between(self.forms.list(), line, from, line.len(), &mut self.octets)
    }

    /// Returns whether the line directly above stands above octets, as the lines of the window and those above show it.
    fn is_below_heading(&self) -> bool {
        self.above.is_opening()
            || self
                .heads
                .is_heading(self.above.shape())
                .unwrap_or(self.above.is_heading())
    }

    /// Returns what a line is that no form has.
    fn tell_other(&mut self, line: NumberedLine) -> (Kind, Reason)
        ensures told { is_of_others result.0 ≡ true }
        ensures forms { self.new.forms ≡ self.old.forms }
        ensures open { is_message_open (state_of self.new.reading).pending ≡ true → self.new.reading ≡ self.old.reading }
        ensures reason { has_reason result.0 result.1 ≡ true }
        ensures frames { has_frames result.0 0 ≡ true }
        ensures words { SaysWords line.entry.text.now result.1 }
        ensures blank { result.0 ≡ Kind.Blank → is_blank_line (record { octets = line.entry.text.now; is_long = line.entry.is_long }) ≡ true }
    {
        let lacks_row = self.is_below_heading() && !is_border(line.text);
        if line.is_blank() && !lacks_row {
            if self.counts.has_odd_blank() {
                return (Kind::Possible, Reason::NoForm);
            }
            return (Kind::Blank, Reason::None);
        }
        if !lacks_row && self.heads.is_opening(line.text) {
            self.above.take_opening(line.text);
            self.is_loud = false;
            return (Kind::PassedOver, Reason::NoOctets);
        }
        if lacks_row
            || is_cut_line(
                self.forms.list(),
                line.text,
                &mut self.octets,
                &mut self.held,
            )
        {
            self.break_stream();
            return (Kind::Damaged, Reason::NoMessage);
        }
        let is_odd = self.counts.has_odd(line.text);
        let held = held_by_text(self.forms.list(), line.text, &mut self.octets);
        self.is_loud = held != Hidden::Nothing
            || is_part(
                self.forms.list(),
                line.text,
                &mut self.octets,
                &mut self.held,
            )
            || is_odd && reason_without_octets(line.text) == Reason::NoOctets;
        if self.heads.is_of_message(line.text) {
            self.above.take(line.text, true);
            return (Kind::PassedOver, Reason::NoOctets);
        }
        if !self.is_loud {
            let reason = reason_without_octets(line.text);
            self.above.take(line.text, reason == Reason::NoOctets);
            return (Kind::PassedOver, reason);
        }
        let reason = reason_beside_octets(line.text);
        if reason != Reason::None {
            return (Kind::PassedOver, reason);
        }
        let is_known = self.shapes.are_known(line.text, true);
        let is_usual = self.shapes.are_usual(line.text, held.is_message()) || is_known;
        if held == Hidden::Frame {
            return (Kind::Possible, Reason::UnreadFrame);
        }
        if is_usual && !has_fronts(self.forms.list(), line.text, &mut self.octets) {
            (Kind::PassedOver, Reason::NoMessage)
        } else {
            (Kind::Possible, Reason::NoForm)
        }
    }
}

/// Returns the reason of a line, if the message of the lines above may be broken.
fn with_break(kind: Kind, reason: Reason, heard: LineHeard) -> Reason
    requires { has_reason kind reason ≡ true }
    ensures reason { has_reason kind result ≡ true }
    ensures words { (text : List ℕ) → SaysWords text reason → SaysWords text result }
    ensures same { heard.said.is_broken ≡ false → result ≡ reason }
{
    if heard.said.is_broken && kind != Kind::Damaged && kind != Kind::Possible {
        Reason::Broken
    } else {
        reason
    }
}
