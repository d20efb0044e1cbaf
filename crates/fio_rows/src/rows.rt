//! Reads lines by forms, with messages over several lines: what is known, and what the octets of rows do to it.
ghost use Rattle.std.specs.Prelude.{ℕ, List, ◌≡◌, ◌≢◌, ◌<◌, not, true, false, length, if◌then◌else◌};
ghost use Rattle.fio_rows.specs.Lines.{added, begun_line, begun_with, line_goes_on, is_message_begun, is_message_broken, is_ended, is_message_open, is_message_whole, row_of, text_from_front, unless_known};
ghost use Rattle.fio_rows.specs.Rows.{rows_of, say, say_none, state_of, whole_before};

use crate::finding::{append, keep, octets_with, whole_before, write};
use crate::said::{LineSaid, Said};
use crate::saying::{
    Open, is_begun, is_open, is_own_row, is_stray, is_stream, is_sure_frame, is_whole,
    offset_after, offset_in, open_after, said_by, said_unless,
};
use arrayvec::ArrayVec;
use fio_form::{Found, LineForm, Octets};

/// The most octets of a message over several lines, with those before and after it: one less than this.
pub const OPEN: usize = 2048;

/// Reads lines.
#[derive(Drop)]
pub struct Reading {
    pub(crate) pending: Open,
    /// The form of the last line that a form has, by its index.
    pub(crate) form: usize,
    /// The offset of the row that goes on with the last one, if there is one.
    pub(crate) next: Option<u64>,
    /// The octets of the rows of the open message; those of the last line if none is open.
    pub octets: Octets,
    /// The message that the last line said; that of the open rows if they are one.
    pub message: Octets,
    /// The message that ended with the line above.
    pub ended: Octets,
    pub(crate) held: Octets,
    pub(crate) part: Octets,
}

impl Reading {
    /// Returns a reader at the beginning of a log.
    pub fn new() -> Reading
        ensures { is_message_open result.pending ≡ false }
    {
        Reading {
            pending: Open::Nothing,
            form: 0,
            next: None,
            octets: ArrayVec::new(),
            message: ArrayVec::new(),
            ended: ArrayVec::new(),
            held: ArrayVec::new(),
            part: ArrayVec::new(),
        }
    }

    /// Returns whether a message is open.
    pub fn is_open(&self) -> bool
        ensures { result ≡ is_message_open (state_of self.now).pending }
    {
        is_open(self.pending)
    }

    /// Returns whether a message of any length may have ended with the last line: `message` has it.
    pub fn may_have_ended(&self) -> bool
        ensures { result ≡ is_message_whole (state_of self.now).pending }
    {
        is_whole(self.pending)
    }

    /// Forgets the open message.
    pub fn close(&mut self)
        ensures closed { is_message_open (state_of self.new).pending ≡ false }
        ensures message { self.new.message ≡ self.old.message }
        ensures ended { self.new.ended ≡ self.old.ended }
    {
        self.pending = Open::Nothing;
    }

    /// Ends the log: returns whether a message of any length ended with its last line, which `message` has.
    pub fn end(&mut self) -> bool
        ensures ended { result ≡ is_message_whole (state_of self.old).pending }
        ensures message { self.new.message ≡ self.old.message }
        ensures closed { is_message_open (state_of self.new).pending ≡ false }
    {
        let is_message = is_whole(self.pending);
        self.pending = Open::Nothing;
        is_message
    }

    /// Passes over a line that is longer than a line that is kept: an open message does not go on in it.
    pub fn skip(&mut self) -> LineSaid
        ensures said { result.said ≡ Said.Damaged }
        ensures is_ended { result.is_ended ≡ is_message_whole (state_of self.old).pending }
        ensures is_broken { result.is_broken ≡ is_message_begun (state_of self.old).pending }
        ensures goes_on { result.goes_on ≡ false }
        ensures form { result.form ≡ 0 }
        ensures found { (result.found.front ≡ 0) × (result.found.start ≡ 0) × (result.found.end ≡ 0) }
        ensures message { self.new.message ≡ self.old.message }
        ensures ended { result.is_ended ≡ true → self.new.ended.items ≡ self.old.message.items }
        ensures closed { is_message_open (state_of self.new).pending ≡ false }
    {
        let is_ended = self.keep_ended();
        let is_broken = is_begun(self.pending);
        self.pending = Open::Nothing;
        LineSaid {
            said: Said::Damaged,
            is_broken,
            is_ended,
            goes_on: false,
            form: 0,
            found: Found {
                front: 0,
                start: 0,
                end: 0,
            },
        }
    }

    /// Returns whether the open octets are a message, and keeps it if they are.
    pub(crate) fn keep_ended(&mut self) -> bool
        ensures is_ended { result ≡ is_message_whole (state_of self.old).pending }
        ensures same { state_of self.new ≡ state_of self.old }
        ensures ended { result ≡ true → self.new.ended.items ≡ self.old.message.items }
    {
        let is_ended = is_whole(self.pending);
        if is_ended {
            write(&self.message, &mut self.ended);
        }
        is_ended
    }

    /// Says what the octets are that are there, of which `row` are in the line with this tail.
    #[tactic(auto, unfolding(crate::specs::Rows::say))]
    fn say(&mut self, form: &LineForm, row: usize, tail: &[u8]) -> Said
        ensures rows { rows_of result self.new ≡ say form.now row tail.now (state_of self.old) }
        ensures ended { self.new.ended ≡ self.old.ended }
        ensures form { self.new.form ≡ self.old.form }
        ensures some { result ≢ Said.Other }
        ensures part { self.new.part ≡ self.old.part }
    {
        let whole = whole_before(form, &self.octets, tail, &mut self.held);
        keep(
            whole,
            octets_with(form, &self.octets, &self.held),
            &mut self.message,
        );
        let said = said_by(form, row, tail, whole);
        self.pending = open_after(said, whole);
        said
    }

    /// Says a line that says no message, after which none is open.
    pub(crate) fn say_none(&mut self, said: Said) -> Said
        ensures rows { rows_of result self.new ≡ say_none said (state_of self.old) }
        ensures ended { self.new.ended ≡ self.old.ended }
        ensures form { self.new.form ≡ self.old.form }
        ensures part { self.new.part ≡ self.old.part }
    {
        self.pending = Open::Nothing;
        said
    }

    /// Says a line that says a message of a known length; any other is damaged.
    pub(crate) fn unless_known(&mut self, said: Said) -> Said
        ensures rows { rows_of result self.new ≡ unless_known (rows_of said self.old) }
        ensures ended { self.new.ended ≡ self.old.ended }
        ensures form { self.new.form ≡ self.old.form }
    {
        if is_sure_frame(said, &self.message) {
            said
        } else {
            self.say_none(Said::Damaged)
        }
    }

    /// Says a line of a form that begins, and whose octets are there.
    fn say_begun(&mut self, form: &LineForm, offset: u64, tail: &[u8]) -> Said
        ensures rows { rows_of result self.new ≡ begun_with form.now offset tail.now (state_of self.old) }
        ensures ended { self.new.ended ≡ self.old.ended }
        ensures form { self.new.form ≡ self.old.form }
        ensures some { result ≢ Said.Other }
        ensures part { self.new.part ≡ self.old.part }
    {
        if is_stream(form) {
            let said = if self.octets.is_full() {
                Said::Damaged
            } else {
                Said::Stream
            };
            return self.say_none(said);
        }
        if is_stray(form, offset) {
            return self.say_none(Said::Stray);
        }
        let row = self.octets.len();
        self.say(form, row, tail)
    }

    /// Begins with a line of a form, by its index, whose octets are there. The text is the line from the front on.
    #[tactic(auto, unfolding(crate::specs::Lines::begun_line, crate::specs::Lines::offset_of))]
    pub(crate) fn begin(&mut self, at: usize, form: &LineForm, text: &[u8], tail: &[u8]) -> Said
        ensures rows { (line : List ℕ) → text.now ≡ text_from_front form.now line → self.old.octets.items ≡ row_of form.now line
            → rows_of result self.new ≡ begun_line at form.now line tail.now (state_of self.old) }
        ensures ended { self.new.ended ≡ self.old.ended }
        ensures form { self.new.form ≡ at }
        ensures some { result ≢ Said.Other }
        ensures part { self.new.part ≡ self.old.part }
    {
        let offset = match offset_in(form, text) {
            Some(offset) => offset,
            None => 0,
        };
        self.form = at;
        self.next = offset_after(Some(offset), self.octets.len());
        self.say_begun(form, offset, tail)
    }

    /// Adds a row to the open octets, and says what they are.
    #[tactic(auto, unfolding(crate::specs::Lines::added))]
    pub(crate) fn add(&mut self, form: &LineForm, tail: &[u8]) -> Said
        ensures rows { rows_of result self.new ≡ added form.now self.old.part.items tail.now (state_of self.old) }
        ensures ended { self.new.ended ≡ self.old.ended }
        ensures form { self.new.form ≡ self.old.form }
    {
        let row = self.part.len();
        let is_own = is_own_row(form, &self.octets, &self.part);
        self.next = offset_after(self.next, row);
        if !append(&self.part, &mut self.octets) {
            return self.say_none(Said::Damaged);
        }
        let said = self.say(form, row, tail);
        said_unless(is_own, said)
    }
}
