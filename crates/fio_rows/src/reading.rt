//! Reads lines by forms, with messages over several lines.
ghost use Rattle.std.specs.Prelude.{◌≡◌, ◌≢◌, ◌≤◌, ◌<◌, ◌+◌, ◌==◌, ◌&&◌, ◌||◌, not, true, false, Some, length, if◌then◌else◌};
ghost use Rattle.fio_rows.specs.Lines.{ends_above, first, line_goes_on, goes_on_with, has_offset, has_bare_rows, is_message_begun, is_message_broken, is_broken_by, is_ended, is_message_open, is_sure, is_message_whole, next_line_in, next_row, open_in, read_in};
ghost use Rattle.fio_rows.specs.Places.{AreAt, AreWithin, first_places, next_places, places_by, places_in};
ghost use Rattle.fio_rows.specs.Rows.{rows_of, state_of};

use crate::finding::{found_first, is_certain, row_in};
use crate::rows::Reading;
use crate::said::{LineSaid, Said};
use crate::saying::{Open, is_bare, is_begun, is_open};
use fio_form::{Found, LineForm};

impl Reading {
    /// Reads a line as if the log began there.
    #[tactic(auto, using(crate::proofs::Lines::first_past_index, crate::proofs::Lines::first_here_index, crate::proofs::Lines::first_none_index, crate::proofs::Lines::places_past_index, crate::proofs::Lines::places_here_index, crate::proofs::Lines::places_none_index))]
    fn read_first(&mut self, forms: &[LineForm], line: &[u8]) -> LineSaid
        ensures exact { rows_of result.said self.new ≡ first forms.now line.now (first_places forms.now line.now).end (state_of self.old) }
        ensures form { result.said ≢ Said.Other → result.form < length forms.now }
        ensures kept { result.said ≢ Said.Other → result.form ≡ (state_of self.new).form }
        ensures other { result.said ≡ Said.Other → self.new.form ≡ self.old.form }
        ensures found { AreWithin result.found line.now }
        ensures at { AreAt result.found line.now (first_places forms.now line.now) }
        ensures flags { (result.is_broken ≡ false) × (result.is_ended ≡ false) × (result.goes_on ≡ false) }
        ensures ended { self.new.ended ≡ self.old.ended }
    {
        self.octets.clear();
        for (at, form) in forms.iter().enumerate() {
            if let Some(found) = found_first(form, line, &mut self.octets) {
                let (_, text) = line.split_at(found.front);
                let (_, tail) = line.split_at(found.end);
                let said = self.begin(at, form, text, tail);
                return LineSaid {
                    said,
                    is_broken: false,
                    is_ended: false,
                    goes_on: false,
                    form: at,
                    found,
                };
            }
        }
        self.pending = Open::Nothing;
        LineSaid {
            said: Said::Other,
            is_broken: false,
            is_ended: false,
            goes_on: false,
            form: 0,
            found: Found {
                front: 0,
                start: 0,
                end: 0,
            },
        }
    }

    /// Reads a line by forms.
    #[tactic(auto, using(crate::proofs::ClosedLines::read_closed, crate::proofs::ClosedLines::goes_on_closed, crate::proofs::ClosedLines::ended_closed, crate::proofs::ClosedLines::broken_closed, crate::proofs::ClosedLines::places_closed), unfolding(crate::specs::Places::places_in, crate::specs::Lines::read_in, crate::specs::Lines::open_in, crate::specs::Lines::open_form, crate::specs::Lines::line_goes_on, crate::specs::Lines::is_ended, crate::specs::Lines::is_message_broken))]
    pub fn read(&mut self, forms: &[LineForm], line: &[u8]) -> LineSaid
        ensures exact { rows_of result.said self.new ≡ read_in forms.now line.now (places_in forms.now line.now (state_of self.old)).end (state_of self.old) }
        ensures goes_on { result.goes_on ≡ line_goes_on forms.now line.now (state_of self.old) }
        ensures is_ended { result.is_ended ≡ is_ended forms.now line.now (state_of self.old) }
        ensures is_broken { result.is_broken ≡ is_message_broken forms.now line.now (state_of self.old) }
        ensures form { result.said ≢ Said.Other → result.form < length forms.now }
        ensures kept { result.said ≢ Said.Other → result.form ≡ (state_of self.new).form }
        ensures found { (result.found.front ≤ result.found.start) × (result.found.start ≤ result.found.end) × (result.found.end ≤ length line.now) }
        ensures at { AreAt result.found line.now (places_in forms.now line.now (state_of self.old)) }
        ensures ended { result.is_ended ≡ true → self.new.ended.items ≡ self.old.message.items }
    {
        if !is_open(self.pending) {
            return self.read_first(forms, line);
        }
        match forms.get(self.form) {
            Some(form) => self.read_open(form, forms, line),
            None => self.read_after(0, forms, line),
        }
    }

    /// Reads a line below an open message of a form.
    #[tactic(auto, unfolding(crate::specs::Lines::open_in))]
    fn read_open(&mut self, form: &LineForm, forms: &[LineForm], line: &[u8]) -> LineSaid
        requires { self.old.form < length forms.now }
        ensures exact { rows_of result.said self.new ≡ open_in (Some form.now) forms.now line.now (places_by (goes_on_with (Some form.now) line.now (state_of self.old)) (Some form.now) forms.now line.now).end (state_of self.old) }
        ensures goes_on { result.goes_on ≡ goes_on_with (Some form.now) line.now (state_of self.old) }
        ensures is_ended { result.is_ended ≡ ends_above (Some form.now) line.now (state_of self.old) }
        ensures is_broken { result.is_broken ≡ is_broken_by (Some form.now) line.now (state_of self.old) }
        ensures form { result.said ≢ Said.Other → result.form < length forms.now }
        ensures kept { result.said ≢ Said.Other → result.form ≡ (state_of self.new).form }
        ensures found { AreWithin result.found line.now }
        ensures at { AreAt result.found line.now (places_by (goes_on_with (Some form.now) line.now (state_of self.old)) (Some form.now) forms.now line.now) }
        ensures ended { result.is_ended ≡ true → self.new.ended.items ≡ self.old.message.items }
    {
        match row_in(form, self.next, line, &mut self.part) {
            Some(found) => self.read_row(form, forms, line, found),
            None => self.read_after(
                usize::from(form.before) + usize::from(form.after),
                forms,
                line,
            ),
        }
    }

    /// Reads a line in which the row is found that may go on with the open message.
    fn read_row(
        &mut self,
        form: &LineForm,
        forms: &[LineForm],
        line: &[u8],
        found: Found,
    ) -> LineSaid
        requires form { self.old.form < length forms.now }
        requires found { AreWithin found line.now }
        requires at { AreAt found line.now (next_places form.now line.now) }
        requires row { self.old.part.items ≡ next_row form.now line.now }
        ensures exact { rows_of result.said self.new ≡ next_line_in form.now forms.now line.now (places_by (is_sure form.now (state_of self.old).pending || has_bare_rows form.now.rows) (Some form.now) forms.now line.now).end (state_of self.old) }
        ensures goes_on { result.goes_on ≡ is_sure form.now (state_of self.old).pending || has_bare_rows form.now.rows }
        ensures is_ended { result.is_ended ≡ false }
        ensures is_broken { result.is_broken ≡ not (is_sure form.now (state_of self.old).pending || has_bare_rows form.now.rows) }
        ensures form { result.said ≢ Said.Other → result.form < length forms.now }
        ensures kept { result.said ≢ Said.Other → result.form ≡ (state_of self.new).form }
        ensures found { AreWithin result.found line.now }
        ensures at { AreAt result.found line.now (places_by (is_sure form.now (state_of self.old).pending || has_bare_rows form.now.rows) (Some form.now) forms.now line.now) }
        ensures ended { result.is_ended ≡ true → self.new.ended.items ≡ self.old.message.items }
    {
        let at = self.form;
        let said = if is_certain(form, forms, line, self.pending, &mut self.held) {
            self.add(form, line.split_at(found.end).1)
        } else if is_bare(form) {
            // nothing says whether the row goes on with the message of any length or begins another one
            self.say_none(Said::Damaged)
        } else {
            let first = self.read_first(forms, line);
            return LineSaid {
                said: self.unless_known(first.said),
                is_broken: true,
                is_ended: false,
                goes_on: false,
                form: if first.said == Said::Other {
                    at
                } else {
                    first.form
                },
                found: first.found,
            };
        };
        LineSaid {
            said,
            is_broken: false,
            is_ended: false,
            goes_on: true,
            form: at,
            found,
        }
    }

    /// Reads a line that does not go on with the open message, of whose octets this many are no part of it.
    fn read_after(&mut self, spare: usize, forms: &[LineForm], line: &[u8]) -> LineSaid
        ensures exact { rows_of result.said self.new ≡ first forms.now line.now (first_places forms.now line.now).end (state_of self.old) }
        ensures goes_on { result.goes_on ≡ false }
        ensures is_ended { result.is_ended ≡ is_message_whole (state_of self.old).pending }
        ensures is_broken { result.is_broken ≡ is_message_begun (state_of self.old).pending && not (length self.old.octets.items == spare) }
        ensures form { result.said ≢ Said.Other → result.form < length forms.now }
        ensures kept { result.said ≢ Said.Other → result.form ≡ (state_of self.new).form }
        ensures found { AreWithin result.found line.now }
        ensures at { AreAt result.found line.now (first_places forms.now line.now) }
        ensures ended { result.is_ended ≡ true → self.new.ended.items ≡ self.old.message.items }
    {
        let is_broken = is_begun(self.pending) && self.octets.len() != spare;
        let is_ended = self.keep_ended();
        let mut said = self.read_first(forms, line);
        said.is_broken = is_broken;
        said.is_ended = is_ended;
        said
    }
}
