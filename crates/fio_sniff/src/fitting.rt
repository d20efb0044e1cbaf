//! Whether forms fit the lines of a window, of which this is proved.
ghost use Rattle.std.specs.Prelude.{◌≡◌, [], true};
ghost use Rattle.fio_rows.specs.Lines.{has, row_of};
ghost use Rattle.fio_sniff.specs.Windows.{AllFit, Fits, damaged_by, had_by, has_one, messages_by, own_whole};

use crate::sniffing::Forms;
use arrayvec::ArrayVec;
use fio_form::{LineForm, LineRows, Octets, Whole, find, whole_of};
use fio_guess::Window;

/// Reads lines one by one.
#[derive(Drop)]
pub(crate) struct Fitting {
    octets: Octets,
    held: Octets,
}

/// How many lines a form has, in how many of these the octets are a message, and in how many they are none and lack none.
#[derive(Clone, Copy)]
struct LineCounts {
    had: usize,
    said: usize,
    damaged: usize,
}

impl Fitting {
    /// Returns one that has read no line.
    pub(crate) fn new() -> Fitting {
        Fitting {
            octets: ArrayVec::new(),
            held: ArrayVec::new(),
        }
    }

    /// Returns whether a form has a line; writes the octets that it has there.
    #[tactic(auto, using(crate::proofs::Empty::empty_if_none, crate::proofs::Empty::not_empty_if_some), unfolding(fio_rows::specs::Lines::has, fio_rows::specs::Lines::row_of))]
    fn has(&mut self, form: &LineForm, line: &[u8]) -> bool
        ensures has { result ≡ has form.now line.now }
        ensures octets { result ≡ true → self.new.octets.items ≡ row_of form.now line.now }
    {
        find(form, line, &mut self.octets).is_some()
    }

    /// Returns whether one of some forms has a line.
    fn has_one(&mut self, forms: &[LineForm], line: &[u8]) -> bool
        ensures { result ≡ has_one forms.now line.now }
    {
        let mut at = 0;
        'forms: while at < forms.len() {
            if self.has(&forms[at], line) {
                return true;
            }
            at += 1;
        }
        false
    }

    /// Returns what the octets of a form are in a line, if it has the line and none of those above it has.
    fn own_whole(&mut self, above: &[LineForm], form: &LineForm, line: &[u8]) -> Option<Whole>
        ensures { result ≡ own_whole above.now form.now line.now }
    {
        if self.has_one(above, line) {
            return None;
        }
        if self.has(form, line) {
            Some(whole_of(form, &self.octets, &mut self.held))
        } else {
            None
        }
    }

    /// LineCounts the lines of a form that none of those above it has.
    fn counts_of(&mut self, above: &[LineForm], form: &LineForm, lines: &Window) -> LineCounts
        ensures had { result.had ≡ had_by above.now form.now lines.now }
        ensures said { result.said ≡ messages_by above.now form.now lines.now }
        ensures damaged { result.damaged ≡ damaged_by above.now form.now lines.now }
    {
        let mut counts = LineCounts {
            had: 0,
            said: 0,
            damaged: 0,
        };
        let mut at = 0;
        'lines: while at < lines.len() {
            match self.own_whole(above, form, lines.line(at)) {
                None => {}
                Some(Whole::Message { .. } | Whole::Any { .. }) => {
                    counts.had += 1;
                    counts.said += 1;
                }
                Some(Whole::Lacking | Whole::Idle) => counts.had += 1,
                Some(Whole::Damaged) => {
                    counts.had += 1;
                    counts.damaged += 1;
                }
            }
            at += 1;
        }
        counts
    }

    /// Returns whether a form, with some above it, fits the lines of a window.
    fn fits(&mut self, above: &[LineForm], form: &LineForm, lines: &Window) -> bool
        ensures { result ≡ true → Fits lines.now above.now form.now }
    {
        let counts = self.counts_of(above, form, lines);
        match form.rows {
            LineRows::One => counts.said >= 1 && counts.damaged <= counts.said,
            _ => counts.had >= 1,
        }
    }

    /// Returns those of some forms that fit the lines of a window.
    #[tactic(auto, using(crate::proofs::Pushed::all_fit_push))]
    pub(crate) fn fitting(&mut self, forms: &[LineForm], lines: &Window) -> Forms
        ensures { AllFit lines.now [] result.items }
    {
        let mut all: Forms = ArrayVec::new();
        for form in forms {
            let form = form.copied();
            if !all.is_full() && self.fits(&all, &form, lines) {
                all.push(form);
            }
        }
        all
    }
}
