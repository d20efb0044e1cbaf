//! Guesses the forms of a window.
ghost use Rattle.std.specs.Prelude.{[]};
ghost use Rattle.fio_sniff.specs.Windows.{AllFit};

use crate::copies::echoes_last;
use crate::evidence::{
    Evidence, Log, are_both, fits, is_copy, is_kin, is_needed, is_paired, is_shown, log_of,
    may_show_less, times,
};
use crate::fitting::Fitting;
use crate::known::Known;
use crate::leaving::has_octets;
use crate::likening::form_like;
use crate::splitting::split;
use crate::streams::Streams;
use crate::trying::Trying;
use crate::weighing::Weighing;
use arrayvec::ArrayVec;
use fio_form::{LineForm, LineRows, Octets};
use fio_guess::table::{FORMS, TRIED};
use fio_guess::{Guesses, Window};

/// The forms of some lines: of those that have a line the first one counts. Forms whose messages repeat those of others are last.
pub type Forms = ArrayVec<LineForm, FORMS>;

/// What forms are searched with.
#[derive(Drop)]
pub struct Sniffer {
    guesses: Guesses,
    weighing: Weighing,
    known: Known,
    trying: Trying,
    streams: Streams,
    fitting: Fitting,
}

impl Sniffer {
    /// Returns one that has searched nothing.
    pub fn new() -> Sniffer {
        Sniffer {
            guesses: Guesses::new(),
            weighing: Weighing::new(),
            known: Known::new(),
            trying: Trying::new(),
            streams: Streams::new(),
            fitting: Fitting::new(),
        }
    }

    /// Makes the guesses of all lines that no form has, and keeps the likeliest ones.
    fn choose(&mut self, lines: &Window, is_anywhere: bool) {
        self.guesses.clear();
        for at in 0..lines.len() {
            if !self.known.is_taken(at) {
                self.guesses.guess_line(lines, at, is_anywhere);
            }
        }
        self.trying.choose(&mut self.guesses);
    }

    /// Returns whether the lines show a form.
    fn is_form(&self, form: &LineForm, evidence: &Evidence, forms: &[LineForm], log: Log) -> bool {
        if evidence.frames == 0 || !fits(form, evidence) || !is_needed(form, evidence, log) {
            return false;
        }
        is_shown(form, evidence, log)
            || self.known.messages() > 0
                && (is_paired(form, evidence, log)
                    || forms.iter().any(|other| is_kin(form, other, evidence, log)))
    }

    /// Returns a form for some values of a number, and what the lines say for it, if those lines fit better than all of the form.
    fn narrowed(
        &mut self,
        form: &LineForm,
        evidence: &Evidence,
        lines: &Window,
        log: Log,
    ) -> Option<(LineForm, Evidence)> {
        if times(100, evidence.frames) >= times(95, evidence.there)
            || !may_show_less(form, evidence, self.known.messages() > 0, log)
        {
            return None;
        }
        // one line may be damaged
        let least = if log.is_few { 0 } else { 2 };
        let (less, weight) = split(&mut self.weighing, form, lines, &self.known, least)?;
        let is_as_good = !fits(form, evidence) || times(10, weight.sure) >= times(9, evidence.sure);
        if is_as_good && weight.frames > 0 && times(10, weight.frames) >= times(9, weight.rest()) {
            Some((less, weight))
        } else {
            None
        }
    }

    /// Tries the form of a guess. If the lines show it, takes them, and keeps the form.
    fn try_form(&mut self, at: usize, lines: &Window, forms: &mut Forms, log: Log) -> bool {
        let Some(tried) = self.trying.get(at) else {
            return false;
        };
        let Some(form) = tried.guess.form(lines) else {
            return false;
        };
        let narrow = self.narrowed(&form, &tried.evidence, lines, log);
        let is_narrow = narrow.is_some();
        let (mut form, evidence) = match narrow {
            Some((less, weight)) => (less, weight),
            None => (form, tried.evidence),
        };
        if !self.is_form(&form, &evidence, forms, log) {
            return false;
        }
        form.is_echo = is_copy(&evidence);
        self.weighing.take(&form, lines, &mut self.known);
        self.trying.found(at, is_narrow);
        forms.try_push(form).is_ok()
    }

    /// Finds the best form, and takes its lines; returns whether there was one.
    fn next_form(&mut self, lines: &Window, forms: &mut Forms, log: Log) -> bool {
        self.trying.weigh(&mut self.weighing, lines, &self.known);
        for _ in 0..TRIED {
            let Some(best) = self.trying.best() else {
                return false;
            };
            if self.try_form(best, lines, forms, log) {
                return true;
            }
            self.trying.refuse(best);
        }
        false
    }

    /// Finds forms of the lines that no form has: after each search in which there was one, the likeliest guesses of the lines that
    /// are left are tried, which those of the others had no room for.
    fn search(&mut self, lines: &Window, forms: &mut Forms, is_anywhere: bool, log: Log) {
        for _ in 0..FORMS {
            let count = forms.len();
            self.choose(lines, is_anywhere);
            for _ in 0..FORMS {
                if forms.is_full() || !self.next_form(lines, forms, log) {
                    break;
                }
            }
            if forms.len() == count || forms.is_full() || self.known.lines() >= lines.len() {
                return;
            }
        }
    }

    /// Returns the two forms that show each other, with the best rank of the first one; none if there are none.
    fn pair_of(&mut self, lines: &Window, log: Log) -> Forms {
        let mut pair: Forms = ArrayVec::new();
        self.choose(lines, false);
        self.trying.weigh(&mut self.weighing, lines, &self.known);
        for _ in 0..TRIED {
            let Some(best) = self.trying.best() else {
                break;
            };
            if self.add_pair(best, lines, &mut pair, log) {
                break;
            }
            self.trying.refuse(best);
        }
        pair
    }

    /// Adds the form of a guess and another one, if they show each other; returns whether they do.
    fn add_pair(&self, at: usize, lines: &Window, pair: &mut Forms, log: Log) -> bool {
        let Some(tried) = self.trying.get(at) else {
            return false;
        };
        let Some(form) = tried.guess.form(lines) else {
            return false;
        };
        for other in 0..TRIED {
            if let Some(its) = self.trying.get(other) {
                if let Some(answers) = its.guess.form(lines) {
                    if are_both(&form, &tried.evidence, &answers, &its.evidence, log)
                        || are_both(&answers, &its.evidence, &form, &tried.evidence, log)
                    {
                        return pair.try_push(form).is_ok() && pair.try_push(answers).is_ok();
                    }
                }
            }
        }
        false
    }

    /// Returns whether a stream of this many messages says more than forms.
    fn is_stream(&self, messages: u32, forms: &[LineForm]) -> bool {
        let frames = self.known.messages();
        let is_single = forms.iter().any(|form| form.rows == LineRows::Wrapped(1));
        times(2, messages) > (frames as u64).saturating_mul(3)
            || is_single && messages as usize >= frames
    }

    /// Takes the lines of forms, of those that are known.
    fn take_all(&mut self, lines: &Window, forms: &[LineForm]) {
        self.known.clear();
        for form in forms {
            self.weighing.take(form, lines, &mut self.known);
        }
    }

    /// Returns whether the messages are commands that are shown by polls.
    fn are_polls(&self, log: Log) -> bool {
        self.known.are_polls()
            || self.known.messages() == log.written && self.known.are_polls_alone()
    }

    /// Returns the forms that show, or those of a stream if it says more; none if they read commands alone.
    fn guessed(&mut self, lines: &Window, is_ended: bool) -> Forms {
        let mut found: Forms = ArrayVec::new();
        let log = log_of(lines, is_ended);
        self.known.clear();
        self.search(lines, &mut found, false, log);
        if self.known.lines().saturating_mul(2) < lines.len() {
            self.search(lines, &mut found, true, log);
        }
        if found.is_empty() && log.is_few {
            found = self.pair_of(lines, log);
        }
        let forms = echoes_last(&mut self.weighing, &mut self.known, lines, &found);
        self.take_all(lines, &forms);
        if self.known.messages().saturating_mul(2) < lines.len() {
            let messages = self.streams.search(lines, log.is_few);
            if self.is_stream(messages, &forms) {
                return if self.streams.has_answer() || log.is_late {
                    self.streams.forms()
                } else {
                    ArrayVec::new()
                };
            }
        }
        if self.known.has_answer() || log.is_late && self.are_polls(log) {
            forms
        } else {
            ArrayVec::new()
        }
    }

    /// Returns the forms of the lines of a window; none if they read commands alone, unless polls show these. If the log has ended,
    /// less shows a form.
    pub fn sniff(&mut self, lines: &Window, is_ended: bool) -> Forms
        ensures { AllFit lines.now [] result.items }
    {
        let forms = self.guessed(lines, is_ended);
        self.fitting.fitting(&forms, lines)
    }

    /// Returns whether the forms that were found last leave octets that may be messages.
    pub(crate) fn leaves_octets(&self, forms: &[LineForm], lines: &Window) -> bool {
        let mut octets: Octets = ArrayVec::new();
        for at in 0..lines.len() {
            if !self.known.is_taken(at) && has_octets(forms, lines.line(at), &mut octets) {
                return true;
            }
        }
        false
    }

    /// Returns the forms of sample lines, which a user gives: those that show by themselves, as rows of a dump, or else those of a
    /// stream, and for each other line the one by which it is the longest message. Nothing more has to show a form; a line that is no message gives none.
    pub fn like(&mut self, lines: &Window) -> Forms {
        let mut forms: Forms = ArrayVec::new();
        self.known.clear();
        let log = Log {
            is_few: true,
            is_late: false,
            written: 0,
        };
        self.search(lines, &mut forms, false, log);
        if forms.is_empty() && self.streams.search(lines, true) > 0 {
            return self.streams.forms();
        }
        for at in 0..lines.len() {
            if forms.is_full() {
                break;
            }
            if !self.known.is_taken(at) {
                if let Some(form) = form_like(&mut self.guesses, &mut self.weighing, lines, at) {
                    self.weighing.take(&form, lines, &mut self.known);
                    let _ = forms.try_push(form);
                }
            }
        }
        forms
    }
}
