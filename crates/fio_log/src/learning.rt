//! Learns the forms of a log from its lines.
ghost use Rattle.std.specs.Prelude.{◌≡◌, ◌+◌, ◌≤◌, ◌++◌, ◌∷◌, [], length, true, false};
ghost use Rattle.fio_guess.specs.declared.table.TheConstants.{LINES};

use crate::addressed::addresses_in;
use crate::lines::LineMaker;
use crate::quiet::is_plain_quiet;
use arrayvec::ArrayVec;
use fio_form::{LineForm, Octets};
use fio_guess::Window;
use fio_guess::table::FEW;
use fio_sniff::{Forms, Looking, Sniffer};

/// This many lines below one that may be of a form that is not known are looked at with it.
const NEAR: u8 = 64;

/// This many lines are passed over after a window that gave no forms; twice as many after each further one, up to the most.
const REST: u64 = 1_024;

const LONGEST_REST: u64 = 65_536;

/// After this many windows that lines have ended that are too long, lines are looked at with those near them.
const RAGGED: u8 = 2;

/// Learns forms from lines: from those of the first window, and later from those near a line that may be of a form that is not
/// known.
#[derive(Drop)]
pub(crate) struct Learning {
    /// The lines.
    pub window: Window,
    sniffer: Sniffer,
    looking: Looking,
    /// Whether the first window has ended.
    is_later: bool,
    /// Whether a line since the last look may be of a form that is not known.
    is_new: bool,
    /// How many lines more are looked at.
    near: u8,
    /// How many lines more are passed over.
    rest: u64,
    /// How many are passed over after the next window without forms, if one has ended before.
    next_rest: u64,
    /// How many lines had the windows that gave no forms, before any were known.
    above: usize,
    /// How many windows a line that is too long has ended in which there were others.
    ragged: u8,
}

impl Learning {
    /// Begins without lines.
    pub(crate) fn new() -> Learning
        ensures { result.window ≡ [] }
    {
        Learning {
            window: Window::new(),
            sniffer: Sniffer::new(),
            looking: Looking::new(),
            is_later: false,
            is_new: false,
            near: 0,
            rest: 0,
            next_rest: 0,
            above: 0,
            ragged: 0,
        }
    }

    /// Begins with another log.
    pub(crate) fn start_again(&mut self)
        ensures { self.new.window ≡ [] }
    {
        self.clear();
        self.is_later = false;
        self.near = 0;
        self.rest = 0;
        self.next_rest = 0;
        self.above = 0;
        self.ragged = 0;
    }

    /// Begins another window.
    pub(crate) fn clear(&mut self)
        ensures { self.new.window ≡ [] }
    {
        self.window.clear();
        self.looking.clear();
        self.is_later = true;
        self.is_new = false;
    }

    /// Takes a line of a log whose forms are not known; returns whether there was room.
    fn push(&mut self, line: &[u8]) -> bool
        ensures pushed { result ≡ true → length self.new.window ≡ length self.old.window + 1 }
        ensures few { result ≡ true → length self.new.window ≤ LINES }
        ensures lines { result ≡ true → self.new.window ≡ self.old.window ++ line.now ∷ [] }
        ensures full { result ≡ false → self.new.window ≡ self.old.window }
    {
        self.window.push(line)
    }

    /// Takes the line that is made, if it is not long; returns whether it did, and there was room.
    pub(crate) fn take(&mut self, maker: &LineMaker) -> bool
        ensures pushed { result ≡ true → length self.new.window ≡ length self.old.window + 1 }
        ensures few { result ≡ true → length self.new.window ≤ LINES }
        ensures short { result ≡ true → maker.now.text.is_long ≡ false }
        ensures lines { result ≡ true → self.new.window ≡ self.old.window ++ maker.now.text.octets ∷ [] }
        ensures full { result ≡ false → self.new.window ≡ self.old.window }
    {
        if maker.is_long() {
            if !self.window.is_empty() {
                self.ragged = self.ragged.saturating_add(1);
            }
            return false;
        }
        self.push(maker.octets())
    }

    /// Returns whether the forms of a log of which none are known are learnt anew, from the line that is made on: it may be of one,
    /// and none are passed over.
    pub(crate) fn is_anew(&self, maker: &LineMaker) -> bool {
        let mut octets: Octets = ArrayVec::new();
        self.rest == 0
            && self.ragged < RAGGED
            && !maker.is_long()
            && !is_plain_quiet(maker.octets(), &mut octets)
    }

    /// Begins the window of forms that are learnt anew.
    pub(crate) fn begin_anew(&mut self)
        ensures { self.new.window ≡ [] }
    {
        self.clear();
        self.is_later = false;
    }

    /// Returns the forms that two looks in a row give, of the lines down to here; none if they do not yet.
    pub(crate) fn look(&mut self) -> Option<Forms>
        ensures { self.new.window ≡ self.old.window }
    {
        self.looking.look(&mut self.sniffer, &self.window)
    }

    /// Returns the forms that two looks in a row give in the first window, once its lines show whether octets before messages are
    /// addresses.
    pub(crate) fn look_first(&mut self) -> Option<Forms>
        ensures { self.new.window ≡ self.old.window }
    {
        let forms = self.look()?;
        if self.wants_addresses(&forms) {
            return None;
        }
        Some(forms)
    }

    /// Returns whether more lines are wanted to show whether octets before the messages of some forms are addresses.
    fn wants_addresses(&self, forms: &[LineForm]) -> bool {
        let mut octets: Octets = ArrayVec::new();
        let mut held: Octets = ArrayVec::new();
        addresses_in(forms, &self.window, &mut octets, &mut held).wants_more()
    }

    /// Returns the forms of all lines of the window; `is_ended`: the log has ended.
    pub(crate) fn last_look(&mut self, is_ended: bool) -> Forms
        ensures { self.new.window ≡ self.old.window }
    {
        let lines = self.above.saturating_add(self.window.len());
        let is_whole = is_ended && (self.above == 0 || lines <= FEW);
        let forms = self.sniffer.sniff(&self.window, is_whole);
        if forms.is_empty() {
            if self.above > 0 {
                self.pass_over();
            }
            self.above = lines;
        }
        forms
    }

    /// Returns a form for each line, which is a sample.
    pub(crate) fn like(&mut self) -> Forms {
        self.sniffer.like(&self.window)
    }

    /// Takes the lines of a sample.
    pub(crate) fn take_sample(&mut self, sample: &[u8]) {
        let mut start = 0;
        'characters: for at in 0..sample.len() {
            if sample[at] == b'\n' {
                let _fits = self.window.push(&sample[start..at]);
                start = at + 1;
            }
        }
        if start < sample.len() {
            let _fits = self.window.push(&sample[start..]);
        }
    }

    /// Takes a line of a log of which no forms are known; returns whether it is not looked at with those near it.
    pub(crate) fn pass(&mut self) -> bool {
        if self.ragged >= RAGGED {
            return false;
        }
        self.rest = self.rest.saturating_sub(1);
        true
    }

    /// Takes a line of a log whose forms are known; `is_new`: it may be of another one. Returns whether the lines of the window are
    /// to be looked at: there was such a line.
    pub(crate) fn offer(&mut self, line: &[u8], is_new: bool) -> bool {
        if self.rest > 0 {
            self.rest -= 1;
            return false;
        }
        if is_new {
            self.near = NEAR;
            self.is_new = true;
        }
        if self.is_later && self.near == 0 {
            return false;
        }
        self.near = self.near.saturating_sub(1);
        let is_taken = self.window.push(line) || self.push_anew(line);
        is_taken && self.is_new
    }

    /// Returns the forms of the window, once two looks in a row give them.
    pub(crate) fn look_again(&mut self) -> Option<Forms>
        ensures { self.new.window ≡ self.old.window }
    {
        let forms = self.look();
        if forms.is_some() {
            self.is_new = false;
        }
        forms
    }

    /// Ends a window that is full, for a line; returns whether the next one begins with it, as the one after the first window does
    /// if the line may be of another form.
    fn push_anew(&mut self, line: &[u8]) -> bool {
        if self.is_later || !self.is_new {
            self.end_window();
            return false;
        }
        self.clear();
        self.is_new = true;
        self.window.push(line)
    }

    /// Ends a window that is full; after one that gave no forms lines are passed over.
    fn end_window(&mut self) {
        if self.is_new {
            self.pass_over();
        }
        self.clear();
    }

    /// Passes lines over.
    fn pass_over(&mut self)
        ensures { self.new.window ≡ self.old.window }
    {
        self.rest = self.next_rest.max(REST);
        self.next_rest = if self.rest < LONGEST_REST {
            2 * self.rest
        } else {
            LONGEST_REST
        };
    }
}
