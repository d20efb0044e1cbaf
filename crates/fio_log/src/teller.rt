//! Reads the lines of a log by forms: each is heard in order, once the forms of the log are known.
ghost use Rattle.std.specs.Prelude.{◌≡◌, ◌≢◌, ℕ, ◌+◌, ◌≤◌, ◌<◌, IfSome, IsSome, List, length, false, true, None};
ghost use Rattle.fio_log.specs.Blanks.{Texts};
ghost use Rattle.fio_log.specs.Following.{Begins, Follows, FollowsAsBefore, HasLastOf, HasLine, HasLineAt, HasNext, IsDue};
ghost use Rattle.fio_log.specs.Heard.{Above};
ghost use Rattle.fio_log.specs.Knowing.{AreLinesFrom, HasWindowOf, IsLineAt, KnowsLines};
ghost use Rattle.fio_log.specs.Lines.{Making, is_whole};
ghost use Rattle.fio_log.specs.Waiting.{Fills, KnowsAsBefore, WaitsForOne};

use crate::by_forms::{FormReader, LineHeard};
use crate::counts::ReadAs;
use crate::learning::Learning;
use crate::lines::{LineMaker, NumberedLine};
use crate::verdict::LineVerdict;
use fio_sniff::Forms;

mod telling;

/// How far a log is read.
#[derive(Clone, Copy)]
pub(crate) struct At {
    /// How many lines are read.
    pub read: u64,
    /// Of how many of these the verdict was returned.
    pub told: u64,
    /// Whether the log has ended.
    pub is_ended: bool,
}

/// Reads lines by the forms that it learns from them.
#[derive(Drop)]
pub(crate) struct Teller {
    learning: Learning,
    by_forms: FormReader,
    /// The number of the first line of the window while its lines have their verdicts; 0 before and after that. And how many
    /// lines the window had then.
    first: u64,
    lines: u64,
    /// The forms that are taken as soon as no message is open.
    found: Option<Forms>,
    /// Whether the forms of the log are known, or the first window had none.
    is_known: bool,
    /// What the line says whose verdict is next, if it was heard.
    heard: Option<LineHeard>,
    /// The verdict that is next and waits for the next line; whether that may show that its message has ended.
    waiting: Option<LineVerdict>,
    is_open: bool,
}

impl Teller {
    /// Returns a teller that has read nothing.
    pub(crate) fn new() -> Teller
        ensures waiting { result.waiting ≡ None }
        ensures kept { Fills result 0 0 }
        ensures unknown { result.is_known ≡ false }
        ensures knows { (texts : Texts) → KnowsLines texts result 0 0 }
        ensures begins { Begins result }
    {
        Teller {
            learning: Learning::new(),
            by_forms: FormReader::new(),
            first: 0,
            lines: 0,
            found: None,
            is_known: false,
            heard: None,
            waiting: None,
            is_open: false,
        }
    }

    /// Begins with another log.
    pub(crate) fn start_again(&mut self)
        ensures waiting { self.new.waiting ≡ None }
        ensures kept { Fills self.new 0 0 }
        ensures unknown { self.new.is_known ≡ false }
        ensures knows { (texts : Texts) → KnowsLines texts self.new 0 0 }
        ensures begins { Begins self.new }
    {
        self.learning.start_again();
        self.by_forms.clear();
        self.first = 0;
        self.lines = 0;
        self.found = None;
        self.is_known = false;
        self.heard = None;
        self.waiting = None;
        self.is_open = false;
    }

    /// Learns forms from sample lines; returns how many.
    pub(crate) fn like(&mut self, sample: &[u8]) -> usize
        ensures few { result ≤ 16 }
        ensures waiting { self.new.waiting ≡ self.old.waiting }
        ensures kept { Fills self.new 0 0 }
        ensures known { self.old.is_known ≡ true → self.new.is_known ≡ true }
        ensures knows { (texts : Texts) → KnowsLines texts self.old 0 0 → KnowsLines texts self.new 0 0 }
        ensures follows { (texts : Texts) (above : Above) (making : Making) (frames : List (List ℕ)) → Follows texts above self.old making frames 0 0
            → Follows texts above self.new making frames 0 0 }
    {
        self.first = 0;
        self.learning.take_sample(sample);
        let forms = self.learning.like();
        self.learning.start_again();
        self.by_forms.give(&forms);
        self.is_known = self.is_known || !forms.is_empty();
        forms.len()
    }

    /// Returns how many forms are known.
    pub(crate) fn forms(&self) -> usize {
        self.by_forms.forms().len()
    }

    /// Returns how the lines of a form look, and how many there are.
    pub(crate) fn read_as(&self, form: usize) -> Option<ReadAs<'_>> {
        self.by_forms.read_as(form)
    }

    /// Reads the line that is whole; returns whether a verdict can be returned.
    pub(crate) fn read_line(&mut self, maker: &LineMaker, at: At) -> bool
        ensures waiting { self.new.waiting ≡ self.old.waiting }
        ensures kept { (self.old.is_known ≡ false → at.read ≤ at.told + length self.old.learning.window + 1) → Fills self.new at.read at.told }
        ensures one { result ≡ false → WaitsForOne self.new at.read at.told }
        ensures known { result ≡ true → self.new.is_known ≡ true }
        ensures knows { (texts : Texts) (above : ℕ) → at.read ≡ above + 1 → is_whole maker.now.ending ≡ true → IsLineAt texts at.read maker.now
            → KnowsLines texts self.old above at.told → KnowsLines texts self.new at.read at.told }
        ensures follows { (texts : Texts) (above : Above) (frames : List (List ℕ)) (last : ℕ) → at.read ≡ last + 1 → is_whole maker.now.ending ≡ true
            → IsLineAt texts at.read maker.now → KnowsLines texts self.old last at.told
            → Follows texts above self.old maker.now frames at.read at.told → Follows texts above self.new maker.now frames at.read at.told }
        ensures next { (texts : Texts) (above : Above) (frames : List (List ℕ)) (last : ℕ) → at.read ≡ last + 1 → is_whole maker.now.ending ≡ true
            → IsLineAt texts at.read maker.now → KnowsLines texts self.old last at.told
            → Follows texts above self.old maker.now frames at.read at.told → HasNext self.new at.read at.told }
        ensures due { result ≡ true → IsDue self.new at.read at.told }
    {
        self.begin_anew(maker, at);
        if self.is_known {
            return self.hear_next(maker, at);
        }
        self.learn(maker, at);
        self.hear_next(maker, at)
    }

    /// Begins to learn the forms of a log anew from the last line on, if it is time.
    fn begin_anew(&mut self, maker: &LineMaker, at: At)
        ensures waiting { self.new.waiting ≡ self.old.waiting }
        ensures kept { (self.old.is_known ≡ false → at.read ≤ at.told + length self.old.learning.window + 1)
            → self.new.is_known ≡ false → at.read ≤ at.told + length self.new.learning.window + 1 }
        ensures knows { (texts : Texts) (above : ℕ) → at.read ≡ above + 1 → KnowsLines texts self.old above at.told
            → KnowsLines texts self.new above at.told }
        ensures follows { (texts : Texts) (above : Above) (frames : List (List ℕ)) → Follows texts above self.old maker.now frames at.read at.told
            → Follows texts above self.new maker.now frames at.read at.told }
    {
        if self.is_anew(maker, at) {
            self.learning.begin_anew();
            self.first = 0;
            self.is_known = false;
        }
    }

    /// Returns whether the forms of a log are learnt anew from the last line on: none are known, and each line above it has its
    /// verdict.
    fn is_anew(&self, maker: &LineMaker, at: At) -> bool
        ensures last { result ≡ true → at.read ≡ at.told + 1 }
        ensures heard { result ≡ true → self.now.heard ≡ None }
        ensures waiting { result ≡ true → self.now.waiting ≡ None }
    {
        self.is_known
            && self.by_forms.forms().is_empty()
            && at.told < at.read
            && at.read - at.told == 1
            && self.waiting.is_none()
            && self.heard.is_none()
            && self.learning.is_anew(maker)
    }

    /// Takes the last line into the window of a log whose forms are not known; the forms are, if two looks in a row show them, or
    /// if the window has no room for the line.
    fn learn(&mut self, maker: &LineMaker, at: At)
        requires { self.old.is_known ≡ false }
        ensures waiting { self.new.waiting ≡ self.old.waiting }
        ensures kept { at.read ≤ at.told + length self.old.learning.window + 1 → Fills self.new at.read at.told }
        ensures knows { (texts : Texts) (above : ℕ) → at.read ≡ above + 1 → is_whole maker.now.ending ≡ true → IsLineAt texts at.read maker.now
            → KnowsLines texts self.old above at.told → KnowsLines texts self.new at.read at.told }
        ensures follows { (texts : Texts) (above : Above) (frames : List (List ℕ)) (last : ℕ) → at.read ≡ last + 1 → is_whole maker.now.ending ≡ true
            → KnowsLines texts self.old last at.told
            → Follows texts above self.old maker.now frames at.read at.told → Follows texts above self.new maker.now frames at.read at.told }
    {
        let is_kept = self.learning.take(maker);
        if !is_kept {
            self.know(at);
            return;
        }
        if let Some(forms) = self.learning.look_first() {
            self.by_forms.add(&forms);
            self.by_forms.look_ahead(&self.learning.window);
            self.drain(at);
        }
    }

    /// Takes the forms of the window, whether or not they are shown early. If the log has ended, the window is all of it.
    fn know(&mut self, at: At)
        ensures waiting { self.new.waiting ≡ self.old.waiting }
        ensures known { self.new.is_known ≡ true }
        ensures knows { (texts : Texts) (read : ℕ) → read ≤ u64.MAX → KnowsLines texts self.old read at.told
            → KnowsLines texts self.new read at.told }
        ensures follows { (texts : Texts) (above : Above) (making : Making) (frames : List (List ℕ)) (read : ℕ) → read ≤ u64.MAX
            → (self.old.is_known ≡ false → HasLastOf self.old making read at.told)
            → Follows texts above self.old making frames read at.told → Follows texts above self.new making frames read at.told }
    {
        if !self.is_known {
            let forms = self.learning.last_look(at.is_ended);
            self.by_forms.add(&forms);
            self.by_forms.look_ahead(&self.learning.window);
            self.drain(at);
        }
    }

    /// Begins with the verdicts on the lines of the window.
    fn drain(&mut self, at: At)
        ensures waiting { self.new.waiting ≡ self.old.waiting }
        ensures known { self.new.is_known ≡ true }
        ensures window { (texts : Texts) → at.told + length self.old.learning.window ≤ u64.MAX
            → AreLinesFrom texts (at.told + 1) (length self.old.learning.window) self.old.learning.window → HasWindowOf texts self.new }
        ensures kept { self.new ≡ record self.old { is_known = self.new.is_known; first = self.new.first; lines = self.new.lines } }
        ensures first { at.told < u64.MAX → self.new.first ≡ at.told + 1 }
        ensures lines { self.new.lines ≡ length self.old.learning.window }
    {
        self.is_known = true;
        self.first = at.told.saturating_add(1);
        self.lines = self.learning.window.len() as u64;
    }

    /// Ends the log.
    pub(crate) fn end(&mut self, maker: &LineMaker, at: At)
        ensures known { self.new.is_known ≡ true }
        ensures waiting { self.new.waiting ≡ self.old.waiting }
        ensures knows { (texts : Texts) → KnowsLines texts self.old at.read at.told → KnowsLines texts self.new at.read at.told }
        ensures follows { (texts : Texts) (above : Above) (frames : List (List ℕ)) → IsLineAt texts at.read maker.now
            → KnowsLines texts self.old at.read at.told
            → Follows texts above self.old maker.now frames at.read at.told → Follows texts above self.new maker.now frames at.read at.told }
        ensures next { (texts : Texts) (above : Above) (frames : List (List ℕ)) → IsLineAt texts at.read maker.now
            → KnowsLines texts self.old at.read at.told
            → Follows texts above self.old maker.now frames at.read at.told → HasNext self.new at.read at.told }
    {
        self.know(at);
        self.hear_next(maker, at);
    }

    /// Hears the line whose verdict is next, if it is there; returns whether its verdict can be returned.
    pub(crate) fn hear_next(&mut self, maker: &LineMaker, at: At) -> bool
        ensures waiting { self.new.waiting ≡ self.old.waiting }
        ensures known { KnowsAsBefore self.old self.new }
        ensures one { result ≡ false → WaitsForOne self.new at.read at.told }
        ensures ready { result ≡ true → self.new.is_known ≡ true }
        ensures follows { (texts : Texts) (above : Above) (frames : List (List ℕ)) → IsLineAt texts at.read maker.now → HasWindowOf texts self.old
            → Follows texts above self.old maker.now frames at.read at.told → Follows texts above self.new maker.now frames at.read at.told }
        ensures next { (texts : Texts) (above : Above) (frames : List (List ℕ)) → Follows texts above self.old maker.now frames at.read at.told
            → HasNext self.new at.read at.told }
        ensures due { result ≡ true → IsDue self.new at.read at.told }
    {
        if !self.is_known {
            return false;
        }
        self.hear_once(maker, at);
        self.is_due(at)
    }

    /// Hears the line whose verdict is next, if no verdict waits.
    fn hear_once(&mut self, maker: &LineMaker, at: At)
        requires { self.old.is_known ≡ true }
        ensures waiting { self.new.waiting ≡ self.old.waiting }
        ensures known { KnowsAsBefore self.old self.new }
        ensures follows { (texts : Texts) (above : Above) (frames : List (List ℕ)) → IsLineAt texts at.read maker.now → HasWindowOf texts self.old
            → Follows texts above self.old maker.now frames at.read at.told → Follows texts above self.new maker.now frames at.read at.told }
        ensures next { (texts : Texts) (above : Above) (frames : List (List ℕ)) → Follows texts above self.old maker.now frames at.read at.told
            → HasNext self.new at.read at.told }
    {
        if self.waiting.is_some() {
            return;
        }
        self.end_window(at);
        self.hear_first(maker, at);
    }

    /// Hears the line whose verdict is next, if it is there and was not heard.
    fn hear_first(&mut self, maker: &LineMaker, at: At)
        requires known { self.old.is_known ≡ true }
        requires waiting { self.old.waiting ≡ None }
        ensures waiting { self.new.waiting ≡ self.old.waiting }
        ensures known { KnowsAsBefore self.old self.new }
        ensures follows { (texts : Texts) (above : Above) (frames : List (List ℕ)) → IsLineAt texts at.read maker.now → HasWindowOf texts self.old
            → Follows texts above self.old maker.now frames at.read at.told → Follows texts above self.new maker.now frames at.read at.told }
        ensures heard { (self.old.heard ≡ None → HasLineAt self.old maker.now at.read (at.told + 1)) → IsSome self.new.heard }
    {
        if self.heard.is_some() {
            return;
        }
        self.adopt();
        if let Some(line) = line_at(maker, &self.learning, self.first, self.lines, at, 1) {
            self.heard = Some(self.by_forms.hear(line));
        }
    }

    /// Ends with the lines of the window once each of them has a verdict, or waits for the one below it.
    fn end_window(&mut self, at: At)
        ensures waiting { self.new.waiting ≡ self.old.waiting }
        ensures known { KnowsAsBefore self.old self.new }
        ensures kept { self.new ≡ record self.old { first = self.new.first } }
        ensures first { self.new.first ≢ self.old.first → self.old.first + self.old.lines ≤ at.told + 1 }
    {
        if self.first > 0 && at.told >= self.first - 1 && at.told - (self.first - 1) >= self.lines {
            self.first = 0;
        }
    }

    /// Takes the forms that were found, if no message is open.
    fn adopt(&mut self)
        ensures waiting { self.new.waiting ≡ self.old.waiting }
        ensures known { KnowsAsBefore self.old self.new }
        ensures kept { self.new ≡ record self.old { by_forms = self.new.by_forms; found = self.new.found } }
        ensures reading { self.new.by_forms.reading ≡ self.old.by_forms.reading }
        ensures rows { self.new.by_forms.rows ≡ self.old.by_forms.rows }
    {
        if self.found.is_some() && self.by_forms.is_between() {
            self.adopt_found();
        }
    }

    /// Takes the forms that were found. It is no part of its caller, since forms are large, and most lines find none.
    #[inline(never)]
    fn adopt_found(&mut self)
        ensures waiting { self.new.waiting ≡ self.old.waiting }
        ensures known { KnowsAsBefore self.old self.new }
        ensures kept { self.new ≡ record self.old { by_forms = self.new.by_forms; found = self.new.found } }
        ensures reading { self.new.by_forms.reading ≡ self.old.by_forms.reading }
        ensures rows { self.new.by_forms.rows ≡ self.old.by_forms.rows }
    {
        if let Some(forms) = &self.found {
            self.by_forms.adopt(forms);
        }
        self.found = None;
    }

    /// Looks for forms that are not known among the lines below the window.
    fn look_on(&mut self, verdict: LineVerdict, maker: &LineMaker)
        ensures waiting { self.new.waiting ≡ self.old.waiting }
        ensures known { KnowsAsBefore self.old self.new }
        ensures follows { FollowsAsBefore self.old self.new }
    {
        if !self.is_known || self.first > 0 || maker.is_long() {
            return;
        }
        if self.by_forms.forms().is_empty() && self.learning.pass() {
            return;
        }
        let is_new = self.by_forms.is_new(verdict, maker.octets());
        if self.learning.offer(maker.octets(), is_new) {
            self.look_again();
        }
    }

    /// Looks for forms in the window. It is a function of its own, since forms are large, and most lines need no look.
    fn look_again(&mut self)
        ensures waiting { self.new.waiting ≡ self.old.waiting }
        ensures known { KnowsAsBefore self.old self.new }
        ensures follows { FollowsAsBefore self.old self.new }
    {
        if let Some(forms) = self.learning.look_again() {
            self.found = Some(forms);
        }
    }
}

/// Returns the line that is this many below the last one with a verdict, if it is among the lines of the window, or is the last one that
/// is read.
fn line_at<'a>(
    maker: &'a LineMaker,
    learning: &'a Learning,
    first: u64,
    lines: u64,
    at: At,
    count: u64,
) -> Option<NumberedLine<'a>>
    ensures text { (texts : Texts) → IsLineAt texts at.read maker.now → (0 < first → AreLinesFrom texts first lines learning.now.window)
        → IfSome result (λ line. texts (at.told + count) ≡ record { octets = line.text.now; is_long = line.is_long }) }
    ensures there { HasLine first lines maker.now at.read (at.told + count) → IsSome result }
    ensures had { IfSome result (λ line. HasLine first lines maker.now at.read (at.told + count)) }
{
    if at.told > at.read || at.read - at.told < count {
        return None;
    }
    let number = at.told + count;
    if first > 0 && number >= first && number - first < lines {
        return Some(NumberedLine {
            number,
            text: learning.window.line((number - first) as usize),
            is_long: false,
            is_last: at.is_ended && number == at.read,
        });
    }
    if number == at.read && maker.is_whole() {
        Some(last_line(maker, number, at.is_ended))
    } else {
        None
    }
}

/// Returns the line that is made, with its number; `is_last`: the log ends with it.
pub(crate) fn last_line(maker: &LineMaker, number: u64, is_last: bool) -> NumberedLine<'_>
    ensures text { result.text.now ≡ maker.now.text.octets }
    ensures long { result.is_long ≡ maker.now.text.is_long }
{
    NumberedLine {
        number,
        text: maker.octets(),
        is_long: maker.is_long(),
        is_last,
    }
}
