//! Reports the lines that were heard: each once its verdict depends on no line below it.
ghost use Rattle.std.specs.Prelude.{◌≡◌, ◌⊎◌, ◌+◌, ◌≤◌, ◌<◌, length, false, true, None};
ghost use Rattle.fio_rows.specs.Lines.{is_message_whole};
ghost use Rattle.fio_log.specs.Blanks.{Texts};
ghost use Rattle.fio_log.specs.Following.{Follows, HasLineAt, HasNext, HasSameLines, IsDue, TellsLine, TellsNext};
ghost use Rattle.fio_log.specs.Heard.{Above, IsHeardOf, above_of};
ghost use Rattle.fio_log.specs.Knowing.{HasWindowOf, IsLineAt, KnowsLines, SaysOf};
ghost use Rattle.fio_log.specs.Lines.{Text};
ghost use Rattle.fio_log.specs.Verdicts.{Agrees, WaitingAgrees};
ghost use Rattle.fio_log.specs.Waiting.{KnowsAsBefore};

use super::{At, Teller, line_at};
use crate::by_forms::LineHeard;
use crate::lines::LineMaker;
use crate::told::Told;
use crate::verdict::{Kind, LineVerdict, Reason};

impl Teller {
    /// Returns whether the next verdict can be returned: the line below it is there, or it does not wait for that.
    pub(crate) fn is_due(&self, at: At) -> bool
        ensures one { result ≡ false → at.read ≤ at.told + 1 }
        ensures due { result ≡ true → IsDue self.now at.read at.told }
    {
        if at.told < at.read && at.read - at.told > 1 {
            return true;
        }
        match (self.waiting, self.heard) {
            (None, Some(heard)) => !self.by_forms.waits(heard),
            _ => false,
        }
    }

    /// Reports the line that was heard, whose text goes with the next octets.
    pub(crate) fn settle(&mut self, maker: &LineMaker, at: At, frames: &mut Told)
        requires { WaitingAgrees self.old.waiting (length frames.old.frames) }
        ensures agrees { WaitingAgrees self.new.waiting (length frames.new.frames) }
        ensures known { KnowsAsBefore self.old self.new }
        ensures knows { (texts : Texts) → at.told < u64.MAX → IsLineAt texts at.read maker.now → KnowsLines texts self.old at.read at.told
            → KnowsLines texts self.new at.read at.told }
        ensures heard { self.new.heard ≡ None }
        ensures next { HasNext self.old at.read at.told → HasNext self.new at.read at.told }
        ensures follows { (texts : Texts) (above : Above) → IsLineAt texts at.read maker.now → HasWindowOf texts self.old
            → Follows texts above self.old maker.now frames.old.frames at.read at.told
            → Follows texts above self.new maker.now frames.new.frames at.read at.told }
    {
        if let Some(heard) = self.heard {
            let verdict = self.tell_heard(maker, at, heard, frames);
            self.waiting = Some(verdict);
            self.heard = None;
        }
    }

    /// Reports what was heard of the line whose verdict is next.
    fn tell_heard(
        &mut self,
        maker: &LineMaker,
        at: At,
        heard: LineHeard,
        frames: &mut Told,
    ) -> LineVerdict
        ensures agrees { Agrees result (length frames.new.frames) }
        ensures waiting { self.new.waiting ≡ self.old.waiting }
        ensures known { KnowsAsBefore self.old self.new }
        ensures said { (texts : Texts) → at.told < u64.MAX → IsLineAt texts at.read maker.now → HasWindowOf texts self.old
            → SaysOf (texts (at.told + 1)) result }
        ensures same { HasSameLines self.old self.new }
        ensures heard { self.new.heard ≡ self.old.heard }
        ensures whole { is_message_whole self.new.by_forms.reading.pending ≡ true → is_message_whole self.old.by_forms.reading.pending ≡ true }
        ensures told { (texts : Texts) (above : Above) → IsLineAt texts at.read maker.now → HasWindowOf texts self.old
            → HasLineAt self.old maker.now at.read (at.told + 1)
            → IsHeardOf self.old.by_forms.forms (texts (at.told + 1)) above.state heard self.old.by_forms.reading
            → above.rows ≡ length self.old.by_forms.rows.places.items
            → TellsLine false self.old.by_forms.forms (texts (at.told + 1)) above result.kind result.reason frames.new.frames (above_of self.new.by_forms) }
        ensures open_message { HasLineAt self.old maker.now at.read (at.told + 1) → is_message_whole self.new.by_forms.reading.pending ≡ true
            → self.new.is_open ≡ true }
    {
        let Some(line) = line_at(maker, &self.learning, self.first, self.lines, at, 1) else {
            frames.clear();
            return LineVerdict::of(0, Kind::Damaged, Reason::NoMessage, None);
        };
        self.is_open = self.by_forms.is_open();
        let verdict = self.by_forms.tell(line, heard, frames);
        self.look_on(verdict, maker);
        verdict
    }

    /// Returns the next verdict.
    pub(crate) fn tell_next(&mut self, maker: &LineMaker, at: At, frames: &mut Told) -> LineVerdict
        requires { WaitingAgrees self.old.waiting (length frames.old.frames) }
        ensures agrees { Agrees result (length frames.new.frames) }
        ensures waiting { self.new.waiting ≡ None }
        ensures known { KnowsAsBefore self.old self.new }
        ensures said { (texts : Texts) → at.told < u64.MAX → IsLineAt texts at.read maker.now → KnowsLines texts self.old at.read at.told
            → SaysOf (texts (at.told + 1)) result }
        ensures tells { (texts : Texts) (above : Above) → IsLineAt texts at.read maker.now → HasWindowOf texts self.old
            → self.old.is_known ≡ true → at.told < at.read → HasNext self.old at.read at.told
            → (at.is_ended ≡ false → IsDue self.old at.read at.told)
            → Follows texts above self.old maker.now frames.old.frames at.read at.told
            → TellsNext texts self.old.by_forms.forms above at.is_ended result.kind result.reason self.new maker.now frames.new.frames at.read at.told }
    {
        let (verdict, waits) = self.tell_first(maker, at, frames);
        self.forget();
        if waits {
            self.tell_waiting(maker, at, verdict, frames)
        } else {
            verdict
        }
    }

    /// Returns what the line says whose verdict is next, and whether that waits for the line below.
    fn tell_first(&mut self, maker: &LineMaker, at: At, frames: &mut Told) -> (LineVerdict, bool)
        requires { WaitingAgrees self.old.waiting (length frames.old.frames) }
        ensures agrees { Agrees result.0 (length frames.new.frames) }
        ensures known { KnowsAsBefore self.old self.new }
        ensures said { (texts : Texts) → at.told < u64.MAX → IsLineAt texts at.read maker.now → KnowsLines texts self.old at.read at.told
            → SaysOf (texts (at.told + 1)) result.0 }
        ensures same { HasSameLines self.old self.new }
        ensures told { (texts : Texts) (above : Above) → IsLineAt texts at.read maker.now → HasWindowOf texts self.old
            → self.old.is_known ≡ true → at.told < at.read → HasNext self.old at.read at.told
            → Follows texts above self.old maker.now frames.old.frames at.read at.told
            → TellsLine false self.old.by_forms.forms (texts (at.told + 1)) above result.0.kind result.0.reason frames.new.frames (above_of self.new.by_forms) }
        ensures open_message { (texts : Texts) (above : Above) → self.old.is_known ≡ true → at.told < at.read → HasNext self.old at.read at.told
            → Follows texts above self.old maker.now frames.old.frames at.read at.told
            → is_message_whole self.new.by_forms.reading.pending ≡ true → self.new.is_open ≡ true }
        ensures due { self.old.waiting ≡ None → is_message_whole self.old.by_forms.reading.pending ≡ false
            → is_message_whole self.new.by_forms.reading.pending ≡ false }
        ensures whole { result.1 ≡ false → is_message_whole self.new.by_forms.reading.pending ≡ false }
    {
        match (self.waiting, self.heard) {
            (Some(verdict), _) => (verdict, true),
            (None, Some(heard)) => {
                let waits = self.by_forms.waits(heard);
                (self.tell_heard(maker, at, heard, frames), waits)
            }
            (None, None) => {
                frames.clear();
                (
                    LineVerdict::of(0, Kind::Damaged, Reason::NoMessage, None),
                    true,
                )
            }
        }
    }

    /// Forgets what is said of the line whose verdict is next.
    pub(crate) fn forget(&mut self)
        ensures waiting { self.new.waiting ≡ None }
        ensures known { KnowsAsBefore self.old self.new }
        ensures kept { self.new ≡ record self.old { waiting = None; heard = None } }
    {
        self.waiting = None;
        self.heard = None;
    }

    /// Returns a verdict that waits for the line below, or the end of the log.
    fn tell_waiting(
        &mut self,
        maker: &LineMaker,
        at: At,
        verdict: LineVerdict,
        frames: &mut Told,
    ) -> LineVerdict
        requires { Agrees verdict (length frames.old.frames) }
        ensures agrees { Agrees result (length frames.new.frames) }
        ensures waiting { self.new.waiting ≡ self.old.waiting }
        ensures known { KnowsAsBefore self.old self.new }
        ensures said { (text : Text) → SaysOf text verdict → SaysOf text result }
        ensures tells { (texts : Texts) (above : Above) → IsLineAt texts at.read maker.now → HasWindowOf texts self.old → at.told < at.read
            → self.old.is_known ≡ true → self.old.heard ≡ None → self.old.waiting ≡ None
            → (is_message_whole self.old.by_forms.reading.pending ≡ true → self.old.is_open ≡ true)
            → (at.is_ended ≡ false → (at.told + 2 ≤ at.read) ⊎ (is_message_whole self.old.by_forms.reading.pending ≡ false))
            → Follows texts (above_of self.old.by_forms) self.old maker.now frames.old.frames at.read (at.told + 1)
            → TellsLine false self.old.by_forms.forms (texts (at.told + 1)) above verdict.kind verdict.reason frames.old.frames (above_of self.old.by_forms)
            → TellsNext texts self.old.by_forms.forms above at.is_ended result.kind result.reason self.new maker.now frames.new.frames at.read at.told }
    {
        let Some(line) = line_at(maker, &self.learning, self.first, self.lines, at, 2) else {
            return if at.is_ended {
                self.by_forms.tell_end(verdict, frames)
            } else {
                verdict
            };
        };
        if !self.is_open {
            return verdict;
        }
        let heard = self.by_forms.hear(line);
        self.heard = Some(heard);
        if heard.said.is_ended {
            self.by_forms.tell_ended(verdict, false, frames)
        } else {
            verdict
        }
    }
}
