//! Where a verdict comes from: the definition of an own text, or a teller.
ghost use Rattle.std.specs.Prelude.{◌≡◌, ◌+◌, ◌≤◌, ◌<◌, true, false, ℕ, List, None, Some, length};
ghost use Rattle.fio_log.specs.Blanks.{Texts};
ghost use Rattle.fio_log.specs.Following.{Follows, HasNext, IsDue, TellsNext};
ghost use Rattle.fio_log.specs.Heard.{Above};
ghost use Rattle.fio_log.specs.Knowing.{HasWindowOf, IsLineAt, KnowsLines, SaysOf};
ghost use Rattle.fio_log.specs.Lines.{is_whole};
ghost use Rattle.fio_log.specs.OwnVerdicts.{IsOwnVerdict, own_form_of};
ghost use Rattle.fio_log.specs.Verdicts.{Agrees, WaitingAgrees};
ghost use Rattle.fio_log.specs.Waiting.{Fills, KnowsAsBefore, WaitsForOne};
ghost use Rattle.fio_log.specs.declared.verdict.Form.TheVariants.{Auto};
ghost use Rattle.fio_log.specs.declared.own_texts.OwnForm.{OwnForm};

use crate::lines::LineMaker;
use crate::teller::{At, Teller, last_line};
use crate::told::Told;
use crate::verdict::{Form, LineVerdict};

/// Reads the line that is whole; returns whether a verdict can be returned. That of a line of an own text is written to `own`.
pub(crate) fn read_line(
    form: Form,
    maker: &LineMaker,
    at: At,
    teller: &mut Teller,
    frames: &mut Told,
    own: &mut LineVerdict,
) -> bool
    ensures ready { (text : OwnForm) → own_form_of form ≡ Some text → result ≡ true }
    ensures own { (text : OwnForm) → own_form_of form ≡ Some text
        → IsOwnVerdict text maker.now.text own.new.kind own.new.reason frames.new.frames }
    ensures agrees { (text : OwnForm) → own_form_of form ≡ Some text → Agrees own.new (length frames.new.frames) }
    ensures kept { form ≡ Auto → (teller.old.is_known ≡ false → at.read ≤ at.told + length teller.old.learning.window + 1) → Fills teller.new at.read at.told }
    ensures one { form ≡ Auto → result ≡ false → WaitsForOne teller.new at.read at.told }
    ensures waiting { WaitingAgrees teller.old.waiting (length frames.old.frames)
        → WaitingAgrees teller.new.waiting (length frames.new.frames) }
    ensures known { form ≡ Auto → result ≡ true → teller.new.is_known ≡ true }
    ensures frames { form ≡ Auto → frames.new.frames ≡ frames.old.frames }
    ensures knows { form ≡ Auto → (texts : Texts) (above : ℕ) → at.read ≡ above + 1 → is_whole maker.now.ending ≡ true
        → IsLineAt texts at.read maker.now → KnowsLines texts teller.old above at.told → KnowsLines texts teller.new at.read at.told }
    ensures follows { form ≡ Auto → (texts : Texts) (above : Above) (shown : List (List ℕ)) (last : ℕ) → at.read ≡ last + 1 → is_whole maker.now.ending ≡ true
        → IsLineAt texts at.read maker.now → KnowsLines texts teller.old last at.told
        → Follows texts above teller.old maker.now shown at.read at.told → Follows texts above teller.new maker.now shown at.read at.told }
    ensures next { form ≡ Auto → (texts : Texts) (above : Above) (shown : List (List ℕ)) (last : ℕ) → at.read ≡ last + 1 → is_whole maker.now.ending ≡ true
        → IsLineAt texts at.read maker.now → KnowsLines texts teller.old last at.told
        → Follows texts above teller.old maker.now shown at.read at.told → HasNext teller.new at.read at.told }
    ensures due { form ≡ Auto → result ≡ true → IsDue teller.new at.read at.told }
{
    match form.own() {
        Some(text) => {
            teller.forget();
            *own = frames.tell_own(text, last_line(maker, at.read, at.is_ended));
            true
        }
        None => teller.read_line(maker, at),
    }
}

/// Returns the next verdict: that of the line of an own text, or the teller's.
pub(crate) fn next_verdict(
    form: Form,
    own: LineVerdict,
    maker: &LineMaker,
    at: At,
    teller: &mut Teller,
    frames: &mut Told,
) -> LineVerdict
    requires waiting { WaitingAgrees teller.old.waiting (length frames.old.frames) }
    requires own { (text : OwnForm) → own_form_of form ≡ Some text → Agrees own (length frames.old.frames) }
    ensures own { (text : OwnForm) → own_form_of form ≡ Some text → result ≡ own }
    ensures frames { (text : OwnForm) → own_form_of form ≡ Some text → frames.new ≡ frames.old }
    ensures agrees { Agrees result (length frames.new.frames) }
    ensures waiting { WaitingAgrees teller.new.waiting (length frames.new.frames) }
    ensures known { KnowsAsBefore teller.old teller.new }
    ensures none { form ≡ Auto → teller.new.waiting ≡ None }
    ensures said { form ≡ Auto → (texts : Texts) → at.told < u64.MAX → IsLineAt texts at.read maker.now
        → KnowsLines texts teller.old at.read at.told → SaysOf (texts (at.told + 1)) result }
    ensures tells { form ≡ Auto → (texts : Texts) (above : Above) → IsLineAt texts at.read maker.now → HasWindowOf texts teller.old
        → teller.old.is_known ≡ true → at.told < at.read → HasNext teller.old at.read at.told
        → (at.is_ended ≡ false → IsDue teller.old at.read at.told)
        → Follows texts above teller.old maker.now frames.old.frames at.read at.told
        → TellsNext texts teller.old.by_forms.forms above at.is_ended result.kind result.reason teller.new maker.now frames.new.frames at.read at.told }
{
    match form.own() {
        Some(_text) => own,
        None => teller.tell_next(maker, at, frames),
    }
}

/// Ends the log for the teller, if the verdict of its last line cannot be returned yet.
pub(crate) fn end_teller(form: Form, is_ready: bool, maker: &LineMaker, at: At, teller: &mut Teller)
    ensures waiting { teller.new.waiting ≡ teller.old.waiting }
    ensures kept { (form ≡ Auto → Fills teller.old at.read at.told) → form ≡ Auto → Fills teller.new at.read at.told }
    ensures known { form ≡ Auto → is_ready ≡ false → teller.new.is_known ≡ true }
    ensures same { teller.old.is_known ≡ true → teller.new.is_known ≡ true }
    ensures knows { form ≡ Auto → (texts : Texts) → KnowsLines texts teller.old at.read at.told
        → KnowsLines texts teller.new at.read at.told }
    ensures follows { form ≡ Auto → (texts : Texts) (above : Above) (shown : List (List ℕ)) → IsLineAt texts at.read maker.now
        → KnowsLines texts teller.old at.read at.told → Follows texts above teller.old maker.now shown at.read at.told → Follows texts above teller.new maker.now shown at.read at.told }
    ensures next { form ≡ Auto → (texts : Texts) (above : Above) (shown : List (List ℕ)) → IsLineAt texts at.read maker.now
        → KnowsLines texts teller.old at.read at.told → Follows texts above teller.old maker.now shown at.read at.told
        → HasNext teller.old at.read at.told → HasNext teller.new at.read at.told }
{
    if is_ready || form != Form::Auto {
        return;
    }
    teller.end(maker, at);
}

/// Hears the next line, if it is there; returns whether its verdict can be returned.
pub(crate) fn next_is_heard(form: Form, maker: &LineMaker, at: At, teller: &mut Teller) -> bool
    ensures waiting { teller.new.waiting ≡ teller.old.waiting }
    ensures known { KnowsAsBefore teller.old teller.new }
    ensures one { form ≡ Auto → result ≡ false → WaitsForOne teller.new at.read at.told }
    ensures follows { form ≡ Auto → (texts : Texts) (above : Above) (shown : List (List ℕ)) → IsLineAt texts at.read maker.now → HasWindowOf texts teller.old
        → Follows texts above teller.old maker.now shown at.read at.told → Follows texts above teller.new maker.now shown at.read at.told }
    ensures next { form ≡ Auto → (texts : Texts) (above : Above) (shown : List (List ℕ)) → Follows texts above teller.old maker.now shown at.read at.told
        → HasNext teller.new at.read at.told }
    ensures due { form ≡ Auto → result ≡ true → IsDue teller.new at.read at.told }
{
    form == Form::Auto && teller.hear_next(maker, at)
}

/// Returns whether the next verdict can be returned: after the end that of each line can.
pub(crate) fn can_tell(at: At, is_heard: bool) -> bool
    ensures less { result ≡ true → at.told < at.read }
    ensures ended { at.is_ended ≡ true → at.told < at.read → result ≡ true }
    ensures heard { is_heard ≡ true → at.told < at.read → result ≡ true }
    ensures due { result ≡ true → at.is_ended ≡ false → is_heard ≡ true }
{
    at.told < at.read && (at.is_ended || is_heard)
}
