//! The reader of a log: it turns octets into lines, and lines into verdicts.
ghost use Rattle.std.specs.Prelude.{◌≡◌, ◌+◌, ◌≤◌, ◌<◌, ◌↔◌, true, false, None, Some, IfSome, IsSome, MatchOption, [], get_or, length, slice_index_or, take};
ghost use Rattle.fio_message.specs.declared.types.TheConstants.{SET_OUTPUTS_ANSWER};
ghost use Rattle.fio_log.specs.Blanks.{Texts, is_blank_line};
ghost use Rattle.fio_log.specs.Frames.{code_of};
ghost use Rattle.fio_log.specs.Heard.{Above};
ghost use Rattle.fio_log.specs.Lines.{finished, is_whole, no_line};
ghost use Rattle.fio_log.specs.OwnTexts.{spells};
ghost use Rattle.fio_log.specs.Others.{answers_others, no_others, passed, passes, taken_below};
ghost use Rattle.fio_log.specs.OwnVerdicts.{IsOwnVerdict, own_form_of};
ghost use Rattle.fio_log.specs.Telling.{BeginsLog, HasNoMore, HasReadAsBefore, HasTaken, HasTold, HasToldLine, IsTextOf, KeepsVerdict, Knows, Stands, frames_of, has_told_all, places_of, read_at_end};
ghost use Rattle.fio_log.specs.Verdicts.{WaitingAgrees};
ghost use Rattle.fio_log.specs.Waiting.{Fills, WaitsForOne};
ghost use Rattle.fio_log.specs.Wordings.{SaysWords};
ghost use Rattle.fio_log.specs.declared.verdict.Kind.TheVariants.{Blank};
ghost use Rattle.fio_log.specs.declared.verdict.Form.TheVariants.{Auto};
ghost use Rattle.fio_log.specs.declared.own_texts.OwnForm.{OwnForm};

use crate::counts::ReadAs;
use crate::foreign::Foreign;
use crate::lines::LineMaker;
use crate::others::Others;
use crate::places::Place;
use crate::teller::{At, Teller};
use crate::told::Told;
use crate::verdict::{Form, Kind, LineVerdict, Reason};
use sources::{can_tell, end_teller, next_is_heard, next_verdict, read_line};
use std::marker::Model;

mod sources;

/// A reader of a log: takes its octets in pieces of any size, and returns a verdict on each line, in order, with the frames of
/// the line and the places where they are written.
///
/// Call `verdict` until it returns `None`, then feed the next octets; at the end of the log call `end`, and then `verdict`
/// until it returns `None`. The frames and places of a verdict are there until the next call that changes the reader. The
/// first verdicts wait until the forms of the log are known: at most a window of lines. The head of the crate has an example.
#[derive(Drop)]
pub struct Reader {
    maker: LineMaker,
    teller: Teller,
    frames: Told,
    form: Form,
    /// The verdict on the last line, if `form` names one of the program's own texts.
    own: LineVerdict,
    /// What is counted of messages that this protocol has not.
    others: Others,
    /// How many lines are read, and of how many the verdict was returned.
    read: u64,
    told: u64,
    is_ready: bool,
    is_ended: bool,
}

impl Model for Reader {
    ghost use Rattle.std.specs.Prelude.{◌≡◌, ◌+◌, ◌≤◌, ◌<◌, Some, false, length, true};
    ghost use Rattle.fio_log.specs.Lines.{is_whole};
    ghost use Rattle.fio_log.specs.OwnVerdicts.{IsToldByOrder, own_form_of};
    ghost use Rattle.fio_log.specs.Telling.{Telling};
    ghost use Rattle.fio_log.specs.Verdicts.{WaitingAgrees};
    ghost use Rattle.fio_log.specs.Waiting.{Fills, WaitsForOne};
    ghost use Rattle.fio_log.specs.declared.verdict.Form.TheVariants.{Auto};
    ghost use Rattle.fio_log.specs.declared.own_texts.OwnForm.{OwnForm};

    ghost Value = { Telling };

    ghost view = { λ r. record {
      form = r.form;
      making = r.maker;
      read = r.read;
      told = r.told;
      is_ready = r.is_ready;
      is_ended = r.is_ended;
      last = r.frames;
      teller = r.teller;
      others = r.others;
    } };

    ghost invariant = { λ r. (r.told ≤ r.read)
        × (r.is_ready ≡ true → r.told < r.read)
        × (r.is_ended ≡ true → r.told < r.read → r.is_ready ≡ true)
        × (r.is_ready ≡ true → r.is_ended ≡ false → is_whole r.maker.ending ≡ true)
        × ((own : OwnForm) → own_form_of r.form ≡ Some own → r.told < r.read
        → (r.is_ready ≡ true) × (r.told + 1 ≡ r.read) × IsToldByOrder own r.maker r.own r.frames)
        × (WaitingAgrees r.teller.waiting (length r.frames.frames))
        × (r.form ≡ Auto → Fills r.teller r.read r.told)
        × (r.form ≡ Auto → r.is_ready ≡ false → r.is_ended ≡ false → WaitsForOne r.teller r.read r.told) };
}

impl Reader {
    /// Returns a reader that has read nothing.
    pub fn new(form: Form) -> Reader
        ensures line { result.making ≡ no_line }
        ensures none_read { result.read ≡ 0 }
        ensures none_told { result.told ≡ 0 }
        ensures open { result.is_ended ≡ false }
        ensures form { result.form ≡ form }
        ensures knows { (texts : Texts) → Knows texts result }
        ensures begins { BeginsLog result }
        ensures others { result.others ≡ no_others }
    {
        Reader {
            maker: LineMaker::new(),
            teller: Teller::new(),
            frames: Told::new(),
            form,
            own: LineVerdict::of(0, Kind::Blank, Reason::None, None),
            others: Others::new(),
            read: 0,
            told: 0,
            is_ready: false,
            is_ended: false,
        }
    }

    /// Starts again with another log, which is read in the same form.
    pub fn start_again(&mut self)
        ensures line { self.new.making ≡ no_line }
        ensures none_read { self.new.read ≡ 0 }
        ensures none_told { self.new.told ≡ 0 }
        ensures open { self.new.is_ended ≡ false }
        ensures form { self.new.form ≡ self.old.form }
        ensures knows { (texts : Texts) → Knows texts self.new }
        ensures begins { BeginsLog self.new }
        ensures others { self.new.others ≡ no_others }
    {
        self.maker.restart();
        self.teller.start_again();
        self.frames.clear();
        self.own = LineVerdict::of(0, Kind::Blank, Reason::None, None);
        self.others = Others::new();
        self.read = 0;
        self.told = 0;
        self.is_ready = false;
        self.is_ended = false;
    }

    /// Learns forms from sample lines, by which the lines of the log are read from its beginning; returns how many. It learns
    /// none once a line of the log is read, or if the log is one of the program's own texts.
    pub fn like(&mut self, sample: &[u8]) -> usize
        ensures same { HasReadAsBefore self.old self.new }
        ensures knows { (texts : Texts) → Knows texts self.old → Knows texts self.new }
        ensures stands { (texts : Texts) (above : Above) → Stands texts above self.old → Stands texts above self.new }
        ensures late { 0 < self.old.read → result ≡ 0 }
        ensures few { result ≤ 16 }
        ensures own { (own : OwnForm) → own_form_of self.old.form ≡ Some own → result ≡ 0 }
    {
        if self.read > 0 || self.form != Form::Auto {
            return 0;
        }
        self.teller.like(sample)
    }

    /// Returns how many forms are known.
    pub fn forms(&self) -> usize {
        self.teller.forms()
    }

    /// Returns how the lines of a form look, and how many there are.
    pub fn read_as(&self, form: usize) -> Option<ReadAs<'_>> {
        self.teller.read_as(form)
    }

    /// Returns whether the log has ended and every verdict is fetched.
    pub fn has_told_all(&self) -> bool
        ensures { result ≡ has_told_all self.now }
    {
        self.is_ended && self.told == self.read
    }

    /// Takes octets of the log, at most up to the end of a line, and returns how many it has taken. It takes none while a
    /// verdict can be fetched, after the end, or after 2^64 - 1 lines.
    pub fn feed(&mut self, octets: &[u8]) -> usize
        ensures within { result ≤ length octets.now }
        ensures taken { 0 < result → HasTaken self.old (take result octets.now) self.new }
        ensures none { result ≡ 0 → self.new ≡ self.old }
        ensures forward { self.old.is_ready ≡ false → self.old.is_ended ≡ false → self.old.read < u64.MAX
            → 0 < length octets.now → 0 < result }
        ensures knows { (texts : Texts) → Knows texts self.old → IsTextOf texts self.new → Knows texts self.new }
        ensures stands { (texts : Texts) (above : Above) → Knows texts self.old → Stands texts above self.old → IsTextOf texts self.new
            → Stands texts above self.new }
        ensures others { self.new.others ≡ self.old.others }
    {
        if self.is_ready || self.is_ended || self.read == u64::MAX || octets.is_empty() {
            return 0;
        }
        let above = At {
            read: self.read,
            told: self.told,
            is_ended: false,
        };
        self.teller.settle(&self.maker, above, &mut self.frames);
        let count = self.maker.take(octets);
        if self.maker.is_whole() {
            self.read += 1;
            let here = At {
                read: self.read,
                told: self.told,
                is_ended: false,
            };
            self.is_ready = read_line(
                self.form,
                &self.maker,
                here,
                &mut self.teller,
                &mut self.frames,
                &mut self.own,
            );
        }
        count
    }

    /// Ends the log: the line that is being made is its last one, if it has octets. From now on `verdict` returns the verdicts
    /// of all lines that are left. A verdict that could be fetched before stays as it was.
    pub fn end(&mut self)
        ensures ended { self.new.is_ended ≡ true }
        ensures line { self.old.is_ended ≡ false → self.old.read < u64.MAX
            → (self.new.making ≡ finished self.old.making)
            × (self.new.read ≡ read_at_end self.old.read self.old.making) }
        ensures told { self.new.told ≡ self.old.told }
        ensures form { self.new.form ≡ self.old.form }
        ensures ready { self.old.is_ready ≡ true → KeepsVerdict self.old self.new }
        ensures knows { (texts : Texts) → Knows texts self.old → IsTextOf texts self.new → Knows texts self.new }
        ensures stands { (texts : Texts) (above : Above) → Knows texts self.old → Stands texts above self.old → IsTextOf texts self.new
            → Stands texts above self.new }
        ensures others { self.new.others ≡ self.old.others }
    {
        if self.is_ended {
            return;
        }
        if self.is_ready {
            self.is_ended = true;
            return;
        }
        self.finish_line();
        let last = At {
            read: self.read,
            told: self.told,
            is_ended: true,
        };
        end_teller(
            self.form,
            self.is_ready,
            &self.maker,
            last,
            &mut self.teller,
        );
        self.is_ended = true;
        self.is_ready = self.told < self.read;
    }

    /// Ends the line that is being made, and reads it if it has octets.
    fn finish_line(&mut self)
        requires unready { self.old.is_ready ≡ false }
        requires open { self.old.is_ended ≡ false }
        ensures line { self.old.read < u64.MAX → (self.new.making ≡ finished self.old.making)
            × (self.new.read ≡ read_at_end self.old.read self.old.making) }
        ensures told { self.new.told ≡ self.old.told }
        ensures form { self.new.form ≡ self.old.form }
        ensures open { self.new.is_ended ≡ false }
        ensures knows { (texts : Texts) → Knows texts self.old → IsTextOf texts self.new → Knows texts self.new }
        ensures stands { (texts : Texts) (above : Above) → Knows texts self.old → Stands texts above self.old → IsTextOf texts self.new
            → Stands texts above self.new }
        ensures others { self.new.others ≡ self.old.others }
    {
        if self.read == u64::MAX || self.maker.is_whole() {
            return;
        }
        let above = At {
            read: self.read,
            told: self.told,
            is_ended: false,
        };
        self.teller.settle(&self.maker, above, &mut self.frames);
        self.maker.finish();
        if self.maker.is_whole() {
            self.read += 1;
            let here = At {
                read: self.read,
                told: self.told,
                is_ended: false,
            };
            self.is_ready = read_line(
                self.form,
                &self.maker,
                here,
                &mut self.teller,
                &mut self.frames,
                &mut self.own,
            );
        }
    }

    /// Returns the verdict on the next line; `None` if it depends on later octets, or if each line that is read has its
    /// verdict. After the end `None` means that each line of the log has one.
    pub fn verdict(&mut self) -> Option<LineVerdict>
        ensures ready { self.old.is_ready ≡ true → IsSome result }
        ensures told { MatchOption result (HasNoMore self.old self.new) (λ verdict. HasTold self.old verdict self.new) }
        ensures all { self.old.is_ended ≡ true → result ≡ None → self.old.told ≡ self.old.read }
        ensures own { (own : OwnForm) → own_form_of self.old.form ≡ Some own → IfSome result (λ verdict.
            IsOwnVerdict own self.new.making.text verdict.kind verdict.reason (frames_of self.new)) }
        ensures last { (own : OwnForm) → own_form_of self.old.form ≡ Some own → IfSome result (λ verdict.
            (verdict.line ≡ self.new.read) × (is_whole self.new.making.ending ≡ true)) }
        ensures knows { (texts : Texts) → Knows texts self.old → Knows texts self.new }
        ensures line { (texts : Texts) (above : Above) → Knows texts self.old → Stands texts above self.old → self.old.form ≡ Auto
            → MatchOption result (Stands texts above self.new) (λ verdict. HasToldLine texts above self.old verdict self.new) }
        ensures words { (texts : Texts) → Knows texts self.old → self.old.form ≡ Auto
            → IfSome result (λ verdict. SaysWords (texts verdict.line).octets verdict.reason) }
        ensures blank { (texts : Texts) → Knows texts self.old → self.old.form ≡ Auto
            → IfSome result (λ verdict. verdict.kind ≡ Blank → is_blank_line (texts verdict.line) ≡ true) }
        ensures counted { IfSome result (λ verdict. self.new.others ≡ taken_below self.old.others verdict (code_of (frames_of self.new))) }
        ensures answers { IfSome result (λ verdict. answers_others self.old.others verdict (code_of (frames_of self.new)) ≡ true
            → verdict.foreign ≡ SET_OUTPUTS_ANSWER) }
    {
        if !self.is_ready {
            return None;
        }
        let above = At {
            read: self.read,
            told: self.told,
            is_ended: self.is_ended,
        };
        let verdict = next_verdict(
            self.form,
            self.own,
            &self.maker,
            above,
            &mut self.teller,
            &mut self.frames,
        );
        self.told += 1;
        let here = At {
            read: self.read,
            told: self.told,
            is_ended: self.is_ended,
        };
        let is_heard = next_is_heard(self.form, &self.maker, here, &mut self.teller);
        self.is_ready = can_tell(here, is_heard);
        let told = LineVerdict {
            line: self.told,
            frames: self.frames.frames(),
            places: self.frames.places(),
            ..verdict
        };
        let code = self.frames.code();
        let foreign = self.others.foreign_of(&told, code);
        let told = LineVerdict { foreign, ..told };
        self.others.take(&told, code);
        Some(told)
    }

    /// Takes a line that has its verdict, by its kind and what `foreign` and `header.control` say of it; returns whether it is passed
    /// over as it has a message that this protocol has not. All lines that have their verdicts show whether that is no damage.
    pub fn passes(&mut self, kind: Kind, foreign: u8, size: u8) -> bool
        ensures tells { result ≡ passes self.old.others kind (record { code = foreign; octets = size }) }
        ensures next { self.new ≡ record self.old { others = passed self.old.others kind (record { code = foreign; octets = size }) } }
    {
        self.others.pass(
            kind,
            Foreign {
                code: foreign,
                octets: size,
            },
        )
    }

    /// Returns a frame of the last verdict, until the next call that changes the reader.
    pub fn frame(&self, index: usize) -> Option<&[u8]>
        ensures given { IsSome result ↔ (index < length (frames_of self.now)) }
        ensures spelled { IfSome result (λ octets. spells octets.now ≡ true) }
        ensures same { IfSome result (λ octets. octets.now ≡ get_or (frames_of self.now) index []) }
    {
        self.frames.frame(index)
    }

    /// Returns a place where octets of the last verdict's frames are written.
    pub fn place(&self, index: usize) -> Option<Place>
        ensures given { IsSome result ↔ (index < length (places_of self.now)) }
        ensures same { IfSome result (λ place. place ≡ slice_index_or (places_of self.now) index place) }
    {
        self.frames.place(index)
    }
}
