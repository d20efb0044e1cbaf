//! Verdicts on lines of the program's own texts, which are read in the form that the caller gives.
ghost use Rattle.std.specs.Prelude.{◌≡◌, [], ◌∷◌, length, true};
ghost use Rattle.fio_log.specs.Verdicts.{Agrees};
ghost use Rattle.fio_log.specs.OwnTexts.{spells};
ghost use Rattle.fio_log.specs.OwnVerdicts.{IsOwnVerdict, own_form_of};

use crate::directions::Direction;
use crate::lines::NumberedLine;
use crate::own_texts::{OwnForm, OwnLine, read_own_line};
use crate::places::Place;
use crate::sides::said_at;
use crate::told::Told;
use crate::verdict::{Form, Kind, LineVerdict, Reason};
use fio_message::FRAME_OCTETS;

impl Form {
    /// Returns the text whose lines are read, if the form names one.
    pub(crate) fn own(self) -> Option<OwnForm>
        ensures { result ≡ own_form_of self }
    {
        match self {
            Form::Auto => None,
            Form::Frames => Some(OwnForm::Frames),
            Form::Transcript => Some(OwnForm::Transcript),
        }
    }
}

impl OwnForm {
    /// Returns who sent the octets of a line, if the text says that.
    fn said(self, line: &[u8]) -> Option<Direction> {
        match self {
            OwnForm::Frames => None,
            OwnForm::Transcript => said_at(line, 0),
        }
    }
}

impl Told {
    /// Returns the verdict on a line of an own text, and takes its frame.
    pub(crate) fn tell_own(&mut self, form: OwnForm, line: NumberedLine) -> LineVerdict
        ensures agrees { Agrees result (length self.new.frames) }
        ensures own { IsOwnVerdict form (record { octets = line.entry.text.now; is_long = line.entry.is_long }) result.kind result.reason self.new.frames }
    {
        self.clear();
        let said = form.said(line.text);
        let mut room = [0; FRAME_OCTETS];
        match read_own_line(form, line.text, &mut room) {
            OwnLine::Skipped => LineVerdict::of(line.number, Kind::Blank, Reason::None, said),
            _ if line.is_long => LineVerdict::of(line.number, Kind::Damaged, Reason::TooLong, said),
            OwnLine::Bad => LineVerdict::of(line.number, Kind::Damaged, Reason::BadLine, said),
            OwnLine::Faulty { .. } => LineVerdict::of(
                line.number,
                Kind::Damaged,
                Reason::NoMessage,
                said,
            ),
            OwnLine::Frame { count } => {
                self.take_own(form, line, &room[..count]);
                LineVerdict::of(line.number, Kind::Frames, Reason::None, said)
            }
        }
    }

    /// Takes the frame of a line.
    fn take_own(&mut self, form: OwnForm, line: NumberedLine, octets: &[u8])
        requires none { self.old.frames ≡ [] }
        requires spelled { spells octets.now ≡ true }
        ensures { self.new.frames ≡ octets.now ∷ [] }
    {
        let end = line.text.len();
        let front = match form {
            OwnForm::Frames => 0,
            OwnForm::Transcript => 2,
        };
        let _fits = self.add_frame(octets);
        let _fits = self.add_place(Place {
            line: line.number,
            start: end.min(front),
            end,
        });
    }
}
