//! Laws of the definitions that the contracts cite: each function states one in its contract and does nothing.
ghost use Rattle.std.specs.Prelude.{◌≡◌, ◌≢◌, ◌<◌, length, ◌∷◌, ◌++◌, ◌⊎◌, ℕ, [], List, Option, true, false, map};
ghost use Rattle.std.specs.List.{AllByRecursion};
ghost use Rattle.fio_form.specs.declared.form.LineForm.{LineForm};
ghost use Rattle.fio_form.specs.Reading.{Damaged, Frame, Other, read_line, said_in_octets, said_whole};
ghost use Rattle.fio_form.specs.Wholes.{held_of, whole_of};
ghost use Rattle.fio_form.specs.declared.octets.TheConstants.{OCTETS};
ghost use Rattle.fio_form.specs.Writing.{AreLines, Has, IsKept, IsOther, AreOctetsIn, IsWrittenBy, frame_or_other};

/// What a logger of a form writes is read back: a line that is written of a message by the first form that has it says exactly
/// this message.
pub fn what_is_written_is_read()
    ensures { (forms : List LineForm) (message line : List ℕ) → IsWrittenBy forms message line → read_line forms line ≡ Frame message }
{}

/// Nothing else is read: a line says a message only if it is written of this message by the first form that has it.
#[tactic(auto, using(crate::proofs::Logs::written_back))]
pub fn what_is_read_is_written()
    ensures { (forms : List LineForm) (message line : List ℕ) → read_line forms line ≡ Frame message → IsWrittenBy forms message line }
{}

/// A line is another one exactly if no form has it and it does not end within the front of one. So each line that a form has
/// is a frame or damaged.
#[tactic(auto, using(crate::proofs::Logs::is_other, crate::proofs::Logs::other_read))]
pub fn other_lines_have_no_form()
    ensures other { (forms : List LineForm) (line : List ℕ) → read_line forms line ≡ Other → IsOther forms line }
    ensures read { (forms : List LineForm) (line : List ℕ) → IsOther forms line → read_line forms line ≡ Other }
{}

/// A log of its forms is read whole: if each line is written of a message by the first form that has it, or is another one,
/// then the messages are read, in order, each from its line, and no line is damaged.
#[tactic(auto, using(crate::proofs::Logs::log_read))]
pub fn a_log_of_its_forms_is_read_whole()
    ensures { (forms : List LineForm) (lines : List (List ℕ)) (messages : List (Option (List ℕ)))
        → AreLines forms lines messages → map (read_line forms) lines ≡ map frame_or_other messages }
{}

/// No octet of a line is dropped in silence: each that the first form that has the line has there is before the message, in it or
/// after it as the form says; or the line is damaged.
#[tactic(auto, using(crate::proofs::Logs::all_kept))]
pub fn octets_are_in_the_frame_or_the_line_is_damaged()
    ensures { (above : List LineForm) (form : LineForm) (below : List LineForm) (octets line : List ℕ)
        → AllByRecursion (λ other. Has other line → ⊥) above → AreOctetsIn form octets line
        → (read_line (above ++ form ∷ below) line ≡ Damaged) ⊎ IsKept form octets (read_line (above ++ form ∷ below) line) }
{}

/// A line that is cut is not taken for another one: what is left of a line that a form has, unless it is nothing, is a frame or
/// damaged. Of a form whose front may begin anywhere, what is left may have no beginning of it.
pub fn a_cut_line_is_not_another()
    ensures { (above : List LineForm) (form : LineForm) (below : List LineForm) (line rest : List ℕ)
        → form.is_anywhere ≡ false → Has form (line ++ rest) → line ≢ [] → read_line (above ++ form ∷ below) line ≢ Other }
{}

/// What octets are by `whole_of` is what a line says of which a form has these octets, if they are fewer than there is room for.
#[tactic(auto, using(crate::proofs::Telling::told))]
pub fn a_whole_is_what_a_line_says()
    ensures { (form : LineForm) (octets : List ℕ) → length octets < OCTETS → said_whole (whole_of form octets) (held_of form octets) ≡ said_in_octets form octets }
{}
