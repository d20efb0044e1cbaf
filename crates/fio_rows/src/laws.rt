//! Laws of the definitions that the contracts cite: each function states one in its contract and does nothing.
ghost use Rattle.std.specs.Prelude.{◌≡◌, ◌≤◌, ◌∷◌, ◌++◌, ◌⊎◌, ℕ, List, Option, true, false, length, map};
ghost use Rattle.std.specs.List.{AllByRecursion};
ghost use Rattle.fio_form.specs.Reading.{Frame, octets_found, read_line};
ghost use Rattle.fio_form.specs.Writing.{AreLines, frame_or_other};
ghost use Rattle.fio_form.specs.declared.form.LineForm.{LineForm};
ghost use Rattle.fio_form.specs.declared.octets.TheConstants.{OCTETS};
ghost use Rattle.fio_form.specs.declared.reading.Found.{Found};
ghost use Rattle.fio_rows.specs.Laws.{IsAdded, SaysMessages, IsSame, Left, is_other, row_by, spare};
ghost use Rattle.fio_rows.specs.Lines.{line_goes_on, has, has_next, is_message_broken, is_ended, is_message_open, next_octets, open_form, read_in, says_message};
ghost use Rattle.fio_rows.specs.Places.{AreAt, AreWithin, AreWritten, digits_behind_front, next_digits, next_places, form_places, text_between};
ghost use Rattle.fio_rows.specs.RowLaws.{AreAlone, IsAlone, IsInRows, IsReadInRows, IsWrittenInRows, Row, read_rows, said_in_turn};
ghost use Rattle.fio_rows.specs.Rows.{Rows};

/// What a line is said to say is a message, and so is what may end with it.
#[tactic(auto, using(crate::proofs::LineLaws::read_right))]
pub fn what_is_said_is_a_message()
    ensures { (forms : List LineForm) (line tail : List ℕ) (state : Rows) → SaysMessages (read_in forms line tail state) }
{}

/// A line is said to be another one only if no form has it; and then it is, if no message is open.
#[tactic(auto, using(crate::proofs::OtherLines::other_none, crate::proofs::OtherLines::none_other))]
pub fn other_lines_have_no_form()
    ensures other { (forms : List LineForm) (line tail : List ℕ) (state : Rows)
        → is_other (read_in forms line tail state).said ≡ true → AllByRecursion (λ form. has form line ≡ false) forms }
    ensures read { (forms : List LineForm) (line tail : List ℕ) (state : Rows) → is_message_open state.pending ≡ false
        → AllByRecursion (λ form. has form line ≡ false) forms → is_other (read_in forms line tail state).said ≡ true }
{}

/// Nothing that is open is dropped in silence: the octets of a line that goes on are after it, or the line is damaged; and if
/// no line goes on with it, its message has ended, or is said to be broken, or there is nothing of it.
#[tactic(auto, using(crate::proofs::OtherLines::row_kept, crate::proofs::OtherLines::open_said))]
pub fn what_is_open_is_kept_or_said()
    ensures row { (forms : List LineForm) (line tail : List ℕ) (state : Rows) → line_goes_on forms line state ≡ true
        → IsAdded state.octets (row_by (open_form forms state) line) (read_in forms line tail state) }
    ensures rest { (forms : List LineForm) (line : List ℕ) (state : Rows) → is_message_open state.pending ≡ true → line_goes_on forms line state ≡ false
        → Left (is_ended forms line state) (is_message_broken forms line state) (length state.octets) (spare (open_form forms state)) }
{}

/// A line below no open message is read as if the log began there: what is known from above does not count.
#[tactic(auto, using(crate::proofs::OtherLines::read_same))]
pub fn a_line_below_nothing_open_is_read_by_itself()
    ensures { (forms : List LineForm) (line tail : List ℕ) (a b : Rows) → is_message_open a.pending ≡ false → is_message_open b.pending ≡ false
        → IsSame (read_in forms line tail a) (read_in forms line tail b) }
{}

/// A line below no open message says what `read_line` of `fio_form` says of it: a message that it says is that one; and a message
/// that `read_line` says by forms without rows is said, if there is room for its octets and the logger left none out after them.
#[tactic(auto, using(crate::proofs::LinesByThemselves::itself_says, crate::proofs::LinesByThemselves::itself_said))]
pub fn a_line_by_itself_is_read_by_its_form()
    ensures read { (forms : List LineForm) (line tail : List ℕ) (state : Rows) → is_message_open state.pending ≡ false
        → says_message (read_in forms line tail state).said ≡ true → read_line forms line ≡ Frame (read_in forms line tail state).message }
    ensures said { (forms : List LineForm) (line tail message : List ℕ) (state : Rows) → is_message_open state.pending ≡ false
        → IsAlone forms line tail → read_line forms line ≡ Frame message → IsReadInRows message (read_in forms line tail state) }
{}

/// A log of lines by themselves is read whole: if each line is written of a message by the first form that has it, or is another
/// one, and no form has rows, then the messages are said, in order, each of its line, and no line is damaged.
#[tactic(auto, using(crate::proofs::LinesByThemselves::log_alone))]
pub fn a_log_of_lines_by_themselves_is_read_whole()
    ensures { (forms : List LineForm) (rows : List Row) (messages : List (Option (List ℕ))) (state : Rows) → is_message_open state.pending ≡ false
        → AreAlone forms rows → AreLines forms (map (λ (row : Row). row.line) rows) messages
        → said_in_turn forms rows state ≡ map frame_or_other messages }
{}

/// What a logger writes of a message in rows is read, if no message is open above it: rows of a form at offsets that go on, of
/// a width, or of nothing but octets, each of which but the last lacks some of the message.
#[tactic(auto, using(crate::proofs::RowLemmas::rows_read))]
pub fn what_is_written_in_rows_is_read()
    ensures { (others below : List LineForm) (form : LineForm) (message : List ℕ) (row : Row) (rows : List Row) (state : Rows)
        → is_message_open state.pending ≡ false → IsWrittenInRows others form message row rows
        → IsReadInRows message (read_rows (others ++ form ∷ below) (row ∷ rows) state) }
{}

/// Nothing else is read: the message that a line says is in the octets that its form, one of the forms, has in it, or in these
/// and those that were open above it, in their order.
#[tactic(auto, using(crate::proofs::RowsRead::read_in_rows))]
pub fn what_is_read_is_in_the_rows()
    ensures { (forms : List LineForm) (line tail : List ℕ) (state : Rows) → says_message (read_in forms line tail state).said ≡ true
        → IsInRows forms line state.octets (read_in forms line tail state) }
{}

/// The octets that a form has in a line are where they are found: the text from the first one up to the end of the last one,
/// by itself, is these octets as the form writes them, and nothing else.
pub fn octets_stand_where_they_are_found()
    ensures first { (form : LineForm) (line : List ℕ) (found : Found) → has form line ≡ true → length (octets_found form line) ≤ OCTETS
        → AreWithin found line → AreAt found line (form_places form line)
        → AreWritten (digits_behind_front form line) form.cycle.items (octets_found form line) (text_between found line) }
    ensures next { (form : LineForm) (line : List ℕ) (found : Found) → has_next form line ≡ true → length (next_octets form line) ≤ OCTETS
        → AreWithin found line → AreAt found line (next_places form line)
        → AreWritten (next_digits form line) form.cycle.items (next_octets form line) (text_between found line) }
{}
