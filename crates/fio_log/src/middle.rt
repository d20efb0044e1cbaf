//! Lines of which the middle is gone.
use crate::digits::{digit, is_letter};
use fio_form::{Digits, LineForm, Step, pieces_in};

/// Returns where the most pieces of a form's front end that a line begins with, less than all; `None` if it begins with none.
fn begun_in(form: &LineForm, line: &[u8]) -> Option<usize> {
    let mut begun = None;
    'pieces: for count in 1..form.front().len() {
        match pieces_in(form, 0, count, line) {
            Some(place) if place <= line.len() => begun = Some(place),
            _ => return begun,
        }
    }
    begun
}

/// Returns whether a text is the end of a line of a form: digits and what is between octets, and after these no word.
fn is_end(form: &LineForm, text: &[u8]) -> bool {
    let mut has_digit = false;
    let mut is_tail = false;
    for character in text {
        if is_tail {
            if is_letter(*character) {
                return false;
            }
        } else if digit(*character).is_some() {
            has_digit = true;
        } else if *character != b' ' && !form.cycle().contains(&Step::Mark(*character)) {
            if is_letter(*character) {
                return false;
            }
            is_tail = true;
        }
    }
    has_digit
}

/// Returns whether a form writes octets as digits after a front that begins the line.
fn is_of_digits(form: &LineForm) -> bool {
    !form.is_anywhere
        && !matches!(
            form.digits(),
            Digits::Text(_) | Digits::Cells | Digits::Sextets
        )
}

/// Returns whether a line that no form has begins as the front of one does, and then ends as its octets do.
pub(crate) fn lacks_middle(forms: &[LineForm], line: &[u8]) -> bool {
    for form in forms {
        if is_of_digits(form)
            && let Some(place) = begun_in(form, line)
            && place <= line.len()
            && is_end(form, &line[place..])
        {
            return true;
        }
    }
    false
}
