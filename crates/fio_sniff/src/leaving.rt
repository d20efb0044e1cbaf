//! Octets in the lines that no form has.
use fio_form::{Digits, LineForm, Octets, is_begun, is_message, run_in};
use fio_guess::may_begin;

/// Returns whether a line has octets in the notation of a form, two or more, that may be a message or begin one.
fn has_octets_as(form: &LineForm, line: &[u8], octets: &mut Octets) -> bool {
    if matches!(
        form.digits(),
        Digits::Text(_) | Digits::Cells | Digits::Sextets
    ) {
        return false;
    }
    for place in 0..line.len() {
        if may_begin(line, place)
            && run_in(form.digits(), form.cycle(), &line[place..], octets).is_some()
            && octets.len() > 1
            && (is_message(octets) || is_begun(octets))
        {
            return true;
        }
    }
    false
}

/// Returns whether a line has octets in the notation of one of some forms that may be a message or begin one.
pub(crate) fn has_octets(forms: &[LineForm], line: &[u8], octets: &mut Octets) -> bool {
    for form in forms {
        if has_octets_as(form, line, octets) {
            return true;
        }
    }
    false
}
