//! Further messages of a line, after its first one.
use fio_form::{LineForm, LineRows, Octets, Whole, find, whole_of};

/// Finds the next message of a form in a line, from a place on, if its front may begin anywhere and nothing is cut; returns where it
/// ends. Writes it to `octets`.
pub(crate) fn next_in(
    form: &LineForm,
    line: &[u8],
    from: usize,
    octets: &mut Octets,
    held: &mut Octets,
) -> Option<usize> {
    let is_cut = form.before > 0 || form.after > 0 || form.is_framed;
    if from >= line.len() || !form.is_anywhere || form.rows != LineRows::One || is_cut {
        return None;
    }
    let found = find(form, &line[from..], octets)?;
    match whole_of(form, octets, held) {
        Whole::Message { .. } | Whole::Any { .. } => Some(from.saturating_add(found.end)),
        _ => None,
    }
}
