//! What a form has in a line, and what octets are.
ghost use Rattle.std.specs.Prelude.{ℕ, List, ◌≡◌, ◌≤◌, ◌<◌, ◌+◌, [], ◌++◌, ◌||◌, ◌&&◌, not, true, false, drop, length, nat_lt, is_some, IfSome, IfNone, if◌then◌else◌};
ghost use Rattle.std.specs.Bool.{OnTrue, OnFalse};
ghost use Rattle.fio_form.specs.Wholes.{IsWithinOctets};
ghost use Rattle.fio_form.specs.declared.octets.TheConstants.{OCTETS};
ghost use Rattle.fio_rows.specs.Lines.{has, has_any, has_next, has_offset, has_bare_rows, is_certain, is_next, is_row, next_row, offset_in, row_of, text_from_front};
ghost use Rattle.fio_rows.specs.Places.{AreAt, AreWithin, next_places, form_places};
ghost use Rattle.fio_rows.specs.Rows.{message_by, octets_with, whole_before};

use crate::rows::OPEN;
use crate::saying::{Open, has_offset, is_bare, is_begun, is_next, offset_in};
use fio_form::{Found, LineForm, Octets, Whole, find, find_bare, is_cut, whole_of};

/// Writes octets in place of those that are there.
pub fn write(octets: &[u8], to: &mut Octets)
    requires { length octets.now ≤ OCTETS }
    ensures { to.new.items ≡ octets.now }
{
    to.clear();
    let _fits = to.try_extend_from_slice(octets);
}

/// Writes octets after those that are there, if there is room, and returns whether there was.
pub fn append(octets: &[u8], to: &mut Octets) -> bool
    ensures room { result ≡ not (nat_lt OCTETS (length to.old.items + length octets.now)) }
    ensures fits { OnTrue result (to.new.items ≡ to.old.items ++ octets.now) }
    ensures full { OnFalse result (to.new ≡ to.old) }
{
    to.try_extend_from_slice(octets).is_ok()
}

/// Reads the octets that a form has in a line that begins.
#[tactic(auto, using(crate::proofs::Empty::is_empty_some, crate::proofs::Empty::is_empty_none), unfolding(crate::specs::Lines::has, crate::specs::Lines::row_of, crate::specs::Lines::text_from_front, crate::specs::Places::form_places))]
pub fn found_first(form: &LineForm, line: &[u8], octets: &mut Octets) -> Option<Found>
    ensures places { IfSome result (λ found. AreWithin found line.now) }
    ensures at { IfSome result (λ found. AreAt found line.now (form_places form.now line.now)) }
    ensures front { IfSome result (λ found. drop found.front line.now ≡ text_from_front form.now line.now) }
    ensures octets { IfSome result (λ found. octets.new.items ≡ row_of form.now line.now) }
    ensures some { has form.now line.now ≡ is_some result }
    ensures empty { IfNone result (octets.new.items ≡ []) }
{
    find(form, line, octets)
}

/// Reads the octets that a form may have in a line below its first row.
#[tactic(auto, using(crate::proofs::Empty::is_empty_some, crate::proofs::Empty::is_empty_none), unfolding(crate::specs::Lines::has_next, crate::specs::Lines::next_row, crate::specs::Lines::text_from_front, crate::specs::Places::form_places, crate::specs::Places::next_places))]
fn found_below(form: &LineForm, line: &[u8], octets: &mut Octets) -> Option<Found>
    ensures places { IfSome result (λ found. AreWithin found line.now) }
    ensures at { IfSome result (λ found. AreAt found line.now (next_places form.now line.now)) }
    ensures front { has_bare_rows form.now.rows ≡ false → IfSome result (λ found. drop found.front line.now ≡ text_from_front form.now line.now) }
    ensures octets { IfSome result (λ found. octets.new.items ≡ next_row form.now line.now) }
    ensures some { has_next form.now line.now ≡ is_some result }
{
    if is_bare(form) {
        find_bare(form, line, octets)
    } else {
        find(form, line, octets)
    }
}

/// Returns whether a form has a line as one that begins. The octets are those of the last form that was tried.
#[tactic(auto, using(crate::proofs::Lines::any_past_index, crate::proofs::Lines::any_here_index, crate::proofs::Lines::any_none_index))]
pub fn has_any(forms: &[LineForm], line: &[u8], octets: &mut Octets) -> bool
    ensures { result ≡ has_any forms.now line.now }
{
    for (at, form) in forms.iter().enumerate() {
        let _at = at;
        if found_first(form, line, octets).is_some() {
            return true;
        }
    }
    false
}

/// Returns whether a row can only go on with an open message: that is known, or it is bare and no form has it as a line that
/// begins.
pub fn is_certain(
    form: &LineForm,
    forms: &[LineForm],
    line: &[u8],
    pending: Open,
    octets: &mut Octets,
) -> bool
    ensures { result ≡ is_certain form.now forms.now line.now pending }
{
    is_begun(pending) || has_offset(form) || is_bare(form) && !has_any(forms, line, octets)
}

/// Returns whether a row has the offset that is next, if its form has one. The text is the line from the front on.
pub fn is_at(form: &LineForm, next: Option<u64>, text: &[u8]) -> bool
    ensures { result ≡ not (has_offset form.now.rows) || is_next next (offset_in form.now.rows form.now text.now) }
{
    !has_offset(form) || is_next(next, offset_in(form, text))
}

/// Reads the octets of a line that goes on with an open message, whose next row has this offset.
#[tactic(auto, unfolding(crate::specs::Lines::is_row, crate::specs::Lines::offset_of))]
pub fn row_in(form: &LineForm, next: Option<u64>, line: &[u8], octets: &mut Octets) -> Option<Found>
    ensures places { IfSome result (λ found. AreWithin found line.now) }
    ensures at { IfSome result (λ found. AreAt found line.now (next_places form.now line.now)) }
    ensures octets { IfSome result (λ found. octets.new.items ≡ next_row form.now line.now) }
    ensures some { is_row form.now next line.now ≡ is_some result }
{
    match found_below(form, line, octets) {
        Some(found) => if is_at(form, next, line.split_at(found.front).1) {
            Some(found)
        } else {
            None
        },
        None => None,
    }
}

/// Returns what octets are, before a tail. If they are a frame of the wire, `held` has what it holds.
#[tactic(auto, unfolding(crate::specs::Rows::whole_before, crate::specs::Rows::octets_with))]
pub fn whole_before(form: &LineForm, octets: &[u8], tail: &[u8], held: &mut Octets) -> Whole
    ensures whole { result ≡ whole_before form.now octets.now tail.now }
    ensures within { IsWithinOctets (length (if form.now.is_framed then held.new.items else octets.now)) result }
    ensures held { (above : List ℕ)
        → message_by result (if form.now.is_framed then held.new.items else octets.now) above ≡ message_by result (octets_with form.now octets.now) above }
{
    if octets.len() >= OPEN || is_cut(tail) {
        return Whole::Damaged;
    }
    whole_of(form, octets, held)
}

/// Returns the octets that have the message: those that a frame of the wire holds, or those of the form.
pub fn octets_with<'a>(form: &LineForm, octets: &'a [u8], held: &'a [u8]) -> &'a [u8]
    ensures { result.now ≡ (if form.now.is_framed then held.now else octets.now) }
{
    if form.is_framed { held } else { octets }
}

/// Writes the message that octets have, if they have one.
pub fn keep(whole: Whole, octets: &[u8], message: &mut Octets)
    requires within { IsWithinOctets (length octets.now) whole }
    requires room { length octets.now ≤ OCTETS }
    ensures { message.new.items ≡ message_by whole octets.now message.old.items }
{
    if let Whole::Message { start, end } | Whole::Any { start, end } = whole {
        let (before, _) = octets.split_at(end);
        let (_, octets) = before.split_at(start);
        write(octets, message);
    }
}
