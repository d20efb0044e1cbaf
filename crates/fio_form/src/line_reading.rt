//! What lines say by forms, each by itself.
ghost use Rattle.std.specs.Prelude.{◌≡◌, ◌≢◌, ◌≤◌, ◌<◌, ◌+◌, Some, None, [], ◌∷◌, true, false, IfSome, IfNone, drop, length};
ghost use Rattle.fio_form.specs.Reading.{LineSaid, ends_in_form, ends_in_front, is_bare, octets_by, read_from, read_line, said_by_form, said_by_octets, said_in_octets, said_wrapped};
ghost use Rattle.fio_form.specs.Said.{said_as};
ghost use Rattle.fio_form.specs.declared.octets.TheConstants.{OCTETS};

use crate::form::LineForm;
use crate::message::is_message;
use crate::octets::{OCTETS, Octets, ends_in_octet};
use crate::reading::{Whole, digits_at, find};
use crate::wholes::whole_of;

/// What a line says.
#[derive(Clone, Copy, Debug, PartialEq, Eq)]
pub enum Read {
    /// A message: the octets from one place up to another.
    Frame { start: usize, end: usize },
    /// A form has the line, but it says no message; or the line ends within the front of a form.
    Damaged,
    /// No form has the line.
    Other,
}

/// Returns what octets say of which this many before and after the message are no part of it.
fn message_in(before: u8, after: u8, octets: &[u8]) -> Read
    ensures { said_as result octets.now ≡ said_by_octets before after octets.now }
{
    let start = usize::from(before);
    let last = usize::from(after);
    if octets.len() <= start + last || !is_message(&octets[start..octets.len() - last]) {
        return Read::Damaged;
    }
    Read::Frame {
        start,
        end: octets.len() - last,
    }
}

/// Returns whether a line ends within the front of a form or its first octet.
fn ends_in_front(form: &LineForm, line: &[u8]) -> bool
    ensures { result ≡ ends_in_front form.now line.now form.now.front.items line.now }
{
    let mut place = 0;
    let mut at = 0;
    'pieces: while at < form.front.len() {
        if place >= line.len() {
            return true;
        }
        let rest = &line[place..];
        match form.front[at].length_in(&form.values, rest) {
            Some(count) => place += count,
            None => return form.front[at].is_all(rest),
        }
        at += 1;
    }
    ends_in_octet(digits_at(form.digits, line, place), &line[place..])
}

/// Returns whether a line is a beginning of those of a form that ends before the first octet is whole. (Of a form whose front
/// may begin anywhere: whether it is one of those whose front begins the line.)
pub fn ends_in_form(form: &LineForm, line: &[u8]) -> bool
    ensures { result ≡ ends_in_form form.now line.now }
{
    !line.is_empty() && ends_in_front(form, line)
}

/// Returns whether the octets of a form are those before its message, the message and those after it, and nothing else.
fn is_bare(form: &LineForm) -> bool
    ensures { result ≡ is_bare form.now }
{
    !form.is_framed && !form.is_swapped
}

/// Returns what octets say that are a frame of the wire, or words. They are replaced by what the frame holds.
fn said_wrapped(form: &LineForm, octets: &mut Octets) -> Read
    requires { length octets.old.items < OCTETS }
    ensures { said_as result octets.new.items ≡ said_wrapped form.now octets.old.items }
{
    let mut held = Octets::new();
    let whole = whole_of(form, octets, &mut held);
    if form.is_framed {
        *octets = held;
    }
    match whole {
        Whole::Message { start, end } | Whole::Any { start, end } => Read::Frame { start, end },
        Whole::Lacking | Whole::Idle | Whole::Damaged => Read::Damaged,
    }
}

/// Reads the octets that a form has in a line, none if it does not have the line, and returns whether they are few enough.
#[tactic(auto, unfolding(crate::specs::Reading::swapped))]
fn octets_by(form: &LineForm, line: &[u8], octets: &mut Octets) -> bool
    ensures read { result ≡ true → octets_by form.now line.now ≡ octets.new.items }
    ensures few { result ≡ true → length octets.new.items < OCTETS }
    ensures many { result ≡ false → OCTETS ≤ length (octets_by form.now line.now) }
{
    match find(form, line, octets) {
        Some(_) => octets.len() < OCTETS,
        None => true,
    }
}

/// Reads a line by one form; `None` if the form does not have the line. Writes its octets to `octets`, or what a frame of the
/// wire holds.
#[tactic(auto, using(crate::proofs::MessageSize::too_many_said, crate::proofs::MessageSize::said_some))]
fn read_by(form: &LineForm, line: &[u8], octets: &mut Octets) -> Option<Read>
    ensures some { IfSome result (λ read. (rest : LineSaid) → said_by_form form.now (octets_by form.now line.now) rest ≡ said_as read octets.new.items) }
    ensures none { IfNone result (octets_by form.now line.now ≡ []) }
{
    let (before, after) = (form.before, form.after);
    if !octets_by(form, line, octets) {
        return Some(Read::Damaged);
    }
    if octets.is_empty() {
        return None;
    }
    if is_bare(form) {
        Some(message_in(before, after, octets))
    } else {
        Some(said_wrapped(form, octets))
    }
}

/// Reads a line by forms: by the first one that has at least one octet there. Writes its octets to `octets`, or what a frame of
/// the wire holds.
pub fn read_line(forms: &[LineForm], line: &[u8], octets: &mut Octets) -> Read
    ensures { said_as result octets.new.items ≡ read_line forms.now line.now }
{
    let mut cut = false;
    let mut at = 0;
    'forms: while at < forms.len() {
        let form = &forms[at];
        if let Some(read) = read_by(form, line, octets) {
            return read;
        }
        cut = cut || ends_in_form(form, line);
        at += 1;
    }
    if cut { Read::Damaged } else { Read::Other }
}
