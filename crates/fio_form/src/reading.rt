//! The octets that a form has in a line.
ghost use Rattle.std.specs.Prelude.{◌≡◌, ◌≢◌, ◌+◌, ◌≤◌, ◌<◌, Some, None, [], true, false, IfSome, IfNone, drop, take, length};
ghost use Rattle.fio_form.specs.Fronts.{after_front};
ghost use Rattle.fio_form.specs.Bare.{tail_in};
ghost use Rattle.fio_form.specs.Octets.{run_in};
ghost use Rattle.fio_form.specs.Reading.{digits_at, front_text, in_words, octets_found, octets_here, swapped};
ghost use Rattle.fio_form.specs.declared.octets.TheConstants.{OCTETS};

use crate::form::{Digits, LineForm, Step};
use crate::front::front_in;
use crate::octets::{Octets, run_in};

/// Where a form has octets in a line.
#[derive(Clone, Copy, Debug, PartialEq, Eq)]
pub struct Found {
    /// Where its front begins.
    pub front: usize,
    /// Where the first octet begins.
    pub start: usize,
    /// Where the last one ends.
    pub end: usize,
}

/// What the octets of a form are.
#[derive(Clone, Copy, Debug, PartialEq, Eq)]
pub enum Whole {
    /// A message, from one place up to another.
    Message { start: usize, end: usize },
    /// A message of unknown length.
    Any { start: usize, end: usize },
    /// The beginning of a message.
    Lacking,
    /// Those before and after a message, and none.
    Idle,
    /// None of these.
    Damaged,
}

/// Returns how an octet is written that begins at a place: of a text up to the quote before it, up to this quote.
pub(crate) fn digits_at(digits: Digits, line: &[u8], start: usize) -> Digits
    requires { start ≤ length line.now }
    ensures { result ≡ digits_at digits line.now (drop start line.now) }
{
    if digits == Digits::Text(0) && start > 0 {
        Digits::Text(line[start - 1])
    } else {
        digits
    }
}

/// Exchanges the octets of each word of 16 bits.
pub fn swap(octets: &mut Octets)
    ensures words { octets.new.items ≡ in_words octets.old.items }
    ensures size { length octets.new.items ≡ length octets.old.items }
{
    let count = octets.len();
    let mut words = Octets::new();
    let mut at = 0;
    'words: while at + 1 < count {
        words.push(octets[at + 1]);
        words.push(octets[at]);
        at += 2;
    }
    if at < count {
        words.push(octets[at]);
    }
    *octets = words;
}

/// Reads the octets that a text begins with, as many as `octets` has room for; returns where the last one ends, 0 if there are
/// too many.
pub(crate) fn octets_in(digits: Digits, cycle: &[Step], text: &[u8], octets: &mut Octets) -> usize
    ensures octets { octets.new.items ≡ take OCTETS (run_in digits cycle.now text.now) }
    ensures rest { drop result text.now ≡ tail_in digits cycle.now text.now }
    ensures within { result ≤ length text.now }
{
    match run_in(digits, cycle, text, octets) {
        Some(end) => end,
        None => 0,
    }
}

/// Reads the octets that a form has in a line, if its front begins at this place.
#[tactic(auto, unfolding(crate::specs::Reading::swapped))]
fn find_at(form: &LineForm, line: &[u8], front: usize, octets: &mut Octets) -> Option<Found>
    requires { front ≤ length line.now }
    ensures at { IfSome result (λ found. found.front ≡ front) }
    ensures places { IfSome result (λ found. (found.front ≤ found.start) × (found.start ≤ found.end) × (found.end ≤ length line.now)) }
    ensures start { IfSome result (λ found. after_front form.now.values.items form.now.front.items (drop front line.now) ≡ Some (drop found.start line.now)) }
    ensures octets { IfSome result (λ found. octets.new.items ≡ swapped form.now.is_swapped (take OCTETS (octets_here form.now line.now (drop front line.now)))) }
    ensures some { IfSome result (λ found. octets_here form.now line.now (drop front line.now) ≢ []) }
    ensures end { IfSome result (λ found. drop found.end line.now
        ≡ tail_in (digits_at form.now.digits line.now (drop found.start line.now)) form.now.cycle.items (drop found.start line.now)) }
    ensures none { IfNone result (octets_here form.now line.now (drop front line.now) ≡ []) }
{
    let Some(count) = front_in(form, &line[front..]) else {
        return None;
    };
    let start = front + count;
    let digits = digits_at(form.digits, line, start);
    let end = octets_in(digits, &form.cycle, &line[start..], octets);
    if octets.is_empty() {
        return None;
    }
    if form.is_swapped {
        swap(octets);
    }
    Some(Found {
        front,
        start,
        end: start + end,
    })
}

/// Reads the octets that a form has in a line, at the first place where it has some.
#[tactic(auto, unfolding(crate::specs::Reading::front_text, crate::specs::Reading::octets_found))]
fn find_here(form: &LineForm, line: &[u8], octets: &mut Octets) -> Option<Found>
    ensures places { IfSome result (λ found. (found.front ≤ found.start) × (found.start ≤ found.end) × (found.end ≤ length line.now)) }
    ensures front { IfSome result (λ found. drop found.front line.now ≡ front_text form.now line.now) }
    ensures start { IfSome result (λ found. after_front form.now.values.items form.now.front.items (drop found.front line.now) ≡ Some (drop found.start line.now)) }
    ensures octets { IfSome result (λ found. octets.new.items ≡ swapped form.now.is_swapped (take OCTETS (octets_here form.now line.now (drop found.front line.now)))) }
    ensures some { IfSome result (λ found. octets_here form.now line.now (drop found.front line.now) ≢ []) }
    ensures end { IfSome result (λ found. drop found.end line.now
        ≡ tail_in (digits_at form.now.digits line.now (drop found.start line.now)) form.now.cycle.items (drop found.start line.now)) }
    ensures none { IfNone result (octets_found form.now line.now ≡ []) }
    ensures empty { IfNone result (octets.new.items ≡ []) }
{
    if !form.is_anywhere {
        let found = find_at(form, line, 0, octets);
        if found.is_none() {
            octets.clear();
        }
        return found;
    }
    let mut front = 0;
    'fronts: while front < line.len() {
        if let Some(found) = find_at(form, line, front, octets) {
            return Some(found);
        }
        front += 1;
    }
    octets.clear();
    None
}

/// Reads the octets that a form has in a line. If there is no room for all, some are left out.
pub fn find(form: &LineForm, line: &[u8], octets: &mut Octets) -> Option<Found>
    ensures places { IfSome result (λ found. (found.front ≤ found.start) × (found.start ≤ found.end) × (found.end ≤ length line.now)) }
    ensures front { IfSome result (λ found. drop found.front line.now ≡ front_text form.now line.now) }
    ensures start { IfSome result (λ found. after_front form.now.values.items form.now.front.items (drop found.front line.now) ≡ Some (drop found.start line.now)) }
    ensures octets { IfSome result (λ found. octets.new.items ≡ swapped form.now.is_swapped (take OCTETS (octets_found form.now line.now))) }
    ensures some { IfSome result (λ found. octets_found form.now line.now ≢ []) }
    ensures end { IfSome result (λ found. drop found.end line.now
        ≡ tail_in (digits_at form.now.digits line.now (drop found.start line.now)) form.now.cycle.items (drop found.start line.now)) }
    ensures none { IfNone result (octets_found form.now line.now ≡ []) }
    ensures empty { IfNone result (octets.new.items ≡ []) }
{
    match find_here(form, line, octets) {
        Some(found) => Some(found),
        None => None,
    }
}
