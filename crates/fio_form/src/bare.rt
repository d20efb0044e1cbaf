//! Lines that are nothing but octets, and what is after octets.
ghost use Rattle.std.specs.Prelude.{◌≡◌, ◌≢◌, ◌≤◌, ◌<◌, ◌-◌, ◌∷◌, Some, None, IfSome, IfNone, true, false, [], drop, take, length, slice_index};
ghost use Rattle.fio_form.specs.Forms.{is_quotation};
ghost use Rattle.fio_form.specs.Bare.{after_marks, bare_begin, bare_digits, bare_octets, bare_text, begins_quote, is_closing, is_cut_short, last_marks, octets_closed, past_blank, past_end, past_letter, tail_in};
ghost use Rattle.fio_form.specs.Reading.{swapped};
ghost use Rattle.fio_form.specs.declared.form.TheConstants.{CYCLE_STEPS};
ghost use Rattle.fio_form.specs.declared.octets.TheConstants.{OCTETS};

use crate::form::{CYCLE_STEPS, Digits, LineForm, Piece, Step};
use crate::octets::Octets;
use crate::reading::{Found, octets_in, swap};
use arrayvec::ArrayVec;

/// Writes the marks before an octet that a cycle ends with, after a separator, as the `0x` of `, 0x`.
fn marks_of(cycle: &[Step], marks: &mut ArrayVec<u8, CYCLE_STEPS>)
    requires { length cycle.now ≤ CYCLE_STEPS }
    ensures { marks.new.items ≡ last_marks cycle.now }
{
    marks.clear();
    let mut is_known = false;
    let mut at = 0;
    'steps: while at < cycle.len() {
        match cycle[at] {
            Step::Octet => {
                marks.clear();
                is_known = false;
            }
            Step::MaybeBlank => {
                marks.clear();
                is_known = true;
            }
            Step::Mark(mark) => {
                if matches!(mark, b' ' | b'\t' | b',' | b';') {
                    marks.clear();
                    is_known = true;
                } else {
                    marks.push(mark);
                }
            }
        }
        at += 1;
    }
    if !is_known {
        marks.clear();
    }
}

/// Returns where marks end that a text begins with.
fn marks_in(marks: &[u8], text: &[u8]) -> Option<usize>
    ensures some { IfSome result (λ count. after_marks marks.now text.now ≡ Some (drop count text.now)) }
    ensures within { IfSome result (λ count. count ≤ length text.now) }
    ensures none { IfNone result (after_marks marks.now text.now ≡ None) }
{
    let mut at = 0;
    'marks: while at < marks.len() {
        if at >= text.len() {
            return None;
        }
        if text[at] != marks[at] {
            return None;
        }
        at += 1;
    }
    Some(at)
}

/// Returns where the text of a line begins after the blanks at its beginning, and the marks before an octet.
fn bare_start(cycle: &[Step], line: &[u8]) -> usize
    requires { length cycle.now ≤ CYCLE_STEPS }
    ensures text { drop result line.now ≡ bare_text cycle.now line.now }
    ensures within { result ≤ length line.now }
{
    let blanks = Piece::Blanks.count_in(line);
    let mut marks = ArrayVec::new();
    marks_of(cycle, &mut marks);
    match marks_in(&marks, &line[blanks..]) {
        Some(count) => blanks + count,
        None => blanks,
    }
}

/// Returns whether a text ends a list, or has two blanks before more.
fn is_closing(tail: &[u8]) -> bool
    ensures { result ≡ is_closing tail.now }
{
    if matches!(tail, [b' ' | b'\t', b' ' | b'\t', _, ..]) {
        return true;
    }
    let mut at = 0;
    'characters: while at < tail.len() {
        if !matches!(
            tail[at],
            b' ' | b'\t' | b']' | b'}' | b')' | b'>' | b',' | b';' | b'\'' | b'"'
        ) {
            return false;
        }
        at += 1;
    }
    true
}

/// Reads the octets that a line is from a place on; returns where they end, none if there are none or the line has more.
fn closed_in(
    digits: Digits,
    cycle: &[Step],
    line: &[u8],
    start: usize,
    octets: &mut Octets,
) -> Option<usize>
    requires { start ≤ length line.now }
    ensures places { IfSome result (λ end. (start ≤ end) × (end ≤ length line.now)) }
    ensures some { IfSome result (λ end. octets_closed digits cycle.now (drop start line.now) ≢ []) }
    ensures octets { IfSome result (λ end. octets.new.items ≡ take OCTETS (octets_closed digits cycle.now (drop start line.now))) }
    ensures rest { IfSome result (λ end. drop end line.now ≡ tail_in digits cycle.now (drop start line.now)) }
    ensures none { IfNone result (octets_closed digits cycle.now (drop start line.now) ≡ []) }
{
    let end = start + octets_in(digits, cycle, &line[start..], octets);
    if octets.is_empty() || !is_closing(&line[end..]) {
        return None;
    }
    Some(end)
}

/// Returns where the text after the quote begins of a line that is a literal from a place on.
fn quoted_start(line: &[u8], start: usize) -> Option<usize>
    requires { start ≤ length line.now }
    ensures some { IfSome result (λ place. (start < place) × (place ≤ length line.now)
        × (past_letter (drop start line.now) ≡ slice_index line.now (place - 1) ∷ drop place line.now)
        × (is_quotation (slice_index line.now (place - 1)) ≡ true)) }
    ensures none { IfNone result (begins_quote (past_letter (drop start line.now)) ≡ false) }
{
    let from = if start < line.len() && line[start] == b'b' {
        start + 1
    } else {
        start
    };
    if from < line.len() && matches!(line[from], b'"' | b'\'') {
        Some(from + 1)
    } else {
        None
    }
}

/// Reads the octets that a line is from a place on, and has nothing else after them.
#[tactic(auto, unfolding(crate::specs::Reading::swapped))]
fn bare_in(
    form: &LineForm,
    digits: Digits,
    line: &[u8],
    start: usize,
    octets: &mut Octets,
) -> Option<Found>
    requires { start ≤ length line.now }
    ensures places { IfSome result (λ found. (found.front ≤ found.start) × (found.start ≤ found.end) × (found.end ≤ length line.now)) }
    ensures some { IfSome result (λ found. octets_closed digits form.now.cycle.items (drop start line.now) ≢ []) }
    ensures octets { IfSome result (λ found. octets.new.items ≡ swapped form.now.is_swapped (take OCTETS (octets_closed digits form.now.cycle.items (drop start line.now)))) }
    ensures front { IfSome result (λ found. found.front ≡ 0) }
    ensures start { IfSome result (λ found. found.start ≡ start) }
    ensures rest { IfSome result (λ found. drop found.end line.now ≡ tail_in digits form.now.cycle.items (drop start line.now)) }
    ensures none { IfNone result (octets_closed digits form.now.cycle.items (drop start line.now) ≡ []) }
    ensures empty { IfNone result (octets.new.items ≡ []) }
{
    let Some(end) = closed_in(digits, &form.cycle, line, start, octets) else {
        octets.clear();
        return None;
    };
    if form.is_swapped {
        swap(octets);
    }
    Some(Found {
        front: 0,
        start,
        end,
    })
}

/// Reads the octets of a line that has nothing else: blanks before them, and after them an end of a list, or two blanks and
/// any text.
#[tactic(auto, unfolding(crate::specs::Bare::bare_octets, crate::specs::Bare::bare_begin, crate::specs::Bare::bare_digits))]
pub fn find_bare(form: &LineForm, line: &[u8], octets: &mut Octets) -> Option<Found>
    ensures places { IfSome result (λ found. (found.front ≤ found.start) × (found.start ≤ found.end) × (found.end ≤ length line.now)) }
    ensures some { IfSome result (λ found. bare_octets form.now line.now ≢ []) }
    ensures octets { IfSome result (λ found. octets.new.items ≡ swapped form.now.is_swapped (take OCTETS (bare_octets form.now line.now))) }
    ensures start { IfSome result (λ found. drop found.start line.now ≡ bare_begin form.now line.now) }
    ensures rest { IfSome result (λ found. drop found.end line.now ≡ tail_in (bare_digits form.now line.now) form.now.cycle.items (drop found.start line.now)) }
    ensures front { IfSome result (λ found. found.front ≡ 0) }
    ensures none { IfNone result (bare_octets form.now line.now ≡ []) }
    ensures empty { IfNone result (octets.new.items ≡ []) }
{
    let start = bare_start(&form.cycle, line);
    if form.digits != Digits::Text(0) {
        return bare_in(form, form.digits, line, start, octets);
    }
    let Some(place) = quoted_start(line, start) else {
        octets.clear();
        return None;
    };
    bare_in(form, Digits::Text(line[place - 1]), line, place, octets)
}

/// Returns a text without the character of an end that it begins with.
fn past_end(text: &[u8]) -> &[u8]
    ensures { result.now ≡ past_end text.now }
{
    match text {
        [b'"' | b'\'' | b']' | b')', ..] => &text[1..],
        _ => text,
    }
}

/// Returns a text without the blank that it begins with.
fn past_blank(text: &[u8]) -> &[u8]
    ensures { result.now ≡ past_blank text.now }
{
    match text {
        [b' ', ..] => &text[1..],
        _ => text,
    }
}

/// Returns whether a tail begins with dots, which say that a logger left octets out.
#[tactic(auto, unfolding(crate::specs::Bare::is_cut_short))]
pub fn is_cut(tail: &[u8]) -> bool
    ensures { result ≡ is_cut_short tail.now }
{
    matches!(
        past_blank(past_end(tail)),
        [b'.', b'.', ..] | [0xe2, 0x80, 0xa6, ..]
    )
}
