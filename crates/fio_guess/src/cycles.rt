//! The cycles of octets at a place in a line: what is between them.
ghost use Rattle.std.specs.Prelude.{◌≡◌, ◌≤◌, ◌<◌, ◌+◌, IfSome, length};

use crate::table::{CYCLE_OCTETS, GAP, OCTET};
use crate::words::is_word;
use arrayvec::ArrayVec;
use fio_form::{CYCLE_STEPS, Digits, Octets, Step, is_decimal, is_hex, run_in};

/// The steps of a cycle.
pub(crate) type Cycle = ArrayVec<Step, CYCLE_STEPS>;

/// Returns where the octet at a place ends.
fn octet_end(line: &[u8], place: usize, digits: Digits) -> Option<usize>
    requires { place ≤ length line.now }
    ensures { IfSome result (λ end. (place ≤ end) × (end ≤ length line.now)) }
{
    let mut octets: Octets = ArrayVec::new();
    let text = &line[place..line.len().min(place + OCTET)];
    let end = run_in(digits, &[Step::Octet, Step::Mark(0)], text, &mut octets)?;
    if octets.is_empty() {
        None
    } else {
        Some(place + end)
    }
}

/// Returns whether a character may be between two octets: no digit of one but that of `0x`.
fn is_gap(line: &[u8], place: usize, digits: Digits) -> bool
    requires { place < length line.now }
{
    let character = line[place];
    if matches!(digits, Digits::Decimal | Digits::Columns) {
        return !is_decimal(character) && !character.is_ascii_alphabetic();
    }
    let next = if place + 1 < line.len() {
        line[place + 1]
    } else {
        0
    };
    !is_word(character)
        || matches!(character, b'x' | b'X' | b'h' | b'H')
        || character == b'0' && matches!(next, b'x' | b'X')
}

/// Returns whether an octet begins at a place, where a gap may go on instead. `from`: where the gap begins.
fn is_next(line: &[u8], place: usize, from: usize, digits: Digits) -> bool
    requires order { from ≤ place }
    requires within { place < length line.now }
{
    let character = line[place];
    let before = if place > from { line[place - 1] } else { b' ' };
    let next = if place + 1 < line.len() {
        line[place + 1]
    } else {
        0
    };
    let is_begun = is_hex(character) && (!is_hex(before) || matches!(before, b'x' | b'X'))
        || character == b'-' && digits == Digits::Decimal;
    let is_mark = character == b'0'
        && matches!(next, b'x' | b'X')
        && place > from
        && digits != Digits::Prefixed;
    let has_width = matches!(digits, Digits::Pairs | Digits::Octal | Digits::Binary);
    is_begun && !is_mark && (place > from || has_width) && octet_end(line, place, digits).is_some()
}

/// Returns where the next octet begins after one that ends at a place.
fn next_octet(line: &[u8], from: usize, digits: Digits) -> Option<usize>
    requires { from ≤ length line.now }
    ensures { IfSome result (λ next. (from ≤ next) × (next ≤ length line.now)) }
{
    if digits == Digits::Columns {
        let is_blank = from < line.len() && line[from] == b' ';
        return if is_blank && octet_end(line, from + 1, digits).is_some() {
            Some(from + 1)
        } else {
            None
        };
    }
    for place in from..line.len().min(from + GAP + 1) {
        if is_next(line, place, from, digits) {
            return Some(place);
        }
        if !is_gap(line, place, digits) {
            return None;
        }
    }
    None
}

/// Appends an octet and the gap after it; returns whether there was room for them.
fn push_gap(cycle: &mut Cycle, gap: &[u8]) -> bool {
    if cycle.try_push(Step::Octet).is_err() {
        return false;
    }
    for character in gap {
        if cycle.try_push(Step::Mark(*character)).is_err() {
            return false;
        }
    }
    true
}

/// Returns the cycle of one gap.
fn cycle_with(gap: &[u8]) -> Option<Cycle> {
    let mut cycle: Cycle = ArrayVec::new();
    if push_gap(&mut cycle, gap) {
        Some(cycle)
    } else {
        None
    }
}

/// Returns the cycle of octets with a blank between two or none.
fn loose_cycle() -> Option<Cycle> {
    let mut cycle: Cycle = ArrayVec::new();
    if cycle.try_push(Step::Octet).is_ok() && cycle.try_push(Step::MaybeBlank).is_ok() {
        Some(cycle)
    } else {
        None
    }
}

/// Returns a cycle of a line's only octet, which ends at a place: the gap of a list, if it is in one; or a blank; or nothing.
fn lone_cycle(line: &[u8], end: usize, digits: Digits, which: usize) -> Option<Cycle>
    requires { end ≤ length line.now }
{
    match which {
        0 => match &line[end..] {
            [b','] | [b',', b' '] => cycle_with(b", "),
            [b';'] | [b';', b' '] => cycle_with(b"; "),
            _ => cycle_with(b" "),
        },
        1 if digits == Digits::Pairs => cycle_with(b""),
        _ => None,
    }
}

/// Returns the cycle of the gaps down to the first one that differs from the first one. `from`: where the second octet begins.
fn longer_cycle(line: &[u8], first: &[u8], from: usize, digits: Digits) -> Option<Cycle>
    requires { from ≤ length line.now }
{
    let mut cycle = cycle_with(first)?;
    let mut place = from;
    'octets: for _ in 1..CYCLE_OCTETS {
        let end = octet_end(line, place, digits)?;
        let next = next_octet(line, end, digits)?;
        let gap = &line[end..next];
        if !push_gap(&mut cycle, gap) {
            return None;
        }
        if gap != first {
            return Some(cycle);
        }
        place = next;
    }
    None
}

/// Returns a cycle of octets that begin at a place. 0: of the first gap; 1: of the gaps down to the first that differs; 2: of a blank or
/// nothing.
pub(crate) fn cycle_of(line: &[u8], place: usize, digits: Digits, which: usize) -> Option<Cycle>
    requires { place ≤ length line.now }
{
    if matches!(digits, Digits::Text(_) | Digits::Sextets | Digits::Cells) {
        return if which == 0 { cycle_with(b"") } else { None };
    }
    let end = octet_end(line, place, digits)?;
    let Some(next) = next_octet(line, end, digits) else {
        return lone_cycle(line, end, digits, which);
    };
    let first = &line[end..next];
    match which {
        0 => cycle_with(first),
        1 => longer_cycle(line, first, next, digits),
        2 if digits == Digits::Pairs && matches!(first, [] | [b' ']) => loose_cycle(),
        2 if !matches!(first, [b' ']) && digits != Digits::Columns => lone_cycle(
            line, end, digits, 0,
        ),
        _ => None,
    }
}
