//! What the octets of a form are.
ghost use Rattle.std.specs.Prelude.{◌≡◌, ◌≤◌, ◌<◌, ◌+◌, Some, None, [], length, take, true, false, is_some, option_and_then};
ghost use Rattle.fio_form.specs.declared.octets.TheConstants.{OCTETS};
ghost use Rattle.fio_form.specs.Messages.{size_of};
ghost use Rattle.fio_form.specs.Wholes.{IsWithinOctets, content, few_of, framed_in, held_in, held_of, has_check, is_open_frame, kept_of, plain_from, unescaped, whole_any, whole_by_size, whole_frame, whole_known, whole_of};

use crate::form::LineForm;
use crate::message::{Size, is_message, size_of};
use crate::octets::{OCTETS, Octets, add};
use crate::reading::Whole;

/// Returns whether the last two octets are the frame check of those before them.
fn is_checked(octets: &[u8]) -> bool
    ensures { result ≡ has_check octets.now }
{
    if octets.len() < 4 {
        return false;
    }
    let check = fio_wire::frame_check(&octets[..octets.len() - 2]);
    u16::from(octets[octets.len() - 2]) == check % 256
        && u16::from(octets[octets.len() - 1]) == check / 256
}

/// Returns the first ones of octets, at most this many.
fn first_of(octets: &[u8], count: usize) -> &[u8]
    ensures first { result.now ≡ take count octets.now }
    ensures few { length result.now ≤ count }
{
    if octets.len() > count {
        &octets[..count]
    } else {
        octets
    }
}

/// Writes what is between the header and the check of a frame, and returns whether the check is right.
#[tactic(auto, unfolding(crate::specs::Wholes::kept_of))]
fn checked_in(octets: &[u8], held: &mut Octets) -> bool
    ensures yes { result ≡ is_some (held_in octets.now) }
    ensures kept { held.new.items ≡ kept_of (held_in octets.now) }
{
    held.clear();
    if !is_checked(octets) {
        return false;
    }
    let _fits = held.try_extend_from_slice(first_of(&octets[2..octets.len() - 2], OCTETS));
    true
}

/// Returns an octet, with its sixth bit exchanged if it is after an escape.
fn unescaped(is_escaped: bool, octet: u8) -> u8
    ensures { result ≡ unescaped is_escaped octet }
{
    if !is_escaped {
        octet
    } else if octet / 32 % 2 == 0 {
        octet + 32
    } else {
        octet - 32
    }
}

/// Writes octets without escapes, and returns whether there is no flag among them, and room.
fn plain_of(octets: &[u8], plain: &mut Octets) -> bool
    ensures yes { result ≡ true → option_and_then few_of (plain_from false [] octets.now) ≡ Some plain.new.items }
    ensures no { result ≡ false → option_and_then few_of (plain_from false [] octets.now) ≡ None }
{
    plain.clear();
    let mut is_escaped = false;
    let mut at = 0;
    'octets: while at < octets.len() {
        let octet = octets[at];
        if octet == 0x7e {
            return false;
        }
        if octet == 0x7d {
            is_escaped = true;
        } else if add(plain, unescaped(is_escaped, octet)) {
            is_escaped = false;
        } else {
            return false;
        }
        at += 1;
    }
    true
}

/// Returns whether octets begin with a flag and do not end with another one.
fn is_open(octets: &[u8]) -> bool
    ensures { result ≡ is_open_frame octets.now }
{
    matches!(octets, [0x7e, ..]) && (octets.len() == 1 || octets[octets.len() - 1] != 0x7e)
}

/// Whether octets are a frame with a right check, without flags or with them. Writes what is between header and check.
#[tactic(auto, unfolding(crate::specs::Wholes::framed_in, crate::specs::Wholes::kept_of))]
pub fn framed_in(octets: &[u8], held: &mut Octets) -> bool
    ensures yes { result ≡ is_some (framed_in octets.now) }
    ensures kept { held.new.items ≡ kept_of (framed_in octets.now) }
{
    held.clear();
    if is_open(octets) {
        return false;
    }
    if !matches!(octets, [0x7e, ..]) {
        return checked_in(octets, held);
    }
    let inner = &octets[1..octets.len() - 1];
    if checked_in(inner, held) {
        return true;
    }
    let mut plain = Octets::new();
    plain_of(inner, &mut plain) && checked_in(&plain, held)
}

/// Returns what octets are after those before the message, if they are a frame of the wire, whose message is written to
/// `held`.
#[tactic(auto, unfolding(crate::specs::Wholes::framed_in, crate::specs::Wholes::kept_of))]
fn whole_frame(rest: &[u8], held: &mut Octets) -> Whole
    ensures whole { result ≡ whole_frame rest.now }
    ensures kept { held.new.items ≡ kept_of (framed_in rest.now) }
    ensures within { IsWithinOctets (length held.new.items) result }
{
    held.clear();
    if is_open(rest) {
        return Whole::Lacking;
    }
    if !framed_in(rest, held) {
        return Whole::Damaged;
    }
    if !is_message(held) {
        return Whole::Idle;
    }
    Whole::Message {
        start: 0,
        end: held.len(),
    }
}

/// Returns what octets are, if this many are before a message of this size, and this many after it.
fn whole_known(form: &LineForm, octets: &[u8], size: usize) -> Whole
    requires before { form.now.before ≤ length octets.now }
    requires few { size ≤ 773 }
    ensures whole { result ≡ whole_known form.now.is_swapped form.now.before form.now.after size octets.now }
    ensures within { IsWithinOctets (length octets.now) result }
{
    let before = usize::from(form.before);
    let after = usize::from(form.after);
    let count = octets.len() - before;
    if count < size + after {
        return Whole::Lacking;
    }
    let is_longer = form.is_swapped && count == size + after + 1 && octets[octets.len() - 1] == 0;
    if count > size + after && !is_longer || !is_message(&octets[before..before + size]) {
        return Whole::Damaged;
    }
    Whole::Message {
        start: before,
        end: before + size,
    }
}

/// Returns what octets are, of which this many before and after are no part of a message of unknown length.
fn whole_any(form: &LineForm, octets: &[u8]) -> Whole
    requires { form.now.before + form.now.after < length octets.now }
    ensures whole { result ≡ whole_any form.now.is_swapped form.now.before form.now.after octets.now }
    ensures within { IsWithinOctets (length octets.now) result }
{
    let start = usize::from(form.before);
    let end = octets.len() - usize::from(form.after);
    if !is_message(&octets[start..end]) {
        return Whole::Damaged;
    }
    if form.is_swapped && octets[octets.len() - 1] == 0 {
        return Whole::Damaged;
    }
    Whole::Any { start, end }
}

/// Returns what octets are, by how long the message is that the last ones of them begin.
fn whole_by(form: &LineForm, octets: &[u8], rest: &[u8]) -> Whole
    requires { form.now.before + form.now.after < length octets.now }
    ensures whole { result ≡ whole_by_size (size_of rest.now) form.now.is_swapped form.now.before form.now.after octets.now }
    ensures within { IsWithinOctets (length octets.now) result }
{
    match size_of(rest) {
        Size::Unknown => Whole::Lacking,
        Size::Known(size) => whole_known(form, octets, size),
        Size::Any => whole_any(form, octets),
        Size::None => Whole::Damaged,
    }
}

/// Returns what the octets of a form are, of all rows. For a frame of the wire its message is written to `held`.
#[tactic(auto, unfolding(crate::specs::Wholes::whole_of))]
pub fn whole_of(form: &LineForm, octets: &[u8], held: &mut Octets) -> Whole
    ensures whole { result ≡ whole_of form.now octets.now }
    ensures held { form.now.is_framed ≡ true → held.new.items ≡ held_of form.now octets.now }
    ensures bare { form.now.is_framed ≡ false → IsWithinOctets (length octets.now) result }
    ensures framed { form.now.is_framed ≡ true → IsWithinOctets (length held.new.items) result }
{
    let before = usize::from(form.before);
    let after = usize::from(form.after);
    held.clear();
    if octets.len() <= before + after {
        return if before > 0 && octets.len() == before + after {
            Whole::Idle
        } else {
            Whole::Lacking
        };
    }
    let rest = &octets[before..];
    if form.is_framed {
        return whole_frame(rest, held);
    }
    whole_by(form, octets, rest)
}
