//! The octets of a text that are pairs of hexadecimal digits.
ghost use Rattle.std.specs.Prelude.{◌≡◌, ◌<◌, ◌≤◌, IfSome, IfNone, drop, take, length};
ghost use Rattle.fio_form.specs.Octets.{octet_of_pair, rest_in, run_in};
ghost use Rattle.fio_form.specs.declared.form.Digits.TheVariants.{Pairs};
ghost use Rattle.fio_form.specs.declared.octets.TheConstants.{OCTETS};

use crate::form::Step;
use crate::front::hex_value;
use crate::octets::{Octets, add, next_at};

/// Returns the octet that two characters are.
fn octet_of_pair(high: u8, low: u8) -> Option<u8>
    ensures { result ≡ octet_of_pair high low }
{
    let first = hex_value(high);
    let second = hex_value(low);
    if first > 15 || second > 15 {
        None
    } else {
        Some(16 * first + second)
    }
}

/// Reads the octets that a text begins with, as `run_in` does if they are pairs of digits: an octet at a time.
pub(crate) fn pairs_in(cycle: &[Step], text: &[u8], octets: &mut Octets) -> Option<usize>
    ensures read { IfSome result (λ end. run_in Pairs cycle.now text.now ≡ octets.new.items) }
    ensures few { IfSome result (λ end. length octets.new.items ≤ OCTETS) }
    ensures rest { IfSome result (λ end. drop end text.now ≡ rest_in Pairs cycle.now text.now) }
    ensures within { IfSome result (λ end. end ≤ length text.now) }
    ensures full { IfNone result (OCTETS < length (run_in Pairs cycle.now text.now)) }
    ensures first { IfNone result (octets.new.items ≡ take OCTETS (run_in Pairs cycle.now text.now)) }
{
    octets.clear();
    let (mut at, mut end, mut place) = (0, 0, 0);
    'steps: while place < text.len() && at < cycle.len() {
        match cycle[at] {
            Step::Mark(mark) if mark != text[place] => return Some(end),
            Step::MaybeBlank if text[place] != b' ' => return Some(end),
            Step::Mark(_) | Step::MaybeBlank => {
                place += 1;
                at = next_at(cycle, at, &text[place..]);
            }
            Step::Octet => {
                if place + 1 >= text.len() {
                    return Some(end);
                }
                let Some(octet) = octet_of_pair(text[place], text[place + 1]) else {
                    return Some(end);
                };
                if !add(octets, octet) {
                    return None;
                }
                place += 2;
                at = next_at(cycle, at, &text[place..]);
                end = place;
            }
        }
    }
    Some(end)
}
