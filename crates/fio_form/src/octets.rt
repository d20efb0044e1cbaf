//! The octets of a text.
ghost use Rattle.std.specs.Prelude.{◌≡◌, ◌<◌, ◌≤◌, ◌+◌, ◌++◌, ◌∷◌, [], true, false, IfSome, IfNone, drop, take, length};
ghost use Rattle.fio_form.specs.Octets.{begins_blank, ends_open, longer_in, next_in, octets_from, rest_in, run_in, steps_at};
ghost use Rattle.fio_form.specs.declared.octets.Begun.TheVariants.{Nothing};
ghost use Rattle.fio_form.specs.declared.octets.TheConstants.{OCTETS};

use crate::digits::{next_column, next_decimal, next_fixed, next_prefixed, next_short};
use crate::form::{Digits, Step};
use crate::front::is_decimal;
use crate::pairs::pairs_in;
use crate::texts::{is_word, next_cell, next_sextet, next_text, text_longer};
use arrayvec::ArrayVec;

/// The most octets that are kept of a line.
pub const OCTETS: usize = 2048;

/// The octets of a line.
pub type Octets = ArrayVec<u8, OCTETS>;

/// What is read of an octet.
#[derive(Clone, Copy)]
pub(crate) enum Begun {
    /// Nothing, or the blanks before it in its column.
    Nothing,
    /// Digits with this value, and this many are left.
    Fixed { value: u8, left: u8 },
    /// Decimal digits with this value.
    Number(u8),
    /// The sign of a number below 0, and decimal digits with this value.
    Negative(u8),
    /// This many hexadecimal digits, of which the last two have this value.
    Short { value: u8, count: u8 },
    /// The `0` of a number with a prefix.
    Zero,
    /// The backslash of an escape.
    Escape,
    /// `\x`, or the `0x` of a number with a prefix.
    HexEscape,
    /// Digits of an octal escape with this value, and this many may come.
    OctalEscape { value: u8, left: u8 },
    /// The first octet in UTF-8 of a character from 128 to 191, or above.
    Lead { is_upper: bool },
    /// The blank of a cell.
    Cell,
    /// The first character after it.
    CellFirst(u8),
    /// Two characters after it.
    CellSecond { first: u8, second: u8 },
    /// The bits, with this value, of this many characters of base64 that are no octet yet.
    Sextets { value: u8, count: u8 },
    /// `=` of base64, after which nothing comes.
    Padding,
}

/// An octet that is begun, after one more character.
#[derive(Clone, Copy)]
pub(crate) enum NextDigit {
    /// It belongs to the octet, and more comes.
    More(Begun),
    /// It is the last one of the octet.
    Last(u8),
    /// It is the last one of an octet, and the next one is begun without anything between them.
    Emit(u8, Begun),
    /// It is none of an octet.
    Stop,
}

/// Returns whether a text goes on with a character that makes the octet before it another one, or none.
fn makes_longer(digits: Digits, begun: Begun, text: &[u8]) -> bool
    ensures { result ≡ longer_in digits begun text.now }
{
    match (digits, text) {
        (Digits::Decimal | Digits::Columns, [character, ..]) => is_decimal(*character),
        (Digits::Short | Digits::Prefixed, [character, ..]) => is_word(*character),
        (Digits::Text(_), [character, ..]) => text_longer(begun, *character),
        _ => false,
    }
}

/// Returns an octet that is begun, after one more character; `longer`: a character comes after that which makes the octet
/// another one.
fn next_in(digits: Digits, begun: Begun, character: u8, longer: bool) -> NextDigit
    ensures { result ≡ next_in digits begun character longer }
{
    match digits {
        Digits::Pairs => next_fixed(16, 2, begun, character),
        Digits::Short => next_short(begun, character, longer),
        Digits::Prefixed => next_prefixed(begun, character, longer),
        Digits::Decimal => next_decimal(begun, character, longer),
        Digits::Columns => next_column(begun, character, longer),
        Digits::Octal => next_fixed(8, 3, begun, character),
        Digits::Binary => next_fixed(2, 8, begun, character),
        Digits::Text(quote) => next_text(quote, begun, character, longer),
        Digits::Cells => next_cell(begun, character),
        Digits::Sextets => next_sextet(begun, character),
    }
}

/// Returns whether a text begins with a space.
fn begins_blank(text: &[u8]) -> bool
    ensures { result ≡ begins_blank text.now }
{
    matches!(text, [b' ', ..])
}

/// Returns the place of the step that a text goes on with after one; after the last one the first follows.
pub(crate) fn next_at(cycle: &[Step], at: usize, text: &[u8]) -> usize
    requires { at < length cycle.now }
    ensures after { drop result cycle.now ≡ steps_at cycle.now (drop (at + 1) cycle.now) text.now }
    ensures within { result < length cycle.now }
{
    let mut next = at + 1;
    'steps: while next < cycle.len() && cycle[next] == Step::MaybeBlank && !begins_blank(text) {
        next += 1;
    }
    if next == cycle.len() { 0 } else { next }
}

/// Appends an octet, and returns whether there was room.
pub(crate) fn add(octets: &mut Octets, octet: u8) -> bool
    requires { length octets.old.items ≤ OCTETS }
    ensures room { result ≡ true → (octets.new.items ≡ octets.old.items ++ octet ∷ []) × (length octets.new.items ≤ OCTETS) }
    ensures full { result ≡ false → (length octets.old.items ≡ OCTETS) × (octets.new.items ≡ octets.old.items) }
{
    octets.try_push(octet).is_ok()
}

/// Reads the octets that a text begins with; returns where the last one ends. `None` if there are more than `octets` has room
/// for: then the first ones are in it.
pub fn run_in(digits: Digits, cycle: &[Step], text: &[u8], octets: &mut Octets) -> Option<usize>
    ensures read { IfSome result (λ end. run_in digits cycle.now text.now ≡ octets.new.items) }
    ensures few { IfSome result (λ end. length octets.new.items ≤ OCTETS) }
    ensures rest { IfSome result (λ end. drop end text.now ≡ rest_in digits cycle.now text.now) }
    ensures within { IfSome result (λ end. end ≤ length text.now) }
    ensures full { IfNone result (OCTETS < length (run_in digits cycle.now text.now)) }
    ensures first { IfNone result (octets.new.items ≡ take OCTETS (run_in digits cycle.now text.now)) }
{
    if digits == Digits::Pairs {
        return pairs_in(cycle, text, octets);
    }
    octets.clear();
    let (mut begun, mut at, mut end, mut place) = (Begun::Nothing, 0, 0, 0);
    'characters: while place < text.len() && at < cycle.len() {
        let character = text[place];
        let rest = &text[place + 1..];
        match cycle[at] {
            Step::Mark(mark) if mark != character => return Some(end),
            Step::MaybeBlank if character != b' ' => return Some(end),
            Step::Mark(_) | Step::MaybeBlank => {
                (at, begun) = (next_at(cycle, at, rest), Begun::Nothing);
            }
            Step::Octet => match next_in(
                digits,
                begun,
                character,
                makes_longer(digits, begun, rest),
            ) {
                NextDigit::More(more) => begun = more,
                NextDigit::Last(last) => {
                    if !add(octets, last) {
                        return None;
                    }
                    (at, begun, end) = (next_at(cycle, at, rest), Begun::Nothing, place + 1);
                }
                NextDigit::Emit(last, more) => {
                    if !add(octets, last) {
                        return None;
                    }
                    (begun, end) = (more, place + 1);
                }
                NextDigit::Stop => return Some(end),
            },
        }
        place += 1;
    }
    Some(end)
}

/// Returns whether a text ends before its first octet is whole, as an empty text does.
pub fn ends_in_octet(digits: Digits, text: &[u8]) -> bool
    ensures { result ≡ ends_open digits Nothing text.now }
{
    let mut begun = Begun::Nothing;
    let mut place = 0;
    'characters: while place < text.len() {
        let longer = makes_longer(digits, begun, &text[place + 1..]);
        match next_in(digits, begun, text[place], longer) {
            NextDigit::More(more) => begun = more,
            NextDigit::Last(_) | NextDigit::Emit(..) | NextDigit::Stop => return false,
        }
        place += 1;
    }
    true
}
