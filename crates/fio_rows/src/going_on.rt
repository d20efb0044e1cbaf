//! Whether a message goes on in the next line.
ghost use Rattle.std.specs.Prelude.{◌≡◌, ◌≤◌, IfSome, length};
ghost use Rattle.fio_rows.specs.GoingOn.{has_only_blanks, is_full, is_list_open, may_go_on, past_blanks, past_gap, past_octets};

use fio_form::{LineForm, LineRows, Step};

/// The fewest octets of a bare row after which another one may come.
const LONG_ROW: usize = 8;

/// Returns a cycle without the octets that it begins with.
fn past_octets(cycle: &[Step]) -> &[Step]
    ensures { result.now ≡ past_octets cycle.now }
{
    let mut steps = cycle;
    while let [Step::Octet, more @ ..] = steps {
        steps = more;
    }
    steps
}

/// Returns a gap without the blanks that it begins with.
fn past_blanks(gap: &[Step]) -> &[Step]
    ensures { result.now ≡ past_blanks gap.now }
{
    let mut steps = gap;
    while let [Step::Mark(b' '), more @ ..] = steps {
        steps = more;
    }
    steps
}

/// Returns what is left of a text after the marks of a gap with which it begins.
#[tactic(auto, unfolding(crate::specs::GoingOn::past_gap))]
fn past_gap<'a>(gap: &[Step], text: &'a [u8]) -> &'a [u8]
    ensures { result.now ≡ past_gap gap.now text.now }
{
    let mut steps = gap;
    let mut rest = text;
    while let ([Step::Mark(mark), more @ ..], [character, behind @ ..]) = (steps, rest) {
        if *mark != *character {
            return rest;
        }
        steps = more;
        rest = behind;
    }
    rest
}

/// Returns whether a text is blanks.
fn is_blank(text: &[u8]) -> bool
    ensures { result ≡ has_only_blanks text.now }
{
    text.iter().all(|character| *character == b' ')
}

/// Returns whether a list goes on below: the text after a row is the beginning of a gap, blanks aside.
#[tactic(auto, unfolding(crate::specs::GoingOn::is_list_open))]
fn is_list_open(cycle: &[Step], tail: &[u8]) -> bool
    ensures { result ≡ is_list_open cycle.now tail.now }
{
    !is_blank(tail) && is_blank(past_gap(past_blanks(past_octets(cycle)), tail))
}

/// Returns whether the next line may go on with the octets, of which `row` are in this line, before this tail.
#[tactic(auto, unfolding(crate::specs::GoingOn::may_go_on))]
pub fn may_go_on(form: &LineForm, row: usize, tail: &[u8]) -> bool
    ensures { result ≡ may_go_on form.now row tail.now }
{
    match form.rows {
        LineRows::One | LineRows::Stream | LineRows::Flags => false,
        LineRows::Offset { .. } | LineRows::Pieces => true,
        LineRows::Wrapped(width) => row == usize::from(width),
        LineRows::Bare => row >= LONG_ROW || is_list_open(form.cycle(), tail),
    }
}

/// Returns whether the row is full, so that nothing says whether a message of any length goes on.
#[tactic(auto, unfolding(crate::specs::GoingOn::is_full))]
pub fn is_full(form: &LineForm, row: usize, tail: &[u8]) -> bool
    ensures { result ≡ is_full form.now row tail.now }
{
    match form.rows {
        LineRows::Offset { width, .. } => row >= usize::from(width),
        LineRows::Pieces => true,
        _ => may_go_on(form, row, tail),
    }
}
