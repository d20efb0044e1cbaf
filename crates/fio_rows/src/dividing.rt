//! What is next in a stream of octets.
ghost use Rattle.std.specs.Prelude.{◌≡◌, ◌≤◌, ◌<◌, IfSome, length};
ghost use Rattle.fio_form.specs.Messages.{size_of};
ghost use Rattle.fio_rows.specs.Dividing.{followed, stream_goes_on, known_end, next_beginning};

use fio_form::{Size, is_answer, size_of};

/// The octets that are kept of a stream.
pub const KEPT: usize = 2048;

/// The most octets of a message of unknown length: one less than this.
pub const FREE: usize = 64;

/// The fewest octets that are kept if nothing is known of any: then some of them are dropped.
pub const FULL: usize = KEPT + 1 - FREE;

/// What is next in a stream.
#[derive(Clone, Copy, Debug, PartialEq, Eq)]
pub enum Next {
    /// A message of this many octets, with its frame if it has one: `Stream::message` has it.
    Message(usize),
    /// This many octets that are none.
    Broken(usize),
    /// This many octets between frames, or a frame without a message.
    Idle(usize),
    /// Nothing that is known yet.
    Wait,
}

/// Returns where the message ends that octets begin, if its length is known and they have all of it.
fn known_end(octets: &[u8]) -> Option<usize>
    ensures exact { result ≡ known_end (size_of octets.now) (length octets.now) }
    ensures within { IfSome result (λ end. end ≤ length octets.now) }
{
    match size_of(octets) {
        Size::Known(size) if size <= octets.len() => Some(size),
        _ => None,
    }
}

/// Returns whether octets begin with a command, and after it its answer or the same command again.
#[tactic(auto, unfolding(crate::specs::Dividing::stream_goes_on))]
fn goes_on(octets: &[u8]) -> bool
    ensures { result ≡ stream_goes_on octets.now }
{
    let Some(end) = known_end(octets) else {
        return false;
    };
    let (command, rest) = octets.split_at(end);
    matches!(command, [0..=127, ..])
        && rest.len() >= 2
        && (is_answer(command, &rest[..2]) || rest.starts_with(command))
}

/// Returns where the first command begins, after the first octet, after which the stream goes on.
#[tactic(auto, unfolding(crate::specs::Dividing::beginning_from))]
pub fn next_beginning(octets: &[u8]) -> Option<usize>
    ensures exact { result ≡ next_beginning octets.now }
    ensures within { IfSome result (λ at. (0 < at) × (at < length octets.now)) }
{
    for at in 1..octets.len() {
        let (_, rest) = octets.split_at(at);
        if goes_on(rest) {
            return Some(at);
        }
    }
    None
}

/// Returns whether what follows a message may follow it: none if nothing says it yet.
pub fn is_followed(message: &[u8], rest: &[u8]) -> Option<bool>
    ensures { result ≡ followed message.now rest.now }
{
    match (message, rest) {
        (_, []) => None,
        (_, [first, ..]) if size_of(&[*first]) == Size::None => Some(false),
        (_, [0..=127, ..]) => Some(true),
        ([128..=255, ..], _) => Some(false),
        (_, [_]) => None,
        (message, rest) => Some(is_answer(message, rest)),
    }
}
