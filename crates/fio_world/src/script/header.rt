//! The first line of a script.
ghost use Rattle.std.specs.Prelude.{◌≡◌, option_map};
ghost use Rattle.fio_world.specs.Headers.{header_of, limited_header, limits_in, standard_header};

use fio_module::Limits;
use fio_text::{after_prefix, read_number, read_small_number, split_at_blank};

/// What the first line of a script says.
#[derive(Clone, Copy)]
pub(crate) struct Header {
    /// The module's identification octet.
    pub id: u8,
    /// The block number of the CPU's first poll.
    pub first: u8,
    /// The module's limits.
    pub limits: Limits,
    /// Whether the module may restart.
    pub restarts: bool,
}

/// Returns the header that a line is, in one of the three versions.
pub(crate) fn read_header(line: &[u8]) -> Option<Header>
    ensures { result ≡ header_of line.now }
{
    if let Some(words) = after_prefix(line, b"fio2070 script 1 ") {
        return read_standard(words, false);
    }
    if let Some(words) = after_prefix(line, b"fio2070 script 2 ") {
        return read_standard(words, true);
    }
    let words = after_prefix(line, b"fio2070 script 3 ")?;
    read_limited(words)
}

/// Reads B B: the identification octet and the first number, with the standard limits.
fn read_standard(words: &[u8], restarts: bool) -> Option<Header>
    ensures { result ≡ standard_header restarts words.now }
{
    let (id, first) = split_at_blank(words)?;
    let (id, first) = read_small_number(id).zip(read_small_number(first))?;
    Some(Header {
        id,
        first,
        limits: Limits::STANDARD,
        restarts,
    })
}

/// Reads B B N N: the identification octet and the first number, then the limits.
fn read_limited(words: &[u8]) -> Option<Header>
    ensures { result ≡ limited_header words.now }
{
    let (id, words) = split_at_blank(words)?;
    let (first, limits) = split_at_blank(words)?;
    let (id, first) = read_small_number(id).zip(read_small_number(first))?;
    let limits = read_limits(limits)?;
    Some(Header {
        id,
        first,
        limits,
        restarts: true,
    })
}

/// Reads N N: the limits with these two numbers.
fn read_limits(words: &[u8]) -> Option<Limits>
    ensures { result ≡ limits_in words.now }
{
    let (per_block, waiting) = split_at_blank(words)?;
    let (per_block, waiting) = read_small_number(per_block).zip(read_number(waiting))?;
    Limits::new(per_block, u16::try_from(waiting).ok()?)
}
