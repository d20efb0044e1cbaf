//! The lines of a text. Sixteen octets at a time are searched for line feeds.
ghost use Rattle.std.specs.Prelude.{◌≡◌, ◌≢◌, ◌<◌, ◌≤◌, ◌==◌, ℕ, [], ◌∷◌, length, not, slice_index, IfSome, IfNone};
ghost use Rattle.std.specs.List.{prefix_len};
ghost use Rattle.fio_text.specs.Lines.{lines_of, is_skipped};

use std::simd::prelude::*;

/// The number of octets that are compared with a line feed at a time.
const LANES: usize = 16;

/// Returns the first line of a text, without its line feed, and what follows it; `None` if the text is
/// empty.
pub fn split_line(text: &[u8]) -> Option<(&[u8], &[u8])>
    ensures none { IfNone result (text.now ≡ []) }
    ensures first { IfSome result (λ cut. lines_of text.now ≡ cut.0.now ∷ lines_of cut.1.now) }
    ensures shorter { IfSome result (λ cut. length cut.1.now < length text.now) }
{
    if text.is_empty() {
        return None;
    }
    let end = line_end(text);
    if end < text.len() {
        Some((&text[..end], &text[end + 1..]))
    } else {
        Some((text, &[]))
    }
}

/// Returns the index of the first line feed of a text, or the length of a text without one.
fn line_end(text: &[u8]) -> usize
    ensures within { result ≤ length text.now }
    ensures before { (k : ℕ) → k < result → slice_index text.now k ≢ 10 }
    ensures feed { result < length text.now → slice_index text.now result ≡ 10 }
{
    let mut at = 0;
    'lanes: while text.len() - at >= LANES {
        let free = before_feed(u8x16::from_slice(&text[at..]));
        if free < LANES {
            return at + free;
        }
        at += LANES;
    }
    'rest: while at < text.len() && text[at] != b'\n' {
        at += 1;
    }
    at
}

/// Returns how many of sixteen octets are before the first line feed among them, or 16.
// Inlined, so that the sixteen octets stay in a register.
#[inline(always)]
fn before_feed(octets: u8x16) -> usize
    ensures { result ≡ prefix_len (λ octet. not (octet == 10)) octets }
{
    let feeds = octets.simd_eq(u8x16::splat(b'\n')).to_bitmask();
    if feeds == 0 {
        return LANES;
    }
    feeds.trailing_zeros() as usize
}

/// Returns whether a line has no content: it is empty, or its first octet is `#`.
pub fn is_skipped(line: &[u8]) -> bool
    ensures { result ≡ is_skipped line.now }
{
    match line {
        [] => true,
        [octet, ..] => *octet == b'#',
    }
}
