//! The lines of a text that have content.
ghost use Rattle.std.specs.Prelude.{◌≡◌, ◌+◌, ◌<◌, ◌≤◌, ◌^◌, [], ◌∷◌, length, IfSome, IfNone};
ghost use Rattle.fio_text.specs.Lines.{lines_of, numbered};

use crate::lines::{is_skipped, split_line};
use std::marker::Model;

/// The remaining lines of a text, each with its number, without those that are empty or begin with `#`.
#[derive(Debug, Drop)]
pub struct NumberedLines<'a> {
    text: &'a [u8],
    number: usize,
}

impl<'a> Model for NumberedLines<'a> {
    ghost use Rattle.std.specs.Prelude.{ℕ, List, ◌+◌, ◌<◌, ◌^◌, length};
    ghost use Rattle.fio_text.specs.Lines.{lines_of, numbered};

    ghost Value = { List (ℕ × List ℕ) };

    ghost view = { λ v. numbered v.number (lines_of v.text.now) };

    ghost invariant = { λ v. v.number + length v.text.now < 2 ^ 64 };
}

/// Returns the lines of a text that are neither empty nor begin with `#`, each with its number. The
/// first line of the text has the number `first`.
pub fn numbered_lines(text: &[u8], first: u8) -> NumberedLines<'_>
    ensures { result ≡ numbered first (lines_of text.now) }
{
    NumberedLines {
        text,
        number: usize::from(first),
    }
}

/// Returns the first line that has content, with its number, and what follows it.
fn first_numbered(text: &[u8], number: usize) -> Option<(usize, &[u8], &[u8])>
    requires { number + length text.now < 2 ^ 64 }
    ensures none { IfNone result (numbered number (lines_of text.now) ≡ []) }
    ensures some { IfSome result (λ found. numbered number (lines_of text.now)
        ≡ (found.0, found.1.now) ∷ numbered (found.0 + 1) (lines_of found.2.now)) }
    ensures shorter { IfSome result (λ found. found.0 + 1 + length found.2.now
        ≤ number + length text.now) }
{
    let mut number = number;
    let mut rest = text;
    'lines: while let Some((line, after)) = split_line(rest) {
        if !is_skipped(line) {
            return Some((number, line, after));
        }
        number += 1;
        rest = after;
    }
    None
}

impl<'a> Iterator for NumberedLines<'a> {
    ghost use Rattle.std.specs.Iterator.{YieldsFirstBy, item_count};

    type Item = (usize, &'a [u8]);

    ghost next_gives = { YieldsFirstBy (λ line. (line.0, line.1.now)) (λ rest. rest) };

    ghost remaining = { item_count (λ rest. rest) };

    fn next(&mut self) -> Option<(usize, &'a [u8])> {
        let (number, line, rest) = first_numbered(self.text, self.number)?;
        self.text = rest;
        self.number = number + 1;
        Some((number, line))
    }
}
