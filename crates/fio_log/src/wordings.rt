//! What the words of a line say that gives no frame.
ghost use Rattle.std.specs.Prelude.{◌≡◌, ◌≤◌, ℕ, List, drop, length, map};
ghost use Rattle.std.specs.List.{before_first, list_any, position_or_len, prefix_len};
ghost use Rattle.std.specs.Str.{str_eq_ignore_ascii_case};
ghost use Rattle.std.specs.Char.{is_ascii_alphabetic};
ghost use Rattle.fio_log.specs.Wordings.{begins_ruled, has_one_of, is_blank_or_tab, is_heading, is_no_letter, is_of_rule, is_one_of, SaysWords, reason_beside_octets, reason_without_octets, speaks_of_loss};

use crate::verdict::Reason;

/// The words of loss.
const LOSS: [&[u8]; 15] = [
    b"missed",
    b"missing",
    b"lost",
    b"loss",
    b"drop",
    b"dropped",
    b"drops",
    b"discarded",
    b"suppressed",
    b"overrun",
    b"overruns",
    b"overflow",
    b"overflowed",
    b"full",
    b"truncated",
];

/// The words for what may begin: a log, or a part of one.
const LOGS: [&[u8]; 17] = [
    b"log",
    b"logs",
    b"logfile",
    b"logging",
    b"logger",
    b"capture",
    b"capturing",
    b"trace",
    b"session",
    b"recording",
    b"file",
    b"port",
    b"script",
    b"journal",
    b"syslog",
    b"syslogd",
    b"rsyslogd",
];

/// The words that say that it begins.
const STARTS: [&[u8]; 19] = [
    b"started",
    b"starting",
    b"start",
    b"begin",
    b"begins",
    b"beginning",
    b"began",
    b"begun",
    b"opened",
    b"open",
    b"new",
    b"rotated",
    b"rotating",
    b"resumed",
    b"continued",
    b"created",
    b"reopened",
    b"restarted",
    b"restart",
];

/// The words that name logs, or what writes them, and nothing else.
const CAPTURES: [&[u8]; 6] = [
    b"logfile",
    b"logging",
    b"capture",
    b"capturing",
    b"snapshot",
    b"terminal",
];

/// The words that say that one of these begins.
const TURNS: [&[u8]; 6] = [
    b"enabled",
    b"enabling",
    b"listening",
    b"on",
    b"ready",
    b"turned",
];

/// The words with which a program begins what it writes.
const WELCOMES: [&[u8]; 1] = [b"welcome"];

/// Returns how many letters a text begins with.
#[tactic(auto, using(crate::proofs::WordingLemmas::letters_are))]
fn letters_before(text: &[u8]) -> usize
    ensures count { result ≡ position_or_len is_no_letter text.now }
    ensures within { result ≤ length text.now }
{
    text.iter()
        .take_while(|character| character.is_ascii_alphabetic())
        .count()
}

/// Returns the first word of a text: the letters that it begins with, perhaps none.
fn first_word(text: &[u8]) -> &[u8]
    ensures word { result.now ≡ before_first is_no_letter text.now }
    ensures count { length result.now ≡ position_or_len is_no_letter text.now }
{
    &text[..letters_before(text)]
}

/// Returns the rest of a text from a place on.
fn text_from(text: &[u8], place: usize) -> &[u8]
    requires { place ≤ length text.now }
    ensures { result.now ≡ drop place text.now }
{
    &text[place..]
}

/// Returns whether two words differ at most in the case of letters.
fn is_same(one: &[u8], word: &[u8]) -> bool
    ensures { result ≡ str_eq_ignore_ascii_case one.now word.now }
{
    one.eq_ignore_ascii_case(word)
}

/// Returns whether a word is one of some others, in any case of letters.
fn is_one_of(known: &[&[u8]], word: &[u8]) -> bool
    ensures { result ≡ list_any (λ one. str_eq_ignore_ascii_case one.now word.now) known.now }
{
    for one in known {
        if is_same(one, word) {
            return true;
        }
    }
    false
}

/// Returns whether a line has one of some words.
fn has_one_of(known: &[&[u8]], line: &[u8]) -> bool
    ensures { result ≡ has_one_of (map (λ one. one.now) known.now) line.now }
{
    let mut start = 0;
    'words: while start <= line.len() {
        let word = first_word(text_from(line, start));
        if is_one_of(known, word) {
            return true;
        }
        start += word.len() + 1;
    }
    false
}

/// Returns whether a line speaks of loss.
fn speaks_of_loss(line: &[u8]) -> bool
    ensures { result ≡ speaks_of_loss line.now }
{
    has_one_of(&LOSS, line)
}

/// Returns whether a character is of a rule.
fn is_of_rule(character: u8) -> bool
    ensures { result ≡ is_of_rule character }
{
    matches!(character, b'-' | b'=' | b'*' | b'#' | b'~' | b'_')
}

/// Returns whether a text begins with three characters of a rule, or with `==>`.
fn begins_ruled(text: &[u8]) -> bool
    ensures { result ≡ begins_ruled text.now }
{
    match *text {
        [b'=', b'=', b'>', ..] => true,
        [first, second, third, ..] => is_of_rule(first) && is_of_rule(second) && is_of_rule(third),
        _ => false,
    }
}

/// Returns how many blanks a line begins with.
fn blanks_before(line: &[u8]) -> usize
    ensures count { result ≡ prefix_len is_blank_or_tab line.now }
    ensures within { result ≤ length line.now }
{
    line.iter()
        .take_while(|character| matches!(character, b' ' | b'\t'))
        .count()
}

/// Returns whether a line is the heading of a log, or of a part of one.
fn is_heading(line: &[u8]) -> bool
    ensures { result ≡ is_heading line.now }
{
    begins_ruled(text_from(line, blanks_before(line)))
        || has_one_of(&LOGS, line) && has_one_of(&STARTS, line)
        || has_one_of(&CAPTURES, line) && has_one_of(&TURNS, line)
        || has_one_of(&WELCOMES, line)
}

/// Returns why a line gives no frame if it has octets of no message: it is a heading, or its words say nothing of it.
pub(crate) fn reason_beside_octets(line: &[u8]) -> Reason
    ensures reason { result ≡ reason_beside_octets line.now }
    ensures words { SaysWords line.now result }
{
    if is_heading(line) {
        Reason::Heading
    } else {
        Reason::None
    }
}

/// Returns why a line without octets gives no frame, by its words.
pub(crate) fn reason_without_octets(line: &[u8]) -> Reason
    ensures reason { result ≡ reason_without_octets line.now }
    ensures words { SaysWords line.now result }
{
    if is_heading(line) {
        Reason::Heading
    } else if speaks_of_loss(line) {
        Reason::Loss
    } else {
        Reason::NoOctets
    }
}
