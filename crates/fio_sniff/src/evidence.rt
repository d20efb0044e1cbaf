//! What the lines of a window say for a form, and whether that is enough.
use crate::fronts::differs_in_a_word;
use fio_form::{Digits, LineForm, LineRows, Piece, Step};
use fio_guess::table::{
    COPY_FIFTHS, FEW, KIN, KIN_HUNDREDTHS, LOOSE_SHARE, NARROW, PAIR_LINES, PAIR_TENTHS, PAIRS,
    PIECES, POLL_LINES, SPLIT_TENTHS, SURE, SURE_OF_FEW, SURE_SHARE,
};
use fio_guess::{Window, hash_of};

/// What the lines of a window say for a form.
#[derive(Clone, Copy, Default)]
pub(crate) struct Evidence {
    /// Messages that begin, and octets that are none.
    pub(crate) there: u32,
    /// Messages.
    pub(crate) frames: u32,
    /// Octets that are no message and begin one.
    pub(crate) lacking: u32,
    /// Sure messages.
    pub(crate) many: u32,
    /// Different sure messages.
    pub(crate) sure: u32,
    /// Different messages.
    pub(crate) distinct: u32,
    /// Types of sure messages.
    pub(crate) sure_types: u32,
    /// Types of messages of two octets or more.
    pub(crate) types: u32,
    /// Messages that answer the nearest one of another form, or that it answers.
    pub(crate) pairs: u32,
    /// Messages that are the nearest one of another form again.
    pub(crate) same: u32,
    /// Those of them above a block with E, which the polls of other forms do not explain.
    pub(crate) asked: u32,
    /// Messages that are the nearest one of another form above them again.
    pub(crate) echoes: u32,
    /// Commands.
    pub(crate) commands: u32,
    /// Messages of which an octet has two digits, and the first one is 0; others of which an octet has one digit.
    pub(crate) zeros: u32,
    pub(crate) short: u32,
    /// Messages of which an octet has eight digits, with a sign.
    pub(crate) signs: u32,
    /// Messages of `LOOSE_OCTETS` or more; those of them that have a blank between octets, and nothing between octets.
    pub(crate) long: u32,
    pub(crate) blanks: u32,
    pub(crate) glued: u32,
    /// Messages in pieces of which one begins no message itself.
    pub(crate) pieces: u32,
    /// Whether its polls are those of a link.
    pub(crate) are_polls: bool,
    /// Whether they may be those of a log with nothing else.
    pub(crate) are_polls_alone: bool,
}

impl Evidence {
    /// Returns the number of messages, and of octets that are none and begin none.
    pub(crate) fn rest(&self) -> u32 {
        self.there.saturating_sub(self.lacking)
    }
}

/// Returns a multiple of a count.
pub(crate) fn times(factor: usize, count: u32) -> u64 {
    (factor as u64).saturating_mul(u64::from(count))
}

/// Returns whether octets are before or after the messages of a form.
fn is_cut(form: &LineForm) -> bool {
    form.before > 0 || form.after > 0
}

/// Returns whether the lines of a form give messages.
pub(crate) fn fits(form: &LineForm, evidence: &Evidence) -> bool {
    if form.rows == LineRows::Pieces {
        return times(10, evidence.frames) >= times(SPLIT_TENTHS, evidence.there);
    }
    let (share, of) = if is_cut(form) { (3, 4) } else { (1, 2) };
    times(10, evidence.frames) >= u64::from(evidence.there)
        && times(of, evidence.frames) >= times(share, evidence.rest())
}

/// Returns whether a message may go on below a line of a few octets, whatever these are.
pub(crate) fn are_pieces(rows: LineRows) -> bool {
    match rows {
        LineRows::Pieces => true,
        LineRows::Wrapped(width) | LineRows::Offset { width, .. } => width < NARROW,
        _ => false,
    }
}

/// Returns whether messages need the notation and the rows of a form: if it reads more than another one does, some have to be
/// written so. One message in pieces may be a line that is damaged, and others below it.
pub(crate) fn is_needed(form: &LineForm, evidence: &Evidence, log: Log) -> bool {
    let least = if log.is_few { 1 } else { PIECES };
    if are_pieces(form.rows) && (evidence.pieces as usize) < least {
        return false;
    }
    let is_loose = form.cycle().contains(&Step::MaybeBlank);
    let is_mixed = evidence.long > 0
        && times(LOOSE_SHARE, evidence.blanks) >= u64::from(evidence.long)
        && times(LOOSE_SHARE, evidence.glued) >= u64::from(evidence.long);
    let has_short_digits = matches!(form.digits(), Digits::Short | Digits::Prefixed);
    let is_short = evidence.signs > 0
        || evidence.short > evidence.zeros
            && times(LOOSE_SHARE, evidence.short) >= u64::from(evidence.frames);
    (!is_loose || is_mixed) && (!has_short_digits || is_short)
}

/// Returns whether messages show a form by themselves.
pub(crate) fn is_shown(form: &LineForm, evidence: &Evidence, log: Log) -> bool {
    if is_cut(form) && !form.is_framed && evidence.sure_types < 2 {
        return false;
    }
    if evidence.are_polls && !is_cut(form) && evidence.frames == evidence.there {
        return true;
    }
    if are_polls_alone(form, evidence, log) {
        return true;
    }
    let is_narrow = form.front().contains(&Piece::Value);
    let least = if log.is_few && form.after == 0 && !is_narrow {
        SURE_OF_FEW
    } else {
        SURE
    };
    evidence.sure as usize >= least
        && times(SURE_SHARE, evidence.many) >= u64::from(evidence.frames)
}

/// Returns whether some of the lines of a form may show it: these have no more than all of them. `has_others`: other forms have messages.
pub(crate) fn may_show_less(
    form: &LineForm,
    evidence: &Evidence,
    has_others: bool,
    log: Log,
) -> bool {
    log.is_few
        || form.rows != LineRows::One
        || evidence.sure as usize >= SURE
        || evidence.are_polls
        || has_others && (evidence.pairs as usize >= PAIRS || evidence.frames as usize >= KIN)
}

/// Returns whether the messages of other forms show a form, which they answer or are answered by.
pub(crate) fn is_paired(form: &LineForm, evidence: &Evidence, log: Log) -> bool {
    let least = if log.is_few { 1 } else { PAIRS };
    !is_cut(form)
        && evidence.distinct as usize >= least
        && evidence.pairs as usize >= least
        && times(10, evidence.pairs) >= times(PAIR_TENTHS, evidence.frames)
}

/// Returns whether commands that are those of other forms again were sent again: they repeat less than half of the others of their
/// types, or blocks below them say so.
pub(crate) fn are_sent_again(evidence: &Evidence, others: u32) -> bool {
    evidence.commands == evidence.frames
        && (times(2, evidence.same) < u64::from(others)
            || times(5, evidence.asked) >= times(5 - COPY_FIFTHS, evidence.frames))
}

/// Returns whether the messages of a form are those of other forms again.
pub(crate) fn is_copy(evidence: &Evidence) -> bool {
    evidence.frames > 1 && times(5, evidence.same) > times(COPY_FIFTHS, evidence.frames)
}

/// Returns whether the messages of a form are those of other forms above them again.
pub(crate) fn is_echo(evidence: &Evidence) -> bool {
    evidence.frames > 1 && times(5, evidence.echoes) > times(COPY_FIFTHS, evidence.frames)
}

/// Returns whether one word distinguishes the front of a form from that of another one, and all its messages are of one end.
pub(crate) fn is_kin(form: &LineForm, other: &LineForm, evidence: &Evidence, log: Log) -> bool {
    let (messages, types) = if log.is_few { (1, 1) } else { (KIN, 2) };
    let is_one_end = evidence.commands == 0 || evidence.commands == evidence.frames;
    form.digits() == other.digits()
        && form.cycle() == other.cycle()
        && !is_cut(form)
        && evidence.types >= types
        && is_one_end
        && evidence.frames as usize >= messages
        && times(100, evidence.frames) >= times(KIN_HUNDREDTHS, evidence.there)
        && differs_in_a_word(form.front(), other.front())
}

/// How good a form is: the one of the larger rank is better. Of forms that read the same the one that says more of a line is.
#[derive(Clone, Copy, Default, PartialEq, PartialOrd)]
pub(crate) struct Rank {
    sure: u32,
    /// Messages, less for octets before and after them.
    messages: u64,
    /// More for fewer octets after a message.
    is_short: u8,
    rows: u8,
    notation: u8,
    is_fixed: bool,
    pieces: usize,
    hash: u64,
}

/// Returns how much is said of rows: their offsets, their width, or nothing.
fn rows_rank(rows: LineRows) -> u8 {
    match rows {
        LineRows::Offset { .. } => 2,
        LineRows::Pieces => 0,
        _ => 1,
    }
}

/// Returns the rank of a form.
pub(crate) fn rank_of(form: &LineForm, evidence: &Evidence) -> Rank {
    let cut = u64::from(form.before) + 2 * u64::from(form.after);
    Rank {
        sure: evidence.sure,
        messages: 8 * u64::from(evidence.frames) + 1024 - cut,
        is_short: 255 - form.after,
        rows: rows_rank(form.rows),
        notation: match form.digits() {
            Digits::Text(10) => 2,
            Digits::Pairs => 1,
            _ => 0,
        },
        is_fixed: !form.cycle().contains(&Step::MaybeBlank),
        pieces: form.front().len(),
        hash: hash_of(form),
    }
}

/// What the lines of a window are of a log.
#[derive(Clone, Copy)]
pub(crate) struct Log {
    /// Whether it has ended, and is so short that less shows a form.
    pub(crate) is_few: bool,
    /// Whether it has ended, or the window has many lines.
    pub(crate) is_late: bool,
    /// Then the number of lines that are not blank, and no remarks, else 0.
    pub(crate) written: usize,
}

/// Returns whether a line is blank, or a remark.
fn is_empty(line: &[u8]) -> bool {
    for character in line {
        if !matches!(*character, b' ' | b'\t' | b'\r') {
            return *character == b'#';
        }
    }
    true
}

/// Returns the number of lines that are not blank, and no remarks.
fn written_in(lines: &Window) -> usize {
    let mut count: usize = 0;
    for at in 0..lines.len() {
        if !is_empty(lines.line(at)) {
            count = count.saturating_add(1);
        }
    }
    count
}

/// Returns what the lines of a window are of a log; `is_ended`: they are all of it.
pub(crate) fn log_of(lines: &Window, is_ended: bool) -> Log {
    let is_late = is_ended || lines.len() >= POLL_LINES;
    Log {
        is_few: is_ended && lines.len() <= FEW,
        is_late,
        written: if is_late { written_in(lines) } else { 0 },
    }
}

/// Returns whether octets have two digits each, with a blank or comma between or nothing, and a message is one line.
fn is_plain(form: &LineForm) -> bool {
    let is_gap = match form.cycle() {
        [Step::Octet] => true,
        [Step::Octet, Step::Mark(mark), ..] => matches!(*mark, b' ' | b','),
        _ => false,
    };
    is_gap && form.digits() == Digits::Pairs && form.rows == LineRows::One && !is_cut(form)
}

/// Returns whether each line of a log is a message of a form, and a poll. Without a gap it might be a number.
fn are_polls_alone(form: &LineForm, evidence: &Evidence, log: Log) -> bool {
    evidence.are_polls_alone
        && evidence.frames == evidence.there
        && evidence.frames as usize == log.written
        && is_plain(form)
        && form.cycle().len() > 1
}

/// Returns whether two forms show each other: one has commands and the other one answers, a word distinguishes them, and in a log of a
/// few lines that has ended there is nothing else.
pub(crate) fn are_both(
    one: &LineForm,
    its: &Evidence,
    other: &LineForm,
    own: &Evidence,
    log: Log,
) -> bool {
    let count = its.frames.saturating_add(own.frames);
    let are_whole = its.frames == its.there && own.frames == own.there;
    let are_ends = its.commands == its.frames && own.commands == 0;
    log.is_few
        && log.written <= PAIR_LINES
        && its.frames > 0
        && own.frames > 0
        && count as usize == log.written
        && are_whole
        && are_ends
        && its.types > 0
        && own.types > 0
        && is_plain(one)
        && is_plain(other)
        && one.cycle() == other.cycle()
        && differs_in_a_word(one.front(), other.front())
}
