//! Counts what the lines of a window say for a form.
use crate::evidence::Evidence;
use crate::known::{Known, mark_of};
use crate::polls::Polls;
use crate::set::Set;
use crate::written::Written;
use fio_guess::is_sure;
use fio_guess::table::LOOSE_OCTETS;

/// What a line says by a form.
#[derive(Clone, Copy, PartialEq, Eq)]
pub(crate) enum LineTold {
    /// Nothing.
    Nothing,
    /// A message.
    Message,
    /// Octets that are no message, and whether they begin one.
    Damage { is_lacking: bool },
}

/// What was counted.
#[derive(Drop)]
pub(crate) struct Tally {
    evidence: Evidence,
    sure: Set,
    distinct: Set,
    sure_types: [bool; 256],
    types: [bool; 256],
    polls: Polls,
}

fn count_of(types: &[bool; 256]) -> u32 {
    let mut count: u32 = 0;
    for is_there in types {
        count = count.saturating_add(u32::from(*is_there));
    }
    count
}

impl Tally {
    /// Returns that of no line.
    pub(crate) fn new() -> Tally {
        Tally {
            evidence: Evidence::default(),
            sure: Set::new(),
            distinct: Set::new(),
            sure_types: [false; 256],
            types: [false; 256],
            polls: Polls::default(),
        }
    }

    /// Forgets all lines.
    pub(crate) fn clear(&mut self) {
        self.evidence = Evidence::default();
        self.polls = Polls::default();
        self.sure.clear();
        self.distinct.clear();
        for is_there in &mut self.sure_types {
            *is_there = false;
        }
        for is_there in &mut self.types {
            *is_there = false;
        }
    }

    /// Counts what the octets are that begin in a line; `message` is the message if they are one.
    pub(crate) fn tell(&mut self, told: LineTold, line: usize, message: &[u8], known: &Known) {
        match told {
            LineTold::Nothing => {}
            LineTold::Damage { is_lacking } => {
                self.evidence.there = self.evidence.there.saturating_add(1);
                self.evidence.lacking = self.evidence.lacking.saturating_add(u32::from(is_lacking));
            }
            LineTold::Message => {
                self.evidence.there = self.evidence.there.saturating_add(1);
                self.tell_message(line, message, known);
            }
        }
    }

    fn tell_message(&mut self, line: usize, message: &[u8], known: &Known) {
        let mark = mark_of(message);
        let kind = usize::from(mark.first[0]);
        self.distinct.add(mark.hash);
        self.polls.add(&mark);
        if is_sure(message) {
            self.sure.add(mark.hash);
            self.sure_types[kind] = true;
            self.evidence.many = self.evidence.many.saturating_add(1);
        }
        if mark.count > 1 {
            self.types[kind] = true;
        }
        let (above, below) = (known.above(line), known.below(line));
        let is_paired = mark.is_paired(above) || mark.is_paired(below);
        let is_echo = mark.is_same(above);
        let is_same = is_echo || mark.is_same(below);
        let is_asked = is_same && known.lacks_poll(line);
        let evidence = &mut self.evidence;
        evidence.frames = evidence.frames.saturating_add(1);
        evidence.commands = evidence
            .commands
            .saturating_add(u32::from(mark.is_command()));
        evidence.pairs = evidence.pairs.saturating_add(u32::from(is_paired));
        evidence.same = evidence.same.saturating_add(u32::from(is_same));
        evidence.echoes = evidence.echoes.saturating_add(u32::from(is_echo));
        evidence.asked = evidence.asked.saturating_add(u32::from(is_asked));
    }

    /// Counts how the octets of a message are written.
    pub(crate) fn tell_written(&mut self, told: LineTold, message: &[u8], written: Written) {
        if told != LineTold::Message {
            return;
        }
        let is_long = message.len() >= LOOSE_OCTETS;
        let evidence = &mut self.evidence;
        let is_short = written.has_short && !written.has_zero;
        evidence.zeros = evidence.zeros.saturating_add(u32::from(written.has_zero));
        evidence.short = evidence.short.saturating_add(u32::from(is_short));
        evidence.signs = evidence.signs.saturating_add(u32::from(written.has_sign));
        evidence.long = evidence.long.saturating_add(u32::from(is_long));
        evidence.blanks = evidence
            .blanks
            .saturating_add(u32::from(is_long && written.has_blank));
        evidence.glued = evidence
            .glued
            .saturating_add(u32::from(is_long && written.is_glued));
    }

    /// Counts a message that needs its rows.
    pub(crate) fn tell_rows(&mut self, told: LineTold, needs_rows: bool) {
        if told == LineTold::Message && needs_rows {
            self.evidence.pieces = self.evidence.pieces.saturating_add(1);
        }
    }

    /// Returns how many messages of other forms have a type of those that were counted.
    pub(crate) fn others(&self, known: &Known) -> u32 {
        known.count(&self.types)
    }

    /// Returns what was counted.
    pub(crate) fn evidence(&self) -> Evidence {
        Evidence {
            sure: self.sure.count(),
            distinct: self.distinct.count(),
            sure_types: count_of(&self.sure_types),
            types: count_of(&self.types),
            are_polls: self.polls.are_shown(),
            are_polls_alone: self.polls.are_alone(),
            ..self.evidence
        }
    }
}
