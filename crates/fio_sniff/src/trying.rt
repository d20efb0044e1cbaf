//! The guesses that are tried.
use crate::evidence::{Evidence, Rank, rank_of};
use crate::known::Known;
use crate::weighing::Weighing;
use arrayvec::ArrayVec;
use fio_guess::table::{GUESSES, TRIED, TRIED_A_FRONT};
use fio_guess::{Guess, Guesses, Window};

/// A guess that is tried.
#[derive(Clone, Copy, Default)]
pub(crate) struct Tried {
    /// The guess.
    pub(crate) guess: Guess,
    /// What the lines say for its form.
    pub(crate) evidence: Evidence,
    rank: Rank,
}

/// The guesses that are tried.
#[derive(Drop)]
pub(crate) struct Trying {
    all: ArrayVec<Tried, TRIED>,
}

impl Trying {
    /// Returns that of no lines.
    pub(crate) fn new() -> Trying {
        Trying {
            all: ArrayVec::new(),
        }
    }

    /// Keeps the likeliest guesses, a few of each front.
    pub(crate) fn choose(&mut self, guesses: &mut Guesses) {
        self.all.clear();
        for _ in 0..GUESSES {
            if self.all.is_full() {
                return;
            }
            let Some(guess) = guesses.pick() else {
                return;
            };
            if guesses.picked_of(guess.front) <= TRIED_A_FRONT {
                let _ = self.all.try_push(Tried {
                    guess,
                    ..Tried::default()
                });
            }
        }
    }

    /// Weighs the guesses by the lines that no form has.
    pub(crate) fn weigh(&mut self, weighing: &mut Weighing, lines: &Window, known: &Known) {
        for one in self.all.as_mut_slice() {
            if let Some(form) = one.guess.form(lines) {
                one.evidence = weighing.weigh(&form, lines, known);
                one.rank = rank_of(&form, &one.evidence);
            } else {
                one.evidence = Evidence::default();
            }
        }
    }

    /// Returns a guess.
    pub(crate) fn get(&self, at: usize) -> Option<Tried> {
        match self.all.get(at) {
            Some(one) => Some(*one),
            None => None,
        }
    }

    /// Returns which guess is the best one of those that read a message and were not refused.
    pub(crate) fn best(&self) -> Option<usize> {
        let mut best: Option<usize> = None;
        let mut rank = Rank::default();
        for (at, one) in self.all.iter().enumerate() {
            if one.evidence.frames > 0 && (best.is_none() || one.rank > rank) {
                best = Some(at);
                rank = one.rank;
            }
        }
        best
    }

    /// Refuses a guess until the lines are weighed again.
    pub(crate) fn refuse(&mut self, at: usize) {
        if let Some(one) = self.all.get_mut(at) {
            one.evidence.frames = 0;
        }
    }

    /// Takes a guess out whose form was found: with all of its front, or alone if the form has some values of a number.
    pub(crate) fn found(&mut self, at: usize, is_narrow: bool) {
        let Some(found) = self.get(at) else {
            return;
        };
        let mut left: ArrayVec<Tried, TRIED> = ArrayVec::new();
        for (other, one) in self.all.iter().enumerate() {
            let is_out = if is_narrow {
                other == at
            } else {
                one.guess.front == found.guess.front
            };
            if !is_out {
                let _ = left.try_push(*one);
            }
        }
        self.all = left;
    }
}
