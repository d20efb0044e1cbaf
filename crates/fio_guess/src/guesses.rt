//! The guesses of a window, each once.
ghost use Rattle.std.specs.Prelude.{◌≡◌, ◌≤◌, ◌<◌, IfSome, IfOk, IfErr, length};
ghost use Rattle.fio_guess.specs.declared.table.TheConstants.{GUESS_SLOTS};

use crate::guess::{Guess, GuessPlace};
use crate::rows::RowGuesses;
use crate::table::{GUESS_SLOTS, GUESSES, TRIED_A_KIND};
use arrayvec::ArrayVec;
use fio_form::{LineForm, Octets};

/// Guesses, which are found by the hashes of their forms.
#[derive(Drop)]
pub(crate) struct GuessTable {
    all: ArrayVec<Guess, GUESSES>,
    /// In the slot that a hash leads to, or the first free one after it: 1 and the index of the guess; 0 in a free slot.
    index: [u16; GUESS_SLOTS],
}

/// The guesses of a window, and what they are made with.
#[derive(Drop)]
pub struct Guesses {
    pub(crate) table: GuessTable,
    /// The octets of a place.
    pub(crate) octets: Octets,
    /// The message of a frame of the wire.
    pub(crate) held: Octets,
    pub(crate) rows: RowGuesses,
}

// a reader of a log has at most 524,288 octets
const _: () = prove!(size_of::<Guesses>() <= 94_208);

impl GuessTable {
    /// Returns a table without guesses.
    fn new() -> GuessTable {
        GuessTable {
            all: ArrayVec::new(),
            index: [0; GUESS_SLOTS],
        }
    }

    /// Takes all guesses out.
    fn clear(&mut self) {
        self.all.clear();
        for slot in &mut self.index {
            *slot = 0;
        }
    }

    /// Returns the index of the guess with these hashes, or else the slot where it is to be found.
    fn find(&self, hash: u32, front: u32) -> Result<usize, usize>
        ensures found { IfOk result (λ at. at < length self.now.all.items) }
        ensures slot { IfErr result (λ slot. slot < GUESS_SLOTS) }
    {
        let mut slot = hash as usize % GUESS_SLOTS;
        'slots: for _ in 0..GUESS_SLOTS {
            let entry = usize::from(self.index[slot]);
            if entry == 0 || entry > self.all.len() {
                return Err(slot);
            }
            let guess = self.all[entry - 1];
            if guess.hash == hash && guess.front == front {
                return Ok(entry - 1);
            }
            slot = if slot + 1 == GUESS_SLOTS { 0 } else { slot + 1 };
        }
        Err(slot)
    }

    /// Adds to the weight of the guess that is a form, or makes it, if there is room.
    pub(crate) fn add(&mut self, form: &LineForm, at: GuessPlace, weight: u32) {
        let guess = at.guess(form, weight);
        match self.find(guess.hash, guess.front) {
            Ok(found) => {
                let same = &mut self.all.as_mut_slice()[found];
                same.weight = same.weight.saturating_add(weight);
            }
            Err(slot) => {
                if self.all.try_push(guess).is_ok() {
                    self.index[slot] = self.all.len() as u16;
                }
            }
        }
    }

    /// Returns the index of the guess that weighs most.
    fn heaviest(&self) -> Option<usize>
        ensures { IfSome result (λ at. at < length self.now.all.items) }
    {
        let mut best = None;
        let mut most = 0;
        'guesses: for (at, guess) in self.all.as_slice().iter().enumerate() {
            if guess.weight > most {
                most = guess.weight;
                best = Some(at);
            }
        }
        best
    }
}

impl GuessTable {
    /// Returns how many guesses of the front and the kind of rows of a guess were picked.
    fn picked_like(&self, guess: &Guess) -> usize {
        let kind = guess.kind();
        let mut count = 0;
        'guesses: for other in self.all.as_slice() {
            if other.weight == 0 && other.front == guess.front && other.kind() == kind {
                count += 1;
            }
        }
        count
    }
}

impl Guesses {
    /// Returns the guesses of no lines.
    pub fn new() -> Guesses {
        Guesses {
            table: GuessTable::new(),
            octets: ArrayVec::new(),
            held: ArrayVec::new(),
            rows: RowGuesses::new(),
        }
    }

    /// Takes all guesses out.
    pub fn clear(&mut self) {
        self.table.clear();
    }

    /// Returns the guess that reads the most sure messages, then the most messages, and was not picked before; of one front and one
    /// kind of rows, a few.
    pub fn pick(&mut self) -> Option<Guess> {
        for _ in 0..GUESSES {
            let at = self.table.heaviest()?;
            let guess = self.table.all[at];
            self.table.all.as_mut_slice()[at].weight = 0;
            if self.table.picked_like(&guess) <= TRIED_A_KIND {
                return Some(guess);
            }
        }
        None
    }

    /// Returns how many guesses of a front were picked.
    pub fn picked_of(&self, front: u32) -> usize {
        let mut count = 0;
        'guesses: for guess in self.table.all.as_slice() {
            if guess.weight == 0 && guess.front == front {
                count += 1;
            }
        }
        count
    }
}
