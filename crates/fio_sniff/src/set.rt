//! Sets of hashes.

/// The places of a set.
const PLACES: usize = 1024;

/// The places that are searched for a hash.
const TRIES: usize = 64;

/// Different numbers, of which only the count is asked. It may err: of numbers for which no place is near, some are not counted.
#[derive(Drop)]
pub(crate) struct Set {
    hashes: [u32; PLACES],
    count: u32,
}

impl Set {
    /// Returns the empty set.
    pub(crate) fn new() -> Set {
        Set {
            hashes: [0; PLACES],
            count: 0,
        }
    }

    /// Takes all numbers out.
    pub(crate) fn clear(&mut self) {
        for hash in &mut self.hashes {
            *hash = 0;
        }
        self.count = 0;
    }

    /// Returns how many different numbers were added.
    pub(crate) fn count(&self) -> u32 {
        self.count
    }

    /// Adds a number.
    pub(crate) fn add(&mut self, number: u32) {
        let hash = number | 1;
        let first = (hash >> 1) as usize % PLACES;
        for step in 0..TRIES {
            let place = (first + step) % PLACES;
            if self.hashes[place] == hash {
                return;
            }
            if self.hashes[place] == 0 {
                self.hashes[place] = hash;
                self.count = self.count.saturating_add(1);
                return;
            }
        }
    }
}
