//! A ring of entries in an array of the caller.
ghost use Rattle.std.specs.Prelude.{◌≡◌, ◌+◌, ◌<◌, ◌≤◌, [], ◌∷◌, List, ℕ, length, min};
ghost use Rattle.fio_module.specs.Rings.{empty_place, slot_entries, first_in, ring_in};

use crate::ring::EntryRing;
use fio_message::EntryOctets;

/// Where a ring has its entries in its array. Any octets are a valid place.
#[derive(Clone, Copy, Debug)]
#[repr(C)]
pub struct RingPlace {
    /// The index of the oldest entry; an index beyond the array is taken as 0.
    first: u16,
    /// The number of entries; more than the array's length is taken as that length.
    count: u16,
}

impl Default for RingPlace {
    ghost is_default = { λ place. place ≡ empty_place };

    fn default() -> Self {
        Self::new()
    }
}

impl RingPlace {
    /// Returns the place of a ring with no entries, in any array.
    pub fn new() -> RingPlace
        ensures none { (slots : List (List ℕ)) → slot_entries result slots ≡ [] }
        ensures cleared { result ≡ empty_place }
    {
        RingPlace { first: 0, count: 0 }
    }

    /// Returns the number of entries in an array of this length.
    pub fn len(&self, capacity: u16) -> u16
        ensures { (slots : List (List ℕ)) → length slots ≡ capacity
            → result ≡ length (slot_entries self.now slots) }
    {
        self.count.min(capacity)
    }
}

/// A ring in an array of the caller, whose length is the ring's capacity, at most 65,535. It allocates nothing, and any
/// contents are a valid ring. With capacity 0 each entry is pushed out at once.
// The numbers have 16 bits, since those of 64 bits are slow on a processor of 32 bits.
#[derive(Debug, Drop)]
pub struct MemoryRing<'a> {
    entries: &'a mut [EntryOctets],
    place: &'a mut RingPlace,
    ghost short: { length entries.now < 65536 },
}

impl<'a> MemoryRing<'a> {
    /// Returns the ring that is at this place of this array.
    pub fn new(entries: &'a mut [EntryOctets], place: &'a mut RingPlace) -> MemoryRing<'a>
        requires { length entries.old < 65536 }
        ensures same_entries { result.entries.ghost_name ≡ entries.entry.ghost_name }
        ensures same_place { result.place.ghost_name ≡ place.entry.ghost_name }
        ensures entries { result.entries.now ≡ entries.old }
        ensures place { result.place.now ≡ place.old }
    {
        MemoryRing { entries, place }
    }

    /// Returns the length of the array.
    fn room(&self) -> u16
        ensures { result ≡ length self.now.entries.now }
    {
        self.entries.len() as u16
    }

    /// Returns the number of entries.
    fn count(&self) -> u16
        ensures { result ≡ min self.now.place.now.count (length self.now.entries.now) }
    {
        self.place.count.min(self.room())
    }

    /// Returns the index of the oldest entry.
    fn first(&self) -> u16
        ensures { result ≡ first_in self.now.place.now.first (length self.now.entries.now) }
    {
        let first = self.place.first;
        if first < self.room() { first } else { 0 }
    }
}

/// Returns `first + steps`, less `room` if that is `room` or more: index `room` is index 0 again.
fn index_behind(first: u16, steps: u16, room: u16) -> u16
    requires { first ≤ room }
    ensures straight { first + steps < room → result ≡ first + steps }
    ensures wrapped { room ≤ first + steps → room + result ≡ first + steps }
{
    let straight = room - first;
    if steps < straight {
        first + steps
    } else {
        steps - straight
    }
}

impl EntryRing for MemoryRing<'_> {
    ghost held = { λ ring. ring_in ring.place.now ring.entries.now };

    ghost memory = { λ ring. ring.entries.ghost_name ∷ ring.place.ghost_name ∷ [] };

    fn len(&self) -> usize {
        usize::from(self.count())
    }

    fn push(&mut self, entry: EntryOctets) -> bool {
        let room = self.room();
        if room == 0 {
            return true;
        }
        let first = self.first();
        let count = self.count();
        self.entries[usize::from(index_behind(first, count, room))] = entry;
        if count < room {
            self.place.count = count + 1;
            false
        } else {
            let next = index_behind(first, 1, room);
            self.place.first = next;
            true
        }
    }

    fn parts(&self) -> (&[EntryOctets], &[EntryOctets]) {
        let (first, count) = (usize::from(self.first()), usize::from(self.count()));
        let (wrapped, straight) = self.entries.split_at(first);
        let from_first = straight.len().min(count);
        (&straight[..from_first], &wrapped[..count - from_first])
    }

    fn remove_front(&mut self, count: usize) {
        let (first, held, room) = (self.first(), self.count(), self.room());
        let removed = count.min(usize::from(held)) as u16;
        let next = index_behind(first, removed, room);
        self.place.first = next;
        self.place.count = held - removed;
    }

    fn clear(&mut self) {
        self.place.count = 0;
    }
}
