//! The rows with octets that are no message yet.
ghost use Rattle.std.specs.Prelude.{◌≡◌, ◌+◌, ◌<◌, ◌↔◌, [], IsTrue, length};
ghost use Rattle.fio_log.specs.declared.rows.TheConstants.{ROWS};

use crate::clock::Moment;
use crate::directions::Direction;
use crate::heading::Heading;
use crate::places::Place;
use crate::told::Told;
use arrayvec::ArrayVec;

/// The most rows of a message.
const ROWS: usize = 512;

/// The most rows of a stream that have octets which are no message yet.
const STREAM_ROWS: usize = 1_024;

/// The rows of a message, the topmost first.
#[derive(Drop)]
pub(crate) struct MessageRows {
    places: ArrayVec<Place, ROWS>,
}

impl MessageRows {
    /// Returns no rows.
    pub(crate) fn new() -> MessageRows {
        MessageRows {
            places: ArrayVec::new(),
        }
    }

    /// Takes all rows out.
    pub(crate) fn clear(&mut self)
        ensures { self.new.places.items ≡ [] }
    {
        self.places.clear();
    }

    /// Appends a row; returns whether there was room for it.
    pub(crate) fn push(&mut self, place: Place) -> bool
        ensures room { IsTrue result ↔ (length self.old.places.items < ROWS) }
        ensures added { IsTrue result → length self.new.places.items ≡ length self.old.places.items + 1 }
    {
        self.places.try_push(place).is_ok()
    }

    /// Reports the places of all rows; returns whether there was room for them.
    pub(crate) fn add_to(&self, told: &mut Told) -> bool
        ensures frames { told.new.frames ≡ told.old.frames }
        ensures room { told.old.places ≡ [] → IsTrue result }
    {
        for place in self.places.as_slice() {
            if !told.add_place(*place) {
                return false;
            }
        }
        true
    }
}

/// A row of a stream: where it is, how many of its octets are in no message yet, and what its line says of them.
#[derive(Clone, Copy, Debug, Default)]
pub(crate) struct StreamRow {
    line: u64,
    start: u32,
    end: u32,
    octets: u16,
    said: Option<Direction>,
    time: Option<Moment>,
}

impl StreamRow {
    /// Returns the row at a place, with this many octets.
    pub(crate) fn of(place: Place, octets: usize, heading: Heading) -> StreamRow {
        StreamRow {
            line: place.line,
            start: place.start.min(u32::MAX as usize) as u32,
            end: place.end.min(u32::MAX as usize) as u32,
            octets: octets.min(u16::MAX as usize) as u16,
            said: heading.said,
            time: heading.time,
        }
    }

    /// Returns what its line says of its octets.
    pub(crate) fn heading(self) -> Heading {
        Heading {
            time: self.time,
            said: self.said,
        }
    }

    /// Returns where it is.
    fn place(self) -> Place {
        Place {
            line: self.line,
            start: self.start as usize,
            end: self.end as usize,
        }
    }
}

/// How many octets the rows of a stream have.
#[derive(Clone, Copy, Debug, Default)]
pub(crate) struct RowWidths {
    /// The most that one has,
    width: usize,
    /// how many have as many,
    full: u64,
    /// and how many have fewer.
    shorter: u64,
}

/// Rows are of one width if at most one in this many has fewer octets.
const EVEN: u64 = 8;

impl RowWidths {
    /// Takes a row with this many octets; returns whether it is shorter than the others, which are of one width.
    pub(crate) fn take(&mut self, octets: usize) -> bool {
        if octets > self.width {
            *self = RowWidths {
                width: octets,
                full: 1,
                shorter: self.shorter.saturating_add(self.full),
            };
            return false;
        }
        if octets == self.width {
            self.full = self.full.saturating_add(1);
            return false;
        }
        self.shorter = self.shorter.saturating_add(1);
        self.shorter <= self.full / EVEN
    }
}

/// The rows of a stream, the topmost first.
#[derive(Drop)]
pub(crate) struct StreamRows {
    rows: ArrayVec<StreamRow, STREAM_ROWS>,
    /// The first row with octets that are in no message yet.
    first: usize,
}

impl StreamRows {
    /// Returns no rows.
    pub(crate) fn new() -> StreamRows {
        StreamRows {
            rows: ArrayVec::new(),
            first: 0,
        }
    }

    /// Takes all rows out.
    pub(crate) fn clear(&mut self) {
        self.rows.clear();
        self.first = 0;
    }

    /// Appends a row; returns whether there was room for it.
    pub(crate) fn push(&mut self, row: StreamRow) -> bool {
        if self.rows.is_full() {
            self.close_up();
        }
        self.rows.try_push(row).is_ok()
    }

    /// Returns what is said of the first octet that is in no message yet.
    pub(crate) fn top(&self) -> Heading {
        match self.rows.get(self.first) {
            Some(row) => row.heading(),
            None => Heading::new(),
        }
    }

    /// Takes the rows out that have no such octets.
    fn close_up(&mut self) {
        let first = self.first.min(self.rows.len());
        let left = self.rows.len() - first;
        self.rows.copy_within(first.., 0);
        self.rows.truncate(left);
        self.first = 0;
    }

    /// Takes this many octets from the first rows on; reports the place of each row that had some of them, if they are a message.
    /// Returns whether there was room.
    pub(crate) fn take(&mut self, count: usize, is_message: bool, told: &mut Told) -> bool
        ensures { told.new.frames ≡ told.old.frames }
    {
        let mut left = count;
        let mut is_told = true;
        'rows: for at in self.first..self.rows.len() {
            if left == 0 || at >= self.rows.len() {
                return is_told;
            }
            let row = self.rows[at];
            let octets = usize::from(row.octets);
            if octets > 0 && is_message {
                is_told = told.add_place(row.place()) && is_told;
            }
            if octets > left {
                self.rows[at].octets = octets_left(row.octets, left);
                return is_told;
            }
            left -= octets;
            self.first = at + 1;
        }
        is_told
    }
}

/// Returns how many of some octets are left if this many are taken.
fn octets_left(octets: u16, taken: usize) -> u16 {
    usize::from(octets).saturating_sub(taken) as u16
}
