//! Blocks that the CPU hears.
use crate::answers::CallOutcome;
use fio_cpu::{Heard, Poller};
use fio_message::{DecodeError, Memory};
use std::alloc::Global;

/// Block 5 with one entry, input 12 to 1 at 999, status 0, stamp 1000.
pub(crate) fn one_entry(alloc: Global) -> CallOutcome {
    let octets = [0xb6, 5, 1, 0x8c, 3, 0xe7, 0, 0, 0, 3, 0xe8];
    hear(
        alloc,
        &octets,
        1,
        Heard::Block {
            entries: 1,
            status: 0,
        },
    )
}

/// Block 5 with 255 entries, each input 0 to 0 at 0, with C, stamp 0.
pub(crate) fn most_entries(alloc: Global) -> CallOutcome {
    let mut octets = [0; 773];
    octets[0] = 0xb6;
    octets[1] = 5;
    octets[2] = 255;
    octets[768] = 8;
    hear(
        alloc,
        &octets,
        255,
        Heard::Block {
            entries: 255,
            status: 8,
        },
    )
}

/// Block 5 without entries, with F.
pub(crate) fn gap(alloc: Global) -> CallOutcome {
    let octets = [0xb6, 5, 0, 4, 0, 0, 0, 0];
    hear(
        alloc,
        &octets,
        1,
        Heard::Block {
            entries: 0,
            status: 4,
        },
    )
}

/// Octets that add no item to the record: of no answer, of another answer, of an old block, and of a block without entries.
const NOTHING: [(&[u8], Heard); 4] = [
    (
        &[0x36, 5],
        Heard::Unreadable(DecodeError::UnknownType { code: 54 }),
    ),
    (&[0xb3, 0], Heard::Other { code: 179 }),
    (
        &[0xb6, 4, 1, 0x8c, 3, 0xe7, 0, 0, 0, 3, 0xe8],
        Heard::Stale { block: 4 },
    ),
    (
        &[0xb6, 5, 0, 0, 0, 0, 3, 0xe8],
        Heard::Block {
            entries: 0,
            status: 0,
        },
    ),
];

/// A poller that hears them.
pub(crate) fn nothing(alloc: Global) -> CallOutcome {
    hear_nothing(&mut Poller::new(alloc, 5), &NOTHING)
}

fn hear_nothing(poller: &mut Poller, rows: &[(&[u8], Heard)]) -> CallOutcome {
    for (octets, expected) in rows {
        match poller.hear(octets) {
            Ok(heard) if heard == *expected => (),
            Err(Memory) => return CallOutcome::refused_if(poller.items().is_empty()),
            Ok(_) => return CallOutcome::Wrong,
        }
    }
    CallOutcome::right_if(poller.number() == 6 && poller.items().is_empty())
}

/// A poller at block 5 hears octets.
fn hear(alloc: Global, octets: &[u8], items: usize, expected: Heard) -> CallOutcome {
    hear_again(&mut Poller::new(alloc, 5), octets, items, expected)
}

/// The octets are taken, the second time at the latest, and `items` items are recorded. If memory was refused the first
/// time, the record was then empty and the number as before.
fn hear_again(poller: &mut Poller, octets: &[u8], items: usize, expected: Heard) -> CallOutcome {
    let mut heard = poller.hear(octets);
    let mut answer = CallOutcome::Right;
    if heard == Err(Memory) {
        answer = CallOutcome::refused_if(poller.number() == 5 && poller.items().is_empty());
        heard = poller.hear(octets);
    }
    if heard == Ok(expected) && poller.number() == 6 && poller.items().len() == items {
        answer
    } else {
        CallOutcome::Wrong
    }
}
