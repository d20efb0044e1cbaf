//! The record of a poller. What else a poller says of octets is compared by `tests/support/c`, and the items of its record
//! by `tests/scripts.py`.
use crate::rows::expect_row;
use fio_cpu::Poller;
use std::alloc::Global;
use std::process::Abort;

/// Octets that a poller at block 5 hears, the number that it polls with afterwards, and how many items it has.
type Row = (&'static [u8], u8, usize);

const ROWS: [Row; 5] = [
    (&[0xb6, 5, 1, 0x8c, 3, 0xe7, 0, 0, 0, 3, 0xe8], 6, 1),
    (&[0xb6, 4, 1, 0x8c, 3, 0xe7, 0, 0, 0, 3, 0xe8], 5, 0),
    // A gap mark for lost entries is an item too.
    (&[0xb6, 5, 0, 4, 0, 0, 0, 0], 6, 1),
    (&[0xb6, 5, 0, 0, 0, 0, 0, 0], 6, 0),
    (&[0xb3, 0], 5, 0),
];

/// Whether a poller polls with this number after it heard octets, and has `items` items.
fn has_come_to(poller: &mut Poller, octets: &[u8], number: u8, items: usize) -> bool {
    poller.hear(octets).is_ok()
        && poller.poll().as_slice() == [0x36, number].as_slice()
        && poller.items().len() == items
}

/// Fails the test at the first row that does not hold.
fn expect_rows(rt: &impl Abort, alloc: Global, rows: &[Row]) {
    for (octets, number, items) in rows {
        let mut poller = Poller::new(alloc, 5);
        expect_row(
            rt,
            octets,
            has_come_to(&mut poller, octets, *number, *items),
        );
    }
}

#[test]
fn hears_octets(rt: HostRuntime) {
    expect_rows(&rt, rt.alloc(), &ROWS);
}
