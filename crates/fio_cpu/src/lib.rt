//! The CPU's end of the transition link: it polls the module by block numbers and records what it
//! takes.
//!
//! What the crates above rely on: `hear` takes exactly the block answers with the CPU's present number, whole, and changes
//! nothing for any other octets. Only `hear` can allocate, and only if a block adds to the record.
//!
//! The definitions are in `specs/`, in this order: the CPU's end as contracts describe it (`Poller`), what a block adds to
//! the record (`Record`), and how the CPU responds to octets (`Hearing`).
//!
//! The logic is in one place, `hear_frame` and `hear_read_answer`, which append to any `Record`. `Poller` has its record on
//! the heap.
//!
//! # What is proved
//!
//! `hear` returns exactly what the octets are (`heard`), and allocates only for a block that adds to the record (`memory`).
//!
//! # Examples
//!
//! ```rust
//! use fio_cpu::{Heard, Item, Poller};
//!
//! let mut poller = Poller::new(rt.alloc(), 5);
//! let answer = [0xb6, 5, 1, 0x8c, 3, 0xe7, 0, 0, 0, 3, 0xe8];
//! assert_eq!(rt; poller.hear(&answer)?, Heard::Block { entries: 1, status: 0 });
//! assert_eq!(rt; poller.hear(&answer)?, Heard::Stale { block: 5 });
//! assert!(rt; matches!(poller.items(), [Item::Entry { wide: 999, .. }]));
//! ```
#![tactic(auto)]

mod block_items;
mod hearing;
mod poller;
mod record;

pub use block_items::{BlockItems, RecordItems};
pub use hearing::{hear_frame, hear_read_answer};
pub use poller::{Heard, Poller};
pub use record::{Item, Record};
