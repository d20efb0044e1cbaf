//! The inputs of a field I/O module: the millisecond counter, the filters of 64 inputs, and the
//! 32-bit times of their transitions.
//!
//! What the crates above rely on: `Filters::scan` reports exactly the inputs for which the definitions say so, given their
//! samples; `Counter::now` follows from the ticks, the requested loads and the line syncs; and `widen` returns the one
//! recent time with the given low bits.
//!
//! The definitions are over whole histories, lists with the newest event first: `specs/Counter` has the counter,
//! `specs/FilterRule` the filtered state of one input from its samples, `specs/FilterHistory` the state of each input after
//! a history of configurations and scans, `specs/Delivery` how often inputs change, `specs/NewLevels` which changes are sure
//! to be reported, and `specs/Widening` the times. A value has been through a history: `new` begins with the empty one, each
//! call adds its own event, and each result is promised for every history that the value has been through.
//!
//! Nothing here allocates.
//!
//! # What is proved
//!
//! `scan` reports exactly the inputs whose filtered state the history of samples changes (`reported`). A refused configuration
//! changes nothing (`err`).
//!
//! # Examples
//!
//! ```rust
//! use fio_input::Filters;
//! use fio_message::{InputItem, InputNumber};
//!
//! // Input 12 is open, with both filters 2: the second sample of 0 makes a transition.
//! let mut filters = Filters::new();
//! let input = InputNumber::new(12).expect(&rt, "a number below 128");
//! filters.configure(&[InputItem { input, ignore: false, leading: 2, trailing: 2 }])?;
//! assert_eq!(rt; filters.scan(!(1 << 12)), 0);
//! assert_eq!(rt; filters.scan(!(1 << 12)), 1 << 12);
//! ```
#![tactic(auto)]

mod configuration;
mod counter;
mod few;
mod filters;
mod lanes;
pub mod laws;
mod widening;

pub use configuration::Configuration;
pub use counter::Counter;
pub use filters::{BadInput, DEFAULT_FILTER, Filters};
pub use widening::widen;
