//! The flat structs of the two ends and of faults, in the form that C uses, and definitions of what calls do to them and to
//! the arrays of a caller. Nothing here runs: the calls are the exports of `fio_c`.
//!
//! A struct whose name a type of another crate has is called `Flat` and that name, here and in `fio_c`. C calls it by the name
//! alone: `FlatLimits` is `struct fio2070_limits`.
//!
//! The definitions are in `specs/`: faults and what reading does (`Faults`), octets and lists in the caller's arrays
//! (`Written`), what a poller does (`Hearing`), the history that a module has been through (`Module`), and what becomes of its
//! maker's answers (`Makers`).
#![tactic(auto)]

mod faults;
mod module;
mod poller;
mod written;

pub use faults::Fault;
pub use module::{ErrorCounts, FlatLimits, SizedModule};
pub use poller::{FlatHeard, FlatPoller, RecordItem};
pub use written::{BODY_TOO_LONG, NO_MESSAGE, NOT_AWAITED, OTHER_AWAITED};
