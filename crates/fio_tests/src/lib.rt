//! Tests of the public calls of the libraries, for what no clause says: that octets of the profile are read and written
//! again, that calls succeed at sizes beyond 65,536, and how calls deal with readers and writers that fail. Refused memory
//! is tested by `tests/refused-memory.py`; worked examples are rows of `tests/`, over the program and the C library.
//!
//! They are in a crate of their own, since a crate with tests is proved twice.
#![tactic(auto)]

/// More frames, events, lines and digits than sixteen bits can count.
#[cfg(test)]
mod counts;
/// What the poller takes from the octets of the profile's blocks.
#[cfg(test)]
mod cpu;
/// Messages: the profile's octets, read and written again.
#[cfg(test)]
mod message;
/// How a row of a table fails its test.
#[cfg(test)]
mod rows;
/// The tools over readers and writers that fail.
#[cfg(test)]
mod tool;
