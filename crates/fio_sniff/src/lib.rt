//! Finds the forms that the lines of a log are written in: it guesses, and may err.
//!
//! - `Sniffer::sniff` searches the forms of a window of lines. The guesses of crate `fio_guess` are weighed by what they read in
//!   the lines (`weighing`, `tally`, `evidence`); the best one takes its lines, and the others are weighed by those that are left.
//!   A form may hold for some values of one of its numbers only (`splitting`), may repeat the messages of others (`copies`), and
//!   its octets may go on from line to line without end (`candidates`, `streams`).
//! - `Looking` asks while lines come, and shows forms once two looks in a row find the same ones; or three, if they leave octets.
//! - `Sniffer::like` gives a form to each line that a user shows as a sample.
//!
//! # What is proved
//!
//! All is safe, ends and allocates nothing. Of the forms that `sniff` returns, at most 16, this is proved (`AllFit` in
//! `specs/Windows.antt`): each has a line of the window that no form above it has. If its messages are lines by themselves, its
//! octets are a message in one of these lines or more, and in half or more of those whose octets do not only begin one. Of a form
//! whose messages go on in other lines, and of one of a stream, no more than the line is proved. That it finds a form is not
//! proved: one that finds none meets the clause, and tests alone refuse it. Of `like` and `Looking` nothing more is proved.
#![tactic(auto)]

mod candidates;
mod copies;
mod evidence;
mod fitting;
mod fronts;
mod known;
mod leaving;
mod likening;
mod looking;
mod polls;
mod seconds;
mod set;
mod sniffing;
mod splitting;
mod streams;
mod tally;
mod trying;
mod weighing;
mod written;

pub use looking::Looking;
pub use sniffing::{Forms, Sniffer};
