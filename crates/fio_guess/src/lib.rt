//! Guesses: which forms read a message somewhere in some lines of a log, and how often.
//!
//! `Window` keeps the lines, at most 1,024 of 65,536 characters together. `Guesses::guess_line` guesses at each place of a line
//! where octets may begin: the front before them, the digits, the gaps between them, what is before and after the message, and
//! how rows go on. `table` has all numbers of this crate and of `fio_sniff`.
//!
//! # What is proved
//!
//! A window has the lines that it took, in order, and takes each for which there is room (`pushed`, `full`). Of guesses only
//! that making them is safe, ends and allocates nothing.
#![tactic(auto)]

mod cuts;
mod cycles;
mod fronts;
mod guess;
mod guesses;
mod hashes;
mod literals;
mod numbers;
mod places;
mod rows;
pub mod table;
mod window;
mod words;

pub use guess::{Guess, is_sure, is_words, plain_form};
pub use guesses::Guesses;
pub use hashes::{front_hash, hash_of};
pub use window::Window;
pub use words::{may_begin, word_end};
