//! Texts: reading their lines, words, numbers and octets, and putting lines together and appending them. Nothing here knows
//! what a text means.
//!
//! What the crates above use: `numbered_lines` returns the lines of a text that have content, each with its number;
//! `read_octets` and `read_octets_to` return the octets that a word denotes; `put_pieces!` puts a line together in room on
//! the stack, and `push_line!` appends one to a text.
//!
//! The definitions are in `specs/`, in this order. What is read: the lines of a text (`Lines`), the words of a line
//! (`Words`), octets as hexadecimal digits (`Hexadecimal`), lists of readings, of which the first fault counts
//! (`FirstFaults`). What is written: octets as digits (`Digits`), the faults of lines (`LineFaults`). The laws are the
//! contracts of the module `laws`.
//!
//! # What is proved
//!
//! Lines are read back as they were written (`lines_are_read_back`), and a word is read as the octets or the number that its
//! digits say, or as neither. `read_octets` allocates only for a word with an octet (`memory`).
//!
//! # Examples
//!
//! ```rust
//! use fio_text::{push_line, read_number};
//!
//! let mut text = Vec::new(rt.alloc());
//! push_line!(&mut text; b"counter " {7_u32} b" flags " [0x9f_u8] b"\n")?;
//! assert_eq!(rt; text.as_slice(), b"counter 7 flags 9f\n".as_slice());
//! assert_eq!(rt; read_number(b"0012"), Some(12));
//! ```
#![tactic(auto)]

mod faults;
pub mod laws;
mod lines;
mod numbering;
mod octets;
mod pieces;
mod printing;
mod report;
mod words;
mod writing;

pub use faults::BadLine;
pub use lines::{is_skipped, split_line};
pub use numbering::{NumberedLines, numbered_lines};
pub use octets::{is_octets, read_octets_to};
pub use pieces::{
    LINE_OCTETS, NAME_OCTETS, line_end, put, put_decimal, put_hexadecimal, put_number, put_octet,
};
pub use printing::Hexadecimal;
pub use report::{Report, push_fault};
pub use words::{
    after_prefix, read_inputs, read_number, read_octet, read_octets, read_small_number,
    split_at_blank,
};
pub use writing::{append_line, append_part, push_hexadecimal};
