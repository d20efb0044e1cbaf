//! Lines of logs, read by the forms that they are written in.
//!
//! A *form* says how some lines write octets: the *front*, which is the text before them with its numbers masked; the digits of
//! an octet (hexadecimal, decimal, octal or binary ones, which may be in a column), or characters of a literal, of cells or of
//! base64; what is between two octets; and how many octets are before and after the message. `find` reads the octets that a form
//! has in a line, `whole_of` says what they are, and `read_line` reads a line by several forms. The crates above join rows of one
//! message (`fio_rows`), and find forms in a log (`fio_guess`, `fio_sniff`).
//!
//! # What is proved
//!
//! **What is written is read, and nothing else is**: a line says a message exactly if the first form that has the line writes
//! it of this message (`what_is_written_is_read`, `what_is_read_is_written`). `IsWrittenLine` in `specs/Writing.antt` is all
//! that a reader of this promise has to read. For pairs of hexadecimal digits, octal and binary digits, decimal numbers and those
//! in columns, with marks between them, its `AreSpelledIn` says how the octets are spelled. For the other kinds, which are short
//! hexadecimal numbers, literals, cells and base64, for a blank that may be missing, for fronts that may begin anywhere and for
//! words whose octets are exchanged, `AreFoundIn` *defines* the octets of a line as what is read character by character: there
//! the two laws only say that the first form counts, and what is header, message and check. So it is with the message of
//! forms that are frames of the wire or words: it is what `whole_of` says. For all forms, what `whole_of` says of octets is what
//! a line says that has them (`a_whole_is_what_a_line_says`).
//!
//! A line is *other* exactly if no form has it and it does not end within the front of one (`other_lines_have_no_form`); any
//! other line is *damaged*. A log whose lines are all written of a message, or other, is read whole
//! (`a_log_of_its_forms_is_read_whole`). Each octet that the first form that has a line has there is in the message, before it
//! or after it; or the line is damaged (`octets_are_in_the_frame_or_the_line_is_damaged`). Each of these laws is about lines by
//! themselves; `rows` is not read in this crate.
//!
//! What is left of a line that a form has, if its end is cut off and something is left, is a frame or damaged, and never other
//! (`a_cut_line_is_not_another`); it can be a frame of fewer octets, if these are a message too. This holds for all forms but
//! those whose front may begin anywhere, of which nothing may be left. `LineForm::new` makes each form (`front`, `digits`,
//! `cycle`, `rest`), and refuses spelled forms of which a text could be read in two ways (`none`).
//!
//! `find`, `find_bare`, `run_in`, `front_in`, `digits_of`, `number_in`, `size_of`, `framed_in`, `whole_of` and the others are
//! each equal to a definition in `specs/`. Of a line with more octets than `OCTETS` the first ones are read.
#![tactic(auto)]

mod bare;
mod digits;
mod form;
mod front;
pub mod laws;
mod line_reading;
mod making;
mod message;
mod numbers;
mod octets;
mod pairs;
mod reading;
mod texts;
mod wholeness;
mod wholes;

pub use bare::{find_bare, is_cut};
pub use form::{CYCLE_STEPS, Digits, FRONT_PIECES, FRONT_VALUES, LineForm, LineRows, Piece, Step};
pub use front::{front_in, hex_value, is_decimal, is_hex, is_space_or_tab, pieces_in};
pub use line_reading::{Read, ends_in_form, read_line};
pub use message::{Size, is_answer, is_begun, is_message, size_of};
pub use numbers::{digits_of, number_in, value_of};
pub use octets::{OCTETS, Octets, ends_in_octet, run_in};
pub use reading::{Found, Whole, find, swap};
pub use wholes::{framed_in, whole_of};
