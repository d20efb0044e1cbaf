//! Lines read by forms, with messages over several lines, and streams that are divided into messages.
//!
//! - `Reading::read` reads a line by forms, below what is open from the lines above. The `rows` of a form say how its messages go
//!   on: at offsets, in rows of one width, in lines that are nothing but octets, in pieces, or not at all.
//! - `Stream` takes the octets of lines that are one stream: `divide` divides off a message by what follows it, `unframe` one
//!   between flags.
//!
//! # What is proved
//!
//! What `read` says of a line, and what is open after it, is what `read_in` of `specs/Lines.antt` says (`exact`), before the text
//! that is after the octets of the line. Where these are is what `places_in` of `specs/Places.antt` says (`at`): where the open
//! form has them, if the line goes on with its message, else where the first form has them that has the line. The text there, by
//! itself, is the octets as that form writes them (`octets_stand_where_they_are_found`).
//!
//! A line below no open message says a message only if `read_line` of `fio_form` says it; and each that this says by forms
//! without rows, if there is room for its octets and the logger left none out after them
//! (`a_line_by_itself_is_read_by_its_form`). So the laws of `fio_form` are true of what is read, and a log of such lines is read
//! whole (`a_log_of_lines_by_themselves_is_read_whole`). A message that a logger writes in two rows or more is read, if none is
//! open above it (`what_is_written_in_rows_is_read`). A message that a line says is one (`what_is_said_is_a_message`), and is in
//! the octets that its form has in the line, or in these and those that were open above it (`what_is_read_is_in_the_rows`). What is
//! open is not dropped in silence: its octets and those of a line that goes on are kept, or the line is damaged; if no line goes
//! on with them, they end or break a message, or are no more than are before and after one (`what_is_open_is_kept_or_said`). A
//! line is another one only if no form has it, and it is, if no message is open (`other_lines_have_no_form`). A line below
//! nothing open is read as if the log began there (`a_line_below_nothing_open_is_read_by_itself`).
//!
//! `Stream` divides octets off in their order (`divided`) as `next_in_stream`, `last_in` and `unframed` say (`exact`), and comes
//! to an end (`less`). That a stream of messages is divided into these is not proved.
#![tactic(auto)]

mod dividing;
mod finding;
mod frames;
mod going_on;
pub mod laws;
mod reading;
mod rows;
mod said;
mod saying;
mod stream;

pub use dividing::{KEPT, Next};
pub use rows::{OPEN, Reading};
pub use said::{LineSaid, Said};
pub use stream::Stream;
