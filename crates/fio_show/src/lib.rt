//! The lines in which messages, entries and records are shown. Those of a message are put together in room of the caller,
//! without an allocation; those of a record are appended to a text.
//!
//! What the crates above use: `put_frame` gives the text of a frame, as its first line and what follows it, which
//! `append_further` appends to any `TextSink`; `push_items` appends the lines of a record; `put_heard` gives what a poller
//! heard.
//!
//! The definitions are in `specs/`, in this order: the lines of entries and of items (`EntryLines`), the lines of commands
//! (`CommandLines`), of answers (`AnswerLines`) and of frames (`FrameLines`), what follows a first line (`FurtherLines`),
//! and what a poller heard (`HeardWords`).
//!
//! # What is proved
//!
//! The lines of a frame are those of the message that its octets encode, or the decoder's fault (`text`). What follows the
//! first line of a message, and the lines of a record, are appended whole (`append_further`, `push_items`).
//!
//! # Examples
//!
//! ```rust
//! use fio_show::{LINE_OCTETS, put_frame};
//!
//! let mut line = [0; LINE_OCTETS];
//! let (start, _) = put_frame(&mut line, &[0x36, 5])?;
//! assert_eq!(rt; &line[start..], b"poll block 5\n".as_slice());
//! ```
#![tactic(auto)]

mod answers;
mod commands;
mod entry_lines;
mod frame;
mod fronts;
mod further_lines;
mod heard;
mod lines;
mod record_lines;
mod sink;

pub use fio_text::LINE_OCTETS;
pub use frame::put_frame;
pub use further_lines::{FurtherLines, append_further};
pub use heard::put_heard;
pub use record_lines::push_items;
pub use sink::TextSink;
