//! A transcript: the frames that the CPU's end of the link sent and heard, one on each line, in order.

mod judging;
mod lines;
mod one_pass;
mod recording;

pub use lines::{TraceError, read_trace};
pub(crate) use one_pass::{judge_lines, record_lines};
pub(crate) use recording::{BrokenItem, Recording};
