//! The fault of a line that has no form known to its reader.
ghost use Rattle.std.specs.Prelude.{Some};
ghost use Rattle.fio_text.specs.LineFaults.{bad_line_text};

use std::fmt;
use std::fmt::{Display, Formatter};
use thiserror::Error;

/// A line of a text has no form known to its reader.
#[derive(Clone, Copy, Debug, PartialEq, Eq, Hash, Error)]
pub struct BadLine {
    /// The number of the line, from 1.
    pub line: usize,
}

impl Display for BadLine {
    ghost output = { λ fault. Some (bad_line_text fault.line) };

    fn fmt<W: fmt::Write>(&self, f: &mut Formatter<W>) -> fmt::Result {
        let line = self.line;
        write!(f, "line {line}: bad line")
    }
}
