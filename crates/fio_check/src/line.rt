//! A line of a transcript.

use std::marker::Model;

/// A line of a transcript: a frame that the CPU's end of the link sent or heard.
#[derive(Debug, Drop)]
pub struct Line {
    /// The number of the line in its text, from 1.
    pub number: usize,
    /// Whether the CPU sent the frame. If not, it heard it.
    pub from_cpu: bool,
    /// The octets of the frame.
    pub octets: Vec<u8>,
}

impl Model for Line {
    ghost use Rattle.fio_check.specs.Lines.{TranscriptLine};

    ghost Value = { TranscriptLine };

    ghost view = { λ line. record {
      number = line.number;
      from_cpu = line.from_cpu;
      octets = line.octets.items;
    } };
}
