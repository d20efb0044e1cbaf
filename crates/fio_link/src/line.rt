//! A line that takes its time, and the inputs that report over it.
use fio_wire::LineKind;

/// The line between the two ends.
#[derive(Clone, Copy, Debug, PartialEq, Eq)]
pub struct TimedLine {
    pub kind: LineKind,
    /// How many bits it carries in 1,000 scans.
    pub rate: u32,
    /// Within how many scans of its receipt of a poll the module begins its answer.
    pub answer: u32,
    /// At most how many bits of other traffic it carries between a poll and its answer.
    pub other: u32,
    /// At most how many rounds in a row it loses.
    pub lost: u16,
    /// By at most how many parts in a million the CPU's clock is faster or slower than the module's counter.
    pub drift: u16,
    /// At most how many scans a poll is late by the CPU's clock.
    pub jitter: u16,
}

/// What the module may have to report.
#[derive(Clone, Copy, Debug, PartialEq, Eq)]
pub struct Traffic {
    /// How many inputs may be open.
    pub opened: u8,
    /// How many samples their filters have at least.
    pub filter: u8,
    /// How many entries a block takes.
    pub per_block: u8,
    /// How many entries may wait.
    pub waiting: u16,
}
