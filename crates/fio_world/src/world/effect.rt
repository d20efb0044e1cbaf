//! What an event did, with a frame named by its number.
use fio_cpu::Heard;

/// What an event did. A frame that was sent is named by its number among those of its direction; its octets are in the
/// world.
#[derive(Clone, Copy)]
pub(crate) enum Effect {
    /// The CPU sent the frame with this number.
    ToModule(usize),
    /// The module sent the frame with this number.
    ToCpu(usize),
    /// The CPU heard a frame.
    Heard(Heard),
    /// There is nothing to report.
    Quiet,
}
