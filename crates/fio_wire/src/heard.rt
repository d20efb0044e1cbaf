//! What is heard of a line.
ghost use Rattle.std.specs.Prelude.{◌≡◌, ◌≤◌, ◌-◌, ◌^◌, ◌&&◌, fold, length};
ghost use Rattle.fio_wire.specs.Checks.{with_octet};
ghost use Rattle.fio_wire.specs.Frames.{WireSettings, admits, wire_heard, is_nothing, is_own, judged, message_of_frame};

use crate::limits::{GOOD, HELD_OCTETS};

/// What the next octet, or the next bit, of a line ends.
#[derive(Clone, Copy, Debug, PartialEq, Eq)]
pub enum WireHeard {
    /// No frame ends here.
    Nothing,
    /// A frame with one's own address and control octet ends here. It is held until the next octet or bit is read.
    Message,
    /// A frame with another address or control octet ends here. It is held in the same way.
    Other,
    /// Something ends here that is no frame.
    Damaged,
}

impl WireHeard {
    /// Returns whether no frame and no damage ends here.
    pub fn is_nothing(self) -> bool
        ensures { result ≡ is_nothing self }
    {
        matches!(self, WireHeard::Nothing)
    }
}

/// Returns whether a setting is this octet, or any.
fn admits(setting: u16, octet: u8) -> bool
    ensures { result ≡ admits setting octet }
{
    setting > 255 || setting == u16::from(octet)
}

/// Returns what is heard at the end of a part with these octets. `check` is their register.
pub(crate) fn judge(
    is_broken: bool,
    octets: &[u8],
    check: u16,
    address: u16,
    control: u16,
) -> WireHeard
    ensures { check ≡ fold with_octet (2 ^ 16 - 1) octets.now → length octets.now ≤ HELD_OCTETS
        → result ≡ wire_heard (record { address = address; control = control }) (judged is_broken octets.now) }
{
    if is_broken {
        WireHeard::Damaged
    } else if octets.is_empty() {
        WireHeard::Nothing
    } else if octets.len() < 5 || check != GOOD {
        WireHeard::Damaged
    } else if admits(address, octets[0]) && admits(control, octets[1]) {
        WireHeard::Message
    } else {
        WireHeard::Other
    }
}

/// Returns the message of a frame.
pub(crate) fn message_of(frame: &[u8]) -> &[u8]
    ensures message { result.now ≡ message_of_frame frame.now }
    ensures most { length result.now ≤ length frame.now - 4 }
{
    if frame.len() < 4 {
        return &[];
    }
    &frame[2..frame.len() - 2]
}
