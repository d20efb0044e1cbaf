//! The numbers of a line: those of RFC 1662 and of SDLC, and the lengths of frames.
use fio_message::FRAME_OCTETS;

/// The octet between frames.
pub const FLAG: u8 = 0x7e;

/// The octet before one that is stuffed.
pub(crate) const ESCAPE: u8 = 0x7d;

/// The bit in which an octet differs that is stuffed.
pub(crate) const STUFFED: u8 = 0x20;

/// The register after octets with their right frame check.
pub(crate) const GOOD: u16 = 0xf0b8;

/// The most octets of a frame, without flags and stuffing: address, control octet, message, frame check.
pub const HELD_OCTETS: usize = FRAME_OCTETS + 4;

/// The most octets that a frame takes on a line of octets: each stuffed, and two flags.
pub const LONGEST: usize = 2 * HELD_OCTETS + 2;
