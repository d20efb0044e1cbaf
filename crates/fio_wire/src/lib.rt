//! Frames of the field I/O link on a line: flags, stuffing and the frame check (own profile). On a line of octets, as that of a
//! UART, an octet 7E is a flag, and 7D stuffs (RFC 1662); on a line of bits 01111110 is a flag, and a 0 follows each five ones
//! (SDLC). Nothing here allocates memory.
//!
//! | To | Call |
//! |---|---|
//! | read a line of octets: the frames, one's own and others', and damage | `Wire` |
//! | read a line of bits | `WireBits` |
//! | write a frame for a line of octets | `write` |
//! | compute the check of a frame | `frame_check` |
//!
//! A *part* is what is on a line between two flags next to each other. The definitions are in `specs/`, in this order: the frame
//! check (`Checks`); frames, what a part says and which frames are one's own (`Frames`); lines of octets (`Octets`); which damage
//! the check finds (`Detection`); lines of bits (`Bits`); what a line may do to frames (`Laws`); how many bits a message takes (`Lengths`). `Octets` and `Bits` say what is
//! sent, then what a part says, and then what a decoder does, one octet or bit after the other. The laws are the contracts of the
//! module `laws`.
//!
//! # Examples
//!
//! ```rust
//! use fio_wire::{LONGEST, Wire, WireHeard, write};
//!
//! let mut line = [0; LONGEST];
//! let count = write(0x14, 0x83, b"\x36\x05", &mut line);
//! let mut wire = Wire::new(0x14, 0x83);
//! assert!(rt; wire.read_many(&line[..count]) == (count, WireHeard::Message));
//! assert_eq!(rt; wire.message(), b"\x36\x05".as_slice());
//! ```
#![tactic(auto)]

mod bit_decoder;
mod checks;
mod decoder;
mod encoder;
mod heard;
pub mod laws;
mod limits;
mod line_kind;
mod packing;

pub use bit_decoder::WireBits;
pub use checks::frame_check;
pub use decoder::Wire;
pub use encoder::write;
pub use heard::WireHeard;
pub use limits::{FLAG, HELD_OCTETS, LONGEST};
pub use line_kind::LineKind;
