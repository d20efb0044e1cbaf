//! The module, its limits and its error counts.
use fio_module::{ModuleState, RingPlace};

/// The limits of a module (own profile; TEES 2009 has 1,024 and 255).
#[derive(Clone, Copy)]
#[repr(C)]
pub struct FlatLimits {
    /// The most entries that wait for a poll, 1 to 8,192.
    pub waiting: u16,
    /// The most entries of a block, 1 to 255.
    pub per_block: u8,
    /// Not read.
    pub reserved: u8,
}

/// A field I/O module (TEES 2009, in this project's own profile of 64 inputs and 64 outputs) whose entries wait in an array
/// of the caller. Its fields are opaque to C.
#[derive(Drop)]
#[repr(C)]
pub struct SizedModule {
    /// All but the waiting entries.
    pub state: ModuleState,
    /// Where in the array the waiting entries are.
    pub place: RingPlace,
    /// The error counts of the answer 177.
    pub errors: ErrorCounts,
    /// The most entries that wait: of a longer array the front alone is used.
    pub waiting: u16,
    /// Padding to a multiple of 8 octets, and room for later versions.
    pub reserved: [u8; 16],
}

/// The error counts that the firmware keeps, as the answer 177 has them.
#[derive(Clone, Copy)]
#[repr(C)]
pub struct ErrorCounts {
    /// In receiving.
    pub receive: u8,
    /// In transmitting.
    pub transmit: u8,
}
