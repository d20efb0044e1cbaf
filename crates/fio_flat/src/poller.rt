//! The CPU's end, the items of its record, and what it hears.
use crate::faults::Fault;

/// The CPU's end of the link. Its record is kept by the caller.
#[derive(Clone, Copy)]
#[repr(C)]
pub struct FlatPoller {
    /// The block number of the next poll.
    pub number: u8,
}

/// An item of the record.
#[derive(Clone, Copy)]
#[repr(C)]
pub struct RecordItem {
    /// 1 for a gap mark, where entries are missing, and the other fields are 0; 0 for an entry.
    pub gap: u8,
    /// The input that changed, from 0 to 127.
    pub input: u8,
    /// The filtered state after the transition, 0 or 1.
    pub state: u8,
    /// 0 in each octet that the library writes.
    pub reserved: [u8; 3],
    /// The low 16 bits of the module's millisecond counter at the transition.
    pub stamp: u16,
    /// The time in milliseconds, in 32 bits, as `fio2070_widen` has it (own profile).
    pub wide: u32,
}

/// The outcome of hearing a frame; `kind` is the first that applies (own profile).
#[derive(Clone, Copy)]
#[repr(C)]
pub struct FlatHeard {
    /// 0 a block that was taken, with `entries` and `status`; 1 no answer, with `fault`; 2 another
    /// answer, with its type `code`; 3 a stale block; 4 a block with no room for its `items`.
    pub kind: u8,
    /// The type of another answer.
    pub code: u8,
    /// The number of a block, for kinds 0, 3 and 4.
    pub number: u8,
    /// The status of a block that was taken, with C, F, E and G in bits 3 to 0.
    pub status: u8,
    /// The module's millisecond counter when a block was made, for kinds 0, 3 and 4.
    pub stamp: u32,
    /// How many items were written, or would have been with room for them: at most 256.
    pub items: u16,
    /// How many entries a block has that was taken.
    pub entries: u8,
    /// 0 in each octet that the library writes.
    pub reserved: [u8; 5],
    /// Why the octets are no answer.
    pub fault: Fault,
}
