//! The numbers of the profile: how many inputs there are, and how long messages are.

/// The number of inputs of a module, which are 0 to 63 (own profile).
pub const INPUTS: usize = 64;

/// The most items of a configuration: their count is one octet (TEES 2009).
pub const CONFIGURATION_ITEMS: usize = 255;

/// The most entries of a block: their count is one octet (TEES 2009).
pub const BLOCK_ENTRIES: usize = 255;

/// The most octets of a frame's information field: those of the longest block answer, which has 8 octets besides its entries
/// (own profile).
pub const FRAME_OCTETS: usize = 8 + 3 * BLOCK_ENTRIES;

/// The most octets of a message after its type (own profile).
pub const BODY_OCTETS: usize = FRAME_OCTETS - 1;
