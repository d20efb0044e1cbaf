//! Why octets encode no message.

/// Why octets are no message: the first fault that applies (own profile).
#[derive(Clone, Copy)]
#[repr(C)]
pub struct Fault {
    /// 0 none; 1 there is no octet; 2 more than 773 octets, `got` says how many; 3 no message of
    /// this call has the type `code`; 4 a message of this type and count has another length,
    /// `needed` and `got` say which.
    pub kind: u8,
    /// The first octet, for kind 3.
    pub code: u8,
    /// How many octets are needed, for kind 4: at most 773.
    pub needed: u16,
    /// 0 in each octet that the library writes.
    pub reserved: [u8; 4],
    /// How many octets there are, for kinds 2 and 4.
    pub got: u64,
}
