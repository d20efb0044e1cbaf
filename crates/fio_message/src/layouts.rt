//! The octets around the lists of messages. They are written only here: a writer puts these before and after its list,
//! however it holds the list.
ghost use Rattle.std.specs.Prelude.{◌≡◌, [], ◌∷◌, ◌++◌};
ghost use Rattle.std.specs.Int.{w32, to_be_bytes};
ghost use Rattle.fio_message.specs.Octets.{inputs_octets};
ghost use Rattle.fio_message.specs.declared.types.TheConstants.{BLOCK_ANSWER, CONFIGURE_INPUTS};

use crate::inputs::inputs_to_octets;
use crate::types::{BLOCK_ANSWER, CONFIGURE_INPUTS};
use byteorder::{BigEndian, ByteOrder};

/// Returns the octets before the items of a configuration: its type, and how many items follow.
#[inline]
pub fn before_items(count: u8) -> [u8; 2]
    ensures { result ≡ CONFIGURE_INPUTS ∷ count ∷ [] }
{
    [CONFIGURE_INPUTS, count]
}

/// Returns the octets before the entries of a block answer: its type, its number, and how many entries follow.
#[inline]
pub fn before_entries(number: u8, count: u8) -> [u8; 3]
    ensures { result ≡ BLOCK_ANSWER ∷ number ∷ count ∷ [] }
{
    [BLOCK_ANSWER, number, count]
}

/// Returns the octets after the entries of a block answer: a status and a stamp, most significant octet first.
#[inline]
pub fn status_and_stamp(status: u8, stamp: u32) -> [u8; 5]
    ensures { result ≡ status ∷ to_be_bytes w32 stamp }
{
    let mut octets = [status; 5];
    BigEndian::write_u32(&mut octets[1..], stamp);
    octets
}

/// Returns the octets after the type of an answer 177: the flags, the error counts and the stamp, most significant octet
/// first.
#[inline]
pub fn flags_and_counts(flags: u8, receive_errors: u8, transmit_errors: u8, stamp: u32) -> [u8; 7]
    ensures { result ≡ flags ∷ receive_errors ∷ transmit_errors ∷ to_be_bytes w32 stamp }
{
    let mut octets = [flags, receive_errors, transmit_errors, 0, 0, 0, 0];
    BigEndian::write_u32(&mut octets[3..], stamp);
    octets
}

/// Returns the octets after the type of an answer 180 or 181: the levels of the inputs and the stamp, most significant octet
/// first.
#[inline]
pub fn inputs_and_stamp(inputs: u64, stamp: u32) -> [u8; 12]
    ensures { result ≡ inputs_octets inputs ++ to_be_bytes w32 stamp }
{
    let mut octets = [0; 12];
    octets[..8].copy_from_slice(&inputs_to_octets(inputs));
    BigEndian::write_u32(&mut octets[8..], stamp);
    octets
}
