//! The status octets of answers. Bits that have no name are kept as they come. The calls are `#[inline]`: each is an
//! instruction or two, and other crates call them for each block.
ghost use Rattle.std.specs.Prelude.{◌≡◌, ◌<◌};
ghost use Rattle.fio_message.specs.Bits.{is_set};
ghost use Rattle.fio_message.specs.Status.{says_error, error_status, says_set_before, set_before_status};

use std::marker::Model;

/// C of a block: more entries waited than the block takes.
const MORE: u32 = 3;

/// F of a block: entries that waited directly before the block were pushed out.
const LOST: u32 = 2;

/// E of a block: the same block number was requested again.
const AGAIN: u32 = 1;

/// G of a block: the number is out of sequence.
const OUT_OF_SEQUENCE: u32 = 0;

/// S of a load or a configuration: an error.
const ERROR: u32 = 0;

/// Y of a watchdog: it had been set before.
const SET_BEFORE: u32 = 0;

/// The status of a block answer (letters TEES 2009, positions own profile). Contracts describe it by its octet.
#[derive(Clone, Copy, Debug, Default, PartialEq, Eq, Hash)]
#[repr(transparent)]
pub struct BlockStatus {
    octet: u8,
}

impl Model for BlockStatus {
    ghost use Rattle.std.specs.Prelude.{ℕ};

    ghost Value = { ℕ };

    ghost view = { λ status. status.octet };

    ghost inverse = { λ octet. record { octet = octet } };
}

// Each of these is a few instructions, once for each block: they are inlined in the crates above.
impl BlockStatus {
    ghost use Rattle.fio_message.specs.Status.{says_more, says_lost, says_again, says_out_of_sequence, block_status, again_status};

    /// Returns the status with these named bits, and no other.
    #[inline]
    pub fn new(more: bool, lost: bool, again: bool, out_of_sequence: bool) -> BlockStatus
        ensures { result ≡ block_status more lost again out_of_sequence }
    {
        BlockStatus {
            octet: (1 << MORE) * u8::from(more)
                + (1 << LOST) * u8::from(lost)
                + (1 << AGAIN) * u8::from(again)
                + (1 << OUT_OF_SEQUENCE) * u8::from(out_of_sequence),
        }
    }

    /// Returns the status whose octet this is.
    #[inline]
    pub fn from_octet(octet: u8) -> BlockStatus
        ensures { result ≡ octet }
    {
        BlockStatus { octet }
    }

    /// Returns its octet.
    #[inline]
    pub fn octet(self) -> u8
        ensures { result ≡ self }
    {
        self.octet
    }

    /// Returns whether C is set: more entries waited than the block takes.
    #[inline]
    pub fn more(self) -> bool
        ensures { result ≡ says_more self }
    {
        is_set(self.octet, MORE)
    }

    /// Returns whether F is set: entries that waited directly before the block were pushed out.
    #[inline]
    pub fn lost(self) -> bool
        ensures { result ≡ says_lost self }
    {
        is_set(self.octet, LOST)
    }

    /// Returns whether E is set: the same block number was requested again.
    #[inline]
    pub fn again(self) -> bool
        ensures { result ≡ says_again self }
    {
        is_set(self.octet, AGAIN)
    }

    /// Returns whether G is set: the number is out of sequence.
    #[inline]
    pub fn out_of_sequence(self) -> bool
        ensures { result ≡ says_out_of_sequence self }
    {
        is_set(self.octet, OUT_OF_SEQUENCE)
    }

    /// Returns the status of the same block when it is sent again: E is set, G is clear, and the other bits are as they
    /// were.
    pub(crate) fn sent_again(self) -> BlockStatus
        ensures { result ≡ again_status self }
    {
        BlockStatus {
            octet: (self.octet | 1 << AGAIN) & !(1 << OUT_OF_SEQUENCE),
        }
    }
}

/// Returns whether S is set in the status of the answer to a load or a configuration: an error.
#[inline]
pub fn says_error(status: u8) -> bool
    ensures { result ≡ says_error status }
{
    is_set(status, ERROR)
}

/// Returns the status of such an answer with S as given, and no other bit.
#[inline]
pub fn error_status(error: bool) -> u8
    ensures { result ≡ error_status error }
{
    (1 << ERROR) * u8::from(error)
}

/// Returns whether Y is set in the status of the answer to a watchdog: it had been set before.
#[inline]
pub fn says_set_before(status: u8) -> bool
    ensures { result ≡ says_set_before status }
{
    is_set(status, SET_BEFORE)
}

/// Returns the status of such an answer with Y as given, and no other bit.
#[inline]
pub fn set_before_status(before: bool) -> u8
    ensures { result ≡ set_before_status before }
{
    (1 << SET_BEFORE) * u8::from(before)
}

/// Returns whether the bit at this position of an octet is set.
#[tactic(auto, using(crate::proofs::Bits::is_set_read))]
#[inline]
fn is_set(octet: u8, place: u32) -> bool
    requires { place < 8 }
    ensures { result ≡ is_set octet place }
{
    octet >> place & 1 == 1
}
