//! An encoder of lines of octets.
ghost use Rattle.std.specs.Prelude.{◌≡◌, ◌≤◌, ◌<◌, ◌+◌, ◌*◌, ◌++◌, ◌∷◌, ◌⊎◌, [], ℕ, length, take, drop};
ghost use Rattle.fio_message.specs.declared.limits.TheConstants.{FRAME_OCTETS};
ghost use Rattle.fio_wire.specs.Octets.{sent, stuffed_octet};

use crate::checks::{check_octets, with_octet};
use crate::limits::{ESCAPE, FLAG, STUFFED};
use fio_message::FRAME_OCTETS;

/// Writes an octet after `count` others, and returns how many there are then.
#[tactic(auto, using(crate::proofs::Written::one_written))]
fn put_one(out: &mut [u8], count: usize, octet: u8) -> usize
    requires { count + 1 ≤ length out.old }
    ensures count { result ≡ count + 1 }
    ensures written { take result out.new ≡ take count out.old ++ octet ∷ [] }
    ensures rest { (place : ℕ) → result ≤ place → drop place out.new ≡ drop place out.old }
{
    out[count] = octet;
    count + 1
}

/// Writes an octet, stuffed if need be, after `count` others, and returns how many there are then.
fn put(out: &mut [u8], count: usize, octet: u8) -> usize
    requires { count + 2 ≤ length out.old }
    ensures least { count ≤ result }
    ensures most { result ≤ count + 2 }
    ensures written { take result out.new ≡ take count out.old ++ stuffed_octet octet }
    ensures rest { (place : ℕ) → result ≤ place → drop place out.new ≡ drop place out.old }
{
    if octet == FLAG || octet == ESCAPE {
        let count = put_one(out, count, ESCAPE);
        put_one(out, count, octet ^ STUFFED)
    } else {
        put_one(out, count, octet)
    }
}

/// Writes the frame of a message, with its flags, and returns how many octets it took. If the message is empty or longer than
/// 773 octets, or there is less room than twice its octets and 10 more, nothing is written, and the result is 0.
pub fn write(address: u8, control: u8, message: &[u8], out: &mut [u8]) -> usize
    ensures written { 1 ≤ length message.now → length message.now ≤ FRAME_OCTETS → 2 * length message.now + 10 ≤ length out.old
        → take result out.new ≡ sent address control message.now }
    ensures count { 1 ≤ length message.now → length message.now ≤ FRAME_OCTETS → 2 * length message.now + 10 ≤ length out.old
        → result ≡ length (sent address control message.now) }
    ensures within { result ≤ length out.old }
    ensures rest { drop result out.new ≡ drop result out.old }
    ensures refused { (length message.now ≡ 0) ⊎ ((FRAME_OCTETS < length message.now) ⊎ (length out.old < 2 * length message.now + 10)) → result ≡ 0 }
{
    if message.is_empty() || message.len() > FRAME_OCTETS || out.len() < 2 * message.len() + 10 {
        return 0;
    }
    let mut count = put_one(out, 0, FLAG);
    count = put(out, count, address);
    count = put(out, count, control);
    let mut register = with_octet(with_octet(u16::MAX, address), control);
    'message: for octet in message {
        count = put(out, count, *octet);
        register = with_octet(register, *octet);
    }
    let [low, high] = check_octets(!register);
    count = put(out, count, low);
    count = put(out, count, high);
    put_one(out, count, FLAG)
}
