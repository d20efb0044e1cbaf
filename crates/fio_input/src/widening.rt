//! Times of 32 bits from their low 16 bits.
ghost use Rattle.std.specs.Prelude.{◌≡◌};
ghost use Rattle.fio_input.specs.Widening.{IsWideTime, wide_time_of};

/// Returns the time in milliseconds of an entry with these low 16 bits, in an answer with this stamp.
///
/// It is the one number with these low bits that is at or before the stamp, counting back modulo 2^32, by less than 65,536.
pub fn widen(answer_stamp: u32, low: u16) -> u32
    ensures one_recent { IsWideTime answer_stamp low result }
    ensures value { result ≡ wide_time_of answer_stamp low }
{
    let age = ((answer_stamp & 0xffff) as u16).wrapping_sub(low);
    answer_stamp.wrapping_sub(u32::from(age))
}
