//! Lines, written in pieces. A line is put together in room on the stack from its last piece to its first, since a number is
//! written from its last digit to its first. `put_pieces!` takes the pieces in reading order. All calls are inlined, so the
//! compiler knows the position and the length of each piece of a line.
ghost use Rattle.std.specs.Prelude.{◌≡◌, ◌+◌, ◌*◌, ◌≤◌, ◌++◌, ℕ, [], length, take, drop, decimal};
ghost use Rattle.fio_text.specs.Digits.{digits_of, octet_digits};
ghost use Rattle.fio_text.specs.declared.pieces.TheConstants.{DIGITS, LINE_OCTETS};

/// The room for a line: no line is longer.
pub const LINE_OCTETS: usize = 128;

/// The most octets of a name at the beginning of a line, so that numbers have room after it.
pub const NAME_OCTETS: usize = 40;

/// The most digits of a number of 64 bits.
const DIGITS: usize = 20;

/// Puts pieces in front of what a line has from `end` on: octets of a known number as they are (`b".."` or `(octets)`), a
/// number of at most 64 bits in decimal digits (`{number}`), an octet or octets in hexadecimal digits in lower case
/// (`[octet]`, `[&octets]`). Its value is the index at which the line then starts.
#[macro_export]
macro_rules! put_pieces {
    ($line:expr, $end:expr;) => { $end };
    ($line:expr, $end:expr; $octets:literal $($pieces:tt)*) => {{
        let end = $crate::put_pieces!($line, $end; $($pieces)*);
        $crate::put(&mut $line, end, $octets)
    }};
    ($line:expr, $end:expr; ($octets:expr) $($pieces:tt)*) => {{
        let end = $crate::put_pieces!($line, $end; $($pieces)*);
        $crate::put(&mut $line, end, $octets)
    }};
    ($line:expr, $end:expr; {$number:expr} $octets:literal $($pieces:tt)*) => {{
        let end = $crate::put_pieces!($line, $end; $($pieces)*);
        $crate::put_number(&mut $line, end, u64::from($number), $octets)
    }};
    ($line:expr, $end:expr; {$number:expr} ($octets:expr) $($pieces:tt)*) => {{
        let end = $crate::put_pieces!($line, $end; $($pieces)*);
        $crate::put_number(&mut $line, end, u64::from($number), $octets)
    }};
    ($line:expr, $end:expr; {$number:expr} $($pieces:tt)*) => {{
        let end = $crate::put_pieces!($line, $end; $($pieces)*);
        $crate::put_decimal(&mut $line, end, u64::from($number))
    }};
    ($line:expr, $end:expr; [&$octets:expr] $($pieces:tt)*) => {{
        let end = $crate::put_pieces!($line, $end; $($pieces)*);
        $crate::put_hexadecimal(&mut $line, end, &$octets)
    }};
    ($line:expr, $end:expr; [$octet:expr] $($pieces:tt)*) => {{
        let end = $crate::put_pieces!($line, $end; $($pieces)*);
        $crate::put_octet(&mut $line, end, $octet)
    }};
}

/// Returns the index at which a line without a piece starts: the end of its room.
#[inline(always)]
pub fn line_end(line: &[u8; LINE_OCTETS]) -> usize
    ensures start { result ≡ LINE_OCTETS }
    ensures empty { drop result line.now ≡ [] }
{
    line.len()
}

/// Puts octets, whose number is known at compile time, in front of what a line has from `end` on, which does not change, and
/// returns the index at which the line then starts. There has to be room for them.
#[inline(always)]
pub fn put<const N: usize>(line: &mut [u8; LINE_OCTETS], end: usize, octets: &[u8; N]) -> usize
    requires { (N ≤ end) × (end ≤ LINE_OCTETS) }
    ensures start { result + N ≡ end }
    ensures put { drop result line.new ≡ octets.now ++ drop end line.old }
{
    let start = end - N;
    begin_with(&mut line[start..], octets);
    start
}

/// Puts octets at the beginning of others.
#[inline(always)]
fn begin_with<const N: usize>(octets: &mut [u8], first: &[u8; N])
    requires { N ≤ length octets.old }
    ensures { octets.new ≡ first.now ++ drop N octets.old }
{
    if let Some(place) = octets.first_chunk_mut::<N>() {
        *place = *first;
    }
}

/// Puts a number in decimal digits, as `put` puts octets.
#[inline(always)]
pub fn put_decimal(line: &mut [u8; LINE_OCTETS], end: usize, number: u64) -> usize
    requires { (DIGITS ≤ end) × (end ≤ LINE_OCTETS) }
    ensures start { (result ≤ end) × (end ≤ result + DIGITS) }
    ensures put { drop result line.new ≡ decimal number ++ drop end line.old }
{
    itoa::write_digits(number, line, end)
}

/// Puts a number in decimal digits and, after it, octets, as `put_decimal` and `put` put them.
#[inline(always)]
pub fn put_number<const N: usize>(
    line: &mut [u8; LINE_OCTETS],
    end: usize,
    number: u64,
    octets: &[u8; N],
) -> usize
    requires { (DIGITS + N ≤ end) × (end ≤ LINE_OCTETS) }
    ensures start { (result + N ≤ end) × (end ≤ result + (DIGITS + N)) }
    ensures put { drop result line.new ≡ decimal number ++ (octets.now ++ drop end line.old) }
{
    let digits_end = put(line, end, octets);
    put_decimal(line, digits_end, number)
}

/// Puts an octet in two hexadecimal digits in lower case, as `put` puts octets.
#[inline(always)]
#[tactic(auto, unfolding(crate::specs::Digits::octet_digits))]
pub fn put_octet(line: &mut [u8; LINE_OCTETS], end: usize, octet: u8) -> usize
    requires { (2 ≤ end) × (end ≤ LINE_OCTETS) }
    ensures start { (result ≤ end) × (end ≤ result + 2) }
    ensures put { drop result line.new ≡ octet_digits octet ++ drop end line.old }
{
    let mut digits = [0; 2];
    let _ = hex::encode_to_slice([octet], &mut digits);
    put(line, end, &digits)
}

/// Puts octets in hexadecimal digits in lower case, two for each, as `put` puts octets.
#[inline(always)]
#[tactic(auto, unfolding(crate::specs::Digits::digits_of))]
pub fn put_hexadecimal(line: &mut [u8; LINE_OCTETS], end: usize, octets: &[u8]) -> usize
    requires { (2 * length octets.now ≤ end) × (end ≤ LINE_OCTETS) }
    ensures start { (result ≤ end) × (end ≤ result + 2 * length octets.now) }
    ensures put { drop result line.new ≡ digits_of octets.now ++ drop end line.old }
{
    let start = end - 2 * octets.len();
    let _ = hex::encode_to_slice(octets, &mut line[start..end]);
    start
}
