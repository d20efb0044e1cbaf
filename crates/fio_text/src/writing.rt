//! Lines, put together in room on the stack and appended to a text at once.
ghost use Rattle.std.specs.Prelude.{◌≡◌, ◌≤◌, ◌++◌, length, take, drop, OnOk};
ghost use Rattle.fio_text.specs.Digits.{digits_of};
ghost use Rattle.fio_text.specs.declared.pieces.TheConstants.{LINE_OCTETS};

use crate::pieces::LINE_OCTETS;
use std::alloc::AllocError;

/// Appends a line of at most `LINE_OCTETS` to a text, from pieces as `put_pieces!` takes them. Its value is an `AllocError`
/// if the text cannot grow.
#[macro_export]
macro_rules! push_line {
    ($text:expr; $($pieces:tt)*) => {{
        let mut line = [0; $crate::LINE_OCTETS];
        let end = $crate::line_end(&line);
        let start = $crate::put_pieces!(line, end; $($pieces)*);
        $crate::append_line($text, &line, start)
    }};
}

/// Appends the line that its room holds from `start` on.
// Inlined, so the compiler knows the position and the length of each piece of a line.
#[inline(always)]
pub fn append_line(
    text: &mut Vec<u8>,
    line: &[u8; LINE_OCTETS],
    start: usize,
) -> Result<(), AllocError>
    requires { start ≤ LINE_OCTETS }
    ensures { OnOk result (text.new.items ≡ text.old.items ++ drop start line.now) }
{
    text.extend_from_slice(&line[start..])
}

/// Appends the first `count` of these octets.
// Inlined, so the compiler knows the position and the length of each piece of a line. All octets are copied, since a
// constant length needs no call to `memcpy`, and those after the part are cut off again.
#[inline(always)]
pub fn append_part(text: &mut Vec<u8>, octets: &[u8], count: usize) -> Result<(), AllocError>
    requires { count ≤ length octets.now }
    ensures { OnOk result (text.new.items ≡ text.old.items ++ take count octets.now) }
{
    let before = text.len();
    text.extend_from_slice(octets)?;
    text.truncate(before + count);
    Ok(())
}

/// Appends octets in hexadecimal digits in lower case, two for each.
#[tactic(auto, unfolding(crate::specs::Digits::digits_of))]
pub fn push_hexadecimal(text: &mut Vec<u8>, octets: &[u8]) -> Result<(), AllocError>
    ensures { OnOk result (text.new.items ≡ text.old.items ++ digits_of octets.now) }
{
    let Some(count) = octets.len().checked_mul(2) else {
        return Err(AllocError);
    };
    let start = text.len();
    let Some(end) = start.checked_add(count) else {
        return Err(AllocError);
    };
    text.resize(end, 0)?;
    let (_, digits) = text.as_mut_slice().split_at_mut(start);
    let _ = hex::encode_to_slice(octets, digits);
    Ok(())
}
