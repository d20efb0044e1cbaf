//! What texts print: octets as hexadecimal digits.
use std::fmt;
use std::fmt::{Display, Formatter};

/// Prints octets as hexadecimal digits in lower case, two for each.
#[derive(Clone, Copy, Debug)]
pub struct Hexadecimal<'a>(pub &'a [u8]);

impl Display for Hexadecimal<'_> {
    ghost use Rattle.std.specs.Prelude.{Some};
    ghost use Rattle.hex.specs.Hex.{encode_lower};

    ghost output = { λ octets. Some (encode_lower octets.0.now) };

    fn fmt<W: fmt::Write>(&self, f: &mut Formatter<W>) -> fmt::Result {
        'octets: for &octet in self.0 {
            write!(f, "{octet:02x}")?;
        }
        Ok(())
    }
}
