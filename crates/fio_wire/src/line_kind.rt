//! The two kinds of lines.
ghost use Rattle.std.specs.Prelude.{◌≡◌, ◌≤◌, ◌<◌, ◌^◌};
ghost use Rattle.fio_wire.specs.Lengths.{most_bits};

/// How a line carries octets.
#[derive(Clone, Copy, Debug, PartialEq, Eq)]
pub enum LineKind {
    /// One after the other, as a UART does: each has a start bit, 8 bits, and this number of stop bits. Octets are stuffed.
    Asynchronous(u8),
    /// As bits of frames between flags (SDLC). Bits are stuffed.
    Synchronous,
}

impl LineKind {
    /// Returns the most bits that a message of this number of octets takes.
    pub fn most_bits(self, octets: u16) -> u64
        ensures value { result ≡ most_bits self octets }
        ensures within { result < 2 ^ 27 }
    {
        let octets = u64::from(octets) + 4;
        match self {
            LineKind::Asynchronous(stop) => (1 + 8 + u64::from(stop)) * (1 + 2 * octets + 1),
            LineKind::Synchronous => 8 + (8 * octets + 8 * octets / 5) + 8,
        }
    }
}
