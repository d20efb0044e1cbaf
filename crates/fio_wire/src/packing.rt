//! The octets that a decoder of bits makes of them.
ghost use Rattle.std.specs.Prelude.{◌≡◌, ◌≤◌, length};
ghost use Rattle.fio_wire.specs.Bits.{IsWireBits, is_none, none_packed, packed, packing_of, reading_of, settings_of, with_ones, with_value};

use crate::bit_decoder::WireBits;
use crate::checks::with_octet;
use crate::limits::HELD_OCTETS;

impl WireBits {
    /// Forgets the bits.
    pub(crate) fn clear(&mut self)
        ensures is { IsWireBits self.new }
        ensures next { reading_of self.new ≡ record (reading_of self.old) { packing = none_packed } }
        ensures settings { settings_of self.new ≡ settings_of self.old }
    {
        self.value = 0;
        self.count = 0;
        self.full = 0;
        self.held = 0;
        self.check = u16::MAX;
    }

    /// Takes the bits of the present octet.
    pub(crate) fn set_value(&mut self, value: u8)
        ensures is { IsWireBits self.old → IsWireBits self.new }
        ensures next { IsWireBits self.old → reading_of self.new ≡ record (reading_of self.old) { packing = with_value (packing_of self.old) value } }
        ensures settings { settings_of self.new ≡ settings_of self.old }
    {
        if self.count < 7 {
            self.value = value;
            self.count += 1;
            return;
        }
        self.value = 0;
        self.count = 0;
        let held = usize::from(self.held);
        if held < HELD_OCTETS {
            self.octets[held] = value;
            self.held += 1;
            self.check = with_octet(self.check, value);
        } else {
            self.full = 1;
        }
    }

    /// Appends a bit.
    pub(crate) fn push(&mut self, bit: bool)
        ensures is { IsWireBits self.old → IsWireBits self.new }
        ensures next { IsWireBits self.old → reading_of self.new ≡ record (reading_of self.old) { packing = packed (packing_of self.old) bit } }
        ensures settings { settings_of self.new ≡ settings_of self.old }
    {
        let high = if bit { 128 } else { 0 };
        self.set_value(self.value / 2 + high);
    }

    /// Appends `count` ones.
    pub(crate) fn push_ones(&mut self, count: u8)
        ensures is { IsWireBits self.old → IsWireBits self.new }
        ensures next { IsWireBits self.old → reading_of self.new ≡ record (reading_of self.old) { packing = with_ones count (packing_of self.old) } }
        ensures settings { settings_of self.new ≡ settings_of self.old }
    {
        for _ in 0..count {
            self.push(true);
        }
    }

    /// Returns whether there are no bits.
    pub(crate) fn is_none(&self) -> bool
        ensures { IsWireBits self.now → result ≡ is_none (packing_of self.now) }
    {
        self.held == 0 && self.count == 0 && self.full == 0
    }

    /// Returns the octets of the present part, or of the frame that is held.
    pub(crate) fn present(&self) -> &[u8]
        ensures now { IsWireBits self.now → result.now ≡ (packing_of self.now).octets }
        ensures most { length result.now ≤ HELD_OCTETS }
    {
        &self.octets[..usize::from(self.held).min(HELD_OCTETS)]
    }
}
