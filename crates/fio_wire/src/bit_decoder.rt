//! A decoder of a line of bits, in flat memory that C can hold.
ghost use Rattle.std.specs.Prelude.{◌≡◌, ◌≢◌, ◌≤◌, ◌-◌, ◌^◌, List, [], drop, fold, length, not, take};
ghost use Rattle.fio_wire.specs.declared.heard.WireHeard.TheVariants.{Nothing};
ghost use Rattle.fio_message.specs.declared.limits.TheConstants.{FRAME_OCTETS};
ghost use Rattle.fio_wire.specs.Frames.{WireSettings, address_in, control_in, wire_heard, message_of_frame};
ghost use Rattle.fio_wire.specs.Bits.{IsWireBits, after_flag, after_one, after_zero, begun, flushed, fresh, held_frame, is_broken, is_none, lowest_bits, next, none_packed, packed, packing_of, phase_of, reading_of, said_of, says, says_flag, settings_of, start, wire_bits_at_start, with_ones, with_value};

use crate::checks::with_octet;
use crate::heard::{WireHeard, judge, message_of};
use crate::limits::HELD_OCTETS;

/// Before the first flag, or on an idle line.
const HUNTING: u8 = 0;

/// In a part.
const WITHIN: u8 = 1;

/// In a part that an abort broke off.
const LOST: u8 = 2;

/// After a frame.
const WHOLE: u8 = 3;

/// A decoder of a line of bits, which holds one frame. What its octets are, no call reads or writes outside it.
#[derive(Clone, Copy, Debug)]
#[repr(C)]
pub struct WireBits {
    /// The octets of the present part, or of the frame that is held: address, control octet, message, frame check.
    pub octets: [u8; HELD_OCTETS],
    /// Where the decoder is: 0 before the first flag, 1 in a part, 2 in a part that an abort broke off, 3 after a frame, which
    /// is held.
    phase: u8,
    /// How many ones came last, at most 7.
    ones: u8,
    /// 1 where the 0 before them is kept back: it may be a flag's.
    pending: u8,
    /// The bits of the next octet.
    pub(crate) value: u8,
    /// How many they are.
    pub(crate) count: u8,
    /// 1 where there was no room for an octet.
    pub(crate) full: u8,
    /// 0.
    reserved: u8,
    /// How many octets there are.
    pub(crate) held: u16,
    /// The register of the frame check after them.
    pub(crate) check: u16,
    /// The address of one's own frames. Above 255 is any.
    address: u16,
    /// The control octet of one's own frames. Above 255 is any.
    control: u16,
}

impl WireBits {
    /// Returns a decoder before the first flag of a line, for frames with this address and this control octet. Above 255 is
    /// any.
    #[inline(always)]
    pub fn new(address: u16, control: u16) -> WireBits
        ensures is { IsWireBits result }
        ensures start { reading_of result ≡ start }
        ensures settings { settings_of result ≡ record { address = address; control = control } }
        ensures octets { result ≡ wire_bits_at_start address control }
    {
        WireBits {
            octets: [0; HELD_OCTETS],
            phase: HUNTING,
            ones: 7,
            pending: 0,
            value: 0,
            count: 0,
            full: 0,
            reserved: 0,
            held: 0,
            check: u16::MAX,
            address,
            control,
        }
    }

    /// Starts the decoder before the first flag of a line, as `new` does. Each octet of the struct is set.
    pub fn start(&mut self, address: u16, control: u16)
        ensures is { IsWireBits self.new }
        ensures start { reading_of self.new ≡ start }
        ensures settings { settings_of self.new ≡ record { address = address; control = control } }
        ensures octets { self.new ≡ wire_bits_at_start address control }
    {
        *self = WireBits::new(address, control);
    }

    /// After a frame the next part begins.
    fn begin(&mut self)
        ensures is { IsWireBits self.old → IsWireBits self.new }
        ensures next { IsWireBits self.old → reading_of self.new ≡ begun (reading_of self.old) }
        ensures settings { settings_of self.new ≡ settings_of self.old }
    {
        if self.phase >= WHOLE {
            self.clear();
            self.pending = 0;
            self.phase = WITHIN;
        }
    }

    /// Reads a 1.
    fn one(&mut self)
        ensures is { IsWireBits self.old → IsWireBits self.new }
        ensures next { IsWireBits self.old → reading_of self.new ≡ after_one (reading_of self.old) }
        ensures settings { settings_of self.new ≡ settings_of self.old }
    {
        if self.ones < 6 {
            self.ones += 1;
            return;
        }
        self.ones = 7;
        if self.phase == WITHIN {
            let is_silent = self.is_none() && self.pending == 0;
            self.phase = if is_silent { HUNTING } else { LOST };
        }
    }

    /// Takes what was kept back.
    fn flush(&mut self)
        ensures is { IsWireBits self.old → IsWireBits self.new }
        ensures next { IsWireBits self.old → reading_of self.new ≡ record (reading_of self.old) { packing = flushed (reading_of self.old) } }
        ensures settings { settings_of self.new ≡ settings_of self.old }
    {
        if self.pending != 0 {
            self.push(false);
        }
        self.push_ones(self.ones);
    }

    /// Returns what is heard at a flag.
    fn judged(&self) -> WireHeard
        ensures { IsWireBits self.now → result ≡ wire_heard (settings_of self.now) (says_flag (phase_of self.now.phase) (packing_of self.now)) }
    {
        if self.phase == HUNTING {
            return WireHeard::Nothing;
        }
        let is_broken = self.phase != WITHIN || self.count != 0 || self.full != 0;
        judge(
            is_broken,
            self.present(),
            self.check,
            self.address,
            self.control,
        )
    }

    /// Reads the 0 at the end of a flag.
    fn flag(&mut self) -> WireHeard
        ensures is { IsWireBits self.old → IsWireBits self.new }
        ensures heard { IsWireBits self.old → result ≡ wire_heard (settings_of self.old) (says_flag (phase_of self.old.phase) (packing_of self.old)) }
        ensures next { IsWireBits self.old → reading_of self.new ≡ after_flag (says_flag (phase_of self.old.phase) (packing_of self.old)) (packing_of self.old) }
        ensures settings { settings_of self.new ≡ settings_of self.old }
    {
        let heard = self.judged();
        self.ones = 0;
        self.pending = 0;
        if matches!(heard, WireHeard::Message | WireHeard::Other) {
            self.phase = WHOLE;
        } else {
            self.clear();
            self.phase = WITHIN;
        }
        heard
    }

    /// Reads a 0 that ends no flag.
    fn zero(&mut self)
        requires { self.old.ones ≢ 6 }
        ensures is { IsWireBits self.old → IsWireBits self.new }
        ensures next { IsWireBits self.old → reading_of self.new ≡ after_zero (reading_of self.old) }
        ensures settings { settings_of self.new ≡ settings_of self.old }
    {
        self.pending = if self.ones < 6 {
            self.flush();
            u8::from(self.ones < 5)
        } else {
            0
        };
        self.ones = 0;
    }

    /// Reads the next bit of the line.
    pub fn read(&mut self, bit: bool) -> WireHeard
        ensures is { IsWireBits self.old → IsWireBits self.new }
        ensures heard { IsWireBits self.old → result ≡ wire_heard (settings_of self.old) (says (reading_of self.old) bit) }
        ensures next { IsWireBits self.old → reading_of self.new ≡ next (reading_of self.old) bit }
        ensures settings { settings_of self.new ≡ settings_of self.old }
    {
        self.begin();
        if bit {
            self.one();
            WireHeard::Nothing
        } else if self.ones == 6 {
            self.flag()
        } else {
            self.zero();
            WireHeard::Nothing
        }
    }

    /// Reads bits of the line, each the lowest of an octet, up to the end of the next frame or of something damaged. Returns
    /// how many it read, and what the last of them ended.
    pub fn read_many(&mut self, line: &[u8]) -> (usize, WireHeard)
        ensures within { result.0 ≤ length line.now }
        ensures is { IsWireBits self.old → IsWireBits self.new }
        ensures heard { IsWireBits self.old → result.1 ≡ wire_heard (settings_of self.old) (said_of (reading_of self.old) (take result.0 (lowest_bits line.now))) }
        ensures last { IsWireBits self.old → said_of (reading_of self.old) (take (result.0 - 1) (lowest_bits line.now)) ≡ [] }
        ensures all { result.1 ≡ Nothing → result.0 ≡ length line.now }
        ensures next { IsWireBits self.old → reading_of self.new ≡ fold next (reading_of self.old) (take result.0 (lowest_bits line.now)) }
        ensures settings { settings_of self.new ≡ settings_of self.old }
    {
        let mut count = 0;
        'bits: while count < line.len() {
            let heard = self.read(line[count] % 2 == 1);
            count += 1;
            if !heard.is_nothing() {
                return (count, heard);
            }
        }
        (count, WireHeard::Nothing)
    }

    /// Returns the frame that the last bit ended: address, control octet, message, frame check. None is empty.
    fn frame(&self) -> &[u8]
        ensures frame { IsWireBits self.now → result.now ≡ held_frame (reading_of self.now) }
        ensures most { length result.now ≤ HELD_OCTETS }
    {
        if self.phase < WHOLE {
            return &[];
        }
        self.present()
    }

    /// Returns the address of the frame that the last bit ended, 0 if it ended none.
    pub fn address(&self) -> u8
        ensures { IsWireBits self.now → result ≡ address_in (held_frame (reading_of self.now)) }
    {
        self.frame().get(0).copied().unwrap_or(0)
    }

    /// Returns the control octet of the frame that the last bit ended, 0 if it ended none.
    pub fn control(&self) -> u8
        ensures { IsWireBits self.now → result ≡ control_in (held_frame (reading_of self.now)) }
    {
        self.frame().get(1).copied().unwrap_or(0)
    }

    /// Returns the message of the frame that the last bit ended, which is empty if it ended none.
    pub fn message(&self) -> &[u8]
        ensures message { IsWireBits self.now → result.now ≡ message_of_frame (held_frame (reading_of self.now)) }
        ensures at { IsWireBits self.now → take (length result.now) (drop 2 self.now.octets) ≡ result.now }
        ensures most { length result.now ≤ FRAME_OCTETS }
    {
        message_of(self.frame())
    }
}
