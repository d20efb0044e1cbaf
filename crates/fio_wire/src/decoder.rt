//! A decoder of a line of octets, in flat memory that C can hold.
ghost use Rattle.std.specs.Prelude.{◌≡◌, ◌≤◌, ◌-◌, List, [], drop, fold, length, take};
ghost use Rattle.fio_wire.specs.declared.heard.WireHeard.TheVariants.{Nothing};
ghost use Rattle.fio_message.specs.declared.limits.TheConstants.{FRAME_OCTETS};
ghost use Rattle.fio_wire.specs.Frames.{WireSettings, address_in, control_in, wire_heard, message_of_frame};
ghost use Rattle.fio_wire.specs.Octets.{IsWire, ended_by, ending, fresh, held_frame, kept, lost, next, phase_of, reading_of, said_of, says, settings_of, start, taken, wire_at_start};

use crate::checks::with_octet;
use crate::heard::{WireHeard, judge, message_of};
use crate::limits::{ESCAPE, FLAG, HELD_OCTETS, STUFFED};

/// Before the first flag.
const HUNTING: u8 = 0;

/// In a part.
const WITHIN: u8 = 1;

/// After an escape in a part.
const ESCAPED: u8 = 2;

/// In a part that is damaged.
const LOST: u8 = 3;

/// After a frame.
const WHOLE: u8 = 4;

/// A decoder of a line of octets, which holds one frame. What its octets are, no call reads or writes outside it.
#[derive(Clone, Copy, Debug)]
#[repr(C)]
pub struct Wire {
    /// The octets of the present part, or of the frame that is held: address, control octet, message, frame check.
    pub octets: [u8; HELD_OCTETS],
    /// Where the decoder is: 0 before the first flag, 1 in a part, 2 after an escape, 3 in a part that is damaged, 4 after a
    /// frame, which is held.
    phase: u8,
    /// How many octets there are.
    held: u16,
    /// The register of the frame check after them.
    check: u16,
    /// The address of one's own frames. Above 255 is any.
    address: u16,
    /// The control octet of one's own frames. Above 255 is any.
    control: u16,
}

impl Wire {
    /// Returns a decoder before the first flag of a line, for frames with this address and this control octet. Above 255 is
    /// any.
    #[inline(always)]
    pub fn new(address: u16, control: u16) -> Wire
        ensures is { IsWire result }
        ensures start { reading_of result ≡ start }
        ensures settings { settings_of result ≡ record { address = address; control = control } }
        ensures octets { result ≡ wire_at_start address control }
    {
        Wire {
            octets: [0; HELD_OCTETS],
            phase: HUNTING,
            held: 0,
            check: u16::MAX,
            address,
            control,
        }
    }

    /// Starts the decoder before the first flag of a line, as `new` does. Each octet of the struct is set.
    pub fn start(&mut self, address: u16, control: u16)
        ensures is { IsWire self.new }
        ensures start { reading_of self.new ≡ start }
        ensures settings { settings_of self.new ≡ record { address = address; control = control } }
        ensures octets { self.new ≡ wire_at_start address control }
    {
        *self = Wire::new(address, control);
    }

    /// Begins a part, with no octets.
    fn begin(&mut self, phase: u8)
        ensures is { IsWire self.new }
        ensures next { reading_of self.new ≡ record { octets = []; phase = phase_of phase } }
        ensures settings { settings_of self.new ≡ settings_of self.old }
    {
        self.held = 0;
        self.check = u16::MAX;
        self.phase = phase;
    }

    /// Keeps an octet of the present part, if there is room for it.
    fn keep(&mut self, octet: u8)
        ensures is { IsWire self.old → IsWire self.new }
        ensures next { IsWire self.old → reading_of self.new ≡ kept (reading_of self.old).octets octet }
        ensures settings { settings_of self.new ≡ settings_of self.old }
    {
        let held = usize::from(self.held);
        if held < HELD_OCTETS {
            self.octets[held] = octet;
            self.held += 1;
            self.check = with_octet(self.check, octet);
            self.phase = WITHIN;
        } else {
            self.phase = LOST;
        }
    }

    /// Reads an octet that is no flag.
    fn take(&mut self, octet: u8)
        ensures is { IsWire self.old → IsWire self.new }
        ensures next { IsWire self.old → reading_of self.new ≡ taken (phase_of self.old.phase) (reading_of self.old).octets octet }
        ensures settings { settings_of self.new ≡ settings_of self.old }
    {
        if self.phase == WITHIN {
            if octet == ESCAPE {
                self.phase = ESCAPED;
            } else {
                self.keep(octet);
            }
        } else if self.phase == ESCAPED {
            self.keep(octet ^ STUFFED);
        }
    }

    /// Returns the octets of the present part, or of the frame that is held.
    fn present(&self) -> &[u8]
        ensures now { IsWire self.now → result.now ≡ (reading_of self.now).octets }
        ensures most { length result.now ≤ HELD_OCTETS }
    {
        &self.octets[..usize::from(self.held).min(HELD_OCTETS)]
    }

    /// Returns what is heard at a flag.
    fn judged(&self) -> WireHeard
        ensures { IsWire self.now → result ≡ wire_heard (settings_of self.now) (ending (phase_of self.now.phase) (reading_of self.now).octets) }
    {
        if self.phase == HUNTING {
            return WireHeard::Nothing;
        }
        judge(
            self.phase != WITHIN,
            self.present(),
            self.check,
            self.address,
            self.control,
        )
    }

    /// Reads a flag.
    fn end(&mut self) -> WireHeard
        ensures is { IsWire self.old → IsWire self.new }
        ensures heard { IsWire self.old → result ≡ wire_heard (settings_of self.old) (ending (phase_of self.old.phase) (reading_of self.old).octets) }
        ensures next { IsWire self.old → reading_of self.new ≡ ended_by (ending (phase_of self.old.phase) (reading_of self.old).octets) }
        ensures settings { settings_of self.new ≡ settings_of self.old }
    {
        let heard = self.judged();
        if matches!(heard, WireHeard::Message | WireHeard::Other) {
            self.phase = WHOLE;
        } else {
            self.begin(WITHIN);
        }
        heard
    }

    /// Reads the next octet of the line.
    pub fn read(&mut self, octet: u8) -> WireHeard
        ensures is { IsWire self.old → IsWire self.new }
        ensures heard { IsWire self.old → result ≡ wire_heard (settings_of self.old) (says (reading_of self.old) octet) }
        ensures next { IsWire self.old → reading_of self.new ≡ next (reading_of self.old) octet }
        ensures settings { settings_of self.new ≡ settings_of self.old }
    {
        if self.phase >= WHOLE {
            self.begin(WITHIN);
        }
        if octet == FLAG {
            self.end()
        } else {
            self.take(octet);
            WireHeard::Nothing
        }
    }

    /// Reads octets of the line up to the end of the next frame or of something damaged. Returns how many it read, and what
    /// the last of them ended.
    pub fn read_many(&mut self, octets: &[u8]) -> (usize, WireHeard)
        ensures within { result.0 ≤ length octets.now }
        ensures is { IsWire self.old → IsWire self.new }
        ensures heard { IsWire self.old → result.1 ≡ wire_heard (settings_of self.old) (said_of (reading_of self.old) (take result.0 octets.now)) }
        ensures last { IsWire self.old → said_of (reading_of self.old) (take (result.0 - 1) octets.now) ≡ [] }
        ensures all { result.1 ≡ Nothing → result.0 ≡ length octets.now }
        ensures next { IsWire self.old → reading_of self.new ≡ fold next (reading_of self.old) (take result.0 octets.now) }
        ensures settings { settings_of self.new ≡ settings_of self.old }
    {
        let mut count = 0;
        'octets: while count < octets.len() {
            let heard = self.read(octets[count]);
            count += 1;
            if !heard.is_nothing() {
                return (count, heard);
            }
        }
        (count, WireHeard::Nothing)
    }

    /// Marks the present part as damaged: an octet of it was lost, or came with a wrong parity or stop bit.
    pub fn lose(&mut self)
        ensures is { IsWire self.old → IsWire self.new }
        ensures next { IsWire self.old → reading_of self.new ≡ lost (reading_of self.old) }
        ensures settings { settings_of self.new ≡ settings_of self.old }
    {
        if self.phase >= WHOLE {
            self.begin(WITHIN);
        }
        if self.phase != HUNTING {
            self.phase = LOST;
        }
    }

    /// Returns the frame that the last octet ended: address, control octet, message, frame check. None is empty.
    fn frame(&self) -> &[u8]
        ensures frame { IsWire self.now → result.now ≡ held_frame (reading_of self.now) }
        ensures most { length result.now ≤ HELD_OCTETS }
    {
        if self.phase < WHOLE {
            return &[];
        }
        self.present()
    }

    /// Returns the address of the frame that the last octet ended, 0 if it ended none.
    pub fn address(&self) -> u8
        ensures { IsWire self.now → result ≡ address_in (held_frame (reading_of self.now)) }
    {
        self.frame().get(0).copied().unwrap_or(0)
    }

    /// Returns the control octet of the frame that the last octet ended, 0 if it ended none.
    pub fn control(&self) -> u8
        ensures { IsWire self.now → result ≡ control_in (held_frame (reading_of self.now)) }
    {
        self.frame().get(1).copied().unwrap_or(0)
    }

    /// Returns the message of the frame that the last octet ended, which is empty if it ended none.
    pub fn message(&self) -> &[u8]
        ensures message { IsWire self.now → result.now ≡ message_of_frame (held_frame (reading_of self.now)) }
        ensures at { IsWire self.now → take (length result.now) (drop 2 self.now.octets) ≡ result.now }
        ensures most { length result.now ≤ FRAME_OCTETS }
    {
        message_of(self.frame())
    }
}
