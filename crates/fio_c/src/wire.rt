//! Frames on lines of octets and of bits, with decoders in memory of the caller.
ghost use Rattle.std.specs.Prelude.{◌≡◌, ◌≤◌, ◌<◌, ◌+◌, ◌-◌, ◌*◌, ◌⊎◌, [], fold, length, take, drop};
ghost use Rattle.fio_message.specs.declared.limits.TheConstants.{FRAME_OCTETS};
ghost use Rattle.fio_wire.specs.Checks.{frame_check_of};
ghost use Rattle.fio_wire.specs.Frames.{WireSettings, address_in, control_in, wire_heard, message_of_frame};
ghost use Rattle.fio_wire.specs.Octets.{IsWire, held_frame, lost, next, reading_of, said_of, sent, settings_of, start, wire_at_start};
ghost use Rattle.fio_wire.specs.Bits as line;
ghost use Rattle.fio_c.specs.Wires.{heard_code};

use fio_wire::{Wire, WireBits, WireHeard, frame_check, write};

/// Returns what is heard as C has it.
fn heard_code(heard: WireHeard) -> u8
    ensures { result ≡ heard_code heard }
{
    match heard {
        WireHeard::Nothing => 0,
        WireHeard::Message => 1,
        WireHeard::Other => 2,
        WireHeard::Damaged => 3,
    }
}

/// Starts a decoder before the first flag of a line of octets. One's own frames are those with this address and this control
/// octet; a number above 255 accepts any. Each octet of the struct is set.
#[unsafe(no_mangle)]
pub extern "C" fn fio2070_wire_start(wire: &mut Wire, address: u16, control: u16)
    ensures is { IsWire wire.new }
    ensures start { reading_of wire.new ≡ start }
    ensures settings { settings_of wire.new ≡ record { address = address; control = control } }
    ensures octets { wire.new ≡ wire_at_start address control }
{
    wire.start(address, control);
}

/// Reads octets of the line up to the end of the next frame, or of something that is no frame, and returns how many it read.
/// `heard` is what the last of them ends: 0 if no frame ends with it or there are none, 1 if a frame of one's own does, 2 if a
/// frame with another address or control octet does, 3 if something that is no frame does.
#[unsafe(no_mangle)]
pub extern "C" fn fio2070_wire_read(wire: &mut Wire, octets: &[u8], heard: &mut u8) -> usize
    ensures within { result ≤ length octets.now }
    ensures is { IsWire wire.old → IsWire wire.new }
    ensures heard { IsWire wire.old → heard.new ≡ heard_code (wire_heard (settings_of wire.old) (said_of (reading_of wire.old) (take result octets.now))) }
    ensures last { IsWire wire.old → said_of (reading_of wire.old) (take (result - 1) octets.now) ≡ [] }
    ensures all { heard.new ≡ 0 → result ≡ length octets.now }
    ensures next { IsWire wire.old → reading_of wire.new ≡ fold next (reading_of wire.old) (take result octets.now) }
    ensures settings { settings_of wire.new ≡ settings_of wire.old }
{
    let (count, found) = wire.read_many(octets);
    *heard = heard_code(found);
    count
}

/// Marks the present part of the line as damaged: an octet of it was lost, or came with a wrong parity or stop bit.
#[unsafe(no_mangle)]
pub extern "C" fn fio2070_wire_lose(wire: &mut Wire)
    ensures is { IsWire wire.old → IsWire wire.new }
    ensures next { IsWire wire.old → reading_of wire.new ≡ lost (reading_of wire.old) }
    ensures settings { settings_of wire.new ≡ settings_of wire.old }
{
    wire.lose();
}

/// Returns how many octets the message has whose frame the last octet ended, 0 if it ended none. The message is at
/// `octets + 2`, after the address and the control octet.
#[unsafe(no_mangle)]
pub extern "C" fn fio2070_wire_message_length(wire: &Wire) -> usize
    ensures within { result ≤ FRAME_OCTETS }
    ensures message { IsWire wire.now → take result (drop 2 wire.now.octets) ≡ message_of_frame (held_frame (reading_of wire.now)) }
    ensures length { IsWire wire.now → result ≡ length (message_of_frame (held_frame (reading_of wire.now))) }
{
    wire.message().len()
}

/// Writes the frame of a message for a line of octets, with its flags, and returns how many octets it took. If the message is
/// empty or longer than 773 octets, or there is less room than twice its octets and 10 more, nothing is written, and the
/// result is 0.
#[unsafe(no_mangle)]
pub extern "C" fn fio2070_wire_write(
    address: u8,
    control: u8,
    message: &[u8],
    out: &mut [u8],
) -> usize
    ensures written { 1 ≤ length message.now → length message.now ≤ FRAME_OCTETS → 2 * length message.now + 10 ≤ length out.old
        → take result out.new ≡ sent address control message.now }
    ensures within { result ≤ length out.old }
    ensures rest { drop result out.new ≡ drop result out.old }
    ensures refused { (length message.now ≡ 0) ⊎ ((FRAME_OCTETS < length message.now) ⊎ (length out.old < 2 * length message.now + 10)) → result ≡ 0 }
{
    write(address, control, message, out)
}

/// Returns the frame check of octets, CRC-16/X-25. It is sent after them, its low octet first.
#[unsafe(no_mangle)]
pub extern "C" fn fio2070_wire_check(octets: &[u8]) -> u16
    ensures { result ≡ frame_check_of octets.now }
{
    frame_check(octets)
}

/// Starts a decoder before the first flag of a line of bits. One's own frames are those with this address and this control
/// octet; a number above 255 accepts any. Each octet of the struct is set.
#[unsafe(no_mangle)]
pub extern "C" fn fio2070_wire_bits_start(bits: &mut WireBits, address: u16, control: u16)
    ensures is { line.IsWireBits bits.new }
    ensures start { line.reading_of bits.new ≡ line.start }
    ensures settings { line.settings_of bits.new ≡ record { address = address; control = control } }
    ensures octets { bits.new ≡ line.wire_bits_at_start address control }
{
    bits.start(address, control);
}

/// Reads bits of the line, each the lowest of an octet, up to the end of the next frame, or of something that is no frame, and
/// returns how many it read. `heard` is as for `fio2070_wire_read`.
#[unsafe(no_mangle)]
pub extern "C" fn fio2070_wire_bits_read(
    bits: &mut WireBits,
    octets: &[u8],
    heard: &mut u8,
) -> usize
    ensures within { result ≤ length octets.now }
    ensures is { line.IsWireBits bits.old → line.IsWireBits bits.new }
    ensures heard { line.IsWireBits bits.old → heard.new ≡ heard_code (wire_heard (line.settings_of bits.old)
        (line.said_of (line.reading_of bits.old) (take result (line.lowest_bits octets.now)))) }
    ensures last { line.IsWireBits bits.old
        → line.said_of (line.reading_of bits.old) (take (result - 1) (line.lowest_bits octets.now)) ≡ [] }
    ensures all { heard.new ≡ 0 → result ≡ length octets.now }
    ensures next { line.IsWireBits bits.old
        → line.reading_of bits.new ≡ fold line.next (line.reading_of bits.old) (take result (line.lowest_bits octets.now)) }
    ensures settings { line.settings_of bits.new ≡ line.settings_of bits.old }
{
    let (count, found) = bits.read_many(octets);
    *heard = heard_code(found);
    count
}

/// Returns how many octets the message has whose frame the last bit ended, 0 if it ended none. The message is at `octets + 2`,
/// after the address and the control octet.
#[unsafe(no_mangle)]
pub extern "C" fn fio2070_wire_bits_message_length(bits: &WireBits) -> usize
    ensures within { result ≤ FRAME_OCTETS }
    ensures message { line.IsWireBits bits.now → take result (drop 2 bits.now.octets) ≡ message_of_frame (line.held_frame (line.reading_of bits.now)) }
    ensures length { line.IsWireBits bits.now → result ≡ length (message_of_frame (line.held_frame (line.reading_of bits.now))) }
{
    bits.message().len()
}
