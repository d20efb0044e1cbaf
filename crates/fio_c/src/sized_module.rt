//! The module, whose waiting entries are in an array of the caller, its ring.
//!
//! `scan` and `receive` get that array: always the same one, or one with its octets, since array and
//! struct may be moved. In an array that is longer than the limit the further slots are unchanged. With a
//! shorter one calls are safe, but nothing is promised of which entries wait.
//!
//! C gives a ring by value, as the struct `fio2070_ring`. It is always the second parameter: so the
//! conventions of x86-64 and of AArch64 pass it in two registers, the same as for a slice here.
ghost use Rattle.std.specs.Prelude.{◌≡◌, ◌<◌, ◌≤◌, ◌-◌, ℕ, true, false, List, ◌∷◌, [], drop, length, min, replicate, unwrap_or, None, Some};
ghost use Rattle.fio_message.specs.declared.commands.Command.{Command};
ghost use Rattle.fio_message.specs.declared.limits.TheConstants.{INPUTS};
ghost use Rattle.fio_message.specs.Bits.{is_set};
ghost use Rattle.fio_message.specs.Decoding.{command_in};
ghost use Rattle.fio_input.specs.FilterHistory.{input_state, raw_levels};
ghost use Rattle.fio_module.specs.Settings.{Settings};
ghost use Rattle.fio_module.specs.Life.{Scan, LineSync, Raise, Received, Restart, life_of, counter_of, filter_events};
ghost use Rattle.fio_module.specs.Log.{log_of};
ghost use Rattle.fio_module.specs.Blocks.{newest_end};
ghost use Rattle.fio_module.specs.Flags.{flags_of, watchdog_of, outputs_of};
ghost use Rattle.fio_module.specs.Replies.{longest_answer};
ghost use Rattle.fio_flat.specs.declared.written.TheConstants.{NO_MESSAGE};
ghost use Rattle.fio_flat.specs.Module.{AddsEvent, AddsEventAlone, DeviceHistory, ErrorsChanged, IsDeviceAfter, OneMoreInReceiving, OneMoreInTransmitting, Reached, Replies, Set, are_flat_limits, errors_of, events_reached, module_at_start, flat_settings};

use crate::answering::{answer, scan};
use fio_flat::{ErrorCounts, FlatLimits, NO_MESSAGE, SizedModule};
use fio_message::{EntryOctets, read_command};
use fio_module::{MOST_WAITING, ModuleState, Outputs, RingPlace};

/// The error counts at the start, and after a restart (own profile).
const NO_ERRORS: ErrorCounts = ErrorCounts {
    receive: 0,
    transmit: 0,
};

/// Starts a module that answers `id` when it is asked for its identification (own profile: one octet),
/// with these limits: 1 to 8,192 entries that wait, 1 to 255 entries of a block (TEES 2009: 1,024 and
/// 255). Each octet of the struct is set. Returns 0, or 1 without any change if a limit is out of its
/// range.
#[unsafe(no_mangle)]
pub extern "C" fn fio2070_sized_module_start(
    device: &mut SizedModule,
    id: u8,
    limits: FlatLimits,
) -> u8
    ensures made { are_flat_limits limits ≡ true → (slots : List (List ℕ)) → limits.waiting ≤ length slots
        → IsDeviceAfter (flat_settings id limits) device.new slots [] }
    ensures octets { are_flat_limits limits ≡ true → (result ≡ 0) × (device.new ≡ module_at_start id limits) }
    ensures refused { are_flat_limits limits ≡ false → (result ≡ 1) × (device.new ≡ device.old) }
{
    if limits.waiting == 0 || limits.waiting > MOST_WAITING || limits.per_block == 0 {
        return 1;
    }
    *device = SizedModule {
        state: ModuleState::new(id, limits.per_block),
        place: RingPlace::new(),
        errors: NO_ERRORS,
        waiting: limits.waiting,
        reserved: [0; 16],
    };
    0
}

/// Restarts the module: everything but the identification and the limits is as at its start. The flags
/// are P alone, the counter and the error counts are 0, and the waiting entries and the block that was
/// sent last are lost (own profile).
#[unsafe(no_mangle)]
pub extern "C" fn fio2070_sized_module_restart(device: &mut SizedModule)
    ensures { AddsEventAlone (Reached Restart) device.old device.new }
{
    device.state.start_anew();
    device.place = RingPlace::new();
    device.errors = NO_ERRORS;
}

/// Steps the counter by one millisecond, then takes a sample of each input (own profile: one scan a
/// step). Bit i of `raw` is the level of input i. Each reported change of a filtered state joins the
/// waiting entries; if the limit is reached, it pushes out the oldest one.
#[unsafe(no_mangle)]
pub extern "C" fn fio2070_sized_module_scan(
    device: &mut SizedModule,
    ring: &mut [EntryOctets],
    raw: u64,
)
    ensures scanned { AddsEvent (Reached (Scan raw)) device.old ring.old device.new ring.new }
    ensures further { drop device.old.waiting ring.new ≡ drop device.old.waiting ring.old }
{
    let used = usize::from(device.waiting).min(ring.len());
    let (slots, _) = ring.split_at_mut(used);
    scan(&mut device.state, &mut device.place, slots, raw);
}

/// As `fio_module::Module::line_sync`.
#[unsafe(no_mangle)]
pub extern "C" fn fio2070_sized_module_line_sync(device: &mut SizedModule)
    ensures { AddsEventAlone (Reached LineSync) device.old device.new }
{
    device.state.line_sync();
}

/// As `fio_module::Module::raise`.
#[unsafe(no_mangle)]
pub extern "C" fn fio2070_sized_module_raise(device: &mut SizedModule, mask: u8)
    ensures { AddsEventAlone (Reached (Raise mask)) device.old device.new }
{
    device.state.raise(mask);
}

/// Sets the error counts that the answer 177 has from now on: in receiving and in transmitting, 0 to 255
/// (TEES 2009; who counts them is left out there).
#[unsafe(no_mangle)]
pub extern "C" fn fio2070_sized_module_set_errors(
    device: &mut SizedModule,
    receive: u8,
    transmit: u8,
)
    ensures { AddsEventAlone (ErrorsChanged (Set receive transmit)) device.old device.new }
{
    device.errors = ErrorCounts { receive, transmit };
}

/// Counts one more error in receiving; 255 stays 255 (own profile).
#[unsafe(no_mangle)]
pub extern "C" fn fio2070_sized_module_count_receive_error(device: &mut SizedModule)
    ensures { AddsEventAlone (ErrorsChanged OneMoreInReceiving) device.old device.new }
{
    device.errors.receive = device.errors.receive.saturating_add(1);
}

/// Counts one more error in transmitting; 255 stays 255 (own profile).
#[unsafe(no_mangle)]
pub extern "C" fn fio2070_sized_module_count_transmit_error(device: &mut SizedModule)
    ensures { AddsEventAlone (ErrorsChanged OneMoreInTransmitting) device.old device.new }
{
    device.errors.transmit = device.errors.transmit.saturating_add(1);
}

/// Takes the octets of a frame, writes those of the answer to the front of `out`, and returns how many
/// they are, 0 if the command gets no answer: commands 56, 57 and 59, which change nothing (own profile).
/// If the octets encode no command, the result is `NO_MESSAGE`, and nothing changes.
///
/// If `out` is shorter than the longest answer of this module, 8 + 3 * `per_block` octets and at least
/// 13, that number is returned, and nothing changes.
#[unsafe(no_mangle)]
pub extern "C" fn fio2070_sized_module_receive(
    device: &mut SizedModule,
    ring: &mut [EntryOctets],
    octets: &[u8],
    out: &mut [u8],
) -> usize
    ensures carried { longest_answer device.old.state.per_block ≤ length out.old
        → AddsEvent (Reached (Received octets.now)) device.old ring.old device.new ring.new }
    ensures reply { longest_answer device.old.state.per_block ≤ length out.old
        → (command : Command) → command_in octets.now ≡ Some command
        → Replies octets.now device.old ring.old out.old out.new result }
    ensures no_command { longest_answer device.old.state.per_block ≤ length out.old
        → command_in octets.now ≡ None
        → (result ≡ NO_MESSAGE) × (length out.old < result)
        × (device.new ≡ device.old) × (ring.new ≡ ring.old) × (out.new ≡ out.old) }
    ensures no_room { length out.old < longest_answer device.old.state.per_block
        → (result ≡ longest_answer device.old.state.per_block)
        × (device.new ≡ device.old) × (ring.new ≡ ring.old) × (out.new ≡ out.old) }
    ensures further { drop device.old.waiting ring.new ≡ drop device.old.waiting ring.old }
{
    let longest = device.state.longest_answer();
    if out.len() < longest {
        return longest;
    }
    let Ok(command) = read_command(octets) else {
        return NO_MESSAGE;
    };
    let used = usize::from(device.waiting).min(ring.len());
    let (slots, _) = ring.split_at_mut(used);
    let (state, place, errors) = (&mut device.state, &mut device.place, &device.errors);
    answer(state, place, slots, errors, command, out)
}

/// What a module is at present.
#[derive(Clone, Copy)]
#[repr(C)]
pub struct FlatState {
    /// The filtered states, also of ignored inputs; bit i is input i.
    pub filtered: u64,
    /// The levels of the last scan, all 1 before any (own profile); bit i is input i.
    pub raw: u64,
    /// The outputs, all 0 before the first command 55 (own profile).
    pub outputs: Outputs,
    /// The milliseconds counted, modulo 2^32 (TEES 2009).
    pub counter: u32,
    /// How many entries wait for a poll, 0 to the limit.
    pub waiting: u16,
    /// The flags that are up: from bit 7 down P, E, K, R, T, M, L, W (own profile).
    pub flags: u8,
    /// The timeout of the watchdog in milliseconds, 10 to 100; 0 before the first command 58.
    pub watchdog_ms: u8,
    /// The error counts that the answer 177 has.
    pub errors: ErrorCounts,
    /// 0 in each octet that the library writes.
    pub reserved: [u8; 6],
}

/// Returns what the module is at present.
#[unsafe(no_mangle)]
pub extern "C" fn fio2070_sized_module_state(device: &SizedModule) -> FlatState
    ensures filtered { (settings : Settings) (slots : List (List ℕ)) (history : DeviceHistory)
        → IsDeviceAfter settings device.now slots history
        → (input : ℕ) → input < INPUTS
        → is_set result.filtered input ≡ input_state input (filter_events (life_of (events_reached history))) }
    ensures raw { (settings : Settings) (slots : List (List ℕ)) (history : DeviceHistory)
        → IsDeviceAfter settings device.now slots history
        → result.raw ≡ raw_levels (filter_events (life_of (events_reached history))) }
    ensures outputs { (settings : Settings) (slots : List (List ℕ)) (history : DeviceHistory)
        → IsDeviceAfter settings device.now slots history
        → result.outputs ≡ outputs_of (life_of (events_reached history)) }
    ensures counter { (settings : Settings) (slots : List (List ℕ)) (history : DeviceHistory)
        → IsDeviceAfter settings device.now slots history
        → result.counter ≡ counter_of (life_of (events_reached history)) }
    ensures waiting { (settings : Settings) (slots : List (List ℕ)) (history : DeviceHistory)
        → IsDeviceAfter settings device.now slots history
        → result.waiting ≡ min settings.waiting
        (length (log_of (life_of (events_reached history))) - newest_end settings (life_of (events_reached history))) }
    ensures flags { (settings : Settings) (slots : List (List ℕ)) (history : DeviceHistory)
        → IsDeviceAfter settings device.now slots history
        → result.flags ≡ flags_of (life_of (events_reached history)) }
    ensures watchdog { (settings : Settings) (slots : List (List ℕ)) (history : DeviceHistory)
        → IsDeviceAfter settings device.now slots history
        → result.watchdog_ms ≡ unwrap_or (watchdog_of (life_of (events_reached history))) 0 }
    ensures errors { (settings : Settings) (slots : List (List ℕ)) (history : DeviceHistory)
        → IsDeviceAfter settings device.now slots history
        → result.errors ≡ errors_of history }
    ensures reserved { result.reserved ≡ replicate 6 0 }
{
    FlatState {
        filtered: device.state.filtered(),
        raw: device.state.raw(),
        outputs: device.state.outputs(),
        counter: device.state.counter(),
        waiting: device.place.len(device.waiting),
        flags: device.state.flags(),
        watchdog_ms: device.state.watchdog_ms().unwrap_or(0),
        errors: device.errors,
        reserved: [0; 6],
    }
}
