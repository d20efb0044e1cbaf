//! How often to poll over a line of a rate.
ghost use Rattle.std.specs.Prelude.{◌≡◌, ◌≤◌, ℕ, true, false};
ghost use Rattle.fio_link.specs.Pace.{IsPace};
ghost use Rattle.fio_c.specs.Plans.{IsPlanned, can_plan, line_of, traffic_in};

use fio_link::{TimedLine, Traffic, plan};
use fio_message::INPUTS;
use fio_wire::LineKind;

// A clock that is wrong by one in a hundred.
const MOST_DRIFT: u16 = 10_000;

/// A line between the two ends, and what may have to be reported over it.
#[derive(Clone, Copy)]
#[repr(C)]
pub struct FlatLine {
    /// How many bits the line carries in 1,000 scans: in a second, if a scan is a millisecond. 1 or more.
    pub rate: u32,
    /// Within how many scans of its receipt of a poll the module begins its answer.
    pub answer: u32,
    /// At most how many bits of other traffic the line carries between a poll and its answer.
    pub other: u32,
    /// At most how many rounds in a row the line loses.
    pub lost: u16,
    /// How many entries may wait.
    pub waiting: u16,
    /// How many entries a block takes.
    pub per_block: u8,
    /// How many inputs may be open, 1 to 64.
    pub inputs: u8,
    /// How many samples their filters have at least; 0 acts as 1.
    pub filter: u8,
    /// How many stop bits an octet has on an asynchronous line; 0 for a synchronous line.
    pub stop_bits: u8,
    /// By at most how many parts in a million the CPU's clock is faster or slower than the module's counter, 0 to 10,000.
    pub drift: u16,
    /// At most how many scans a poll is late by the CPU's clock.
    pub jitter: u16,
}

/// A pace of a line, in scans.
#[derive(Clone, Copy)]
#[repr(C)]
pub struct FlatPace {
    /// How many scans apart polls are sent, by the CPU's clock.
    pub scans: u64,
    /// How many scans a round takes at most.
    pub round: u64,
    /// How many scans a transition is late at most, until it is in the record.
    pub late: u64,
    /// How much of the line's time a round's bits take at most, in thousandths.
    pub load: u64,
}

/// Returns the line that C gives.
fn line_of(given: FlatLine) -> TimedLine
    ensures { result ≡ line_of given }
{
    let kind = if given.stop_bits == 0 {
        LineKind::Synchronous
    } else {
        LineKind::Asynchronous(given.stop_bits)
    };
    TimedLine {
        kind,
        rate: given.rate,
        answer: given.answer,
        other: given.other,
        lost: given.lost,
        drift: given.drift,
        jitter: given.jitter,
    }
}

/// Returns the traffic that C gives.
fn traffic_in(given: FlatLine) -> Traffic
    ensures { result ≡ traffic_in given }
{
    let filter = if given.filter == 0 { 1 } else { given.filter };
    Traffic {
        opened: given.inputs,
        filter,
        per_block: given.per_block,
        waiting: given.waiting,
    }
}

/// Finds the least pace at which a line can be polled, so that each round ends before the next one and nothing is lost. Returns
/// 0 and writes it; 1 if the line has no pace; 2 if the rate is 0, no inputs or more than 64 may be open, or the drift is above
/// 10,000. After 1 and 2 `pace` is unchanged.
#[unsafe(no_mangle)]
pub extern "C" fn fio2070_plan(line: &FlatLine, pace: &mut FlatPace) -> u8
    ensures planned { result ≡ 0 → IsPlanned (line_of line.now) (traffic_in line.now) pace.new }
    ensures none { result ≡ 1 → (n : ℕ) → IsPace (line_of line.now) (traffic_in line.now) n → ⊥ }
    ensures taken { can_plan line.now ≡ true → result ≤ 1 }
    ensures refused { can_plan line.now ≡ false → result ≡ 2 }
    ensures unchanged { 1 ≤ result → pace.new ≡ pace.old }
{
    let given = *line;
    if given.rate == 0
        || given.inputs == 0
        || usize::from(given.inputs) > INPUTS
        || given.drift > MOST_DRIFT
    {
        return 2;
    }
    match plan(line_of(given), traffic_in(given)) {
        None => 1,
        Some(found) => {
            *pace = FlatPace {
                scans: found.scans,
                round: found.round,
                late: found.late,
                load: found.load,
            };
            0
        }
    }
}
