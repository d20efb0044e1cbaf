//! How often the CPU may poll over a line.
ghost use Rattle.std.specs.Prelude.{◌≡◌, ◌≤◌, ◌<◌, ◌*◌, ◌+◌, ◌-◌, ◌^◌, ℕ, true, false, Some, None};
ghost use Rattle.fio_wire.specs.Lengths.{most_bits};
ghost use Rattle.fio_link.specs.declared.planning.Pace.{Pace};
ghost use Rattle.fio_link.specs.Pace.{HasNoPaceBelow, IsPace, answer_scans, clean_pace, held_over, least_apart, most_apart, most_behind, most_changes, most_entries, most_late, most_load, poll_scans, round_scans, scans_on_line};

use crate::line::{TimedLine, Traffic};

// More scans than a block makes up for: 255 entries, at filters of 255.
const MORE_THAN_ANY: u32 = 255 * 255 + 1;

const MILLION: u64 = 1_000_000;

/// A pace of a line.
#[derive(Clone, Copy, Debug, PartialEq, Eq)]
pub struct Pace {
    /// How many scans apart polls are sent, by the CPU's clock.
    pub scans: u64,
    /// How many scans a round takes at most.
    pub round: u64,
    /// How many scans a transition is late at most, until it is in the record.
    pub late: u64,
    /// How much of the line's time a round's bits take at most, in thousandths, rounded up.
    pub load: u64,
}

/// Returns how many scans come at most while this number of bits is on a line of this rate.
fn scans_on_line(rate: u32, bits: u64) -> u64
    requires some { 1 ≤ rate }
    requires few { bits < 2 ^ 34 }
    ensures value { result ≡ scans_on_line rate bits }
    ensures within { result < 2 ^ 45 }
{
    let rate = u64::from(rate);
    (1000 * bits + (rate - 1)) / rate
}

/// Returns how many scans come at most until the module has a poll.
fn poll_scans(line: TimedLine) -> u64
    requires { 1 ≤ line.rate }
    ensures value { result ≡ poll_scans line }
    ensures within { result < 2 ^ 45 }
{
    scans_on_line(line.rate, line.kind.most_bits(2) + u64::from(line.other))
}

/// Returns how many bits a round takes at most, if the answer is of this number of octets.
fn round_bits(line: TimedLine, octets: u16) -> u64
    ensures value { result ≡ most_bits line.kind 2 + most_bits line.kind octets + line.other }
    ensures within { result < 2 ^ 33 }
{
    line.kind.most_bits(2) + line.kind.most_bits(octets) + u64::from(line.other)
}

/// Returns how many scans come at most until the CPU has an answer of this number of octets.
fn answer_scans(line: TimedLine, octets: u16) -> u64
    requires { 1 ≤ line.rate }
    ensures value { result ≡ answer_scans line octets }
    ensures within { result < 2 ^ 46 }
{
    u64::from(line.answer) + scans_on_line(line.rate, round_bits(line, octets))
}

/// Returns the product of two numbers.
fn times(a: u32, b: u32) -> u64
    requires few { a < 2 ^ 17 }
    ensures value { result ≡ a * b }
    ensures within { result < 2 ^ 49 }
{
    u64::from(a) * u64::from(b)
}

/// Returns how many scans come at most between two polls in a row.
fn most_apart(line: TimedLine, pace: u32) -> u32
    requires few { pace < 2 ^ 17 }
    ensures value { result ≡ most_apart line pace }
{
    let slow = u64::from(pace) * (MILLION + u64::from(line.drift));
    ((slow + (MILLION - 1)) / MILLION) as u32 + u32::from(line.jitter)
}

/// Returns how many scans come at least between two polls in a row.
fn least_apart(line: TimedLine, pace: u32) -> u32
    requires few { pace < 2 ^ 17 }
    ensures value { result ≡ least_apart line pace }
{
    let fast = u64::from(pace) * (MILLION - u64::from(line.drift));
    let scans = (fast / MILLION) as u32;
    let jitter = u32::from(line.jitter);
    if scans < jitter { 0 } else { scans - jitter }
}

/// Returns how many scans come at most from one clean round's poll to that of the next.
fn clean_pace(line: TimedLine, pace: u32) -> u64
    requires few { pace < 2 ^ 17 }
    ensures value { result ≡ clean_pace line pace }
    ensures within { result < 2 ^ 49 }
{
    times(u32::from(line.lost) + 1, most_apart(line, pace))
}

/// Returns how many scans the blocks are behind at most when the module receives a clean round's poll.
fn most_behind(line: TimedLine, pace: u32) -> u64
    requires some { 1 ≤ line.rate }
    requires few { pace < 2 ^ 17 }
    ensures value { result ≡ most_behind line pace }
    ensures within { result < 2 ^ 51 }
{
    times(u32::from(line.lost), most_apart(line, pace)) + clean_pace(line, pace) + poll_scans(line)
}

/// Returns a number of scans for each open input.
fn for_each(traffic: Traffic, scans: u64) -> u64
    requires few { scans < 2 ^ 52 }
    ensures value { result ≡ traffic.opened * scans }
{
    u64::from(traffic.opened) * scans
}

/// Returns the most changes that the open inputs can report in so many scans.
fn most_changes(traffic: Traffic, scans: u64) -> u64
    requires some { 1 ≤ traffic.filter }
    requires few { scans < 2 ^ 51 }
    ensures value { result ≡ most_changes traffic scans }
{
    let later = if scans == 0 { 0 } else { scans - 1 };
    for_each(traffic, 1 + later / u64::from(traffic.filter))
}

/// Returns the most octets of an answer.
fn most_octets(line: TimedLine, traffic: Traffic, pace: u32) -> u16
    requires some_rate { 1 ≤ line.rate }
    requires some { 1 ≤ traffic.filter }
    requires few { pace < 2 ^ 17 }
    ensures value { result ≡ 8 + 3 * most_entries line traffic pace }
{
    let changes = most_changes(traffic, most_behind(line, pace));
    let entries = if changes < u64::from(traffic.per_block) {
        changes as u8
    } else {
        traffic.per_block
    };
    8 + 3 * u16::from(entries)
}

/// Returns how many scans a round takes at most.
fn round_scans(line: TimedLine, traffic: Traffic, pace: u32) -> u64
    requires some_rate { 1 ≤ line.rate }
    requires some { 1 ≤ traffic.filter }
    requires few { pace < 2 ^ 17 }
    ensures value { result ≡ round_scans line traffic pace }
    ensures within { result < 2 ^ 46 }
{
    answer_scans(line, most_octets(line, traffic, pace))
}

/// Returns whether blocks make up for all scans at this pace.
fn is_enough(line: TimedLine, traffic: Traffic, pace: u32) -> bool
    requires few { pace < 2 ^ 17 }
    ensures yes { result ≡ true → traffic.opened * clean_pace line pace ≤ traffic.per_block * traffic.filter }
    ensures no { result ≡ false → traffic.per_block * traffic.filter < traffic.opened * clean_pace line pace }
{
    for_each(traffic, clean_pace(line, pace))
        <= u64::from(traffic.per_block) * u64::from(traffic.filter)
}

/// Returns whether the buffer has room for what comes between two blocks at this pace.
fn has_room(line: TimedLine, traffic: Traffic, pace: u32) -> bool
    requires some_rate { 1 ≤ line.rate }
    requires some { 1 ≤ traffic.filter }
    requires few { pace < 2 ^ 17 }
    ensures yes { result ≡ true → traffic.opened * (most_behind line pace + (traffic.filter - 1)) ≤ traffic.waiting * traffic.filter }
    ensures no { result ≡ false → traffic.waiting * traffic.filter < traffic.opened * (most_behind line pace + (traffic.filter - 1)) }
{
    let behind = most_behind(line, pace) + u64::from(traffic.filter - 1);
    for_each(traffic, behind) <= u64::from(traffic.waiting) * u64::from(traffic.filter)
}

/// Returns whether this is a pace of the line.
fn is_pace(line: TimedLine, traffic: Traffic, pace: u32) -> bool
    requires some_rate { 1 ≤ line.rate }
    requires some { 1 ≤ traffic.filter }
    requires few { pace < 2 ^ 17 }
    ensures yes { result ≡ true → IsPace line traffic pace }
    ensures no { result ≡ false → IsPace line traffic pace → ⊥ }
{
    round_scans(line, traffic, pace) <= u64::from(least_apart(line, pace))
        && is_enough(line, traffic, pace)
        && has_room(line, traffic, pace)
}

/// Returns how many scans a change that waits for the block after the next can be older.
fn held_over(line: TimedLine, traffic: Traffic, pace: u32) -> u64
    requires some { 1 ≤ traffic.filter }
    requires few { pace < 2 ^ 17 }
    ensures value { result ≡ held_over line traffic pace }
    ensures within { result < 2 ^ 8 }
{
    let changes = most_changes(traffic, clean_pace(line, pace));
    if u64::from(traffic.per_block) < changes {
        u64::from(traffic.filter - 1)
    } else {
        0
    }
}

/// Returns how much of the line's time a round's bits take at most.
fn most_load(line: TimedLine, traffic: Traffic, pace: u32) -> u64
    requires some_rate { 1 ≤ line.rate }
    requires some { 1 ≤ traffic.filter }
    requires few { pace < 2 ^ 17 }
    requires some_apart { 1 ≤ least_apart line pace }
    ensures { result ≡ most_load line traffic pace }
{
    let bits = round_bits(line, most_octets(line, traffic, pace));
    let time = times(least_apart(line, pace), line.rate);
    (1000 * (1000 * bits) + (time - 1)) / time
}

/// Returns this pace, with what holds at it.
fn at_pace(line: TimedLine, traffic: Traffic, pace: u32) -> Pace
    requires some_rate { 1 ≤ line.rate }
    requires some { 1 ≤ traffic.filter }
    requires few { pace < 2 ^ 17 }
    requires is_pace { IsPace line traffic pace }
    ensures scans { result.scans ≡ pace }
    ensures round { result.round ≡ round_scans line traffic pace }
    ensures late { result.late ≡ most_late line traffic pace }
    ensures load { result.load ≡ most_load line traffic pace }
{
    let round = round_scans(line, traffic, pace);
    let lost = times(u32::from(line.lost), most_apart(line, pace));
    let behind = lost + clean_pace(line, pace) + round + held_over(line, traffic, pace);
    Pace {
        scans: u64::from(pace),
        round,
        late: if behind == 0 { 0 } else { behind - 1 },
        load: most_load(line, traffic, pace),
    }
}

/// Returns the least pace of a line, or `None` if it has none: then no pace is slow enough for the line and fast enough for
/// what comes.
pub fn plan(line: TimedLine, traffic: Traffic) -> Option<Pace>
    requires some_rate { 1 ≤ line.rate }
    requires some_open { 1 ≤ traffic.opened }
    requires some { 1 ≤ traffic.filter }
    ensures is_pace { (pace : Pace) → result ≡ Some pace → IsPace line traffic pace.scans }
    ensures least { (pace : Pace) → result ≡ Some pace → HasNoPaceBelow line traffic pace.scans }
    ensures round { (pace : Pace) → result ≡ Some pace → pace.round ≡ round_scans line traffic pace.scans }
    ensures late { (pace : Pace) → result ≡ Some pace → pace.late ≡ most_late line traffic pace.scans }
    ensures load { (pace : Pace) → result ≡ Some pace → pace.load ≡ most_load line traffic pace.scans }
    ensures none { result ≡ None → (n : ℕ) → IsPace line traffic n → ⊥ }
{
    'pace: for pace in 1..MORE_THAN_ANY {
        if !is_enough(line, traffic, pace) {
            return None;
        }
        if is_pace(line, traffic, pace) {
            return Some(at_pace(line, traffic, pace));
        }
    }
    None
}
