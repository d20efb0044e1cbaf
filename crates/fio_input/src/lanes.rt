//! The lengths of the inputs' latest runs of equal samples, stepped 16 inputs at a time.
ghost use Rattle.std.specs.Prelude.{◌≡◌, ◌≢◌, ◌<◌, ◌≤◌, ℕ, ◌+◌, ◌^◌, ◌==◌, min, length, slice_index, if◌then◌else◌, nat_le};
ghost use Rattle.fio_message.specs.Bits.{is_set, bit_of};
ghost use Rattle.fio_message.specs.declared.limits.TheConstants.{INPUTS};
ghost use Rattle.fio_input.specs.FilterRule.{filter_in_force};
ghost use Rattle.fio_input.specs.Runs.{next_length, meets_filter};
ghost use Rattle.fio_input.specs.declared.lanes.TheConstants.{LANES};

use crate::few::step_few;
use fio_message::INPUTS;
use std::simd::prelude::*;

/// The number of inputs that are stepped at a time.
const LANES: usize = 16;

/// Up to this many inputs are stepped one after another, since that takes less time.
const FEW: u32 = 3;

/// Steps the length of each input's latest run by one sample if that sample is not the input's filtered state: no other
/// length is read before the input's level changes. `levels` has the levels of these runs, `raw` the samples, and `filtered`
/// the filtered states. The result has a 1 for each input with such a sample whose run now meets its filter; other inputs
/// may have a 1 or a 0.
pub(crate) fn step_runs(
    run_lengths: &mut [u8; INPUTS],
    leading: &[u8; INPUTS],
    trailing: &[u8; INPUTS],
    levels: u64,
    raw: u64,
    filtered: u64,
) -> u64
    // A run goes on if the sample has its level. Its length stays at 255 and never wraps.
    ensures lengths { (input : ℕ) → input < INPUTS → is_set raw input ≢ is_set filtered input
        → slice_index run_lengths.new input
        ≡ next_length (slice_index run_lengths.old input) (is_set levels input) (is_set raw input) }
    ensures met { (input : ℕ) → input < INPUTS → is_set raw input ≢ is_set filtered input
        → is_set result input
        ≡ meets_filter (slice_index leading.now input) (slice_index trailing.now input)
        (is_set raw input) (slice_index run_lengths.new input) }
{
    let stepped = raw ^ filtered;
    if stepped.count_ones() <= FEW {
        return step_few(run_lengths, leading, trailing, levels, raw, stepped);
    }
    let mut met = 0;
    for group in 0..INPUTS / LANES {
        let first = LANES * group;
        let now = levels_from(raw, first);
        if now == levels_from(filtered, first) {
            continue;
        }
        let samples = lanes_of(now);
        let before = lanes_of(levels_from(levels, first));
        let lengths = next_lengths(load(run_lengths, first), before, samples);
        let filters = filters_in_force(load(leading, first), load(trailing, first), samples);
        met |= runs_met(filters, lengths) << first;
        store(run_lengths, first, lengths);
    }
    met
}

/// Returns the lengths of 16 runs after one more sample: one more, at most 255, if the sample has the run's level, and 1
/// otherwise.
fn next_lengths(lengths: u8x16, levels: u8x16, samples: u8x16) -> u8x16
    ensures { (lane : ℕ) → lane < LANES
        → slice_index result lane
        ≡ (if slice_index levels lane == slice_index samples lane
        then min (slice_index lengths lane + 1) 255 else 1) }
{
    levels
        .simd_eq(samples)
        .select(lengths, u8x16::splat(0))
        .saturating_add(u8x16::splat(1))
}

/// Returns the filters that apply to 16 inputs given their samples, with 0 taken as 1.
fn filters_in_force(leading: u8x16, trailing: u8x16, samples: u8x16) -> u8x16
    ensures { (lane : ℕ) → lane < LANES
        → slice_index result lane
        ≡ filter_in_force (if slice_index samples lane == 1
        then slice_index trailing lane else slice_index leading lane) }
{
    let one = u8x16::splat(1);
    samples.simd_eq(one).select(trailing, leading).simd_max(one)
}

/// Returns a bit for each of 16 runs: 1 if the run is as long as its filter.
fn runs_met(filters: u8x16, lengths: u8x16) -> u64
    ensures range { result < 2 ^ LANES }
    ensures lanes { (lane : ℕ) → lane < LANES
        → is_set result lane ≡ nat_le (slice_index filters lane) (slice_index lengths lane) }
{
    filters.simd_le(lengths).to_bitmask()
}

/// Returns the levels of the 16 inputs from `first` on.
fn levels_from(levels: u64, first: usize) -> u64
    requires { first < INPUTS }
    ensures range { result < 2 ^ LANES }
    ensures bits { (lane : ℕ) → lane < LANES → is_set result lane ≡ is_set levels (first + lane) }
{
    (levels >> first) & 0xffff
}

/// Returns the levels of 16 inputs, each as a lane of 0 or 1.
fn lanes_of(levels: u64) -> u8x16
    requires { levels < 2 ^ LANES }
    ensures { (lane : ℕ) → lane < LANES
        → slice_index result lane ≡ bit_of (is_set levels lane) }
{
    let low = (levels & 0xff) as u8;
    let high = (levels >> 8) as u8;
    let octets = u8x16::from_array([
        low, low, low, low, low, low, low, low, high, high, high, high, high, high, high, high,
    ]);
    let bits = u8x16::from_array([1, 2, 4, 8, 16, 32, 64, 128, 1, 2, 4, 8, 16, 32, 64, 128]);
    (octets & bits)
        .simd_eq(bits)
        .select(u8x16::splat(1), u8x16::splat(0))
}

/// Returns the 16 octets from `first` on.
fn load(octets: &[u8], first: usize) -> u8x16
    requires { first + LANES ≤ length octets.now }
    ensures { (lane : ℕ) → lane < LANES
        → slice_index result lane ≡ slice_index octets.now (first + lane) }
{
    u8x16::from_slice(&octets[first..])
}

/// Writes the lanes over the 16 octets from `first` on.
#[tactic(auto, using(crate::proofs::Rulesets::stored_chunks))]
fn store(octets: &mut [u8], first: usize, lanes: u8x16)
    requires { first + LANES ≤ length octets.old }
    ensures below { (i : ℕ) → i < first → slice_index octets.new i ≡ slice_index octets.old i }
    ensures stored { (lane : ℕ) → lane < LANES
        → slice_index octets.new (first + lane) ≡ slice_index lanes lane }
    ensures above { (i : ℕ) → first + LANES ≤ i → slice_index octets.new i ≡ slice_index octets.old i }
{
    lanes.copy_to_slice(&mut octets[first..]);
}
