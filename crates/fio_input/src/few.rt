//! The lengths of the latest runs of equal samples of a few inputs, stepped one after another.
ghost use Rattle.std.specs.Prelude.{◌≡◌, ◌≢◌, ◌<◌, ℕ, true, slice_index};
ghost use Rattle.fio_message.specs.Bits.{is_set};
ghost use Rattle.fio_message.specs.declared.limits.TheConstants.{INPUTS};
ghost use Rattle.fio_input.specs.Runs.{next_length, meets_filter};

use fio_message::INPUTS;

/// Steps the lengths of the latest runs of the inputs whose bits are 1 in `stepped`, each by one sample. `levels` has the
/// levels of these runs, `raw` the samples. The result has a 1 for each of these inputs whose run now meets its filter;
/// other inputs have a 0.
pub(crate) fn step_few(
    run_lengths: &mut [u8; INPUTS],
    leading: &[u8; INPUTS],
    trailing: &[u8; INPUTS],
    levels: u64,
    raw: u64,
    stepped: u64,
) -> u64
    ensures lengths { (input : ℕ) → input < INPUTS → is_set stepped input ≡ true
        → slice_index run_lengths.new input
        ≡ next_length (slice_index run_lengths.old input) (is_set levels input) (is_set raw input) }
    ensures met { (input : ℕ) → input < INPUTS → is_set stepped input ≡ true
        → is_set result input
        ≡ meets_filter (slice_index leading.now input) (slice_index trailing.now input)
        (is_set raw input) (slice_index run_lengths.new input) }
{
    let mut met = 0;
    let mut left = stepped;
    'inputs: while left != 0 {
        let input = left.trailing_zeros() as usize;
        let bit = 1 << input;
        if step_run(run_lengths, leading, trailing, levels, raw, input) {
            met |= bit;
        }
        left &= !bit;
    }
    met
}

/// Steps the length of an input's latest run by one sample, and returns whether the run now meets its
/// filter.
fn step_run(
    run_lengths: &mut [u8; INPUTS],
    leading: &[u8; INPUTS],
    trailing: &[u8; INPUTS],
    levels: u64,
    raw: u64,
    input: usize,
) -> bool
    requires { input < INPUTS }
    ensures length { slice_index run_lengths.new input
        ≡ next_length (slice_index run_lengths.old input) (is_set levels input) (is_set raw input) }
    ensures others { (other : ℕ) → other ≢ input
        → slice_index run_lengths.new other ≡ slice_index run_lengths.old other }
    ensures met { result ≡ meets_filter (slice_index leading.now input) (slice_index trailing.now input)
        (is_set raw input) (slice_index run_lengths.new input) }
{
    let sample = is_set(raw, input);
    let length = if is_set(levels, input) == sample {
        run_lengths[input].saturating_add(1)
    } else {
        1
    };
    run_lengths[input] = length;
    let filter = if sample {
        trailing[input]
    } else {
        leading[input]
    };
    filter.max(1) <= length
}

/// Returns whether the bit of an input is set in a word.
#[tactic(auto, using(fio_message::proofs::Bits::is_set_read))]
fn is_set(word: u64, input: usize) -> bool
    requires { input < INPUTS }
    ensures { result ≡ is_set word input }
{
    (word >> input) & 1 == 1
}
