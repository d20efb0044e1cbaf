//! The numbers of polls.
ghost use Rattle.std.specs.Prelude.{◌≡◌};
ghost use Rattle.fio_module.specs.Blocks.{is_new};
ghost use Rattle.fio_module.specs.Sendings.{is_out_of_sequence};

/// Returns whether a poll with this number is new, given the number of the poll before.
pub fn is_new(before: Option<u8>, number: u8) -> bool
    ensures { result ≡ is_new before number }
{
    before != Some(number)
}

/// Returns whether a number is out of sequence, given that of the poll before: 255 is followed by 0.
pub fn is_out_of_sequence(before: Option<u8>, number: u8) -> bool
    ensures { result ≡ is_out_of_sequence before number }
{
    match before {
        Some(before) => number != before.wrapping_add(1),
        None => false,
    }
}
