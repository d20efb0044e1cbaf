//! The commands that the maker of a module answers, and his answers.
ghost use Rattle.std.specs.Prelude.{◌≡◌, ◌<◌, ◌≤◌, ◌+◌, length, None, Some};
ghost use Rattle.fio_module.specs.Makers.{awaited_code, makers_command_in};
ghost use Rattle.fio_module.specs.declared.makers.AnswerRefusal.{AnswerRefusal};
ghost use Rattle.fio_flat.specs.Makers.{StandsAsBefore, WritesMakers, awaits_code, makers_type, refusal_by, refusal_count};

use crate::written::write_with_body;
use fio_flat::{BODY_TOO_LONG, NOT_AWAITED, OTHER_AWAITED, SizedModule};
use fio_module::AnswerRefusal;

/// Returns the type of the command that the octets of a received frame are if the maker of the module answers it: 56, 57 or 59,
/// or 60 if its identification is to have another length than the one octet of `receive`. Its answer is awaited from then on. For
/// any other octets the result is 0, and no answer is awaited.
#[unsafe(no_mangle)]
pub extern "C" fn fio2070_sized_module_makers_command(device: &mut SizedModule, octets: &[u8]) -> u8
    ensures command { result ≡ makers_type (makers_command_in octets.now) }
    ensures awaits { device.new ≡ awaits_code (awaited_code (makers_command_in octets.now)) device.old }
    ensures stands { StandsAsBefore device.old device.new }
{
    match device.state.makers_command(octets) {
        Some(command) => command.code,
        None => 0,
    }
}

/// Returns the count that says why an answer is refused.
fn count_of(refusal: AnswerRefusal) -> usize
    ensures { result ≡ refusal_count refusal }
{
    match refusal {
        AnswerRefusal::NotAwaited => NOT_AWAITED,
        AnswerRefusal::OtherAwaited { .. } => OTHER_AWAITED,
        AnswerRefusal::TooLong { .. } => BODY_TOO_LONG,
    }
}

/// Writes the octets of the maker's answer to a command of this type to the front of `out`: the type plus 128, and the body. It
/// may be given once after `makers_command`. Returns how many octets they are, 1 to 773. If that is more than `out` has room for,
/// nothing changes.
///
/// If the answer is refused nothing changes, and the result is the first of these that applies: `NOT_AWAITED`, `OTHER_AWAITED` or
/// `BODY_TOO_LONG`.
#[unsafe(no_mangle)]
pub extern "C" fn fio2070_sized_module_answer_other(
    device: &mut SizedModule,
    command: u8,
    body: &[u8],
    out: &mut [u8],
) -> usize
    ensures written { refusal_by device.old command body.now ≡ None → 1 + length body.now ≤ length out.old
        → WritesMakers command body.now device.old device.new out.old out.new result }
    ensures refused { (refusal : AnswerRefusal) → refusal_by device.old command body.now ≡ Some refusal
        → (result ≡ refusal_count refusal) × (length out.old < result)
        × (device.new ≡ device.old) × (out.new ≡ out.old) }
    ensures no_room { refusal_by device.old command body.now ≡ None → length out.old < 1 + length body.now
        → (result ≡ 1 + length body.now) × (device.new ≡ device.old) × (out.new ≡ out.old) }
    ensures stands { StandsAsBefore device.old device.new }
{
    if let Some(refusal) = device.state.answer_refusal(command, body) {
        return count_of(refusal);
    }
    if out.len() <= body.len() {
        return 1 + body.len();
    }
    match device.state.answer_other(command, body) {
        Ok(kind) => write_with_body(kind.code(), body, out),
        Err(refusal) => count_of(refusal),
    }
}
