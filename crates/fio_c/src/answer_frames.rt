//! Answers, written into a buffer of the caller.
ghost use Rattle.std.specs.Prelude.{◌≡◌, ◌<◌, ◌≤◌, ◌+◌, ◌*◌, ℕ, List, length, Some, None, true, false};
ghost use Rattle.std.specs.List.{flat_map, list_all};
ghost use Rattle.fio_message.specs.declared.fields.TheConstants.{INPUT_NUMBERS};
ghost use Rattle.fio_message.specs.Answers.{answer_octets};
ghost use Rattle.fio_message.specs.Octets.{entry_octets};
ghost use Rattle.fio_message.specs.declared.answers.Answer.{Answer as AnyAnswer};
ghost use Rattle.fio_message.specs.declared.answers.Answer.TheVariants as answers;
ghost use Rattle.fio_c.specs.Flat.{are_entries, can_be_named, read_entry, read_entries};
ghost use Rattle.fio_c.specs.Given.{IsAnswerGiven, answer_by_type, fixed_answer};
ghost use Rattle.fio_flat.specs.Written.{Writes, WritesNoMessage, buffer_with};

use crate::answers::{FlatAnswer, answer_of_type};
use crate::blocks::FlatEntry;
use crate::parts::{FlatPart, are_parts, write_with_parts};
use crate::written::{write_front, write_with_body};
use fio_flat::NO_MESSAGE;
use fio_message::types::{
    BLOCK_ANSWER, CONFIGURE_INPUTS_ANSWER, FILTERED_INPUTS_ANSWER, LOAD_COUNTER_ANSWER,
    RAW_INPUTS_ANSWER, STATUS_ANSWER, WATCHDOG_ANSWER,
};
use fio_message::{
    Answer, BLOCK_ENTRIES, InputNumber, OtherAnswer, before_entries, encode_answer,
    status_and_stamp,
};

/// Writes an answer from what the decoder and its calls give of it: the struct, the entries of a block, and the octets after
/// the type of an answer that has only a body. Returns how many octets it has; without room for them nothing is written. If
/// no answer has all of this, the result is `NO_MESSAGE`: also if a field that the type does not have is not 0, an entry names
/// an input above 127, or a body has more than 772 octets.
#[unsafe(no_mangle)]
pub extern "C" fn fio2070_encode_answer(
    answer: &FlatAnswer,
    entries: &[FlatEntry],
    body: &[u8],
    out: &mut [u8],
) -> usize
    ensures written { (message : AnyAnswer) → IsAnswerGiven answer.now entries.now body.now message
        → Writes (answer_octets message) out.old out.new result }
    ensures refused { ((message : AnyAnswer) → IsAnswerGiven answer.now entries.now body.now message → ⊥)
        → WritesNoMessage out.old out.new result }
{
    if !is_whole(answer, entries.len(), body.len()) {
        return NO_MESSAGE;
    }
    if answer.code == BLOCK_ANSWER {
        return write_block(answer, entries, out);
    }
    match OtherAnswer::of_type(answer.code) {
        Some(kind) => write_with_body(kind.code(), body, out),
        None => write_fixed(answer, out),
    }
}

/// Returns whether a struct counts so many entries and so many octets of a body, and the fields that its type does not have
/// are 0.
fn is_whole(answer: &FlatAnswer, entries: usize, body: usize) -> bool
    ensures whole { result ≡ true
        → (answer.now.count ≡ entries) × (answer.now.body ≡ body) × (answer.now ≡ answer_by_type answer.now) }
    ensures other { answer.now.count ≡ entries → answer.now.body ≡ body → answer.now ≡ answer_by_type answer.now
        → result ≡ true }
{
    usize::from(answer.count) == entries
        && usize::from(answer.body) == body
        && *answer == by_type(answer)
}

/// Returns the answer with the fields of its type alone.
fn by_type(answer: &FlatAnswer) -> FlatAnswer
    ensures { result ≡ answer_by_type answer.now }
{
    let mut kept = answer_of_type(answer.code);
    match answer.code {
        STATUS_ANSWER => {
            kept.flags = answer.flags;
            kept.receive_errors = answer.receive_errors;
            kept.transmit_errors = answer.transmit_errors;
            kept.stamp = answer.stamp;
        }
        LOAD_COUNTER_ANSWER | CONFIGURE_INPUTS_ANSWER | WATCHDOG_ANSWER => {
            kept.status = answer.status;
        }
        RAW_INPUTS_ANSWER | FILTERED_INPUTS_ANSWER => {
            kept.inputs = answer.inputs;
            kept.stamp = answer.stamp;
        }
        BLOCK_ANSWER => {
            kept.block = answer.block;
            kept.count = answer.count;
            kept.status = answer.status;
            kept.stamp = answer.stamp;
        }
        _ => kept.body = answer.body,
    }
    kept
}

/// Writes the block with these entries that has the fields of a struct, if a message can have them.
fn write_block(answer: &FlatAnswer, entries: &[FlatEntry], out: &mut [u8]) -> usize
    ensures written { are_entries entries.now ≡ true
        → Writes (answer_octets
        (answers.Block answer.now.block (record { items = read_entries entries.now }) answer.now.status answer.now.stamp))
        out.old out.new result }
    ensures refused { are_entries entries.now ≡ false → WritesNoMessage out.old out.new result }
{
    if !are_parts(entries, BLOCK_ENTRIES) {
        return NO_MESSAGE;
    }
    let before = before_entries(answer.block, entries.len() as u8);
    let after = status_and_stamp(answer.status, answer.stamp);
    write_with_parts(&before, entries, &after, out)
}

/// Writes the answer without entries and body that has the type and the fields of a struct, if there is one.
fn write_fixed(answer: &FlatAnswer, out: &mut [u8]) -> usize
    ensures written { (message : AnyAnswer) → fixed_answer answer.now ≡ Some message
        → Writes (answer_octets message) out.old out.new result }
    ensures refused { fixed_answer answer.now ≡ None → WritesNoMessage out.old out.new result }
{
    match fixed(answer) {
        Some(fixed) => write_front(encode_answer(&fixed).as_slice(), out),
        None => NO_MESSAGE,
    }
}

/// Returns that answer.
fn fixed(answer: &FlatAnswer) -> Option<Answer>
    ensures { result ≡ fixed_answer answer.now }
{
    let FlatAnswer {
        status,
        inputs,
        stamp,
        ..
    } = *answer;
    match answer.code {
        STATUS_ANSWER => Some(Answer::Status {
            flags: answer.flags,
            receive_errors: answer.receive_errors,
            transmit_errors: answer.transmit_errors,
            stamp,
        }),
        LOAD_COUNTER_ANSWER => Some(Answer::LoadCounter { status }),
        CONFIGURE_INPUTS_ANSWER => Some(Answer::ConfigureInputs { status }),
        RAW_INPUTS_ANSWER => Some(Answer::RawInputs { inputs, stamp }),
        FILTERED_INPUTS_ANSWER => Some(Answer::FilteredInputs { inputs, stamp }),
        WATCHDOG_ANSWER => Some(Answer::Watchdog { status }),
        _ => None,
    }
}

impl FlatPart for FlatEntry {
    ghost use Rattle.std.proofs.Common.{refl};

    ghost named = { λ entry. entry.input };

    ghost spelled = { λ entry. entry_octets (read_entry entry) };

    ghost three = { λ entry. refl };

    fn input(&self) -> u8 {
        self.input
    }

    fn octets(&self) -> [u8; 3] {
        match InputNumber::new(self.input) {
            Some(input) => fio_message::Entry {
                input,
                level: self.state != 0,
                stamp: self.stamp,
            }
            .octets(),
            None => unreachable!(),
        }
    }
}
