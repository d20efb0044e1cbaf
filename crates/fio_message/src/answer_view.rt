//! An answer read in place: its entries and its body stay in the octets.
ghost use Rattle.std.specs.Prelude.{◌≡◌, ◌≤◌, ◌+◌, ◌∷◌, ◌↔◌, length, Some, Ok, Err, MatchResult};
ghost use Rattle.fio_message.specs.Answers.{SpellsAnswer, answer_code, answer_length, block_fields_length};
ghost use Rattle.fio_message.specs.Reading.{answer_at, block_at};
ghost use Rattle.fio_message.specs.Refusals.{Refuses};
ghost use Rattle.fio_message.specs.Decoding.{decoded_answer};
ghost use Rattle.fio_message.specs.Views.{answer_of, answer_read};
ghost use Rattle.fio_message.specs.declared.answers.Answer.{Answer};
ghost use Rattle.fio_message.specs.declared.faults.DecodeError.{DecodeError};
ghost use Rattle.fio_message.specs.declared.limits.TheConstants.{BODY_OCTETS};

use crate::answers::{Answer, OtherAnswer};
use crate::blocks::BlockView;
use crate::body::BodyView;
use crate::decoding::{answer_length, code_and_fields};
use crate::faults::DecodeError;
use crate::inputs::inputs_from_octets;
use crate::limits::BODY_OCTETS;
use crate::parts::EntriesView;
use crate::reading::{eight_at, u32_of};
use crate::types::{
    BLOCK_ANSWER, COMPLEX_OUTPUTS_ANSWER, CONFIGURE_INPUTS_ANSWER, CONTROLLER_ID_ANSWER,
    FILTERED_INPUTS_ANSWER, IDENTIFY_ANSWER, LOAD_COUNTER_ANSWER, RAW_INPUTS_ANSWER,
    SET_OUTPUTS_ANSWER, STATUS_ANSWER, TRACK_INPUTS_ANSWER, WATCHDOG_ANSWER,
};

/// An answer whose entries and body stay in the octets that it was read from. `Answer` documents the fields.
#[derive(Clone, Copy, Debug)]
pub enum AnswerView<'a> {
    /// Type 177.
    Status {
        /// The flags that remain set.
        flags: u8,
        /// How many errors in receiving were counted.
        receive_errors: u8,
        /// How many errors in transmitting were counted.
        transmit_errors: u8,
        /// The millisecond counter.
        stamp: u32,
    },
    /// Type 178.
    LoadCounter {
        /// Bit 0 is S.
        status: u8,
    },
    /// Type 179.
    ConfigureInputs {
        /// Bit 0 is S.
        status: u8,
    },
    /// Type 180.
    RawInputs {
        /// Bit i is input i.
        inputs: u64,
        /// The millisecond counter.
        stamp: u32,
    },
    /// Type 181.
    FilteredInputs {
        /// Bit i is input i.
        inputs: u64,
        /// The millisecond counter.
        stamp: u32,
    },
    /// Type 182.
    Block {
        /// The block number of the poll.
        block: u8,
        /// The transitions in the order in which they happened.
        entries: EntriesView<'a>,
        /// Bits 3 to 0 are C, F, E and G.
        status: u8,
        /// The millisecond counter when the block was made.
        stamp: u32,
    },
    /// Type 186.
    Watchdog {
        /// Bit 0 is Y.
        status: u8,
    },
    /// Types 183, 184, 185, 187 and 188.
    Other {
        /// The type.
        kind: OtherAnswer,
        /// The octets after the type.
        body: BodyView<'a>,
    },
}

impl AnswerView<'_> {
    /// Returns the type of the message, its first octet: 177 to 188.
    pub fn code(&self) -> u8
        ensures { result ≡ answer_code (answer_of self.now) }
    {
        match *self {
            AnswerView::Status { .. } => STATUS_ANSWER,
            AnswerView::LoadCounter { .. } => LOAD_COUNTER_ANSWER,
            AnswerView::ConfigureInputs { .. } => CONFIGURE_INPUTS_ANSWER,
            AnswerView::RawInputs { .. } => RAW_INPUTS_ANSWER,
            AnswerView::FilteredInputs { .. } => FILTERED_INPUTS_ANSWER,
            AnswerView::Block { .. } => BLOCK_ANSWER,
            AnswerView::Watchdog { .. } => WATCHDOG_ANSWER,
            AnswerView::Other { kind, .. } => kind.code(),
        }
    }

    /// Returns the answer, with its entries and its body copied: about a kilobyte.
    #[inline(always)]
    pub fn to_answer(&self) -> Answer
        ensures { result ≡ answer_of self.now }
    {
        match *self {
            AnswerView::Status {
                flags,
                receive_errors,
                transmit_errors,
                stamp,
            } => Answer::Status {
                flags,
                receive_errors,
                transmit_errors,
                stamp,
            },
            AnswerView::LoadCounter { status } => Answer::LoadCounter { status },
            AnswerView::ConfigureInputs { status } => Answer::ConfigureInputs { status },
            AnswerView::RawInputs { inputs, stamp } => Answer::RawInputs { inputs, stamp },
            AnswerView::FilteredInputs { inputs, stamp } => {
                Answer::FilteredInputs { inputs, stamp }
            }
            AnswerView::Block {
                block,
                entries,
                status,
                stamp,
            } => Answer::Block {
                block,
                entries: entries.to_array(),
                status,
                stamp,
            },
            AnswerView::Watchdog { status } => Answer::Watchdog { status },
            AnswerView::Other { kind, body } => Answer::Other {
                kind,
                body: body.to_body(),
            },
        }
    }
}

/// Returns the answer with this type and these octets after it, which have the length that it needs.
#[inline(always)]
fn view_of(code: u8, fields: &[u8]) -> AnswerView<'_>
    requires frame { length fields.now ≤ BODY_OCTETS }
    requires needs { answer_length (code ∷ fields.now) ≡ Some (length fields.now + 1) }
    ensures { answer_of result ≡ answer_at code fields.now }
{
    match code {
        STATUS_ANSWER => AnswerView::Status {
            flags: fields[0],
            receive_errors: fields[1],
            transmit_errors: fields[2],
            stamp: u32_of(&fields[3..]),
        },
        LOAD_COUNTER_ANSWER => AnswerView::LoadCounter { status: fields[0] },
        CONFIGURE_INPUTS_ANSWER => AnswerView::ConfigureInputs { status: fields[0] },
        RAW_INPUTS_ANSWER => AnswerView::RawInputs {
            inputs: inputs_from_octets(eight_at(fields)),
            stamp: u32_of(&fields[8..]),
        },
        FILTERED_INPUTS_ANSWER => AnswerView::FilteredInputs {
            inputs: inputs_from_octets(eight_at(fields)),
            stamp: u32_of(&fields[8..]),
        },
        BLOCK_ANSWER => block(fields),
        SET_OUTPUTS_ANSWER => other(OtherAnswer::SetOutputs, fields),
        TRACK_INPUTS_ANSWER => other(OtherAnswer::TrackInputs, fields),
        COMPLEX_OUTPUTS_ANSWER => other(OtherAnswer::ComplexOutputs, fields),
        WATCHDOG_ANSWER => AnswerView::Watchdog { status: fields[0] },
        CONTROLLER_ID_ANSWER => other(OtherAnswer::ControllerId, fields),
        IDENTIFY_ANSWER => other(OtherAnswer::Identify, fields),
        _ => unreachable!(),
    }
}

/// Returns the block answer with these octets after the type.
#[inline(always)]
fn block(fields: &[u8]) -> AnswerView<'_>
    requires frame { length fields.now ≤ BODY_OCTETS }
    requires needs { block_fields_length fields.now ≡ length fields.now + 1 }
    ensures { answer_of result ≡ block_at fields.now }
{
    let block = BlockView::of_fields(fields);
    AnswerView::Block {
        block: block.block(),
        entries: block.entries_view(),
        status: block.status(),
        stamp: block.stamp(),
    }
}

/// Returns an answer that has only a body.
#[inline(always)]
fn other(kind: OtherAnswer, fields: &[u8]) -> AnswerView<'_>
    requires { length fields.now ≤ BODY_OCTETS }
    ensures { answer_of result ≡ Answer.Other kind (record { items = fields.now }) }
{
    AnswerView::Other {
        kind,
        body: BodyView::of_octets(fields),
    }
}

/// Returns the answer that the octets spell, of types 177 to 188, read in place: only its numbers are copied.
///
/// # Errors
/// The first that applies: `Empty`; `TooLong` over 773 octets; `UnknownType` for any other first octet; `WrongLength` if the
/// type and the count need another length. Bits that have no name are kept as they come and never refused (own profile).
#[inline(always)]
pub fn read_answer(octets: &[u8]) -> Result<AnswerView<'_>, DecodeError>
    ensures accepted { (answer : Answer)
        → (answer_read result ≡ Ok answer) ↔ SpellsAnswer answer octets.now }
    ensures refused { (fault : DecodeError)
        → (result ≡ Err fault) ↔ Refuses (answer_length octets.now) octets.now fault }
    ensures exact { MatchResult result
        (λ view. decoded_answer octets.now ≡ Ok (answer_of view))
        (λ fault. decoded_answer octets.now ≡ Err fault) }
{
    let (code, fields) = code_and_fields(octets, answer_length(octets))?;
    Ok(view_of(code, fields))
}
