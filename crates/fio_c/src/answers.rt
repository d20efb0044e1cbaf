//! Answers, read into a struct of the caller.
ghost use Rattle.std.specs.Prelude.{◌≡◌};
ghost use Rattle.fio_message.specs.Decoding.{decoded_answer};
ghost use Rattle.fio_message.specs.Views.{answer_of};
ghost use Rattle.fio_flat.specs.Faults.{Reads};
ghost use Rattle.fio_c.specs.Flat.{answer_of_type, flat_answer};

use crate::faults::{NO_FAULT, fault_from};
use fio_flat::Fault;
use fio_message::{AnswerView, read_answer};

/// An answer of the module: the fields of its type, the others 0.
#[derive(Clone, Copy, PartialEq, Eq)]
#[repr(C)]
pub struct FlatAnswer {
    /// The type: 177 to 188 (TEES 2009).
    pub code: u8,
    /// Type 177: the flags that are left.
    pub flags: u8,
    /// Type 177: how many errors in receiving were counted.
    pub receive_errors: u8,
    /// Type 177: how many errors in transmitting were counted.
    pub transmit_errors: u8,
    /// Types 178, 179, 182 and 186: the status.
    pub status: u8,
    /// Type 182: the block number.
    pub block: u8,
    /// Type 182: how many entries there are. `fio2070_block_entries` copies them.
    pub count: u8,
    /// 0 in each octet that the library writes.
    pub reserved: [u8; 3],
    /// Types 183, 184, 185, 187 and 188: how many octets follow the type. They are not read
    /// further.
    pub body: u16,
    /// Types 177, 180, 181 and 182: the millisecond counter.
    pub stamp: u32,
    /// Types 180 and 181: bit i is input i.
    pub inputs: u64,
}

/// Returns an answer of this type with all its fields 0.
pub(crate) const fn answer_of_type(code: u8) -> FlatAnswer
    ensures { result ≡ answer_of_type code }
{
    FlatAnswer {
        code,
        flags: 0,
        receive_errors: 0,
        transmit_errors: 0,
        status: 0,
        block: 0,
        count: 0,
        reserved: [0; 3],
        body: 0,
        stamp: 0,
        inputs: 0,
    }
}

/// Returns an answer in its flat form.
fn flat_answer(answer: AnswerView<'_>) -> FlatAnswer
    ensures { result ≡ flat_answer (answer_of answer.entry) }
{
    let mut flat = answer_of_type(answer.code());
    match answer {
        AnswerView::Status {
            flags,
            receive_errors,
            transmit_errors,
            stamp,
        } => {
            flat.flags = flags;
            flat.receive_errors = receive_errors;
            flat.transmit_errors = transmit_errors;
            flat.stamp = stamp;
        }
        AnswerView::LoadCounter { status }
        | AnswerView::ConfigureInputs { status }
        | AnswerView::Watchdog { status } => flat.status = status,
        AnswerView::RawInputs { inputs, stamp } | AnswerView::FilteredInputs { inputs, stamp } => {
            flat.inputs = inputs;
            flat.stamp = stamp;
        }
        AnswerView::Block {
            block,
            entries,
            status,
            stamp,
        } => {
            flat.block = block;
            flat.count = entries.len() as u8;
            flat.status = status;
            flat.stamp = stamp;
        }
        AnswerView::Other { body, .. } => flat.body = body.len() as u16,
    }
    flat
}

/// Reads any answer. The entries of a block and the octets of a body are not copied. After a fault
/// `answer` is unchanged.
#[unsafe(no_mangle)]
pub extern "C" fn fio2070_decode_answer(octets: &[u8], answer: &mut FlatAnswer) -> Fault
    ensures { Reads flat_answer (decoded_answer octets.now) answer.old answer.new result }
{
    match read_answer(octets) {
        Ok(view) => {
            *answer = flat_answer(view);
            NO_FAULT
        }
        Err(error) => fault_from(error),
    }
}
