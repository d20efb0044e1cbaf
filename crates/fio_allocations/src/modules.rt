//! Modules that are made.
use crate::answers::CallOutcome;
use fio_message::{Frame, Memory};
use fio_module::{Limits, MOST_WAITING, Module};
use std::alloc::Global;

/// A module with an identification.
pub(crate) fn new(alloc: Global) -> CallOutcome {
    made(Module::new(alloc, 2))
}

/// Like `new`, with other limits.
pub(crate) fn with_limits(alloc: Global) -> CallOutcome {
    let Some(limits) = Limits::new(1, MOST_WAITING) else {
        return CallOutcome::Wrong;
    };
    made(Module::with_limits(alloc, 2, limits))
}

fn made(module: Result<Module, Memory>) -> CallOutcome {
    match module {
        Ok(mut module) => CallOutcome::right_if(is_answered(&mut module, &[0x3c], &[0xbc, 2])),
        Err(Memory) => CallOutcome::Refused(0),
    }
}

/// Octets, and the answers of a module whose inputs report each change; an empty answer is none.
const ANSWERS: [(&[u8], &[u8]); 12] = [
    (&[0x31, 0x80], &[0xb1, 0, 0, 0, 0, 0, 0, 0]),
    (&[0x32, 0, 0, 0, 5], &[0xb2, 0]),
    (
        &[0x34],
        &[0xb4, 255, 255, 255, 255, 255, 255, 255, 255, 0, 0, 0, 0],
    ),
    (
        &[0x35],
        &[0xb5, 255, 255, 255, 255, 255, 255, 255, 255, 0, 0, 0, 0],
    ),
    (&[0x36, 0], &[0xb6, 0, 0, 0, 0, 0, 0, 0]),
    (&[0x36, 0], &[0xb6, 0, 0, 2, 0, 0, 0, 0]),
    (
        &[0x37, 1, 1, 1, 1, 1, 1, 1, 1, 1, 1, 1, 1, 1, 1, 1, 1],
        &[0xb7, 0, 0, 0, 0, 0],
    ),
    (&[0x38], &[]),
    (&[0x3a, 5], &[0xba, 0]),
    (&[0x3b], &[]),
    (&[0x3c], &[0xbc, 2]),
    (&[0x30], &[]),
];

/// Every call that allocates nothing, on a module in which more entries come than may wait.
pub(crate) fn others(alloc: Global) -> Result<CallOutcome, Memory> {
    let mut module = Module::new(alloc, 2)?;
    Ok(CallOutcome::right_if(is_open(&mut module) && is_used(&mut module)))
}

/// The module takes the configuration.
fn is_open(module: &mut Module) -> bool {
    is_answered(module, &opens_all_inputs(), &[0xb3, 0])
}

/// The following calls are answered as they should be.
fn is_used(module: &mut Module) -> bool {
    answers_all(module)
        && overflows(module)
        && sends_a_block(module)
        && writes_a_block(module)
        && restarts(module)
}

/// Each of the octets above is answered as it should be.
fn answers_all(module: &mut Module) -> bool {
    for (octets, expected) in &ANSWERS {
        if !is_answered(module, octets, expected) {
            return false;
        }
    }
    true
}

/// Of 1,152 entries 1,024 wait, and the counter, which is to be loaded with 5, counts on from there.
fn overflows(module: &mut Module) -> bool {
    module.raise(1);
    module.line_sync();
    for _ in 0..9 {
        module.scan(0);
        module.scan(u64::MAX);
    }
    module.waiting() == 1024 && module.counter() == 23
}

/// A block takes 255 of the 1,024 entries that wait.
fn sends_a_block(module: &mut Module) -> bool {
    let is_sent = module
        .receive(&[0x36, 1])
        .is_some_and(|frame| frame.len() == 773);
    is_sent && module.waiting() == 769
}

/// The next block, which is written into a frame, takes 255 more.
fn writes_a_block(module: &mut Module) -> bool {
    let mut answer = Frame::new();
    let is_written = module.receive_into(&[0x36, 2], &mut answer);
    is_written && answer.len() == 773 && module.waiting() == 514
}

/// A restart leaves no entry, and sets the counter to 0.
fn restarts(module: &mut Module) -> bool {
    module.restart();
    module.waiting() == 0 && module.counter() == 0
}

/// The octets of a configuration: each input is open, and one sample changes its state.
fn opens_all_inputs() -> [u8; 194] {
    let mut octets = [1; 194];
    octets[0] = 0x33;
    octets[1] = 64;
    for (item, input) in octets[2..].chunks_exact_mut(3).zip(0..64) {
        item[0] = input;
    }
    octets
}

/// The module answers octets as expected, and not at all if nothing is expected.
fn is_answered(module: &mut Module, octets: &[u8], expected: &[u8]) -> bool {
    match module.receive(octets) {
        Some(frame) => frame.as_slice() == expected,
        None => expected.is_empty(),
    }
}
