//! The octets of worked examples, read and written again, and a block that is kept to be sent again. What the octets say is
//! in the texts of `tests/shows.py`, and in the structs of `tests/support/c`.
use crate::rows::{expect_row, expect_word};
use fio_message::*;
use std::alloc::{AllocError, Global};
use std::process::Abort;

const COMMANDS: [&[u8]; 13] = [
    &[0x31, 0x80],
    &[0x32, 0, 1, 0, 0],
    &[0x33, 0],
    &[0x33, 2, 0x0c, 5, 3, 0x83, 0, 0],
    &[0x34],
    &[0x35],
    &[0x36, 5],
    &[0x37, 0, 0, 0, 0, 0, 0, 0, 1, 0, 0, 0, 0, 0, 0, 0, 0],
    &[0x38],
    &[0x39, 1],
    &[0x3a, 0xc8],
    &[0x3b, 2, 3],
    &[0x3c],
];

const ANSWERS: [&[u8]; 17] = [
    &[0xb1, 0x80, 0, 1, 0, 0, 3, 0xe8],
    &[0xb2, 0],
    &[0xb3, 1],
    &[
        0xb4, 0xfe, 0xff, 0xff, 0xff, 0xff, 0xff, 0xff, 0xff, 0, 0, 0, 1,
    ],
    &[0xb5, 0, 0, 0, 0, 0, 0, 0, 0, 0, 0, 0, 5],
    &[0xb6, 5, 0, 0, 0, 0, 3, 0xe8],
    &[0xb6, 5, 1, 0x8c, 3, 0xe7, 0, 0, 0, 3, 0xe8],
    &[0xb7, 0, 0, 0, 0, 0],
    &[0xb8],
    &[0xb9, 1],
    &[0xba, 1],
    &[0xbb, 0xff],
    &[0xbc, 2],
    // Bits that have no name are kept.
    &[0xb2, 0xfe],
    &[0xb3, 0xff],
    &[0xba, 0xfe],
    &[0xb6, 0, 0, 0xf0, 0, 0, 0, 0],
];

/// A message with 255 parts between these octets. As items of a configuration they name each input twice, except 127, with
/// all filters; as entries of a block they have both states.
fn most_parts(alloc: Global, head: &[u8], ending: &[u8]) -> Result<Vec<u8>, AllocError> {
    let mut octets = Vec::from_slice(alloc, head)?;
    for turn in 0..255 {
        octets.extend_from_slice(&[turn, turn, 255 - turn])?;
    }
    octets.extend_from_slice(ending)?;
    Ok(octets)
}

/// Whether a command is written as octets, by each call, over another message too.
fn is_written_command(command: &Command, octets: &[u8], frame: &mut Frame) -> bool {
    write_command(command, frame);
    frame.as_slice() == octets && encode_command(command).as_slice() == octets
}

/// Whether the octets are a command that is written as they are, also if it was read in place.
fn is_command(octets: &[u8], frame: &mut Frame) -> bool {
    match (decode_command(octets), read_command(octets)) {
        (Ok(command), Ok(view)) => {
            is_written_command(&command, octets, frame)
                && is_written_command(&view.to_command(), octets, frame)
        }
        _ => false,
    }
}

/// Whether an answer is written as octets, by each call, over another message too.
fn is_written_answer(answer: &Answer, octets: &[u8], frame: &mut Frame) -> bool {
    write_answer(answer, frame);
    frame.as_slice() == octets && encode_answer(answer).as_slice() == octets
}

/// Whether the octets are an answer that is written as they are, also if it was read in place.
fn is_answer(octets: &[u8], frame: &mut Frame) -> bool {
    match (decode_answer(octets), read_answer(octets)) {
        (Ok(answer), Ok(view)) => {
            is_written_answer(&answer, octets, frame)
                && is_written_answer(&view.to_answer(), octets, frame)
        }
        _ => false,
    }
}

/// Fails the test at the first row that is no command. Each is written over the one before it.
fn expect_commands(rt: &impl Abort, frame: &mut Frame, rows: &[&[u8]]) {
    for octets in rows {
        expect_row(rt, octets, is_command(octets, frame));
    }
}

#[test]
fn commands(rt: HostRuntime) {
    let most = most_parts(rt.alloc(), &[0x33, 255], &[]).expect(&rt, "octets");
    let mut frame = Frame::new();
    expect_commands(&rt, &mut frame, &COMMANDS);
    expect_commands(&rt, &mut frame, &[most.as_slice()]);
}

/// Fails the test at the first row that is no answer. Each is written over the one before it.
fn expect_answers(rt: &impl Abort, frame: &mut Frame, rows: &[&[u8]]) {
    for octets in rows {
        expect_row(rt, octets, is_answer(octets, frame));
    }
}

#[test]
fn answers(rt: HostRuntime) {
    let most = most_parts(rt.alloc(), &[0xb6, 5, 255], &[8, 0, 0, 0, 255]).expect(&rt, "octets");
    let mut frame = Frame::new();
    expect_answers(&rt, &mut frame, &ANSWERS);
    expect_answers(&rt, &mut frame, &[most.as_slice()]);
}

/// Whether the kept block is copied as these octets.
fn is_copied(kept: &KeptBlock, octets: &[u8]) -> bool {
    let mut frame = Frame::new();
    kept.copy_to(&mut frame);
    frame.as_slice() == octets
}

/// Whether the kept block has this number, if any, and these octets.
fn keeps(kept: &KeptBlock, number: Option<u8>, octets: &[u8]) -> bool {
    kept.number() == number && kept.as_slice() == octets && is_copied(kept, octets)
}

/// Keeps block 5 with two entries.
fn keep_two(kept: &mut KeptBlock) {
    let status = BlockStatus::new(true, false, false, true);
    kept.write(
        5,
        &[[0x8c, 3, 0xe7]],
        &[[3, 3, 0xe8], [0, 0, 0]],
        2,
        status,
        1000,
    );
}

/// The block as it is first sent, and as it is sent again.
const SENT: [u8; 14] = [0xb6, 5, 2, 0x8c, 3, 0xe7, 3, 3, 0xe8, 9, 0, 0, 3, 0xe8];

const SENT_AGAIN: [u8; 14] = [0xb6, 5, 2, 0x8c, 3, 0xe7, 3, 3, 0xe8, 10, 0, 0, 3, 0xe8];

#[test]
fn kept_block_sent_again(rt: HostRuntime) {
    let mut kept = KeptBlock::new();
    kept.mark_again();
    expect_word(&rt, "none", keeps(&kept, None, &[]));
    keep_two(&mut kept);
    expect_word(&rt, "sent", keeps(&kept, Some(5), &SENT));
    kept.mark_again();
    expect_word(&rt, "sent again", keeps(&kept, Some(5), &SENT_AGAIN));
}
