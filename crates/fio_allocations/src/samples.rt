//! Scripts with their ends and a report, and transcripts.
use fio_message::DecodeError;
use fio_world::ScriptError;

/// A script that is run.
#[derive(Clone, Copy)]
pub(crate) enum Sample {
    /// The answer to a poll is lost, the next one comes twice, and the block number goes from 255 to 0.
    LostAnswer,
    /// Blocks of one entry.
    OneEntry,
    /// Nine rounds, each with a transition, so that the frames and the record grow more than once.
    NineRounds,
}

impl Sample {
    /// The text of the script.
    pub(crate) fn script(self) -> &'static [u8] {
        match self {
            Sample::LostAnswer => LOST_ANSWER,
            Sample::OneEntry => ONE_ENTRY,
            Sample::NineRounds => NINE_ROUNDS,
        }
    }

    /// The figures of both ends when the script is done: the frames sent to the module and to the CPU, the numbers delivered
    /// last to each, the items of the record, the CPU's block number, the module's counter, and the waiting entries.
    pub(crate) fn end(self) -> [usize; 8] {
        match self {
            Sample::LostAnswer => [4, 4, 4, 4, 2, 1, 2, 0],
            Sample::OneEntry => [3, 3, 3, 3, 2, 2, 1, 0],
            Sample::NineRounds => [10, 10, 10, 10, 9, 9, 9, 0],
        }
    }
}

/// The script of that name.
pub(crate) const LOST_ANSWER: &[u8] = b"fio2070 script 1 2 255\n\
    send 3301000101\n\
    to-module 1\n\
    scan feffffffffffffff\n\
    poll\n\
    to-module 2\n\
    scan ffffffffffffffff\n\
    poll\n\
    to-module 3\n\
    to-cpu 3\n\
    to-cpu 3\n\
    poll\n\
    to-module 4\n\
    to-cpu 4\n";

const ONE_ENTRY: &[u8] = b"fio2070 script 3 2 0 1 1024\n\
    send 33020001010c0101\n\
    to-module 1\n\
    scan feefffffffffffff\n\
    poll\n\
    to-module 2\n\
    to-cpu 2\n\
    poll\n\
    to-module 3\n\
    to-cpu 3\n";

const NINE_ROUNDS: &[u8] = b"fio2070 script 1 2 0\nsend 3301000101\nto-module 1\n\
    scan feffffffffffffff\npoll\nto-module 2\nto-cpu 2\n\
    scan ffffffffffffffff\npoll\nto-module 3\nto-cpu 3\n\
    scan feffffffffffffff\npoll\nto-module 4\nto-cpu 4\n\
    scan ffffffffffffffff\npoll\nto-module 5\nto-cpu 5\n\
    scan feffffffffffffff\npoll\nto-module 6\nto-cpu 6\n\
    scan ffffffffffffffff\npoll\nto-module 7\nto-cpu 7\n\
    scan feffffffffffffff\npoll\nto-module 8\nto-cpu 8\n\
    scan ffffffffffffffff\npoll\nto-module 9\nto-cpu 9\n\
    scan feffffffffffffff\npoll\nto-module 10\nto-cpu 10\n";

/// The report of `LOST_ANSWER`.
pub(crate) const LOST_ANSWER_REPORT: &[u8] = b"1 sent 1 3301000101\n\
    2 sent 1 b300\n\
    3 quiet\n\
    4 sent 2 36ff\n\
    5 sent 2 b6ff010000010000000001\n\
    6 quiet\n\
    7 sent 3 36ff\n\
    8 sent 3 b6ff010000010200000001\n\
    9 block entries 1 status 02\n\
    10 stale 255\n\
    11 sent 4 3600\n\
    12 sent 4 b600018000020000000002\n\
    13 block entries 1 status 00\n\
    counter 2\n\
    number 1\n\
    waiting 0\n\
    record 2\n\
    input 0 state 0 stamp 1 wide 1\n\
    input 0 state 1 stamp 2 wide 2\n";

/// A transcript of five frames that keeps the rules.
pub(crate) const TRANSCRIPT: &[u8] = b"> 3605\n\
    < b605018c03e700000003e8\n\
    > 3606\n\
    > 3606\n\
    < b6060002000003e9\n";

/// Scripts whose second line is faulty, and its fault.
pub(crate) const FAULTY_SCRIPTS: [(&[u8], ScriptError); 5] = [
    (
        b"fio2070 script 1 2 0\nsend zz\n",
        ScriptError::BadLine { line: 2 },
    ),
    (
        b"fio2070 script 1 2 0\nsend 333\n",
        ScriptError::BadLine { line: 2 },
    ),
    (
        b"fio2070 script 1 2 0\nsend 33\n",
        ScriptError::BadFrame {
            line: 2,
            fault: DecodeError::WrongLength { needed: 2, got: 1 },
        },
    ),
    (
        b"fio2070 script 1 2 0\nsend b300\n",
        ScriptError::BadFrame {
            line: 2,
            fault: DecodeError::UnknownType { code: 179 },
        },
    ),
    (
        b"fio2070 script 1 2 0\nscan zz\n",
        ScriptError::BadLine { line: 2 },
    ),
];

/// Transcripts whose first line is no frame.
pub(crate) const FAULTY_TRANSCRIPTS: [&[u8]; 4] = [b"> zz", b"< 360", b"> 3605zz\n", b"? 3605\n"];
