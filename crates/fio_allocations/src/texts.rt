//! Texts that are read and written.
use crate::answers::CallOutcome;
use crate::samples::{
    FAULTY_SCRIPTS, FAULTY_TRANSCRIPTS, LOST_ANSWER, LOST_ANSWER_REPORT, TRANSCRIPT,
};
use fio_message::{DecodeError, Memory};
use fio_text::read_octets;
use fio_tool::{TraceError, Verdict, check_trace, read_trace};
use fio_world::{Report, Script, ScriptError, push_fault, read_script, report, report_text};
use std::alloc::Global;

/// The text of a refusal at the end of a text, or the text as it was.
pub(crate) fn push_words(alloc: Global) -> Result<CallOutcome, Memory> {
    Ok(push(&mut Vec::from_slice(alloc, b"abc")?))
}

fn push(text: &mut Vec<u8>) -> CallOutcome {
    let fault = DecodeError::WrongLength {
        needed: 14,
        got: 11,
    };
    match push_fault(text, &fault) {
        Ok(()) => {
            CallOutcome::right_if(text.as_slice() == b"abcwrong length needed 14 got 11".as_slice())
        }
        Err(Memory) => CallOutcome::refused_if(text.as_slice() == b"abc".as_slice()),
    }
}

/// The octets of a word.
pub(crate) fn octets(alloc: Global) -> CallOutcome {
    match read_octets(alloc, b"3605") {
        Ok(Some(octets)) => CallOutcome::right_if(octets.as_slice() == [0x36, 5].as_slice()),
        Ok(None) => CallOutcome::Wrong,
        Err(Memory) => CallOutcome::Refused(0),
    }
}

/// A script with 13 events.
pub(crate) fn script(alloc: Global) -> CallOutcome {
    match read_script(alloc, LOST_ANSWER) {
        Ok(script) => CallOutcome::right_if(script.events.len() == 13),
        Err(fault) => CallOutcome::refused_if(fault == ScriptError::Memory),
    }
}

/// The report of that script.
pub(crate) fn reported(alloc: Global) -> Result<CallOutcome, Memory> {
    match read_script(alloc, LOST_ANSWER) {
        Ok(script) => Ok(reported_of(alloc, &script)),
        Err(_) => Err(Memory),
    }
}

/// The report is that of the script.
fn is_of_the_lost_answer(report: &Report) -> bool {
    report.good && report.text.as_slice() == LOST_ANSWER_REPORT
}

fn reported_of(alloc: Global, script: &Script) -> CallOutcome {
    match report(alloc, script) {
        Ok(report) => CallOutcome::right_if(is_of_the_lost_answer(&report)),
        Err(Memory) => CallOutcome::Refused(0),
    }
}

/// The same report from the text of the script.
pub(crate) fn reported_text(alloc: Global) -> CallOutcome {
    match report_text(alloc, LOST_ANSWER) {
        Ok(report) => CallOutcome::right_if(is_of_the_lost_answer(&report)),
        Err(fault) => CallOutcome::refused_if(fault == ScriptError::Memory),
    }
}

/// A transcript of five frames.
pub(crate) fn transcript(alloc: Global) -> CallOutcome {
    match read_trace(alloc, TRANSCRIPT) {
        Ok(lines) => CallOutcome::right_if(lines.len() == 5),
        Err(fault) => CallOutcome::refused_if(fault == TraceError::Memory),
    }
}

/// The lines of that transcript, checked.
pub(crate) fn verdict(alloc: Global) -> Result<CallOutcome, Memory> {
    let Ok(lines) = read_trace(alloc, TRANSCRIPT) else {
        return Err(Memory);
    };
    let is_expected = check_trace(lines.as_slice()) == Verdict::Good { frames: 5 };
    Ok(CallOutcome::right_if(is_expected))
}

/// Scripts whose first event has a fault. No line before it allocates, so its fault is the answer.
pub(crate) fn faulty_scripts(alloc: Global) -> CallOutcome {
    have_faults(alloc, &FAULTY_SCRIPTS)
}

fn have_faults(alloc: Global, rows: &[(&[u8], ScriptError)]) -> CallOutcome {
    for (text, fault) in rows {
        match read_script(alloc, text) {
            Err(ScriptError::Memory) => return CallOutcome::Refused(0),
            Err(found) if found == *fault => (),
            _ => return CallOutcome::Wrong,
        }
    }
    CallOutcome::Right
}

/// The fault of a line after a good one, which allocated.
pub(crate) fn script_with_a_fault(alloc: Global) -> CallOutcome {
    match read_script(alloc, b"fio2070 script 1 2 0\npoll\nsend zz\n") {
        Err(ScriptError::Memory) => CallOutcome::Refused(0),
        Err(fault) => CallOutcome::right_if(fault == ScriptError::BadLine { line: 3 }),
        Ok(_) => CallOutcome::Wrong,
    }
}

/// Transcripts whose first line is no frame.
pub(crate) fn faulty_transcripts(alloc: Global) -> CallOutcome {
    for text in FAULTY_TRANSCRIPTS {
        match read_trace(alloc, text) {
            Err(TraceError::Memory) => return CallOutcome::Refused(0),
            Err(TraceError::BadLine { line: 1 }) => (),
            _ => return CallOutcome::Wrong,
        }
    }
    CallOutcome::Right
}

/// A line that is no frame, after one that is, which allocated.
pub(crate) fn transcript_with_a_fault(alloc: Global) -> CallOutcome {
    match read_trace(alloc, b"> 3605\n< zz\n") {
        Err(TraceError::Memory) => CallOutcome::Refused(0),
        Err(fault) => CallOutcome::right_if(fault == TraceError::BadLine { line: 2 }),
        Ok(_) => CallOutcome::Wrong,
    }
}
