//! Judging a transcript in one pass over its text: the verdict, and the record of its CPU. No line is kept.
ghost use Rattle.std.specs.Prelude.{◌≡◌, ◌≢◌, ℕ, Bool, List, true, false, None, Ok, Err, IfOk, IfErr, IfSome, IfNone, OnOk};
ghost use Rattle.fio_message.specs.Decoding.{answer_in, command_in};
ghost use Rattle.fio_check.specs.Lines.{TranscriptLine};
ghost use Rattle.fio_check.specs.Observations.{observation_in};
ghost use Rattle.fio_tool.specs.Check.{is_good};
ghost use Rattle.fio_tool.specs.Judging.{IsJudged};
ghost use Rattle.fio_tool.specs.Recordings.{IsRecordingOf, RecordsLine};
ghost use Rattle.fio_tool.specs.Transcript.{IsReadFrame, SpellsSame, frame_in, transcript_from_command, verdict_from_command, verdict_in};

use super::judging::Judging;
use super::lines::{TraceError, frame_word};
use super::recording::Recording;
use fio_check::{Observation, Verdict};
use fio_message::{FRAME_OCTETS, Memory, read_answer, read_command};
use fio_text::{BadLine, numbered_lines, read_octets_to};
use std::alloc::Global;

/// Returns the verdict on the transcript that a text is: that of `check_trace` on the lines of `read_trace`.
///
/// # Errors
/// `BadLine` for the first line that is not a frame, even if a line before it breaks a rule.
pub(crate) fn judge_lines(text: &[u8]) -> Result<Verdict, BadLine>
    ensures ok { IfOk result (λ verdict. verdict_in text.now ≡ Ok verdict) }
    ensures err { IfErr result (λ fault. verdict_in text.now ≡ Err (TraceError.BadLine fault.line)) }
{
    let mut room = [0; FRAME_OCTETS];
    let mut judging = Judging::new();
    let mut frames = 0;
    'lines: for (number, line) in numbered_lines(text, 1) {
        let Some((from_cpu, count)) = read_frame(line, &mut room) else {
            return Err(BadLine { line: number });
        };
        let observation = observe(from_cpu, octets_of(count, &room));
        judging.add(number, observation);
        frames += 1;
    }
    Ok(judging.breach.unwrap_or(Verdict::Good { frames }))
}

/// Returns the verdict, as `judge_lines` does, and if no line breaks a rule, the record of the transcript's CPU. What is heard
/// above the first command is skipped.
///
/// # Errors
/// `BadLine` as for `judge_lines`; `Memory` if the record could not grow.
pub(crate) fn record_lines(alloc: Global, text: &[u8]) -> Result<(Verdict, Recording), TraceError>
    ensures verdict { IfOk result (λ judged. verdict_from_command text.now ≡ Ok judged.0) }
    ensures recording { (lines : List TranscriptLine) → transcript_from_command text.now ≡ Ok lines
        → IfOk result (λ judged. is_good judged.0 ≡ true → IsRecordingOf lines judged.1) }
    ensures err { IfErr result (λ fault. fault ≢ TraceError.Memory
        → verdict_from_command text.now ≡ Err fault) }
{
    let mut room = [0; FRAME_OCTETS];
    let mut judging = Judging::new();
    let mut recording = Recording::new();
    let mut begun = false;
    let mut frames = 0;
    'lines: for (number, line) in numbered_lines(text, 1) {
        let Some((from_cpu, count)) = read_frame(line, &mut room) else {
            return Err(TraceError::BadLine { line: number });
        };
        if !begun && !from_cpu {
            continue;
        }
        begun = true;
        let octets = octets_of(count, &room);
        record_frame(
            alloc,
            &mut judging,
            &mut recording,
            number,
            from_cpu,
            octets,
        )?;
        frames += 1;
    }
    Ok((
        judging.breach.unwrap_or(Verdict::Good { frames }),
        recording,
    ))
}

/// Reads the octets of a line's frame into room for the longest frame. Returns whether the CPU sent it, and how many octets
/// it has; `None` if the line is not a frame.
#[tactic(auto, using(crate::proofs::LongFrames::frame_read))]
fn read_frame(line: &[u8], room: &mut [u8; FRAME_OCTETS]) -> Option<(bool, usize)>
    ensures none { IfNone result (frame_in line.now ≡ None) }
    ensures some { IfSome result (λ read. IsReadFrame line.now read.0 read.1 room.new) }
{
    let (from_cpu, word) = frame_word(line)?;
    let count = read_octets_to(word, room)?;
    Some((from_cpu, count))
}

/// Returns the octets of a frame that is in the room, or none if the frame is longer: neither encodes a message.
fn octets_of(count: usize, room: &[u8; FRAME_OCTETS]) -> &[u8]
    ensures { (line : List ℕ) (from_cpu : Bool) (frame : IsReadFrame line from_cpu count room.now)
        → SpellsSame result.now frame.octets }
{
    if count > room.len() {
        return &[];
    }
    &room[..count]
}

/// Returns what a frame says to the rules. It is not inlined: in the loop over the lines, the loop over a block's entries
/// would have too few registers.
#[inline(never)]
fn observe(from_cpu: bool, octets: &[u8]) -> Observation
    ensures { result ≡ observation_in from_cpu octets.now }
{
    Observation::of(from_cpu, octets)
}

/// Adds the frame of a line with this number, which is read once. It is recorded as long as no line breaks a rule.
///
/// # Errors
/// `Memory` if the record could not grow.
#[inline(never)]
fn record_frame(
    alloc: Global,
    judging: &mut Judging,
    recording: &mut Recording,
    number: usize,
    from_cpu: bool,
    octets: &[u8],
) -> Result<(), Memory>
    ensures judged { OnOk result
        (IsJudged judging.old number (observation_in from_cpu octets.now) judging.new) }
    ensures recorded { (line : TranscriptLine) → line.number ≡ number → line.from_cpu ≡ from_cpu
        → command_in line.octets ≡ command_in octets.now → answer_in line.octets ≡ answer_in octets.now
        → OnOk result (judging.new.breach ≡ None → RecordsLine recording.old line recording.new) }
{
    if from_cpu {
        record_sent(alloc, judging, recording, number, octets);
        return Ok(());
    }
    record_heard(judging, recording, number, octets)
}

#[tactic(auto, using(crate::proofs::RecordedLines::unreadable_breaks))]
fn record_sent(
    alloc: Global,
    judging: &mut Judging,
    recording: &mut Recording,
    number: usize,
    octets: &[u8],
)
    ensures judged { IsJudged judging.old number (observation_in true octets.now) judging.new }
    ensures recorded { (line : TranscriptLine) → line.from_cpu ≡ true
        → command_in line.octets ≡ command_in octets.now
        → judging.new.breach ≡ None → RecordsLine recording.old line recording.new }
{
    match read_command(octets) {
        Ok(command) => {
            judging.add(number, Observation::of_command(&command));
            if judging.breach.is_none() {
                recording.send(alloc, &command);
            }
        }
        Err(_) => judging.add(number, Observation::Unreadable),
    }
}

#[tactic(auto, using(crate::proofs::RecordedLines::unreadable_breaks))]
fn record_heard(
    judging: &mut Judging,
    recording: &mut Recording,
    number: usize,
    octets: &[u8],
) -> Result<(), Memory>
    ensures judged { OnOk result
        (IsJudged judging.old number (observation_in false octets.now) judging.new) }
    ensures recorded { (line : TranscriptLine) → line.number ≡ number → line.from_cpu ≡ false
        → answer_in line.octets ≡ answer_in octets.now
        → OnOk result (judging.new.breach ≡ None → RecordsLine recording.old line recording.new) }
{
    match read_answer(octets) {
        Ok(answer) => {
            judging.add(number, Observation::of_answer(&answer));
            if judging.breach.is_none() {
                recording.hear(number, &answer)?;
            }
        }
        Err(_) => judging.add(number, Observation::Unreadable),
    }
    Ok(())
}
