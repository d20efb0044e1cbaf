//! The judge of a log, over all that a batch of the reader of logs says.
ghost use Rattle.std.specs.Prelude.{◌≡◌, ◌==◌, ◌++◌, ◌≤◌, List, Some, None, drop, fold, length, min, not};
ghost use Rattle.std.specs.List.{sum_by};
ghost use Rattle.fio_check.specs.LogJudges.{log_judging};
ghost use Rattle.fio_c.specs.BatchItems.{frame_count, items_of_content, items_of_told};
ghost use Rattle.fio_c.specs.LogJudges.{LogReservesZeros, is_sent_frame, line_kind_of, log_below_item, log_judge_in, outcome_of_item, outcomes_of_items};
ghost use Rattle.fio_c.specs.Logs.{Content, Holds, content_of};
ghost use Rattle.fio_c.specs.Told.{Told};

use crate::batch_items::{BatchItems, items_of};
use crate::judge::{JudgeOutcome, without_breach};
use crate::log_batch::{FRAMES, LOG_FRAMES, LogBatch, LogVerdict};
use crate::log_judge::{FlatLogJudge, end_from, log_flat_of, log_judge_from, log_outcome_from};
use fio_check::{LogJudge, LogLineKind};
use fio_message::types::ANSWER;

/// Judges the frames of a batch that `fio2070_log_read` wrote, in order, writes the outcome of each, and returns their number.
/// The lines between them are taken too, as `fio2070_log_judge_lose` and the calls after it do. Set `as_said` to a number other
/// than 0 for a log that is read as a transcript, whose lines say who sent a frame. A frame of a line whose kind has no frames
/// is not judged. The outcomes after those that are written are unchanged.
#[unsafe(no_mangle)]
pub extern "C" fn fio2070_log_judge_batch(
    judge: &mut FlatLogJudge,
    as_said: u8,
    batch: &LogBatch,
    outcomes: &mut [JudgeOutcome; LOG_FRAMES],
) -> u32
    ensures next { (content : Content) → Holds batch.now content → log_judge_in judge.new
        ≡ fold (log_below_item (not (as_said == 0))) (log_judge_in judge.old) (items_of_content content) }
    ensures outcomes { (content : Content) → Holds batch.now content
        → let found = outcomes_of_items (not (as_said == 0)) (log_judge_in judge.old) (items_of_content content) in
        outcomes.new ≡ found ++ drop (length found) outcomes.old }
    ensures count { (content : Content) → Holds batch.now content
        → result ≡ length (outcomes_of_items (not (as_said == 0)) (log_judge_in judge.old) (items_of_content content)) }
    ensures each { (content : Content) → Holds batch.now content
        → result ≡ min (sum_by (λ verdict. verdict.frames) content.verdicts) (length content.frames) }
    ensures told { (told : List Told) → Holds batch.now (content_of told) → log_judge_in judge.new
        ≡ fold (log_below_item (not (as_said == 0))) (log_judge_in judge.old) (items_of_told told) }
    ensures all { (told : List Told) → Holds batch.now (content_of told) → result ≡ length (content_of told).frames }
    ensures within { result ≤ LOG_FRAMES }
    ensures reserved { LogReservesZeros judge.new }
{
    let mut kept = log_judge_from(judge);
    let count = judge_items(&mut kept, as_said != 0, items_of(batch), outcomes);
    *judge = log_flat_of(&kept);
    count as u32
}

/// Judges the frames among what a batch says, takes the lines between them, and returns how many frames they are.
fn judge_items(
    judge: &mut LogJudge,
    as_said: bool,
    items: BatchItems<'_>,
    outcomes: &mut [JudgeOutcome],
) -> usize
    requires { frame_count items ≤ length outcomes.old }
    ensures next { log_judging judge.new ≡ fold (log_below_item as_said) (log_judging judge.old) items.entry }
    ensures outcomes { outcomes.new
        ≡ outcomes_of_items as_said (log_judging judge.old) items.entry ++ drop result outcomes.old }
    ensures count { result ≡ frame_count items.entry }
{
    let mut at = 0;
    'items: for (verdict, octets) in items {
        match octets {
            None => judge.line(line_kind_of(verdict)),
            Some(octets) => {
                outcomes[at] = judge_frame(judge, as_said, verdict, octets);
                at += 1;
            }
        }
    }
    at
}

/// Judges a frame of a verdict, if lines of its kind have frames, and returns its outcome as C sees it.
fn judge_frame(
    judge: &mut LogJudge,
    as_said: bool,
    verdict: &LogVerdict,
    octets: &[u8],
) -> JudgeOutcome
    ensures next { log_judging judge.new ≡ log_below_item as_said (log_judging judge.old) (verdict.now, Some octets.now) }
    ensures outcome { result ≡ outcome_of_item as_said (log_judging judge.old) verdict.now octets.now }
{
    if verdict.kind != FRAMES {
        return without_breach(5, 0);
    }
    let said = end_from(verdict.said);
    let outcome = judge.frame(is_sent_frame(as_said, said, octets), said, octets);
    judge.below_frame(line_kind_of(verdict));
    log_outcome_from(outcome)
}

/// Returns whether the CPU's end sent a frame: by its line, if lines count and this one names the sender, else by its type.
pub(crate) fn is_sent_frame(as_said: bool, said: Option<bool>, octets: &[u8]) -> bool
    ensures { result ≡ is_sent_frame as_said said octets.now }
{
    match said {
        Some(by_cpu) if as_said => by_cpu,
        _ => octets.first().copied().unwrap_or(0) < ANSWER,
    }
}

/// Returns what a line is to the judge, by the kind and the reason of its verdict. What has another kind than those of the reader
/// may be a frame.
pub(crate) fn line_kind_of(verdict: &LogVerdict) -> LogLineKind
    ensures { result ≡ line_kind_of verdict.now }
{
    match (verdict.kind, verdict.reason) {
        (FRAMES, 0) => LogLineKind::Frames,
        (FRAMES, _) => LogLineKind::FramesAndMore,
        (_, 14) => LogLineKind::BreakingOff,
        (3, _) => LogLineKind::Possible,
        (4, 6) => LogLineKind::TooLong,
        (5, 10) => LogLineKind::Loss,
        (5, 11) => LogLineKind::Heading,
        (0 | 2 | 5, _) => LogLineKind::Other,
        _ => LogLineKind::Damaged,
    }
}
