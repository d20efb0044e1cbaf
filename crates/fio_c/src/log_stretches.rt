//! The stretches of a log, in memory of the caller.
ghost use Rattle.std.specs.Prelude.{◌≡◌, ◌≤◌, ◌+◌, ◌++◌, List, drop, length};
ghost use Rattle.fio_check.specs.Stretches.{no_stretches};
ghost use Rattle.fio_c.specs.BatchItems.{frame_count, items_of_content};
ghost use Rattle.fio_c.specs.LogStretches.{cause_number, flat_seam, is_believed, is_believed_at, blocks_missing, seam_of_frame, seams_of_items, stretches_below_items, stretches_with_frame};
ghost use Rattle.fio_c.specs.Logs.{Content, Holds};

use crate::batch_items::{BatchItems, items_of};
use crate::judge::JudgeOutcome;
use crate::log_batch::{FRAMES, LOG_FRAMES, LogBatch, LogVerdict};
use crate::log_counts::time_from;
use fio_check::{LogStretches, Seam, SeamCause};

/// A place of a log where a stretch ends, or transitions are lost: above a block answer.
#[derive(Clone, Copy)]
#[repr(C)]
pub struct LogSeam {
    /// How long the poll above came after the poll above that, in microseconds; 0 if that is not known.
    pub pause: u64,
    /// The index of the block among the frames of its batch.
    pub frame: u32,
    /// Why the stretch ends: one of `FIO2070_SEAM_NONE` and those after it.
    pub cause: u8,
    /// 1 if the block says that transitions are lost above it.
    pub is_lost: u8,
    /// 1 if `pause` is known.
    pub has_pause: u8,
    /// Of `FIO2070_SEAM_MISSING` how many blocks are not in the log, with a CPU that passes over no number; else 0.
    pub missing: u8,
}

/// Starts above the first frame of a log: each octet is 0.
#[unsafe(no_mangle)]
pub extern "C" fn fio2070_log_stretches_start(stretches: &mut LogStretches)
    ensures { stretches.new ≡ no_stretches }
{
    *stretches = LogStretches::new();
}

/// Takes the frames of a batch that `fio2070_log_read` wrote, in order, each by the time of its verdict. `outcomes` are those that
/// `fio2070_log_judge_batch` wrote for this batch: a block answer that breaks one of the rules order, fresh, alternate, apart, state and
/// same is not believed. It writes the places where a stretch ends or transitions are lost, in order, and returns how many these are. The
/// places after those that are written stay as they were. A frame of a line that is of no frames is not taken.
#[unsafe(no_mangle)]
pub extern "C" fn fio2070_log_stretches_batch(
    stretches: &mut LogStretches,
    batch: &LogBatch,
    outcomes: &[JudgeOutcome; LOG_FRAMES],
    seams: &mut [LogSeam; LOG_FRAMES],
) -> u32
    ensures next { (content : Content) → Holds batch.now content
        → stretches.new ≡ stretches_below_items outcomes.now 0 stretches.old (items_of_content content) }
    ensures seams { (content : Content) → Holds batch.now content
        → let found = seams_of_items outcomes.now 0 stretches.old (items_of_content content) in
        seams.new ≡ found ++ drop (length found) seams.old }
    ensures count { (content : Content) → Holds batch.now content
        → result ≡ length (seams_of_items outcomes.now 0 stretches.old (items_of_content content)) }
    ensures within { result ≤ LOG_FRAMES }
{
    take_items(stretches, items_of(batch), outcomes, seams) as u32
}

/// Takes the frames among what a batch says, writes the places, and returns how many these are.
fn take_items(
    stretches: &mut LogStretches,
    items: BatchItems<'_>,
    outcomes: &[JudgeOutcome],
    seams: &mut [LogSeam],
) -> usize
    requires room { frame_count items ≤ length seams.old }
    requires few { frame_count items ≤ LOG_FRAMES }
    ensures next { stretches.new ≡ stretches_below_items outcomes.now 0 stretches.old items.entry }
    ensures seams { seams.new ≡ seams_of_items outcomes.now 0 stretches.old items.entry ++ drop result seams.old }
    ensures count { result ≡ length (seams_of_items outcomes.now 0 stretches.old items.entry) }
    ensures within { result ≤ length seams.old }
{
    let (mut frame, mut count) = (0, 0);
    'items: for (verdict, octets) in items {
        if let Some(octets) = octets {
            let is_believed = is_believed_at(outcomes, frame);
            if let Some(seam) = take_frame(stretches, verdict, octets, is_believed) {
                seams[count] = flat_seam(seam, frame as u32);
                count += 1;
            }
            frame += 1;
        }
    }
    count
}

/// Takes a frame of a verdict, if lines of its kind have frames, and returns the place above it.
fn take_frame(
    stretches: &mut LogStretches,
    verdict: &LogVerdict,
    octets: &[u8],
    is_believed: bool,
) -> Option<Seam>
    ensures seam { result ≡ seam_of_frame stretches.old verdict.now octets.now is_believed }
    ensures next { stretches.new ≡ stretches_with_frame stretches.old verdict.now octets.now is_believed }
{
    if verdict.kind != FRAMES {
        return None;
    }
    stretches.frame(
        time_from(verdict.time_kind, verdict.time),
        octets,
        is_believed,
    )
}

/// Returns whether what the block at an index says is to be believed, by the outcomes of the frames.
fn is_believed_at(outcomes: &[JudgeOutcome], frame: usize) -> bool
    ensures { result ≡ is_believed_at outcomes.now frame }
{
    match outcomes.get(frame) {
        Some(outcome) => is_believed(outcome.kind, outcome.rule),
        None => true,
    }
}

/// Returns whether what a block with this outcome says is to be believed: it breaks none of the rules same, order, fresh, alternate,
/// apart and state.
fn is_believed(kind: u8, rule: u8) -> bool
    ensures { result ≡ is_believed kind rule }
{
    !matches!((kind, rule), (1, 5) | (2, 1..=4 | 6))
}

/// Returns a place above the frame with this index of a batch as C sees it.
fn flat_seam(seam: Seam, frame: u32) -> LogSeam
    ensures { result ≡ flat_seam seam frame }
{
    LogSeam {
        pause: seam.pause.unwrap_or(0),
        frame,
        cause: cause_number(seam.cause),
        is_lost: u8::from(seam.is_lost),
        has_pause: u8::from(seam.pause.is_some()),
        missing: blocks_missing(seam.cause),
    }
}

/// Returns the number of a cause as C sees it.
fn cause_number(cause: Option<SeamCause>) -> u8
    ensures { result ≡ cause_number cause }
{
    match cause {
        None => 0,
        Some(SeamCause::Missing(_)) => 1,
        Some(SeamCause::PassedOver) => 2,
        Some(SeamCause::Unknown) => 3,
        Some(SeamCause::Restart) => 4,
        Some(SeamCause::Disbelieved) => 5,
    }
}

/// Returns how many blocks are missing by a cause.
fn blocks_missing(cause: Option<SeamCause>) -> u8
    ensures { result ≡ blocks_missing cause }
{
    match cause {
        Some(SeamCause::Missing(blocks)) => blocks,
        _ => 0,
    }
}
