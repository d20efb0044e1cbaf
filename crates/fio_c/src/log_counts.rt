//! What is counted of the frames of a log, in memory of the caller.
ghost use Rattle.std.specs.Prelude.{◌≡◌, ◌≤◌, ◌++◌, List, Some, None, drop, fold, is_some, length, unwrap_or};
ghost use Rattle.fio_message.specs.Bits.{bit_of};
ghost use Rattle.fio_check.specs.LogCounts.{counted_lost, counts_above, counts_with, time_to_frame};
ghost use Rattle.fio_c.specs.BatchItems.{frame_count, items_of_content, items_of_told};
ghost use Rattle.fio_c.specs.LogCounts.{counts_with_item, time_in, time_to_item, times_to_items};
ghost use Rattle.fio_c.specs.Logs.{Content, Holds, content_of};
ghost use Rattle.fio_c.specs.Told.{Told};

use crate::batch_items::{BatchItems, items_of};
use crate::log_batch::{FRAMES, LOG_FRAMES, LogBatch, LogVerdict};
use crate::log_judge_batch::line_kind_of;
use fio_check::{LogCounts, LogLineKind};

/// Starts the counts before any frame: each octet is 0.
#[unsafe(no_mangle)]
pub extern "C" fn fio2070_log_counts_start(counts: &mut LogCounts)
    ensures { counts.new ≡ counts_above }
{
    *counts = LogCounts::new();
}

/// Takes a place where a frame may be lost: it is then unknown whether the latest poll and command were answered.
#[unsafe(no_mangle)]
pub extern "C" fn fio2070_log_counts_lose(counts: &mut LogCounts)
    ensures { counts.new ≡ counted_lost counts.old }
{
    counts.lose();
}

/// Counts a frame, with its time in microseconds if `has_time` is not 0. If the frame is the answer that the latest command
/// waits for, both have a time, and the answer's is not the earlier one, it writes how long the module took, in microseconds,
/// and returns 1. Otherwise it writes 0 and returns 0.
#[unsafe(no_mangle)]
pub extern "C" fn fio2070_log_counts_frame(
    counts: &mut LogCounts,
    has_time: u8,
    time: u64,
    octets: &[u8],
    taken: &mut u64,
) -> u8
    ensures next { counts.new ≡ counts_with counts.old (time_in has_time time) octets.now }
    ensures taken { taken.new ≡ unwrap_or (time_to_frame counts.old (time_in has_time time) octets.now) 0 }
    ensures known { result ≡ bit_of (is_some (time_to_frame counts.old (time_in has_time time) octets.now)) }
{
    let found = counts.frame(time_from(has_time, time), octets);
    *taken = found.unwrap_or(0);
    u8::from(found.is_some())
}

/// Counts the frames of a batch that `fio2070_log_read` wrote, each by the time of its verdict, and takes the lines between them:
/// where `fio2070_log_judge_batch` takes one, a frame may be lost. A frame of a line that is of no frames is not counted. It writes how
/// long the module took, in microseconds, for each answer of which `fio2070_log_counts_frame` says it, in order, and returns how many
/// these are. The times after those that are written stay as they were.
#[unsafe(no_mangle)]
pub extern "C" fn fio2070_log_counts_batch(
    counts: &mut LogCounts,
    batch: &LogBatch,
    taken: &mut [u64; LOG_FRAMES],
) -> u32
    ensures next { (content : Content) → Holds batch.now content → counts.new ≡ fold counts_with_item counts.old (items_of_content content) }
    ensures taken { (content : Content) → Holds batch.now content
        → let times = times_to_items counts.old (items_of_content content) in taken.new ≡ times ++ drop (length times) taken.old }
    ensures count { (content : Content) → Holds batch.now content → result ≡ length (times_to_items counts.old (items_of_content content)) }
    ensures told { (told : List Told) → Holds batch.now (content_of told)
        → counts.new ≡ fold counts_with_item counts.old (items_of_told told) }
    ensures within { result ≤ LOG_FRAMES }
{
    count_items(counts, items_of(batch), taken) as u32
}

/// Counts what a batch says, writes how long the module took for its answers, and returns of how many that is known.
fn count_items(counts: &mut LogCounts, items: BatchItems<'_>, taken: &mut [u64]) -> usize
    requires { frame_count items ≤ length taken.old }
    ensures next { counts.new ≡ fold counts_with_item counts.old items.entry }
    ensures taken { taken.new ≡ times_to_items counts.old items.entry ++ drop result taken.old }
    ensures count { result ≡ length (times_to_items counts.old items.entry) }
    ensures within { result ≤ length taken.old }
{
    let mut at = 0;
    'items: for (verdict, octets) in items {
        match octets {
            None => count_line(counts, verdict),
            Some(octets) => {
                if let Some(time) = count_frame(counts, verdict, octets) {
                    taken[at] = time;
                    at += 1;
                }
            }
        }
    }
    at
}

/// Counts a frame of a verdict, and returns how long the module took for it, if that is known.
fn count_frame(counts: &mut LogCounts, verdict: &LogVerdict, octets: &[u8]) -> Option<u64>
    ensures time { result ≡ time_to_item counts.old (verdict.now, Some octets.now) }
    ensures next { counts.new ≡ counts_with_item counts.old (verdict.now, Some octets.now) }
{
    if verdict.kind != FRAMES {
        return None;
    }
    let time = counts.frame(time_from(verdict.time_kind, verdict.time), octets);
    if line_kind_of(verdict) == LogLineKind::FramesAndMore {
        counts.lose();
    }
    time
}

/// Takes a line: a frame may be lost where the line is an event to the judge of a log.
fn count_line(counts: &mut LogCounts, verdict: &LogVerdict)
    ensures { counts.new ≡ counts_with_item counts.old (verdict.now, None) }
{
    if line_kind_of(verdict).is_event() {
        counts.lose();
    }
}

/// Returns the time of a frame, if it has one.
pub(crate) fn time_from(has: u8, time: u64) -> Option<u64>
    ensures { result ≡ time_in has time }
{
    if has == 0 { None } else { Some(time) }
}
