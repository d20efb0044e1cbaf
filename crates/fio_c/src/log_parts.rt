//! Parts of a batch of the reader of logs: some of its lines, and blank ones in place of the others.
ghost use Rattle.std.specs.Prelude.{◌≡◌, ◌≤◌, [], length};
ghost use Rattle.fio_c.specs.BatchItems.{AreShort, frame_count, items_of_content, line_count, octet_count};
ghost use Rattle.fio_c.specs.LogParts.{line_in_part, batch_part};
ghost use Rattle.fio_c.specs.Logs.{Content, Holds};

use crate::batch_items::{BatchItems, items_of};
use crate::log_batch::{LOG_FRAMES, LOG_OCTETS, LOG_VERDICTS, LogBatch, LogVerdict};

/// How a mask takes a line as it is.
const AS_IT_IS: u8 = 1;

/// How a mask takes a line as damaged.
const AS_DAMAGED: u8 = 2;

/// Writes a part of a batch that `fio2070_log_read` wrote, in place of what it had, and returns how many frames it has. A part has
/// all lines of the batch, in order. `mask` has a number for each: 1 takes a line as it is, with its frames; 2 takes it as damaged,
/// without them; any other number, or none, takes nothing of it, and it is as blank. No line of a part has places.
#[unsafe(no_mangle)]
pub extern "C" fn fio2070_log_batch_part(batch: &LogBatch, mask: &[u8], part: &mut LogBatch) -> u32
    ensures part { (content : Content) → Holds batch.now content → Holds part.new (batch_part mask.now content) }
    ensures lines { (content : Content) → Holds batch.now content → part.new.verdict_count ≡ length content.verdicts }
    ensures count { result ≡ part.new.frame_count }
    ensures within { result ≤ LOG_FRAMES }
{
    part.clear();
    add_items(items_of(batch), mask, part);
    part.frame_count
}

/// Adds what a batch says to an empty part: each line as the mask takes it, with its frames if it is taken as it is.
fn add_items(items: BatchItems<'_>, mask: &[u8], part: &mut LogBatch)
    requires empty { Holds part.old (record { verdicts = []; frames = []; places = [] }) }
    requires verdicts { part.old.verdict_count ≡ 0 }
    requires counts { part.old.frame_count ≡ 0 }
    requires sizes { part.old.octet_count ≡ 0 }
    requires lines { line_count items ≤ LOG_VERDICTS }
    requires frames { frame_count items ≤ LOG_FRAMES }
    requires octets { octet_count items ≤ LOG_OCTETS }
    requires short { AreShort items }
    ensures part { (content : Content) → items.entry ≡ items_of_content content → Holds part.new (batch_part mask.now content) }
    ensures lines { part.new.verdict_count ≡ line_count items.entry }
    ensures within { part.new.frame_count ≤ LOG_FRAMES }
{
    let mut line: usize = 0;
    let mut how: u8 = 0;
    'items: for (verdict, octets) in items {
        match octets {
            None => {
                how = mask.get(line).copied().unwrap_or(0);
                part.push_verdict(line_in_part(how, verdict));
                line += 1;
            }
            Some(octets) => {
                if how == AS_IT_IS {
                    part.push_frame(octets);
                }
            }
        }
    }
}

/// Returns a line of a part.
fn line_in_part(how: u8, verdict: &LogVerdict) -> LogVerdict
    ensures { result ≡ line_in_part how verdict.now }
{
    match how {
        AS_IT_IS => LogVerdict {
            places: 0,
            ..*verdict
        },
        AS_DAMAGED => LogVerdict {
            frames: 0,
            places: 0,
            kind: 4,
            reason: 2,
            ..*verdict
        },
        _ => LogVerdict {
            frames: 0,
            places: 0,
            kind: 0,
            reason: 0,
            ..*verdict
        },
    }
}
