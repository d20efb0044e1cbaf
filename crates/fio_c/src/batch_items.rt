//! What a batch of the reader of logs says, one after another.
ghost use Rattle.std.specs.Prelude.{◌≡◌, ◌≤◌, [], ◌∷◌, List, length, IfNone, IfSome};
ghost use Rattle.fio_c.specs.BatchItems.{AreShort, frame_count, frames_by_counts, items_of_content, items_of_told, items_of_verdicts, line_count, octet_count};
ghost use Rattle.fio_c.specs.Logs.{Content, Holds, content_of};
ghost use Rattle.fio_c.specs.Told.{Told};

use crate::log_batch::{LOG_FRAMES, LOG_OCTETS, LOG_VERDICTS, LogBatch, LogVerdict};
use std::marker::Model;

/// What a batch says that remains to be taken: each verdict, and below it each of its frames. Contracts describe it as the list
/// of these.
#[derive(Drop)]
pub(crate) struct BatchItems<'a> {
    /// The latest verdict.
    verdict: &'a LogVerdict,
    /// How many frames it has that are not taken.
    left: u32,
    /// The verdicts below it.
    verdicts: &'a [LogVerdict],
    /// The lengths of the frames that are not taken.
    lengths: &'a [u16],
    /// Their octets.
    octets: &'a [u8],
}

impl<'a> Model for BatchItems<'a> {
    ghost use Rattle.std.specs.Prelude.{List, ◌++◌, take, drop};
    ghost use Rattle.fio_c.specs.BatchItems.{BatchItem, frames_by_counts, frame_items, items_of_verdicts};

    ghost Value = { List BatchItem };

    ghost view = { λ v. let frames = frames_by_counts v.lengths.now v.octets.now in
        frame_items v.verdict.now (take v.left frames) ++ items_of_verdicts v.verdicts.now (drop v.left frames) };
}

/// Returns what a batch says: each verdict, and below it each of its frames.
pub(crate) fn items_of(batch: &LogBatch) -> BatchItems<'_>
    ensures items { (content : Content) → Holds batch.now content → result ≡ items_of_content content }
    ensures told { (told : List Told) → Holds batch.now (content_of told) → result ≡ items_of_told told }
    ensures few { frame_count result ≤ LOG_FRAMES }
    ensures lines { line_count result ≤ LOG_VERDICTS }
    ensures octets { octet_count result ≤ LOG_OCTETS }
    ensures short { AreShort result }
{
    items_from(
        &batch.verdicts[0],
        &batch.verdicts[..(batch.verdict_count as usize).min(LOG_VERDICTS)],
        &batch.lengths[..(batch.frame_count as usize).min(LOG_FRAMES)],
        &batch.octets,
    )
}

/// Returns what verdicts say that have frames with these lengths and octets. Of `any` there is nothing.
fn items_from<'a>(
    any: &'a LogVerdict,
    verdicts: &'a [LogVerdict],
    lengths: &'a [u16],
    octets: &'a [u8],
) -> BatchItems<'a>
    ensures items { result ≡ items_of_verdicts verdicts.now (frames_by_counts lengths.now octets.now) }
    ensures few { frame_count result ≤ length lengths.now }
    ensures lines { line_count result ≡ length verdicts.now }
    ensures octets { octet_count result ≤ length octets.now }
    ensures short { AreShort result }
{
    BatchItems {
        verdict: any,
        left: 0,
        verdicts,
        lengths,
        octets,
    }
}

/// Returns the first of the frames with these lengths, if there is one, and the lengths and octets below it.
fn first_frame<'a>(lengths: &'a [u16], octets: &'a [u8]) -> Option<(&'a [u8], &'a [u16], &'a [u8])>
    ensures none { IfNone result (frames_by_counts lengths.now octets.now ≡ []) }
    ensures some { IfSome result (λ found. frames_by_counts lengths.now octets.now
        ≡ found.0.now ∷ frames_by_counts found.1.now found.2.now) }
{
    let (length, below) = lengths.split_first()?;
    let (frame, rest) = octets.split_at(usize::from(*length).min(octets.len()));
    Some((frame, below, rest))
}

impl<'a> Iterator for BatchItems<'a> {
    ghost use Rattle.std.specs.Iterator.{YieldsFirstBy, item_count};
    ghost use Rattle.std.specs.Option.{option_map};

    type Item = (&'a LogVerdict, Option<&'a [u8]>);

    ghost next_gives = { YieldsFirstBy (λ item. (item.0.now, option_map (λ octets. octets.now) item.1)) (λ rest. rest) };

    ghost remaining = { item_count (λ rest. rest) };

    fn next(&mut self) -> Option<(&'a LogVerdict, Option<&'a [u8]>)> {
        if self.left != 0 {
            if let Some((frame, lengths, octets)) = first_frame(self.lengths, self.octets) {
                self.left -= 1;
                self.lengths = lengths;
                self.octets = octets;
                return Some((self.verdict, Some(frame)));
            }
        }
        let (verdict, verdicts) = self.verdicts.split_first()?;
        self.verdict = verdict;
        self.left = verdict.frames;
        self.verdicts = verdicts;
        Some((verdict, None))
    }
}
