//! What kind of log a log looks like, in memory of the caller.
ghost use Rattle.std.specs.Prelude.{◌≡◌, ◌==◌, List, Some, fold, not, length, replicate, take};
ghost use Rattle.fio_check.specs.LogSigns.{no_signs, sign_of, signs_with};
ghost use Rattle.fio_c.specs.BatchItems.{items_of_content, items_of_told};
ghost use Rattle.fio_c.specs.LogJudges.{end_in};
ghost use Rattle.fio_c.specs.LogSigns.{block_seen_of, log_signs_in, sign_number, signs_with_item};
ghost use Rattle.fio_c.specs.Logs.{Content, Holds, content_of};
ghost use Rattle.fio_c.specs.Told.{Told};

use crate::batch_items::{BatchItems, items_of};
use crate::log_batch::{FRAMES, LogBatch, LogVerdict};
use crate::log_judge::{end_from, octet_from};
use crate::log_judge_batch::is_sent_frame;
use fio_check::{
    BlockOrder, BlockRows, BlockSeen, LeftOutBlocks, LogSign, LogSigns, RepeatedFrames,
};
use fio_message::{FRAME_OCTETS, Frame};

/// Counts of the frames of a log. Its fields are the library's own: what it keeps of the frames that it took.
#[derive(Clone, Copy)]
#[repr(C)]
pub struct FlatLogSigns {
    /// The number of answers.
    pub answers: u32,
    /// How many of them are the second of equal frames.
    pub repeated: u32,
    /// For how many of those the two lines name different senders.
    pub contrary: u32,
    /// The number of block answers.
    pub blocks: u32,
    /// How many of them seem to belong before the one above.
    pub backward: u32,
    /// How many of them continued the other row of numbers than the one above.
    pub changes: u32,
    /// How many of them started a row in place of another one.
    pub jumps: u32,
    /// The stamp of the latest block answer.
    pub stamp: u32,
    /// The number of polls.
    pub polls: u32,
    /// How many of them ask for the next number below a poll that has no answer.
    pub passed: u32,
    /// How many ask there for another number, which is not that poll's own either.
    pub others: u32,
    /// The number of block answers without entries.
    pub empty: u32,
    /// How many octets are kept of the frame directly above.
    pub length: u16,
    /// Who sent that frame by its line: 1 the CPU's end, 2 the module, any other if it does not say it.
    pub said: u8,
    /// 1 if that frame has the octets of the one above it.
    pub again: u8,
    /// 1 if there is a block answer above.
    pub has_block: u8,
    /// The number of the latest block answer.
    pub number: u8,
    /// 1 if there is a row of numbers.
    pub has_first: u8,
    /// The last number of the row of the latest block answer.
    pub first: u8,
    /// 1 if there is another row.
    pub has_second: u8,
    /// The last number of that row.
    pub second: u8,
    /// The octets that are kept of the frame directly above.
    pub above: [u8; FRAME_OCTETS],
    /// 1 if the latest poll has no block answer below it.
    pub waits: u8,
    /// The number of that poll.
    pub polled: u8,
    /// 0 in each octet that the library writes.
    pub reserved: [u8; 3],
}

/// Starts above the first frame of a log.
#[unsafe(no_mangle)]
pub extern "C" fn fio2070_log_signs_start(signs: &mut FlatLogSigns)
    ensures next { log_signs_in signs.new ≡ no_signs }
    ensures reserved { signs.new.reserved ≡ replicate 3 0 }
{
    *signs = flat_signs_of(&LogSigns::new());
}

/// Takes a frame that the CPU's end sent, if `from_cpu` is not 0, or the module. `said` is who sent it by its line: 1 the CPU's end,
/// 2 the module, any other number if the line does not say it.
#[unsafe(no_mangle)]
pub extern "C" fn fio2070_log_signs_frame(
    signs: &mut FlatLogSigns,
    from_cpu: u8,
    said: u8,
    octets: &[u8],
)
    ensures next { log_signs_in signs.new ≡ signs_with (log_signs_in signs.old) (not (from_cpu == 0)) (end_in said) octets.now }
    ensures reserved { signs.new.reserved ≡ replicate 3 0 }
{
    let mut kept = signs_from(signs);
    kept.frame(from_cpu != 0, end_from(said), octets);
    *signs = flat_signs_of(&kept);
}

/// Takes the frames of a batch that `fio2070_log_read` wrote, in order. Set `as_said` to a number other than 0 for a log that is
/// read as a transcript, whose lines say who sent a frame. A frame of a line whose kind has no frames is not taken.
#[unsafe(no_mangle)]
pub extern "C" fn fio2070_log_signs_batch(signs: &mut FlatLogSigns, as_said: u8, batch: &LogBatch)
    ensures next { (content : Content) → Holds batch.now content → log_signs_in signs.new
        ≡ fold (signs_with_item (not (as_said == 0))) (log_signs_in signs.old) (items_of_content content) }
    ensures told { (told : List Told) → Holds batch.now (content_of told) → log_signs_in signs.new
        ≡ fold (signs_with_item (not (as_said == 0))) (log_signs_in signs.old) (items_of_told told) }
    ensures reserved { signs.new.reserved ≡ replicate 3 0 }
{
    let mut kept = signs_from(signs);
    take_items(&mut kept, as_said != 0, items_of(batch));
    *signs = flat_signs_of(&kept);
}

/// Takes the frames among what a batch says.
fn take_items(signs: &mut LogSigns, as_said: bool, items: BatchItems<'_>)
    ensures { signs.new ≡ fold (signs_with_item as_said) signs.old items.entry }
{
    'items: for (verdict, octets) in items {
        if let Some(octets) = octets {
            take_frame(signs, as_said, verdict, octets);
        }
    }
}

/// Takes a frame of a verdict.
fn take_frame(signs: &mut LogSigns, as_said: bool, verdict: &LogVerdict, octets: &[u8])
    ensures { signs.new ≡ signs_with_item as_said signs.old (verdict.now, Some octets.now) }
{
    if verdict.kind == FRAMES {
        let said = end_from(verdict.said);
        signs.frame(is_sent_frame(as_said, said, octets), said, octets);
    }
}

/// Returns what kind of log the log looks like: 0 the log of one link in order, or one with too few frames to say; 1 each frame
/// occurs twice; 2 the logs of both ends are merged; 3 the last line is first; 4 it has two links; 5 it is the log of one link in order,
/// but block answers without entries are left out.
#[unsafe(no_mangle)]
pub extern "C" fn fio2070_log_signs_sign(signs: &FlatLogSigns) -> u8
    ensures { result ≡ sign_number (sign_of (log_signs_in signs.now)) }
{
    match signs_from(signs).sign() {
        None => 0,
        Some(LogSign::Twice) => 1,
        Some(LogSign::BothEnds) => 2,
        Some(LogSign::Reversed) => 3,
        Some(LogSign::TwoLinks) => 4,
        Some(LogSign::EmptyLeftOut) => 5,
    }
}

/// Returns the counts that a struct of C represents, whatever its octets are.
fn signs_from(flat: &FlatLogSigns) -> LogSigns
    ensures { result ≡ log_signs_in flat.now }
{
    LogSigns {
        frames: RepeatedFrames {
            above: frame_from(flat),
            said: end_from(flat.said),
            again: flat.again != 0,
            answers: flat.answers,
            repeated: flat.repeated,
            contrary: flat.contrary,
        },
        order: BlockOrder {
            above: block_from(flat),
            blocks: flat.blocks,
            backward: flat.backward,
        },
        rows: BlockRows {
            first: octet_from(flat.has_first, flat.first),
            second: octet_from(flat.has_second, flat.second),
            changes: flat.changes,
            jumps: flat.jumps,
        },
        left_out: LeftOutBlocks {
            waits: octet_from(flat.waits, flat.polled),
            polls: flat.polls,
            passed: flat.passed,
            others: flat.others,
            empty: flat.empty,
        },
    }
}

/// Returns the octets that are kept of the frame directly above.
fn frame_from(flat: &FlatLogSigns) -> Frame
    ensures { result.items ≡ take flat.now.length flat.now.above }
{
    let length = usize::from(flat.length).min(FRAME_OCTETS);
    let mut frame = Frame::new();
    // There is room, so this never fails.
    let _fits = frame.try_extend_from_slice(&flat.above[..length]);
    frame
}

/// Returns the latest block answer, if there is one.
fn block_from(flat: &FlatLogSigns) -> Option<BlockSeen>
    ensures { result ≡ block_seen_of flat.now }
{
    if flat.has_block == 0 {
        return None;
    }
    Some(BlockSeen {
        number: flat.number,
        stamp: flat.stamp,
    })
}

/// Returns the struct of C that represents counts.
fn flat_signs_of(signs: &LogSigns) -> FlatLogSigns
    ensures kept { log_signs_in result ≡ signs.now }
    ensures reserved { result.reserved ≡ replicate 3 0 }
{
    let (frames, order, rows, left_out) = (
        &signs.frames,
        &signs.order,
        &signs.rows,
        &signs.left_out,
    );
    FlatLogSigns {
        answers: frames.answers,
        repeated: frames.repeated,
        contrary: frames.contrary,
        blocks: order.blocks,
        backward: order.backward,
        changes: rows.changes,
        jumps: rows.jumps,
        stamp: match order.above {
            Some(block) => block.stamp,
            None => 0,
        },
        length: frames.above.len() as u16,
        said: end_number(frames.said),
        again: u8::from(frames.again),
        has_block: u8::from(order.above.is_some()),
        number: match order.above {
            Some(block) => block.number,
            None => 0,
        },
        has_first: u8::from(rows.first.is_some()),
        first: rows.first.unwrap_or(0),
        has_second: u8::from(rows.second.is_some()),
        second: rows.second.unwrap_or(0),
        above: octets_of(&frames.above),
        polls: left_out.polls,
        passed: left_out.passed,
        others: left_out.others,
        empty: left_out.empty,
        waits: u8::from(left_out.waits.is_some()),
        polled: left_out.waits.unwrap_or(0),
        reserved: [0; 3],
    }
}

/// Returns room that begins with the octets of a frame, and has zeros after them.
fn octets_of(frame: &Frame) -> [u8; FRAME_OCTETS]
    ensures { take (length frame.now.items) result ≡ frame.now.items }
{
    let octets = frame.as_slice();
    let mut room = [0; FRAME_OCTETS];
    room[..octets.len()].copy_from_slice(octets);
    room
}

/// Returns the number of who sent a frame by its line.
fn end_number(said: Option<bool>) -> u8
    ensures { end_in result ≡ said }
{
    match said {
        None => 0,
        Some(true) => 1,
        Some(false) => 2,
    }
}
