//! What a poller heard, in words.
ghost use Rattle.std.specs.Prelude.{◌≡◌, ◌≤◌, drop};
ghost use Rattle.fio_message.specs.Texts.{fault_text};
ghost use Rattle.fio_show.specs.HeardWords.{heard_text};
ghost use Rattle.fio_text.specs.declared.pieces.TheConstants.{LINE_OCTETS};

use fio_cpu::Heard;
use fio_message::DecodeError;
use fio_text::{LINE_OCTETS, line_end, put, put_pieces};

/// Puts what a poller heard at the end of its room: `block entries N status HH` if a block was taken, `stale N`, `other N`,
/// or `unreadable ` and the text of the fault. Returns the index at which it starts.
pub fn put_heard(line: &mut [u8; LINE_OCTETS], heard: Heard) -> usize
    ensures start { result ≤ LINE_OCTETS }
    ensures text { drop result line.new ≡ heard_text heard }
{
    let end = line_end(line);
    match heard {
        Heard::Block { entries, status } => {
            put_pieces!(*line, end; b"block entries " {entries as u64} b" status " [status])
        }
        Heard::Stale { block } => put_pieces!(*line, end; b"stale " {block}),
        Heard::Other { code } => put_pieces!(*line, end; b"other " {code}),
        Heard::Unreadable(fault) => {
            let start = put_fault(line, fault);
            put(line, start, b"unreadable ")
        }
    }
}

/// Puts the text of a fault at the end of its room, and returns the index at which it starts.
fn put_fault(line: &mut [u8; LINE_OCTETS], fault: DecodeError) -> usize
    ensures start { (11 ≤ result) × (result ≤ LINE_OCTETS) }
    ensures text { drop result line.new ≡ fault_text fault }
{
    let words = fault.words();
    let octets = words.as_str().as_bytes();
    let start = LINE_OCTETS - octets.len();
    line[start..].copy_from_slice(octets);
    start
}
