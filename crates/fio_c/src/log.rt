//! The reader of logs, which C holds by a pointer.
//!
//! Unlike the other structs, a reader is not plain memory: only the library can make its parts. So these calls take a pointer,
//! and they alone require something of what it points to: a reader that `fio2070_log_start` has made, in room for one.
ghost use Rattle.std.specs.Prelude.{◌≡◌, ◌+◌, ◌<◌, ℕ};
ghost use Rattle.std.specs.Borrow.{full_share, sem};
ghost use Rattle.std.specs.Ptr.{lies_at, room_at};
ghost use base.Fml.{fex};
ghost use Rattle.fio_log.specs.Telling.{Telling};
ghost use Rattle.fio_log.specs.contracts.reader.Reader.{the_row as ReaderRow};
ghost use Rattle.fio_c.specs.Logs.{HasBegun, HasEnded, HasRead, HasReadOn, IsReadFrom, form_of};

use crate::log_batch::LogBatch;
use crate::log_others::pass_over;
use crate::log_verdicts::fill;
use fio_log::{Form, Reader};

/// How many words of 64 bits have room for a reader.
const LOG_READER_WORDS: usize = 65_536;

/// A reader of logs, or room for one. Its octets are the library's own.
#[derive(Clone, Copy)]
#[repr(C)]
pub struct LogReader {
    /// The octets of a reader, in no order of C's.
    pub words: [u64; LOG_READER_WORDS],
}

const _: () = prove!(std::mem::size_of::<Reader>() <= 8 * LOG_READER_WORDS);

/// Begins a log. `form` says how its lines are read: 1 as `fio2070 show` reads its input, 2 as `fio2070 check` does, any other
/// number as lines of any log.
#[unsafe(no_mangle)]
pub unsafe extern "C" fn fio2070_log_start(reader: *mut LogReader, form: u8)
    requires* { sem 𝓛 (room_at ReaderRow reader) }
    ensures* { sem 𝓛 (fex Telling (λ telling. fex (HasBegun (form_of form) telling)
        (λ _. lies_at ReaderRow full_share reader telling))) }
{
    std::ptr::write(reader as *mut Reader, new_reader(form));
}

/// Takes octets of the log until all are taken or the batch has no more room, and returns how many it took. The batch then has
/// the verdicts that were due, and passes over messages that this protocol has not by all of them. Pass octets that were not taken again. After the end of a log, once each of its verdicts was
/// returned, octets begin a new log of the same form.
#[unsafe(no_mangle)]
pub unsafe extern "C" fn fio2070_log_read(
    reader: *mut LogReader,
    octets: &[u8],
    batch: &mut LogBatch,
) -> usize
    ghost telling: { Telling }
    requires* { sem 𝓛 (lies_at ReaderRow full_share reader telling) }
    ensures* { sem 𝓛 (fex Telling (λ after. fex (HasRead telling octets.now result after batch.new)
        (λ _. lies_at ReaderRow full_share reader after))) }
{
    read_log(&mut *(reader as *mut Reader), octets, batch)
}

/// Ends the log: the octets after the last line end are its last line. Then `fio2070_log_read` with no octets returns the
/// verdicts that are left, until it returns none.
#[unsafe(no_mangle)]
pub unsafe extern "C" fn fio2070_log_end(reader: *mut LogReader)
    ghost telling: { Telling }
    requires* { sem 𝓛 (lies_at ReaderRow full_share reader telling) }
    ensures* { sem 𝓛 (fex Telling (λ after. fex (HasEnded telling after)
        (λ _. lies_at ReaderRow full_share reader after))) }
{
    end_log(&mut *(reader as *mut Reader));
}

/// Returns a reader above the first line of a log.
fn new_reader(form: u8) -> Reader
    ensures { HasBegun (form_of form) result }
{
    Reader::new(match form {
        1 => Form::Frames,
        2 => Form::Transcript,
        _ => Form::Auto,
    })
}

/// Ends the log.
fn end_log(reader: &mut Reader)
    ensures { HasEnded reader.old reader.new }
{
    reader.end();
}

/// Takes octets until all are taken or the batch has no room for another verdict, and returns how many it took.
fn read_log(reader: &mut Reader, octets: &[u8], batch: &mut LogBatch) -> usize
    ensures { HasRead reader.old octets.now result reader.new batch.new }
{
    begin_next(reader, octets);
    let taken = read_on(reader, octets, batch);
    pass_over(reader, batch);
    taken
}

/// Begins the next log, if octets come after the end of a log whose verdicts are all returned.
fn begin_next(reader: &mut Reader, octets: &[u8])
    ensures { IsReadFrom reader.old octets.now reader.new }
{
    if !octets.is_empty() && reader.has_told_all() {
        reader.start_again();
    }
}

/// Takes octets of the log that has begun until all are taken or the batch has no room for another verdict, and returns how
/// many it took.
fn read_on(reader: &mut Reader, octets: &[u8], batch: &mut LogBatch) -> usize
    ensures { HasReadOn reader.old octets.now result reader.new batch.new }
{
    batch.clear();
    fill(reader, batch);
    let mut taken = 0;
    'pieces: while taken < octets.len() && batch.has_room() {
        let count = reader.feed(&octets[taken..]);
        if count == 0 {
            break;
        }
        taken += count;
        fill(reader, batch);
    }
    taken
}
