//! The forms by which a reader of logs reads, as C sees them.
ghost use Rattle.std.specs.Prelude.{◌≡◌, ◌≤◌, length};
ghost use Rattle.std.specs.Borrow.{full_share, sem};
ghost use Rattle.std.specs.Ptr.{lies_at};
ghost use base.Fml.{fex};
ghost use Rattle.fio_log.specs.Telling.{Telling};
ghost use Rattle.fio_log.specs.contracts.reader.Reader.{the_row as ReaderRow};
ghost use Rattle.fio_c.specs.Logs.{HasForms, HasLearnt, flat_form, front_seen, in_room};
ghost use Rattle.fio_c.specs.declared.log_forms.TheConstants.{FORMS};

use crate::log::LogReader;
use fio_log::{ReadAs, Reader, SAMPLE_CHARACTERS};

/// The most forms of a log.
const FORMS: usize = 16;

/// How the lines of a form look, and how many there are.
#[derive(Clone, Copy)]
#[repr(C)]
pub struct LogReadAs {
    /// The number of the first line that was read by it, from 1; 0 if there was none.
    pub from: u64,
    /// How many lines it had.
    pub lines: u64,
    /// How many of these were damaged.
    pub damaged: u64,
    /// Whether its frames repeat those above them, and are not judged.
    pub is_echo: u8,
    /// How many characters `front` has.
    pub front_length: u8,
    /// 0 in each octet.
    pub reserved: [u8; 6],
    /// The text before the octets of the first line that was read by it, or its end.
    pub front: [u8; SAMPLE_CHARACTERS],
}

/// The forms of a log.
#[derive(Clone, Copy)]
#[repr(C)]
pub struct LogFormList {
    /// How many forms there are.
    pub count: u32,
    /// 0 in each octet.
    pub reserved: [u8; 4],
    /// The forms, at the front.
    pub forms: [LogReadAs; FORMS],
}

/// Writes by which forms the lines of a log are read.
#[unsafe(no_mangle)]
pub unsafe extern "C" fn fio2070_log_forms(reader: *mut LogReader, forms: &mut LogFormList)
    ghost telling: { Telling }
    requires* { sem 𝓛 (lies_at ReaderRow full_share reader telling) }
    ensures* { sem 𝓛 (fex Telling (λ after. fex (HasForms telling forms.new.count after)
        (λ _. lies_at ReaderRow full_share reader after))) }
{
    write_forms(&mut *(reader as *mut Reader), forms);
}

/// Learns forms from sample lines, by which the lines of the log are read from its beginning; returns how many. It learns none
/// once a line of the log is read.
#[unsafe(no_mangle)]
pub unsafe extern "C" fn fio2070_log_like(reader: *mut LogReader, octets: &[u8]) -> u32
    ghost telling: { Telling }
    requires* { sem 𝓛 (lies_at ReaderRow full_share reader telling) }
    ensures* { sem 𝓛 (fex Telling (λ after. fex (HasLearnt telling result after)
        (λ _. lies_at ReaderRow full_share reader after))) }
{
    learn(&mut *(reader as *mut Reader), octets)
}

/// Learns forms from sample lines.
fn learn(reader: &mut Reader, octets: &[u8]) -> u32
    ensures { HasLearnt reader.old result reader.new }
{
    reader.like(octets) as u32
}

/// Writes the forms of a reader, which stays as it was.
fn write_forms(reader: &mut Reader, forms: &mut LogFormList)
    ensures { HasForms reader.old forms.new.count reader.new }
{
    forms_of(reader, forms);
}

/// Writes the forms.
fn forms_of(reader: &Reader, forms: &mut LogFormList)
    ensures { forms.new.count ≤ FORMS }
{
    forms.count = FORMS as u32;
    forms.reserved = [0; 4];
    'forms: for at in 0..FORMS {
        let Some(read_as) = reader.read_as(at) else {
            forms.count = at as u32;
            return;
        };
        forms.forms[at] = flat_form(&read_as);
    }
}

/// Returns a form as C sees it.
fn flat_form(read_as: &ReadAs<'_>) -> LogReadAs
    ensures { result ≡ flat_form read_as.now }
{
    let front = front_seen(read_as.front);
    LogReadAs {
        from: read_as.from,
        lines: read_as.lines,
        damaged: read_as.damaged,
        is_echo: u8::from(read_as.is_echo),
        front_length: front.len() as u8,
        reserved: [0; 6],
        front: in_room(front),
    }
}

/// Returns the characters of a front that C sees.
fn front_seen(front: &[u8]) -> &[u8]
    ensures seen { result.now ≡ front_seen front.now }
    ensures few { length result.now ≤ SAMPLE_CHARACTERS }
{
    &front[..front.len().min(SAMPLE_CHARACTERS)]
}

/// Returns room that begins with these characters, and has zeros after them.
fn in_room(front: &[u8]) -> [u8; SAMPLE_CHARACTERS]
    requires { length front.now ≤ SAMPLE_CHARACTERS }
    ensures { result ≡ in_room front.now }
{
    let mut room = [0; SAMPLE_CHARACTERS];
    room[..front.len()].copy_from_slice(front);
    room
}
