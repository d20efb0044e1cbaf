//! Verdicts of the reader of logs, put into a batch.
ghost use Rattle.std.specs.Prelude.{◌≡◌, ◌+◌, ◌-◌, ◌++◌, ◌≤◌, ◌∷◌, [], List, length, map, true};
ghost use Rattle.std.specs.List.{All};
ghost use Rattle.fio_log.specs.Lines.{Text};
ghost use Rattle.fio_log.specs.OwnTexts.{spells};
ghost use Rattle.fio_log.specs.Frames.{AreFew};
ghost use Rattle.fio_log.specs.Telling.{Telling, frames_of, places_of};
ghost use Rattle.fio_c.specs.declared.log_batch.TheConstants.{LOG_OCTETS, LOG_VERDICTS, VERDICT_OCTETS};
ghost use Rattle.fio_c.specs.Logs.{Content, HasNoneDue, HasRoomFirst, HasVerdicts, Holds, flat_place, flat_told, flat_verdict, has_room, kind_number, microseconds_at, reason_number, side_number, time_kind_number, moment_kind_number};
ghost use Rattle.fio_c.specs.Told.{told_by};

use crate::log_batch::{FlatLogPlace, LOG_FRAMES, LOG_PLACES, LogBatch, LogVerdict};
use fio_log::{Direction, Kind, LineVerdict, Moment, Place, Reader, Reason, TimeKind};

/// Puts the verdicts that are due into a batch, until it has no room for another one.
pub(crate) fn fill(reader: &mut Reader, batch: &mut LogBatch)
    ensures verdicts { (first : Telling) (whole : List Text) → HasVerdicts first whole batch.old reader.old
        → HasVerdicts first whole batch.new reader.new }
    ensures making { reader.new.making ≡ reader.old.making }
    ensures read { reader.new.read ≡ reader.old.read }
    ensures is_ended { reader.new.is_ended ≡ reader.old.is_ended }
    ensures room { HasRoomFirst batch.old → HasRoomFirst batch.new }
    ensures due { has_room batch.new ≡ true → HasNoneDue reader.new }
{
    'verdicts: while batch.has_room() {
        let Some(verdict) = reader.verdict() else {
            return;
        };
        add(&verdict, reader, batch);
    }
}

/// Adds the verdict that a reader returned last, with its frames and places.
fn add(verdict: &LineVerdict, reader: &Reader, batch: &mut LogBatch)
    requires room { has_room batch.old ≡ true }
    requires few { AreFew (frames_of reader.now) (places_of reader.now) }
    ensures told { (content : Content) → Holds batch.old content → Holds batch.new (record {
      verdicts = content.verdicts ++ flat_told (told_by verdict.now reader.now) ∷ [];
      frames = content.frames ++ frames_of reader.now;
      places = content.places ++ map flat_place (places_of reader.now);
    }) }
    ensures spelled { All (λ frame. spells frame ≡ true) (frames_of reader.now) }
    ensures count { batch.new.verdict_count ≡ batch.old.verdict_count + 1 }
{
    let frames = add_frames(reader, batch);
    let places = add_places(reader, batch);
    batch.push_verdict(told_from(verdict, frames, places));
}

/// Adds the frames of the last verdict, and returns their number.
fn add_frames(reader: &Reader, batch: &mut LogBatch) -> u32
    requires frames { batch.old.frame_count ≤ LOG_VERDICTS }
    requires octets { batch.old.octet_count ≤ LOG_OCTETS - VERDICT_OCTETS }
    requires few { AreFew (frames_of reader.now) (places_of reader.now) }
    ensures all { result ≡ length (frames_of reader.now) }
    ensures added { (content : Content) → Holds batch.old content
        → Holds batch.new (record content { frames = content.frames ++ frames_of reader.now }) }
    ensures spelled { All (λ frame. spells frame ≡ true) (frames_of reader.now) }
    ensures verdicts { batch.new.verdict_count ≡ batch.old.verdict_count }
    ensures places { batch.new.place_count ≡ batch.old.place_count }
{
    'frames: for index in 0..LOG_FRAMES {
        let Some(octets) = reader.frame(index) else {
            return index as u32;
        };
        batch.push_frame(octets);
    }
    LOG_FRAMES as u32
}

/// Adds the places of the last verdict, and returns their number.
fn add_places(reader: &Reader, batch: &mut LogBatch) -> u32
    requires room { batch.old.place_count ≤ LOG_VERDICTS }
    requires few { AreFew (frames_of reader.now) (places_of reader.now) }
    ensures all { result ≡ length (places_of reader.now) }
    ensures added { (content : Content) → Holds batch.old content
        → Holds batch.new (record content { places = content.places ++ map flat_place (places_of reader.now) }) }
    ensures verdicts { batch.new.verdict_count ≡ batch.old.verdict_count }
{
    'places: for index in 0..LOG_PLACES {
        let Some(place) = reader.place(index) else {
            return index as u32;
        };
        batch.push_place(flat_place(place));
    }
    LOG_PLACES as u32
}

/// Returns a verdict as C sees it.
fn told_from(verdict: &LineVerdict, frames: u32, places: u32) -> LogVerdict
    ensures { result ≡ flat_verdict verdict.now frames places }
{
    LogVerdict {
        line: verdict.line,
        time: microseconds_at(verdict.time),
        frames,
        places,
        kind: kind_number(verdict.kind),
        reason: reason_number(verdict.reason),
        time_kind: moment_kind_number(verdict.time),
        said: side_number(verdict.said),
        address: verdict.header.address,
        control: verdict.header.control,
        header: verdict.header.count,
        foreign: verdict.foreign,
    }
}

/// Returns the number of a kind.
fn kind_number(kind: Kind) -> u8
    ensures { result ≡ kind_number kind }
{
    match kind {
        Kind::Blank => 0,
        Kind::Frames => 1,
        Kind::Part => 2,
        Kind::Possible => 3,
        Kind::Damaged => 4,
        Kind::PassedOver => 5,
    }
}

/// Returns the number of a reason.
fn reason_number(reason: Reason) -> u8
    ensures { result ≡ reason_number reason }
{
    match reason {
        Reason::None => 0,
        Reason::NoOctets => 1,
        Reason::NoMessage => 2,
        Reason::NoForm => 3,
        Reason::More => 4,
        Reason::UnreadFrame => 5,
        Reason::TooLong => 6,
        Reason::BadLine => 7,
        Reason::Loss => 10,
        Reason::Heading => 11,
        Reason::Copy => 13,
        Reason::Broken => 14,
    }
}

/// Returns the microseconds of a moment; 0 if there is none.
fn microseconds_at(time: Option<Moment>) -> u64
    ensures { result ≡ microseconds_at time }
{
    match time {
        None => 0,
        Some(moment) => moment.microseconds,
    }
}

/// Returns the number of what a moment counts from; 0 if there is none.
fn moment_kind_number(time: Option<Moment>) -> u8
    ensures { result ≡ moment_kind_number time }
{
    match time {
        None => 0,
        Some(moment) => time_kind_number(moment.kind),
    }
}

/// Returns the number of what a time counts from.
fn time_kind_number(kind: TimeKind) -> u8
    ensures { result ≡ time_kind_number kind }
{
    match kind {
        TimeKind::Date => 1,
        TimeKind::Day => 2,
        TimeKind::Start => 3,
    }
}

/// Returns the number of who sent octets.
fn side_number(said: Option<Direction>) -> u8
    ensures { result ≡ side_number said }
{
    match said {
        None => 0,
        Some(Direction::Command) => 1,
        Some(Direction::Answer) => 2,
    }
}

/// Returns a place as C sees it.
fn flat_place(place: Place) -> FlatLogPlace
    ensures { result ≡ flat_place place }
{
    FlatLogPlace {
        line: place.line,
        start: place.start.min(u32::MAX as usize) as u32,
        end: place.end.min(u32::MAX as usize) as u32,
    }
}
