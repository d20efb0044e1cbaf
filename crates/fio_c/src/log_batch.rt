//! What the reader of logs says of lines, in memory of the caller.
ghost use Rattle.std.specs.Prelude.{◌≡◌, ◌<◌, ◌≤◌, ◌+◌, ◌^◌, true, length};

use crate::written::write_at;

/// The most verdicts of a batch.
pub const LOG_VERDICTS: usize = 4_096;

/// The most octets of joined lines, and so the most frames and places of a verdict.
const VERDICT_OCTETS: usize = 16_384;

/// The most frames of a batch.
pub const LOG_FRAMES: usize = LOG_VERDICTS + VERDICT_OCTETS;

/// The most places of a batch.
pub const LOG_PLACES: usize = LOG_VERDICTS + VERDICT_OCTETS;

/// The most octets of the frames of a batch.
pub const LOG_OCTETS: usize = 4 * VERDICT_OCTETS;

/// The kind of a line that gives frames.
pub(crate) const FRAMES: u8 = 1;

/// What the reader says of a line of a log.
#[derive(Clone, Copy)]
#[repr(C)]
pub struct LogVerdict {
    /// The number of the line, from 1.
    pub line: u64,
    /// The time in microseconds, from what `time_kind` says; 0 if there is none.
    pub time: u64,
    /// How many frames the line gives, with those of the lines below that continue it.
    pub frames: u32,
    /// At how many places the octets of these frames are written.
    pub places: u32,
    /// What the line is: one of `FIO2070_LOG_BLANK` and those after it.
    pub kind: u8,
    /// Why it gives no frame: one of `FIO2070_LOG_NO_OCTETS` and those after it, else 0.
    pub reason: u8,
    /// What the time counts from: one of `FIO2070_LOG_NO_TIME` and those after it.
    pub time_kind: u8,
    /// Who sent the octets of the frames, as the line says: one of `FIO2070_LOG_NO_SIDE` and those after it.
    pub said: u8,
    /// The address of its frames, which stands before their messages, if all have one and the same; else 0.
    pub address: u8,
    /// The control octet, which follows the address; of a line with `foreign` 55, 180 or 181 how many octets of inputs or of outputs
    /// it has; else 0.
    pub control: u8,
    /// How many of these there are: 0, 1 for the address alone, or 2.
    pub header: u8,
    /// The type of the message that the line has in place of frames, if this protocol has none of that type; or 55, 180 or 181, if it is of
    /// a module of another size, with 1 to 32 octets of inputs or of outputs other than 8; or 183, if its only frame answers such a 55 in
    /// the line above; else 0. Such a line is passed over if that is no damage, and then what frames it gives are none of the link.
    pub foreign: u8,
}

/// Where octets are written in a log. Places in a line are counted in octets of UTF-8, without colour sequences, NUL
/// and byte order marks.
#[derive(Clone, Copy)]
#[repr(C)]
pub struct FlatLogPlace {
    /// The number of the line, from 1.
    pub line: u64,
    /// The index of the first octet in the line, with its mark, bracket or quote.
    pub start: u32,
    /// The index after the last octet.
    pub end: u32,
}

/// Verdicts on lines of a log, with their frames and places, each at the front of its array and in order.
#[derive(Clone, Copy)]
#[repr(C)]
pub struct LogBatch {
    /// The number of verdicts.
    pub verdict_count: u32,
    /// The number of frames of these verdicts.
    pub frame_count: u32,
    /// The number of octets of these frames.
    pub octet_count: u32,
    /// The number of places.
    pub place_count: u32,
    /// The verdicts.
    pub verdicts: [LogVerdict; LOG_VERDICTS],
    /// The places of all verdicts, verdict after verdict.
    pub places: [FlatLogPlace; LOG_PLACES],
    /// How many octets each frame has.
    pub lengths: [u16; LOG_FRAMES],
    /// The octets of all frames, frame after frame.
    pub octets: [u8; LOG_OCTETS],
}

impl LogBatch {
    ghost use Rattle.std.specs.Prelude.{[], ◌∷◌, ◌++◌};
    ghost use Rattle.fio_c.specs.Logs.{Content, Holds, has_room};

    /// Removes everything.
    pub(crate) fn clear(&mut self)
        ensures empty { Holds self.new (record { verdicts = []; frames = []; places = [] }) }
        ensures room { has_room self.new ≡ true }
        ensures verdicts { self.new.verdict_count ≡ 0 }
        ensures frames { self.new.frame_count ≡ 0 }
        ensures octets { self.new.octet_count ≡ 0 }
    {
        self.verdict_count = 0;
        self.frame_count = 0;
        self.octet_count = 0;
        self.place_count = 0;
    }

    /// Returns whether there is room for any verdict.
    pub(crate) fn has_room(&self) -> bool
        ensures { result ≡ has_room self.now }
    {
        (self.verdict_count as usize) < LOG_VERDICTS
            && self.frame_count as usize <= LOG_VERDICTS
            && self.place_count as usize <= LOG_VERDICTS
            && self.octet_count as usize <= LOG_OCTETS - VERDICT_OCTETS
    }

    /// Adds a verdict.
    pub(crate) fn push_verdict(&mut self, verdict: LogVerdict)
        requires { self.old.verdict_count < LOG_VERDICTS }
        ensures added { (content : Content) → Holds self.old content
            → Holds self.new (record content { verdicts = content.verdicts ++ verdict ∷ [] }) }
        ensures count { self.new.verdict_count ≡ self.old.verdict_count + 1 }
        ensures frames { self.new.frame_count ≡ self.old.frame_count }
        ensures octets { self.new.octet_count ≡ self.old.octet_count }
    {
        let at = self.verdict_count as usize;
        self.verdicts[at] = verdict;
        self.verdict_count += 1;
    }

    /// Adds a frame.
    pub(crate) fn push_frame(&mut self, octets: &[u8])
        requires frames { self.old.frame_count < LOG_FRAMES }
        requires octets { self.old.octet_count + length octets.now ≤ LOG_OCTETS }
        requires short { length octets.now < 2 ^ 16 }
        ensures added { (content : Content) → Holds self.old content
            → Holds self.new (record content { frames = content.frames ++ octets.now ∷ [] }) }
        ensures frames { self.new.frame_count ≡ self.old.frame_count + 1 }
        ensures octets { self.new.octet_count ≡ self.old.octet_count + length octets.now }
        ensures verdicts { self.new.verdict_count ≡ self.old.verdict_count }
        ensures places { self.new.place_count ≡ self.old.place_count }
    {
        let at = self.frame_count as usize;
        let start = self.octet_count as usize;
        self.lengths[at] = octets.len() as u16;
        write_at(start, octets, &mut self.octets);
        self.frame_count += 1;
        self.octet_count = (start + octets.len()) as u32;
    }

    /// Adds a place.
    pub(crate) fn push_place(&mut self, place: FlatLogPlace)
        requires { self.old.place_count < LOG_PLACES }
        ensures added { (content : Content) → Holds self.old content
            → Holds self.new (record content { places = content.places ++ place ∷ [] }) }
        ensures count { self.new.place_count ≡ self.old.place_count + 1 }
        ensures verdicts { self.new.verdict_count ≡ self.old.verdict_count }
    {
        let at = self.place_count as usize;
        self.places[at] = place;
        self.place_count += 1;
    }
}
