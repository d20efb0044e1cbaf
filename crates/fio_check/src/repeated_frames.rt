//! Frames that occur twice: how many answers of a log have the octets of the frame directly above.
ghost use Rattle.std.specs.Prelude.{◌≡◌};
ghost use Rattle.std.specs.Str.{bytes_eq};
ghost use Rattle.fio_check.specs.LogSigns.{are_contrary, is_of_both_ends, repeats_above, is_second, is_twice, no_repeats, octets_kept, one_more_if, repeats_with, repeats_with_answer};

use fio_message::Frame;

/// What is kept of the frames above, to detect a log in which each frame occurs twice.
#[derive(Debug, Drop)]
pub struct RepeatedFrames {
    /// The octets of the frame directly above; none above the first frame, or if that frame is longer than any message.
    pub above: Frame,
    /// Whether that frame's line says that the CPU's end sent it.
    pub said: Option<bool>,
    /// Whether that frame repeats the octets of the one above it.
    pub again: bool,
    /// The number of answers, up to 2^32 - 1.
    pub answers: u32,
    /// How many of them are the second of equal frames, up to 2^32 - 1.
    pub repeated: u32,
    /// For how many of those the two lines name different senders, up to 2^32 - 1.
    pub contrary: u32,
}

impl RepeatedFrames {
    /// Returns what is kept above the first frame.
    pub fn new() -> RepeatedFrames
        ensures { result ≡ no_repeats }
    {
        RepeatedFrames {
            above: Frame::new(),
            said: None,
            again: false,
            answers: 0,
            repeated: 0,
            contrary: 0,
        }
    }

    /// Takes a frame. `from_cpu` says whether the CPU's end sent it, and `said` whether its line says so, if the line names
    /// the sender.
    pub fn add(&mut self, from_cpu: bool, said: Option<bool>, octets: &[u8])
        ensures { self.new ≡ repeats_with self.old from_cpu said octets.now }
    {
        let again = self.is_repeated(octets);
        if !from_cpu {
            self.add_answer(said, octets);
        }
        self.above = octets_kept(octets);
        self.said = said;
        self.again = again;
    }

    /// Counts an answer.
    fn add_answer(&mut self, said: Option<bool>, octets: &[u8])
        ensures { self.new ≡ repeats_with_answer self.old said octets.now }
    {
        let second = self.is_second(octets);
        let contrary = second && are_contrary(self.said, said);
        self.answers = one_more_if(true, self.answers);
        self.repeated = one_more_if(second, self.repeated);
        self.contrary = one_more_if(contrary, self.contrary);
    }

    /// Returns whether a frame is the second of equal ones.
    fn is_second(&self, octets: &[u8]) -> bool
        ensures { result ≡ is_second self.now octets.now }
    {
        self.is_repeated(octets) && !self.again
    }

    /// Returns whether a frame has the octets of the frame directly above.
    fn is_repeated(&self, octets: &[u8]) -> bool
        ensures { result ≡ repeats_above self.now octets.now }
    {
        !octets.is_empty() && are_same(self.above.as_slice(), octets)
    }

    /// Returns whether each frame seems to occur twice: of 8 or more answers at least two of five are the second of equal
    /// frames.
    pub fn is_twice(&self) -> bool
        ensures { result ≡ is_twice self.now }
    {
        let (answers, repeated) = (self.answers, self.repeated);
        answers >= 8 && 2 * u64::from(answers) <= 5 * u64::from(repeated)
    }

    /// Returns whether the logs of both ends seem to be merged, if each frame occurs twice: for at least half of the repeated
    /// answers the two lines name different senders.
    pub fn is_of_both_ends(&self) -> bool
        ensures { result ≡ is_of_both_ends self.now }
    {
        let (repeated, contrary) = (self.repeated, self.contrary);
        u64::from(repeated) <= 2 * u64::from(contrary)
    }
}

/// Returns whether octets are the same.
fn are_same(octets: &[u8], other: &[u8]) -> bool
    ensures { result ≡ bytes_eq octets.now other.now }
{
    octets == other
}

/// Returns the octets that are kept of a frame: all of them, or none if they are more than a message can have.
fn octets_kept(octets: &[u8]) -> Frame
    ensures { result.items ≡ octets_kept octets.now }
{
    let mut kept = Frame::new();
    // If there is no room, none is kept.
    let _fits = kept.try_extend_from_slice(octets);
    kept
}

/// Returns whether two lines name different senders.
fn are_contrary(said: Option<bool>, other: Option<bool>) -> bool
    ensures { result ≡ are_contrary said other }
{
    match (said, other) {
        (Some(by_cpu), Some(other)) => by_cpu != other,
        _ => false,
    }
}

/// Returns one more, up to 2^32 - 1, if it is so.
pub(crate) fn one_more_if(is_so: bool, count: u32) -> u32
    ensures { result ≡ one_more_if is_so count }
{
    if is_so {
        count.saturating_add(1)
    } else {
        count
    }
}
