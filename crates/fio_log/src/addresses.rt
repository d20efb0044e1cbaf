//! Whether the octet before each message of a log is an address, by the first frames that have one without a frame check.
ghost use Rattle.std.specs.Prelude.{◌≡◌};
ghost use Rattle.fio_log.specs.Addresses.{addresses_below, addresses_with, answer_alike, answers_below, answers_with, are_addresses, are_of_stations, is_same_turn, more_if, no_addresses, no_answers, no_polls, no_turns, number_goes_on, one_turn_more, polls_back, polls_seen_below, polls_counted, polls_seen, turns_again, turns_with};

use fio_message::types::{ANSWER, POLL};

/// This many frames show whether the octets before messages are addresses.
pub const SHOWN_FRAMES: u16 = 256;

/// For each answer with another octet than its command more than this many have the same one.
const SAME_ANSWERS: u32 = 8;

/// How many values an octet has.
const VALUES: usize = 256;

/// A frame with an octet before its message, which may be an address.
#[derive(Clone, Copy, Debug, PartialEq, Eq)]
pub struct AddressedFrame {
    /// The octet before the message.
    pub address: u8,
    /// The type of the message.
    pub code: u8,
    /// The octet after the type, in a poll the number of its block; 0 if there is none.
    pub number: u8,
}

/// What is seen of answers.
#[derive(Clone, Copy, Debug)]
struct AddressAnswers {
    /// The latest command.
    command: Option<AddressedFrame>,
    /// How many answers of its type have the octet of the latest command,
    same: u16,
    /// and how many another one.
    others: u16,
}

/// What is seen of turns: frames with one octet, one below the other.
#[derive(Clone, Copy, Debug)]
struct AddressTurns {
    /// The octet of the frame above.
    last: Option<u8>,
    /// How many turns each octet has had, at most two.
    turns: [u8; VALUES],
    /// How many octets have had a turn,
    values: u16,
    /// and how many came back for another one.
    again: u16,
}

/// What is seen of polls.
#[derive(Clone, Copy, Debug)]
struct AddressPolls {
    /// The poll above.
    above: Option<AddressedFrame>,
    /// The number of the latest poll with each octet.
    latest: [Option<u8>; VALUES],
    /// At how many polls with another octet than the poll above, which was there before, the number goes on from the latest poll with
    /// that octet alone,
    own: u16,
    /// and at how many from the poll above alone.
    passing: u16,
}

/// What is seen of the octets before the messages of a log.
#[derive(Clone, Copy, Debug)]
pub struct Addresses {
    /// How many frames are seen.
    frames: u16,
    answers: AddressAnswers,
    turns: AddressTurns,
    polls: AddressPolls,
}

/// Returns one more, if it is so.
fn more_if(is_so: bool, count: u16) -> u16
    ensures { result ≡ more_if is_so count }
{
    if is_so { count.wrapping_add(1) } else { count }
}

impl AddressAnswers {
    /// Returns what is seen above the first frame.
    fn new() -> AddressAnswers
        ensures { result ≡ no_answers }
    {
        AddressAnswers {
            command: None,
            same: 0,
            others: 0,
        }
    }

    /// Takes a frame.
    fn add(&mut self, frame: AddressedFrame)
        ensures { self.new ≡ answers_with self.old frame }
    {
        if frame.code < ANSWER {
            self.command = Some(frame);
        } else {
            self.add_below(self.command, frame);
        }
    }

    /// Takes a frame that is no command, below the latest one.
    fn add_below(&mut self, command: Option<AddressedFrame>, frame: AddressedFrame)
        ensures { self.new ≡ answers_below command self.old frame }
    {
        if let Some(command) = command
            && u16::from(frame.code) == u16::from(command.code) + u16::from(ANSWER)
        {
            let is_same = frame.address == command.address;
            self.same = more_if(is_same, self.same);
            self.others = more_if(!is_same, self.others);
        }
    }

    /// Returns whether almost all answers have the octet of their command.
    fn are_alike(&self) -> bool
        ensures { result ≡ answer_alike self.now }
    {
        u32::from(self.same) > SAME_ANSWERS * u32::from(self.others)
    }
}

/// Returns whether an octet is that of the frame above.
fn is_same_turn(last: Option<u8>, address: u8) -> bool
    ensures { result ≡ is_same_turn last address }
{
    match last {
        Some(last) => last == address,
        None => false,
    }
}

/// Returns how many turns an octet has after one more, at most two.
fn one_turn_more(turns: u8) -> u8
    ensures { result ≡ one_turn_more turns }
{
    if turns < 2 { turns + 1 } else { 2 }
}

impl AddressTurns {
    /// Returns the turns above the first frame.
    fn new() -> AddressTurns
        ensures { result ≡ no_turns }
    {
        AddressTurns {
            last: None,
            turns: [0; VALUES],
            values: 0,
            again: 0,
        }
    }

    /// Takes the octet of a frame.
    fn add(&mut self, address: u8)
        ensures { self.new ≡ turns_with self.old address }
    {
        if !is_same_turn(self.last, address) {
            self.begin(address, self.turns[usize::from(address)]);
        }
    }

    /// Begins a turn of an octet that has had this many.
    fn begin(&mut self, address: u8, count: u8)
        ensures { self.new ≡ turns_again self.old address count }
    {
        self.last = Some(address);
        self.turns[usize::from(address)] = one_turn_more(count);
        self.values = more_if(count == 0, self.values);
        self.again = more_if(count == 1, self.again);
    }
}

/// Returns whether a number goes on from another one: it is the same or the next.
fn number_goes_on(above: u8, number: u8) -> bool
    ensures { result ≡ number_goes_on above number }
{
    number == above || number == above.wrapping_add(1)
}

impl AddressPolls {
    /// Returns what is seen above the first frame.
    fn new() -> AddressPolls
        ensures { result ≡ no_polls }
    {
        AddressPolls {
            above: None,
            latest: [None; VALUES],
            own: 0,
            passing: 0,
        }
    }

    /// Takes a frame.
    fn add(&mut self, frame: AddressedFrame)
        ensures { self.new ≡ polls_seen_below self.old frame }
    {
        if frame.code == POLL {
            self.add_poll(frame);
        }
    }

    /// Takes a poll.
    fn add_poll(&mut self, poll: AddressedFrame)
        ensures { self.new ≡ polls_seen self.old poll }
    {
        let place = usize::from(poll.address);
        self.count(self.above, self.latest[place], poll);
        self.above = Some(poll);
        self.latest[place] = Some(poll.number);
    }

    /// Counts a poll, below the poll above and the latest one with its octet.
    fn count(&mut self, above: Option<AddressedFrame>, latest: Option<u8>, poll: AddressedFrame)
        ensures { self.new ≡ polls_counted above latest self.old poll }
    {
        if let (Some(above), Some(latest)) = (above, latest)
            && above.address != poll.address
        {
            self.count_back(latest, above.number, poll.number);
        }
    }

    /// Counts a poll whose octet comes back.
    fn count_back(&mut self, latest: u8, above: u8, number: u8)
        ensures { self.new ≡ polls_back self.old latest above number }
    {
        let is_own = number_goes_on(latest, number);
        let is_passing = number_goes_on(above, number);
        self.own = more_if(is_own && !is_passing, self.own);
        self.passing = more_if(is_passing && !is_own, self.passing);
    }

    /// Returns whether the octets are no counter.
    fn are_of_stations(&self) -> bool
        ensures { result ≡ are_of_stations self.now }
    {
        self.passing <= self.own
    }
}

impl Addresses {
    /// Returns what is seen above the first frame.
    pub fn new() -> Addresses
        ensures { result ≡ no_addresses }
    {
        Addresses {
            frames: 0,
            answers: AddressAnswers::new(),
            turns: AddressTurns::new(),
            polls: AddressPolls::new(),
        }
    }

    /// Takes a frame; those after the first ones show nothing.
    pub fn add(&mut self, frame: AddressedFrame)
        ensures { self.new ≡ addresses_with self.old frame }
    {
        if self.frames < SHOWN_FRAMES {
            self.add_shown(frame);
        }
    }

    /// Takes one of the first frames.
    fn add_shown(&mut self, frame: AddressedFrame)
        ensures { self.new ≡ addresses_below self.old frame }
    {
        self.frames = self.frames.wrapping_add(1);
        self.answers.add(frame);
        self.turns.add(frame.address);
        self.polls.add(frame);
    }

    /// Returns whether there were frames, but not yet all that show whether the octets are addresses.
    pub(crate) fn wants_more(&self) -> bool {
        0 < self.frames && self.frames < SHOWN_FRAMES
    }

    /// Returns whether the octets are addresses: they are all the same; or answers have those of their commands, at least two come back
    /// after others, and they are no counter.
    pub fn are_addresses(&self) -> bool
        ensures { result ≡ are_addresses self.now }
    {
        self.turns.values < 2
            || self.answers.are_alike() && self.turns.again >= 2 && self.polls.are_of_stations()
    }
}
