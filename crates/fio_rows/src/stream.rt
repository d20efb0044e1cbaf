//! Streams: octets that go on from line to line, divided into messages by what follows them, or by flags.
ghost use Rattle.std.specs.Prelude.{◌≡◌, ◌≢◌, ◌≤◌, ◌<◌, ◌↔◌, [], ◌∷◌, ◌++◌, drop, length, false, true, IsTrue};
ghost use Rattle.std.specs.Bool.{OnTrue, OnFalse};
ghost use Rattle.fio_rows.specs.Dividing.{divided_at, given_up, may_stand, next_in_stream};
ghost use Rattle.fio_rows.specs.Frames.{flag_above};
ghost use Rattle.fio_rows.specs.Streams.{Divides, command_after, command_above, last_in};

use crate::dividing::{FREE, FULL, KEPT, Next, is_followed, next_beginning};
use arrayvec::ArrayVec;
use fio_form::{Octets, Size, is_answer, is_message, size_of};

/// A stream.
#[derive(Drop)]
pub struct Stream {
    /// The octets that are taken and not divided yet.
    pub octets: ArrayVec<u8, KEPT>,
    /// The first octets of the message above, if it is a command.
    command: ArrayVec<u8, 2>,
    /// Whether the last octet that was divided off between flags is one.
    pub(crate) is_flagged: bool,
    /// The message that was divided off last.
    pub message: Octets,
}

impl Stream {
    /// Returns a stream without octets.
    pub fn new() -> Stream
        ensures octets { result.octets.items ≡ [] }
        ensures command { command_above result ≡ [] }
        ensures flag { flag_above result ≡ false }
    {
        Stream {
            octets: ArrayVec::new(),
            command: ArrayVec::new(),
            is_flagged: false,
            message: ArrayVec::new(),
        }
    }

    /// Forgets all octets.
    pub fn clear(&mut self)
        ensures octets { self.new.octets.items ≡ [] }
        ensures command { command_above self.new ≡ [] }
        ensures flag { flag_above self.new ≡ false }
    {
        self.octets.clear();
        self.command.clear();
        self.is_flagged = false;
        self.message.clear();
    }

    /// Takes an octet; returns whether there was room.
    pub fn take(&mut self, octet: u8) -> bool
        ensures room { IsTrue result ↔ (length self.old.octets.items < KEPT) }
        ensures taken { OnTrue result (self.new.octets.items ≡ self.old.octets.items ++ octet ∷ []) }
        ensures refused { OnFalse result (self.new.octets.items ≡ self.old.octets.items) }
        ensures command { command_above self.new ≡ command_above self.old }
        ensures flag { flag_above self.new ≡ flag_above self.old }
        ensures message { self.new.message ≡ self.old.message }
    {
        self.octets.try_push(octet).is_ok()
    }

    /// Drops the first octets, and forgets the command above them.
    pub(crate) fn drop_first(&mut self, count: usize)
        requires { count ≤ length self.old.octets.items }
        ensures octets { self.new.octets.items ≡ drop count self.old.octets.items }
        ensures command { command_above self.new ≡ [] }
        ensures flag { flag_above self.new ≡ flag_above self.old }
        ensures message { self.new.message ≡ self.old.message }
    {
        let mut left = ArrayVec::new();
        let (_, rest) = self.octets.split_at(count);
        let _fits = left.try_extend_from_slice(rest);
        self.octets = left;
        self.command.clear();
    }

    /// Returns whether the first octets may be there: an answer is below its command.
    fn is_known_answer(&self) -> bool
        ensures { result ≡ may_stand (command_above self.now) self.now.octets.items }
    {
        match self.octets.as_slice() {
            [first @ 128..=255, second, ..] => is_answer(&self.command, &[*first, *second]),
            _ => true,
        }
    }

    /// Drops the octets before the next place where the stream goes on.
    fn give_up(&mut self) -> Next
        ensures exact { result ≡ given_up self.old.octets.items }
        ensures divided { Divides result self.old.octets.items self.new.message.items self.new.octets.items }
        ensures command { command_above self.new ≡ command_after result self.new.message.items (command_above self.old) }
    {
        match next_beginning(&self.octets) {
            Some(at) => {
                self.drop_first(at);
                Next::Broken(at)
            }
            None if self.octets.len() >= FULL => {
                let count = self.octets.len() - FREE;
                self.drop_first(count);
                Next::Broken(count)
            }
            None => Next::Wait,
        }
    }

    /// Divides off the first octets, if they are a message.
    #[tactic(auto, unfolding(crate::specs::Dividing::divided_at))]
    fn divide_off(&mut self, end: usize) -> Next
        requires { end ≤ length self.old.octets.items }
        ensures exact { result ≡ divided_at end self.old.octets.items }
        ensures divided { Divides result self.old.octets.items self.new.message.items self.new.octets.items }
        ensures command { command_above self.new ≡ command_after result self.new.message.items (command_above self.old) }
    {
        let (message, _) = self.octets.split_at(end);
        if !is_message(message) {
            return self.give_up();
        }
        self.message.clear();
        let _fits = self.message.try_extend_from_slice(message);
        self.drop_first(end);
        if let [first @ 0..=127, rest @ ..] = self.message.as_slice() {
            let _fits = self.command.try_push(*first);
            if let [second, ..] = rest {
                let _fits = self.command.try_push(*second);
            }
        }
        Next::Message(end)
    }

    /// Divides off the last message, after which nothing comes.
    #[tactic(auto, unfolding(crate::specs::Streams::last_in))]
    pub fn end(&mut self) -> Next
        ensures exact { result ≡ last_in (command_above self.old) self.old.octets.items }
        ensures divided { Divides result self.old.octets.items self.new.message.items self.new.octets.items }
        ensures command { command_above self.new ≡ command_after result self.new.message.items (command_above self.old) }
    {
        match size_of(&self.octets) {
            Size::Known(size) if size == self.octets.len() && self.is_known_answer() =>
                self.divide_off(size),
            _ => Next::Wait,
        }
    }

    /// Divides off the next message, by what follows it.
    #[tactic(auto, using(crate::proofs::Divisions::divides_less), unfolding(crate::specs::Dividing::next_in_stream))]
    pub fn divide(&mut self) -> Next
        ensures exact { result ≡ next_in_stream (command_above self.old) self.old.octets.items }
        ensures divided { Divides result self.old.octets.items self.new.message.items self.new.octets.items }
        ensures command { command_above self.new ≡ command_after result self.new.message.items (command_above self.old) }
        ensures less { result ≢ Next.Wait → length self.new.octets.items < length self.old.octets.items }
    {
        if !self.is_known_answer() {
            return self.give_up();
        }
        match size_of(&self.octets) {
            Size::Unknown => Next::Wait,
            Size::Known(size) if size > self.octets.len() => Next::Wait,
            Size::Known(size) => {
                let (message, rest) = self.octets.split_at(size);
                match is_followed(message, rest) {
                    None => Next::Wait,
                    Some(true) => self.divide_off(size),
                    Some(false) => self.give_up(),
                }
            }
            Size::Any => match next_beginning(&self.octets) {
                Some(end) if end < FREE => self.divide_off(end),
                None if self.octets.len() < FULL => Next::Wait,
                _ => self.give_up(),
            },
            Size::None => self.give_up(),
        }
    }
}
