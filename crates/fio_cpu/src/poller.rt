//! The poller: the CPU's number and its record.
ghost use Rattle.std.specs.Prelude.{◌≡◌, [], OnOk, OnErr, IfOk, Some};
ghost use Rattle.fio_message.specs.Commands.{SpellsCommand};
ghost use Rattle.fio_message.specs.Decoding.{answered_block, decoded_answer, block_in};
ghost use Rattle.fio_message.specs.Views.{answer_of};
ghost use Rattle.fio_message.specs.declared.commands.Command.TheVariants as commands;
ghost use Rattle.fio_cpu.specs.Hearing.{heard_answer, heard_as, after_hearing, AddsItems};

use crate::hearing::{hear_frame, hear_read_answer};
use crate::record::Item;
use fio_message::{AnswerView, Command, DecodeError, Frame, Memory, encode_command};
use std::alloc::Global;
use std::marker::Model;

/// What a poller heard: the first of these that applies (own profile).
#[derive(Clone, Copy, Debug, PartialEq, Eq, Hash)]
pub enum Heard {
    /// The octets spell no answer, for this reason.
    Unreadable(DecodeError),
    /// The octets spell an answer that is not a block.
    Other {
        /// The type of the answer: its first octet.
        code: u8,
    },
    /// The octets are a block answer whose number is not the CPU's present one. It is ignored.
    Stale {
        /// The block number that it carries.
        block: u8,
    },
    /// The octets are a block answer with the present number. It is taken whole.
    Block {
        /// How many entries it has, at most 255.
        entries: usize,
        /// Its status, with C, F, E and G in bits 3 to 0.
        status: u8,
    },
}

/// The CPU's end: the block number that its next poll carries, and the record of everything that it has taken.
#[derive(Drop)]
pub struct Poller {
    number: u8,
    items: Vec<Item>,
}

impl Model for Poller {
    ghost use Rattle.fio_cpu.specs.Poller.{Polling};

    ghost Value = { Polling };

    ghost view = { λ poller. record { number = poller.number; items = poller.items.items } };
}

impl Poller {
    /// Returns a poller whose record is empty and whose first block number is `first`. It allocates nothing.
    pub fn new(alloc: Global, first: u8) -> Poller
        ensures { result ≡ record { number = first; items = [] } }
    {
        Poller {
            number: first,
            items: Vec::new(alloc),
        }
    }

    /// Returns the block number of the next poll, from 0 to 255. It rises by one modulo 256 with each block that is taken,
    /// and at no other time (own profile).
    pub fn number(&self) -> u8
        ensures { result ≡ self.now.number }
    {
        self.number
    }

    /// Returns a poll with the present block number (TEES 2009, command 54). Nothing changes: until an answer with this
    /// number is taken, each poll carries the same number (own profile).
    pub fn poll(&self) -> Frame
        ensures { SpellsCommand (commands.Poll self.now.number) result.items }
    {
        encode_command(&Command::Poll { block: self.number })
    }

    /// Returns the record: everything that was taken, in order.
    pub fn items(&self) -> &[Item]
        ensures { result.now ≡ self.now.items }
    {
        self.items.as_slice()
    }

    /// Hears the octets of a frame. A block answer (TEES 2009, answer 182) with the present number
    /// is taken whole; anything else is reported and changes nothing (own profile).
    ///
    /// Taking a block appends one gap mark to the record if F is set, then all its entries in
    /// order, each with its time in milliseconds, and raises the number by one modulo 256.
    ///
    /// `Memory` if the record had to grow and there was no memory: only for a block answer with the present number that has
    /// F or entries. Record and number are then as before, so the same octets may be heard again.
    pub fn hear(&mut self, octets: &[u8]) -> Result<Heard, Memory>
        ensures heard { IfOk result (λ heard.
            heard ≡ heard_as self.old.number (decoded_answer octets.now)) }
        ensures taken { OnOk result (self.new ≡ after_hearing self.old (block_in octets.now)) }
        ensures unchanged { OnErr result (self.new ≡ self.old) }
        ensures memory { OnErr result (AddsItems self.old (block_in octets.now)) }
    {
        hear_frame(&mut self.number, &mut self.items, octets)
    }

    /// Hears an answer that has been read already, as `hear` hears its octets.
    ///
    /// # Errors
    /// `Memory` if `hear` would return it.
    #[inline(always)]
    pub fn hear_answer(&mut self, answer: &AnswerView<'_>) -> Result<Heard, Memory>
        ensures heard { IfOk result (λ heard.
            heard ≡ heard_answer self.old.number (answer_of answer.now)) }
        ensures taken { OnOk result
            (self.new ≡ after_hearing self.old (answered_block (Some (answer_of answer.now)))) }
        ensures unchanged { OnErr result (self.new ≡ self.old) }
        ensures memory { OnErr result
            (AddsItems self.old (answered_block (Some (answer_of answer.now)))) }
    {
        hear_read_answer(&mut self.number, &mut self.items, answer)
    }
}
