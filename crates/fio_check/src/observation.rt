//! What a line of a transcript says to the rules, read from its frame.
ghost use Rattle.std.specs.Prelude.{◌≡◌, None};
ghost use Rattle.std.specs.List.{list_any};
ghost use Rattle.fio_message.specs.Decoding.{answer_in, command_in};
ghost use Rattle.fio_message.specs.Views.{answer_of, command_of, entries_of, items_of};
ghost use Rattle.fio_check.specs.Observations.{is_absent, observation_in, observation_of, observation_of_answer, observation_of_command, observation_on, says_load};

use crate::line::Line;
use fio_message::types::{ANSWER, CONFIGURE_INPUTS_ANSWER, LOAD_COUNTER_ANSWER};
use fio_message::{
    AnswerView, CommandView, EntriesView, INPUTS, InputNumber, ItemsView, read_answer,
    read_command, says_error,
};

/// What a line says to the rules. An input is absent if no module of this profile has it.
#[derive(Clone, Copy, Debug, PartialEq, Eq, Hash)]
pub enum Observation {
    /// The octets are no message of the line's direction.
    Unreadable,
    /// A poll.
    Poll {
        /// The block number.
        number: u8,
    },
    /// Any other command.
    Command {
        /// The type of the answer to the command.
        answer: u8,
        /// Whether the command is a configuration that names an absent input.
        names_absent: bool,
    },
    /// A block answer.
    Block {
        /// The block number.
        number: u8,
        /// The status of the block.
        status: u8,
        /// How many entries the block has.
        entries: usize,
        /// Whether an entry names an absent input.
        names_absent: bool,
    },
    /// Any other answer.
    Answer {
        /// The type of the answer.
        code: u8,
        /// Whether the answer says that a configuration was taken.
        accepts: bool,
    },
}

impl Observation {
    /// Returns what a line says.
    pub fn on(line: &Line) -> Observation
        ensures { result ≡ observation_on line.now }
    {
        Observation::of(line.from_cpu, line.octets.as_slice())
    }

    /// Returns what a frame that the CPU sent or heard says.
    pub fn of(from_cpu: bool, octets: &[u8]) -> Observation
        ensures { result ≡ observation_in from_cpu octets.now }
    {
        if from_cpu {
            Observation::sent(octets)
        } else {
            Observation::heard(octets)
        }
    }

    /// Returns what a frame that the CPU sent says.
    fn sent(octets: &[u8]) -> Observation
        ensures { result ≡ observation_of (command_in octets.now) None }
    {
        match read_command(octets) {
            Ok(command) => Observation::of_command(&command),
            Err(_) => Observation::Unreadable,
        }
    }

    /// Returns what a decoded command says.
    pub fn of_command(command: &CommandView<'_>) -> Observation
        ensures { result ≡ observation_of_command (command_of command.now) }
    {
        match *command {
            CommandView::Poll { block } => Observation::Poll { number: block },
            CommandView::ConfigureInputs { items } => Observation::Command {
                answer: CONFIGURE_INPUTS_ANSWER,
                names_absent: names_absent_item(&items),
            },
            _ => Observation::Command {
                answer: command.code() + ANSWER,
                names_absent: false,
            },
        }
    }

    /// Returns whether a frame that says this is a load of the counter.
    pub fn is_load(self) -> bool
        ensures { result ≡ says_load self }
    {
        matches!(self, Observation::Command { answer, .. } if answer == LOAD_COUNTER_ANSWER)
    }

    /// Returns what a frame that the CPU heard says.
    fn heard(octets: &[u8]) -> Observation
        ensures { result ≡ observation_of None (answer_in octets.now) }
    {
        match read_answer(octets) {
            Ok(answer) => Observation::of_answer(&answer),
            Err(_) => Observation::Unreadable,
        }
    }

    /// Returns what a decoded answer says.
    pub fn of_answer(answer: &AnswerView<'_>) -> Observation
        ensures { result ≡ observation_of_answer (answer_of answer.now) }
    {
        match *answer {
            AnswerView::Block {
                block,
                entries,
                status,
                ..
            } => Observation::Block {
                number: block,
                status,
                entries: entries.len(),
                names_absent: names_absent_entry(&entries),
            },
            AnswerView::ConfigureInputs { status } => Observation::Answer {
                code: CONFIGURE_INPUTS_ANSWER,
                accepts: !says_error(status),
            },
            _ => Observation::Answer {
                code: answer.code(),
                accepts: false,
            },
        }
    }
}

/// Returns whether an entry names an absent input.
fn names_absent_entry(entries: &EntriesView<'_>) -> bool
    ensures { result ≡ list_any (λ entry. is_absent entry.input) (entries_of entries.now) }
{
    for entry in entries.iter() {
        if is_absent(entry.input) {
            return true;
        }
    }
    false
}

/// Returns whether an item names an absent input.
pub(crate) fn names_absent_item(items: &ItemsView<'_>) -> bool
    ensures { result ≡ list_any (λ item. is_absent item.input) (items_of items.now) }
{
    for item in items.iter() {
        if is_absent(item.input) {
            return true;
        }
    }
    false
}

/// Returns whether an input is above 63, so that no module of this profile has it.
fn is_absent(input: InputNumber) -> bool
    ensures { result ≡ is_absent input }
{
    usize::from(input.get()) >= INPUTS
}
