//! The record of a transcript's CPU, and the first breach of a rule on content, frame by frame.
ghost use Rattle.std.specs.Prelude.{◌≡◌, ◌<◌, ◌^◌, Some, None, OnOk, true, false};
ghost use Rattle.std.specs.Option.{option_or};
ghost use Rattle.fio_message.specs.Decoding.{answer_in, command_in};
ghost use Rattle.fio_message.specs.Views.{answer_of, command_of};
ghost use Rattle.fio_check.specs.Lines.{TranscriptLine};
ghost use Rattle.fio_check.specs.Pollers.{poller_below};
ghost use Rattle.fio_tool.specs.Record.{items_of_cpu};
ghost use Rattle.fio_tool.specs.Recordings.{IsNoRecording, RecordsLine, item_broken};

use fio_check::{ContentBreach, ContentChecker, ContentRule};
use fio_cpu::{Item, Poller};
use fio_message::{AnswerView, CommandView, Memory};
use std::alloc::Global;

/// A breach of a rule on content.
#[derive(Clone, Copy)]
pub(crate) struct BrokenItem {
    /// The number of its line in the text.
    pub(crate) line: usize,
    /// How many items of the record are before it.
    pub(crate) above: usize,
    /// The input of its entry, or the input whose state differs; `None` for an answer.
    pub(crate) input: Option<u8>,
    /// The first rule that is broken.
    pub(crate) rule: ContentRule,
}

/// What one pass over a transcript keeps.
#[derive(Drop)]
pub(crate) struct Recording {
    /// The CPU: it starts at the first poll, and hears each frame after it. `None` if nothing is polled.
    pub(crate) cpu: Option<Poller>,
    /// What the rules on content keep.
    checker: ContentChecker,
    /// The first breach of a rule on content.
    pub(crate) broken: Option<BrokenItem>,
}

impl Recording {
    /// Returns what is kept before the first line.
    pub(crate) fn new() -> Recording
        ensures { IsNoRecording result }
    {
        Recording {
            cpu: None,
            checker: ContentChecker::new(),
            broken: None,
        }
    }

    /// Adds a command that the CPU sent.
    pub(super) fn send(&mut self, alloc: Global, command: &CommandView<'_>)
        ensures { (line : TranscriptLine) → line.from_cpu ≡ true
            → command_in line.octets ≡ Some (command_of command.now)
            → RecordsLine self.old line self.new }
    {
        self.checker.send(command);
        self.start(alloc, command);
    }

    /// Adds an answer of the line with this number that the CPU heard.
    ///
    /// # Errors
    /// `Memory` if the record could not grow. Nothing else allocates.
    pub(super) fn hear(&mut self, number: usize, answer: &AnswerView<'_>) -> Result<(), Memory>
        ensures { (line : TranscriptLine) → line.number ≡ number → line.from_cpu ≡ false
            → answer_in line.octets ≡ Some (answer_of answer.now)
            → OnOk result (RecordsLine self.old line self.new) }
    {
        let items = self.items().len();
        self.take(answer)?;
        if let Some(breach) = self.checker.hear(answer) {
            self.add_breach(number, items, breach);
        }
        Ok(())
    }

    /// Returns the record of the CPU.
    pub(crate) fn items(&self) -> &[Item]
        ensures { result.now ≡ items_of_cpu self.now.cpu }
    {
        match &self.cpu {
            Some(cpu) => cpu.items(),
            None => &[],
        }
    }

    /// Starts the CPU at the first poll.
    fn start(&mut self, alloc: Global, command: &CommandView<'_>)
        ensures { self.new ≡ (record self.old {
          cpu = poller_below self.old.cpu (Some (command_of command.now)) None;
        }) }
    {
        if let CommandView::Poll { block } = *command {
            if self.cpu.is_none() {
                self.cpu = Some(Poller::new(alloc, block));
            }
        }
    }

    /// Hears an answer as the CPU does.
    fn take(&mut self, answer: &AnswerView<'_>) -> Result<(), Memory>
        ensures { OnOk result (self.new ≡ (record self.old {
          cpu = poller_below self.old.cpu None (Some (answer_of answer.now));
        })) }
    {
        if let Some(cpu) = &mut self.cpu {
            cpu.hear_answer(answer)?;
        }
        Ok(())
    }

    /// Adds a breach in the line with this number, before which the record has `items` items.
    fn add_breach(&mut self, line: usize, items: usize, breach: ContentBreach)
        requires { items < 2 ^ 63 }
        ensures { self.new ≡ (record self.old {
          broken = option_or self.old.broken (Some (item_broken line items breach));
        }) }
    {
        if self.broken.is_none() {
            self.broken = Some(broken_item(line, items, breach));
        }
    }
}

/// Returns a breach in a line before which the record has `items` items.
fn broken_item(line: usize, items: usize, breach: ContentBreach) -> BrokenItem
    requires { items < 2 ^ 63 }
    ensures { result ≡ item_broken line items breach }
{
    BrokenItem {
        line,
        above: items + usize::from(breach.items),
        input: breach.input,
        rule: breach.rule,
    }
}
