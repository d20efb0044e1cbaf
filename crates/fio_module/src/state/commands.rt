//! The commands that a module carries out, and its answers.
ghost use Rattle.std.specs.Prelude.{◌≡◌, ◌<◌, ℕ, false, List, ◌∷◌, length, Some, None, MatchOption};
ghost use Rattle.circular_buffer.specs.Buffer.{Buffer};
ghost use Rattle.fio_message.specs.Octets.{IsOctets};
ghost use Rattle.fio_message.specs.Views.{command_of, items_of};
ghost use Rattle.fio_message.specs.declared.commands.Command.TheVariants as commands;
ghost use Rattle.fio_message.specs.Answers.{SpellsAnswer};
ghost use Rattle.fio_message.specs.declared.answers.Answer.TheVariants as answers;
ghost use Rattle.fio_module.specs.Flags.{flags_of};
ghost use Rattle.fio_module.specs.Life.{Commanded, Life, counter_of};
ghost use Rattle.fio_module.specs.Replies.{longest_answer};
ghost use Rattle.fio_module.specs.Settings.{Settings};
ghost use Rattle.fio_module.specs.State.{IsAfter, Obeys, frame_if, reply_frame};

use super::ModuleState;
use crate::limits::{LEAST_TIMEOUT, MOST_TIMEOUT};
use crate::outputs::Outputs;
use crate::ring::EntryRing;
use arrayvec::ArrayVec;
use fio_message::types::{
    CONFIGURE_INPUTS_ANSWER, FILTERED_INPUTS_ANSWER, IDENTIFY_ANSWER, LOAD_COUNTER_ANSWER,
    RAW_INPUTS_ANSWER, SET_OUTPUTS_ANSWER, STATUS_ANSWER, WATCHDOG_ANSWER,
};
use fio_message::{
    CommandView, Frame, ItemsView, error_status, flags_and_counts, inputs_and_stamp,
    set_before_status, status_and_stamp,
};

/// The most octets of an answer that is not a block.
const SHORT_OCTETS: usize = 13;

/// The octets of an answer that is not a block: 2 to 13.
pub type ShortAnswer = ArrayVec<u8, SHORT_OCTETS>;

/// The reply to a command.
#[derive(Debug, Drop)]
pub enum Reply {
    /// There is no answer.
    Nothing,
    /// The answer has these octets.
    Short(ShortAnswer),
    /// The answer is the block that was sent last, `ModuleState::block`.
    Block,
}

/// Returns a short answer: its type, and the octets after it.
fn short_answer(code: u8, fields: &[u8]) -> ShortAnswer
    requires { length fields.now < SHORT_OCTETS }
    ensures written { result.items ≡ code ∷ fields.now }
    ensures within { IsOctets fields.now }
{
    let mut answer = ShortAnswer::new();
    answer.push(code);
    // There is room, so this never fails.
    let _ = answer.try_extend_from_slice(fields);
    answer
}

/// Writes a short answer over what a frame holds.
fn write_short(answer: &ShortAnswer, frame: &mut Frame)
    ensures { frame.new.items ≡ answer.now.items }
{
    frame.clear();
    // There is room, so this never fails.
    let _ = frame.try_extend_from_slice(answer.as_slice());
}

impl ModuleState {
    /// Carries out a command that is read in place, and writes the answer over what `frame` holds. Commands 56, 57 and 59
    /// get no answer and change nothing (own profile): the result is then `false`, and the frame is unchanged.
    pub fn obey<R: EntryRing>(
        &mut self,
        ring: &mut R,
        command: CommandView<'_>,
        frame: &mut Frame,
    ) -> bool
        ensures obeyed { Obeys self.old (R.held ring.old) self.new (R.held ring.new)
            (command_of command.entry) (frame_if result frame.new) }
        ensures same_memory { R.memory ring.new ≡ R.memory ring.old }
        ensures unchanged { result ≡ false → frame.new ≡ frame.old }
    {
        let reply = self.carry_out(ring, command);
        self.write_reply(&reply, frame)
    }

    /// Carries out a command as `obey` does, and returns its reply. It needs no frame.
    // Inlined into `obey`, which then takes a third less time.
    #[inline(always)]
    pub fn carry_out<R: EntryRing>(&mut self, ring: &mut R, command: CommandView<'_>) -> Reply
        ensures obeyed { Obeys self.old (R.held ring.old) self.new (R.held ring.new)
            (command_of command.entry) (reply_frame self.new result) }
        ensures same_memory { R.memory ring.new ≡ R.memory ring.old }
    {
        match command {
            CommandView::Status { clear } => Reply::Short(self.clear_flags(clear, 0, 0)),
            CommandView::LoadCounter { load } => Reply::Short(self.load_counter(load)),
            CommandView::ConfigureInputs { items } => Reply::Short(self.configure(items)),
            CommandView::RawInputs => Reply::Short(self.raw_inputs()),
            CommandView::FilteredInputs => Reply::Short(self.filtered_inputs()),
            CommandView::Poll { block } => {
                self.poll(ring, block);
                Reply::Block
            }
            CommandView::SetOutputs { levels, controls } => {
                Reply::Short(self.set_outputs(*levels, *controls))
            }
            CommandView::Watchdog { timeout } => Reply::Short(self.set_watchdog(timeout)),
            CommandView::Identify => Reply::Short(self.identify()),
            CommandView::Other { .. } => Reply::Nothing,
        }
    }

    /// Returns the octets of the reply that `carry_out` returned last, or `None` if there is no answer.
    pub fn octets_of<'a>(&'a self, reply: &'a Reply) -> Option<&'a [u8]>
        ensures { MatchOption result
            (reply_frame self.now reply.now ≡ None)
            (λ octets. reply_frame self.now reply.now ≡ Some (record { items = octets.now })) }
    {
        match reply {
            Reply::Nothing => None,
            Reply::Short(answer) => Some(answer.as_slice()),
            Reply::Block => Some(self.block()),
        }
    }

    /// Writes the reply that `carry_out` returned last into `frame`. If there is no answer, the result is `false`, and the
    /// frame is unchanged.
    pub(crate) fn write_reply(&self, reply: &Reply, frame: &mut Frame) -> bool
        ensures written { frame_if result frame.new ≡ reply_frame self.now reply.now }
        ensures unchanged { result ≡ false → frame.new ≡ frame.old }
    {
        match reply {
            Reply::Nothing => return false,
            Reply::Short(answer) => write_short(answer, frame),
            Reply::Block => self.sent.copy_to(frame),
        }
        true
    }

    /// Carries out command 49 as `carry_out` does, except that the answer has these error counts (TEES 2009, answer 177):
    /// clears the flags whose bits are 1, and returns the octets of the answer.
    pub fn clear_flags(&mut self, clear: u8, receive_errors: u8, transmit_errors: u8) -> ShortAnswer
        ensures { (settings : Settings) (ring : Buffer (List ℕ)) (life : Life)
            → IsAfter settings self.old ring life
            → IsAfter settings self.new ring (Commanded (commands.Status clear) ∷ life)
            × SpellsAnswer (answers.Status (flags_of (Commanded (commands.Status clear) ∷ life))
            receive_errors transmit_errors (counter_of life)) result.items }
    {
        self.flags &= !clear;
        let stamp = self.counter.now();
        short_answer(
            STATUS_ANSWER,
            &flags_and_counts(self.flags, receive_errors, transmit_errors, stamp),
        )
    }

    /// Returns how many octets the longest answer has that the module ever gives: a block with the most entries, or inputs
    /// and a stamp.
    pub fn longest_answer(&self) -> usize
        ensures { result ≡ longest_answer self.now.per_block }
    {
        (8 + 3 * usize::from(self.per_block)).max(SHORT_OCTETS)
    }

    fn load_counter(&mut self, load: u32) -> ShortAnswer
        ensures { (ring : Buffer (List ℕ))
            → Obeys self.old ring self.new ring (commands.LoadCounter load) (Some result) }
    {
        self.counter.ask_load(load);
        short_answer(LOAD_COUNTER_ANSWER, &[error_status(false)])
    }

    fn configure(&mut self, items: ItemsView<'_>) -> ShortAnswer
        ensures { (ring : Buffer (List ℕ)) → Obeys self.old ring self.new ring
            (commands.ConfigureInputs (record { items = items_of items.entry })) (Some result) }
    {
        let status = error_status(self.filters.configure_from(&items).is_err());
        short_answer(CONFIGURE_INPUTS_ANSWER, &[status])
    }

    fn raw_inputs(&self) -> ShortAnswer
        ensures { (ring : Buffer (List ℕ))
            → Obeys self.now ring self.now ring commands.RawInputs (Some result) }
    {
        let (inputs, stamp) = (self.filters.raw(), self.counter.now());
        short_answer(RAW_INPUTS_ANSWER, &inputs_and_stamp(inputs, stamp))
    }

    fn filtered_inputs(&self) -> ShortAnswer
        ensures { (ring : Buffer (List ℕ))
            → Obeys self.now ring self.now ring commands.FilteredInputs (Some result) }
    {
        let (inputs, stamp) = (self.filters.filtered(), self.counter.now());
        short_answer(FILTERED_INPUTS_ANSWER, &inputs_and_stamp(inputs, stamp))
    }

    fn set_outputs(&mut self, levels: [u8; 8], controls: [u8; 8]) -> ShortAnswer
        ensures { (ring : Buffer (List ℕ))
            → Obeys self.old ring self.new ring (commands.SetOutputs levels controls) (Some result) }
    {
        self.outputs = Outputs { levels, controls };
        short_answer(SET_OUTPUTS_ANSWER, &status_and_stamp(0, self.counter.now()))
    }

    fn set_watchdog(&mut self, timeout: u8) -> ShortAnswer
        ensures { (ring : Buffer (List ℕ))
            → Obeys self.old ring self.new ring (commands.Watchdog timeout) (Some result) }
    {
        let status = set_before_status(self.watchdog != 0);
        self.watchdog = timeout.clamp(LEAST_TIMEOUT, MOST_TIMEOUT);
        short_answer(WATCHDOG_ANSWER, &[status])
    }

    fn identify(&self) -> ShortAnswer
        ensures { (ring : Buffer (List ℕ))
            → Obeys self.now ring self.now ring commands.Identify (Some result) }
    {
        short_answer(IDENTIFY_ANSWER, &[self.id])
    }
}
