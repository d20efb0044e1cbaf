//! Polls: the block that a module makes, and sends again.
ghost use Rattle.std.specs.Prelude.{◌≡◌, ℕ, List, ◌∷◌, Some, true, false};
ghost use Rattle.circular_buffer.specs.Buffer.{Buffer};
ghost use Rattle.fio_message.specs.declared.commands.Command.TheVariants.{Poll};
ghost use Rattle.fio_module.specs.Settings.{Settings};
ghost use Rattle.fio_module.specs.Life.{Life, Commanded};
ghost use Rattle.fio_module.specs.Blocks.{newest_poll};
ghost use Rattle.fio_module.specs.Blocks as blocks;
ghost use Rattle.fio_module.specs.State.{IsAfter, Obeys, sent_frame};

use super::ModuleState;
use crate::numbers::{is_new, is_out_of_sequence};
use crate::ring::EntryRing;
use fio_message::BlockStatus;

impl ModuleState {
    /// Returns the octets of the block that was sent last, at most 773, or none before the first.
    pub fn block(&self) -> &[u8]
        ensures { result.now ≡ (sent_frame self.now).items }
    {
        self.sent.as_slice()
    }

    /// Handles a poll for this number. The answer is then `block`.
    // Not inlined, since it has two callers: one for a poll alone, and one for any command.
    #[inline(never)]
    pub fn poll<R: EntryRing>(&mut self, ring: &mut R, number: u8)
        ensures obeyed { Obeys self.old (R.held ring.old) self.new (R.held ring.new)
            (Poll number) (Some (sent_frame self.new)) }
        ensures same_memory { R.memory ring.new ≡ R.memory ring.old }
    {
        if is_new(self.sent.number(), number) {
            self.send_new(ring, number);
        } else {
            self.send_again(number);
        }
    }

    fn send_new<R: EntryRing>(&mut self, ring: &mut R, number: u8)
        ensures carried { (settings : Settings) (life : Life)
            → IsAfter settings self.old (R.held ring.old) life
            → blocks.is_new (newest_poll life) number ≡ true
            → IsAfter settings self.new (R.held ring.new)
            (Commanded (Poll number) ∷ life) }
        ensures same_memory { R.memory ring.new ≡ R.memory ring.old }
    {
        let out_of_sequence = is_out_of_sequence(self.sent.number(), number);
        let per_block = usize::from(self.per_block);
        let more = ring.len() > per_block;
        let lost = self.pushed_out != 0;
        let status = BlockStatus::new(more, lost, false, out_of_sequence);
        let (first, second) = ring.parts();
        let stamp = self.counter.now();
        self.sent
            .write(number, first, second, self.per_block, status, stamp);
        ring.remove_front(per_block);
        self.pushed_out = 0;
    }

    fn send_again(&mut self, number: u8)
        ensures { (settings : Settings) (ring : Buffer (List ℕ)) (life : Life)
            → IsAfter settings self.old ring life
            → blocks.is_new (newest_poll life) number ≡ false
            → IsAfter settings self.new ring (Commanded (Poll number) ∷ life) }
    {
        self.sent.mark_again();
    }
}
