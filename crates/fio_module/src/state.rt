//! A module without the ring of its waiting entries: how it responds to events and commands.

mod answers;
mod commands;
mod polls;

use crate::outputs::Outputs;
use crate::ring::EntryRing;
use crate::waiting::push_changed;
pub use commands::{Reply, ShortAnswer};
use fio_input::{Counter, Filters};
use fio_message::KeptBlock;

/// P in the status flags: the module was reset.
const RESET: u8 = 0x80;

/// All of a module except the ring in which its entries wait, in plain memory: its counter, its filters and the block that
/// it sent last. The ring is passed to each call that needs it, and has to be the same one each time.
#[derive(Debug, Drop)]
#[repr(C)]
pub struct ModuleState {
    id: u8,
    per_block: u8,
    flags: u8,
    /// The timeout, 0 before the first command that sets it.
    watchdog: u8,
    /// 1 if an entry was pushed out since the newest block was made, otherwise 0.
    pushed_out: u8,
    /// The type of the answer that is awaited from the maker, 0 if none is.
    awaited: u8,
    /// Padding that aligns the fields below.
    reserved: [u8; 6],
    counter: Counter,
    outputs: Outputs,
    filters: Filters,
    sent: KeptBlock,
}

impl ModuleState {
    ghost use Rattle.std.specs.Prelude.{◌≡◌, ◌<◌, ℕ, List, ◌∷◌, []};
    ghost use Rattle.circular_buffer.specs.Buffer.{Buffer, buffer};
    ghost use Rattle.fio_message.specs.Bits.{is_set};
    ghost use Rattle.fio_message.specs.declared.limits.TheConstants.{INPUTS};
    ghost use Rattle.fio_input.specs.FilterHistory.{input_state, raw_levels};
    ghost use Rattle.fio_module.specs.Settings.{Settings};
    ghost use Rattle.fio_module.specs.Life.{History, Scan, LineSync, Raise, Restart, life_of, counter_of, filter_events};
    ghost use Rattle.fio_module.specs.Flags.{flags_of, watchdog_of, outputs_of};
    ghost use Rattle.fio_module.specs.State.{IsAfter, IsAfterHistory, state_at_start};

    /// Returns a module whose blocks have at most `per_block` entries, and whose ring is empty, of any capacity.
    #[tactic(auto, unfolding(crate::specs::Flags::word_of))]
    pub fn new(id: u8, per_block: u8) -> ModuleState
        ensures life { (waiting : ℕ)
            → IsAfter (record { id = id; per_block = per_block; waiting = waiting })
            result (buffer [] waiting) [] }
        ensures cleared { result ≡ state_at_start id per_block }
    {
        ModuleState {
            id,
            per_block,
            flags: RESET,
            watchdog: 0,
            pushed_out: 0,
            awaited: 0,
            reserved: [0; 6],
            counter: Counter::new(),
            outputs: Outputs::OFF,
            filters: Filters::new(),
            sent: KeptBlock::new(),
        }
    }

    /// Does what `Module::restart` does.
    pub fn restart<R: EntryRing>(&mut self, ring: &mut R)
        ensures carried { (settings : Settings) (history : History)
            → IsAfterHistory settings self.old (R.held ring.old) history
            → IsAfterHistory settings self.new (R.held ring.new) (Restart ∷ history) }
        ensures same_memory { R.memory ring.new ≡ R.memory ring.old }
    {
        self.start_anew();
        ring.clear();
    }

    /// Does what `Module::restart` does, except that the caller clears the ring.
    #[tactic(auto, unfolding(crate::specs::Flags::word_of))]
    pub fn start_anew(&mut self)
        ensures { (settings : Settings) (ring : Buffer (List ℕ)) (history : History)
            → IsAfterHistory settings self.old ring history
            → IsAfterHistory settings self.new (buffer [] ring.capacity) (Restart ∷ history) }
    {
        self.counter = Counter::new();
        self.filters = Filters::new();
        self.flags = RESET;
        self.watchdog = 0;
        self.outputs = Outputs::OFF;
        self.pushed_out = 0;
        self.awaited = 0;
        self.sent = KeptBlock::new();
    }

    /// Does what `Module::scan` does.
    pub fn scan<R: EntryRing>(&mut self, ring: &mut R, raw: u64)
        ensures carried { (settings : Settings) (history : History)
            → IsAfterHistory settings self.old (R.held ring.old) history
            → IsAfterHistory settings self.new (R.held ring.new) (Scan raw ∷ history) }
        ensures same_memory { R.memory ring.new ≡ R.memory ring.old }
    {
        self.counter.tick();
        let changed = self.filters.scan(raw);
        let stamp = (self.counter.now() % 0x1_0000) as u16;
        push_changed(
            ring,
            &mut self.pushed_out,
            changed,
            self.filters.filtered(),
            stamp,
        );
    }

    /// Does what `Module::line_sync` does.
    pub fn line_sync(&mut self)
        ensures { (settings : Settings) (ring : Buffer (List ℕ)) (history : History)
            → IsAfterHistory settings self.old ring history
            → IsAfterHistory settings self.new ring (LineSync ∷ history) }
    {
        self.counter.line_sync();
    }

    /// Does what `Module::raise` does.
    pub fn raise(&mut self, mask: u8)
        ensures { (settings : Settings) (ring : Buffer (List ℕ)) (history : History)
            → IsAfterHistory settings self.old ring history
            → IsAfterHistory settings self.new ring (Raise mask ∷ history) }
    {
        self.flags |= mask;
    }

    /// Returns the status flags, from bit 7 down P, E, K, R, T, M, L and W (own profile: their positions).
    pub fn flags(&self) -> u8
        ensures { (settings : Settings) (ring : Buffer (List ℕ)) (history : History)
            → IsAfterHistory settings self.now ring history
            → result ≡ flags_of (life_of history) }
    {
        self.flags
    }

    /// Returns what `Module::outputs` returns.
    pub fn outputs(&self) -> Outputs
        ensures { (settings : Settings) (ring : Buffer (List ℕ)) (history : History)
            → IsAfterHistory settings self.now ring history
            → result ≡ outputs_of (life_of history) }
    {
        self.outputs
    }

    /// Returns what `Module::watchdog_ms` returns.
    pub fn watchdog_ms(&self) -> Option<u8>
        ensures { (settings : Settings) (ring : Buffer (List ℕ)) (history : History)
            → IsAfterHistory settings self.now ring history
            → result ≡ watchdog_of (life_of history) }
    {
        if self.watchdog == 0 {
            None
        } else {
            Some(self.watchdog)
        }
    }

    /// Returns the milliseconds counted, modulo 2^32 (TEES 2009).
    pub fn counter(&self) -> u32
        ensures { (settings : Settings) (ring : Buffer (List ℕ)) (history : History)
            → IsAfterHistory settings self.now ring history
            → result ≡ counter_of (life_of history) }
    {
        self.counter.now()
    }

    /// Returns what `Module::filtered` returns.
    pub fn filtered(&self) -> u64
        ensures { (settings : Settings) (ring : Buffer (List ℕ)) (history : History)
            → IsAfterHistory settings self.now ring history
            → (input : ℕ) → input < INPUTS
            → is_set result input ≡ input_state input (filter_events (life_of history)) }
    {
        self.filters.filtered()
    }

    /// Returns the levels of the last scan, all 1 before any (own profile): bit i is input i.
    pub fn raw(&self) -> u64
        ensures { (settings : Settings) (ring : Buffer (List ℕ)) (history : History)
            → IsAfterHistory settings self.now ring history
            → result ≡ raw_levels (filter_events (life_of history)) }
    {
        self.filters.raw()
    }
}
