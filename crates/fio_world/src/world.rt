//! Both ends and the bus between them.
ghost use Rattle.std.specs.Prelude.{◌≡◌, [], List, ℕ, IfOk, IfErr, OnErr, length};
ghost use Rattle.std.specs.Option.{option_map};
ghost use Rattle.std.specs.Borrow.{Bor};
ghost use Rattle.fio_module.specs.Settings.{Settings, standard_settings, settings_with};
ghost use Rattle.fio_link.specs.declared.event.Event.{Event};
ghost use Rattle.fio_link.specs.Link.{Machine, item_numbered};
ghost use Rattle.fio_link.specs.Headline.{Headline};
ghost use Rattle.fio_world.specs.Worlds.{ShowsMachine, Happens, IsWorldAfter, IsSoundWorld, HasStopped, HasStoppedAt, all_done, events_done};

mod effect;
mod frames;
mod happening;

pub(crate) use self::effect::Effect;
use self::frames::StoredFrames;
pub(crate) use self::happening::WorldEvent;
use crate::outcome::{Outcome, RunError, WorldError};
use fio_cpu::Poller;
use fio_link::Event;
use fio_message::Memory;
use fio_module::{Limits, Module};
use std::alloc::Global;
use std::marker::Model;

/// A module, a CPU's poller, and the bus: all frames ever sent in each direction, numbered from 1, with the number delivered
/// last (own profile). It releases no memory while it lives.
#[derive(Drop)]
pub struct World {
    module: Module,
    poller: Poller,
    to_module: StoredFrames,
    to_cpu: StoredFrames,
    last_to_module: usize,
    last_to_cpu: usize,
}

impl Model for World {
    ghost use Rattle.fio_world.specs.Ends.{Ends};

    ghost Value = { Ends };

    ghost view = { λ w. record {
      module_end = w.module;
      poller_end = w.poller;
      to_module = w.to_module.frames;
      to_cpu = w.to_cpu.frames;
      last_to_module = w.last_to_module;
      last_to_cpu = w.last_to_cpu;
    } };
}

impl World {
    /// Returns a world in which nothing has happened: a module with this identification octet and
    /// the limits of TEES 2009, and a CPU with this first block number.
    ///
    /// # Errors
    /// `Memory` if there is none for the module's waiting entries.
    pub fn new(alloc: Global, id: u8, first: u8) -> Result<World, Memory>
        ensures { IfOk result (λ world. IsSoundWorld (standard_settings id) first [] world) }
    {
        World::with_limits(alloc, id, first, Limits::STANDARD)
    }

    /// Returns a world as `new` does, with a module of these limits.
    ///
    /// # Errors
    /// `Memory` if there is none for the module's waiting entries.
    pub fn with_limits(alloc: Global, id: u8, first: u8, limits: Limits) -> Result<World, Memory>
        ensures { IfOk result (λ world. IsSoundWorld (settings_with id limits) first [] world) }
    {
        Ok(World {
            module: Module::with_limits(alloc, id, limits)?,
            poller: Poller::new(alloc, first),
            to_module: StoredFrames::new(alloc),
            to_cpu: StoredFrames::new(alloc),
            last_to_module: 0,
            last_to_cpu: 0,
        })
    }

    /// Makes a new world and applies these events to it in order, up to the first that is refused.
    ///
    /// # Errors
    /// How many events were done, and why the next one was not; with 0 events done, also `Memory` if there was none to
    /// start.
    pub fn run(alloc: Global, id: u8, first: u8, events: &[Event]) -> Result<World, RunError>
        ensures ok { IfOk result (λ world.
            IsSoundWorld (standard_settings id) first events.now world) }
        ensures headline { IfOk result (λ world.
            Headline (standard_settings id) first events.now world.poller_end.items) }
        ensures err { IfErr result (λ e.
            HasStopped (standard_settings id) first events.now e.place e.fault) }
    {
        World::run_with_limits(alloc, id, first, Limits::STANDARD, events)
    }

    /// Makes a new world and applies events as `run` does, with a module of these limits.
    ///
    /// # Errors
    /// Those of `run`.
    pub fn run_with_limits(
        alloc: Global,
        id: u8,
        first: u8,
        limits: Limits,
        events: &[Event],
    ) -> Result<World, RunError>
        ensures ok { IfOk result (λ world.
            IsSoundWorld (settings_with id limits) first events.now world) }
        ensures headline { IfOk result (λ world.
            Headline (settings_with id limits) first events.now world.poller_end.items) }
        ensures err { IfErr result (λ e.
            HasStopped (settings_with id limits) first events.now e.place e.fault) }
    {
        let Ok(mut world) = World::with_limits(alloc, id, first, limits) else {
            return Err(RunError {
                place: 0,
                fault: WorldError::Memory,
            });
        };
        world.step_all(events)?;
        Ok(world)
    }

    /// Applies one event, or refuses it and changes nothing, so that it may be tried again.
    ///
    /// # Errors
    /// The first that applies: `NotSent` for a delivery of a frame that was not sent, `OutOfOrder` for a delivery of a frame
    /// before the one delivered last, `PollIsOurs` if the command to send is a poll, and `Memory` if there is none. `Scan`,
    /// `LineSync`, `Raise`, `Restart` and a delivery to the CPU that adds nothing to the record allocate nothing. A delivery
    /// to the module reserves room for its answer before the module receives the frame.
    // Inlined, so that a caller who reads no frame does not pay for one.
    #[inline(always)]
    pub fn step(&mut self, event: &Event) -> Result<Outcome, WorldError>
        ensures row { (settings : Settings) (first : ℕ) (machine : Machine)
            → ShowsMachine settings first machine self.old
            → Happens settings first machine event.now result self.new }
        ensures err { OnErr result (self.new ≡ self.old) }
        ensures stands { (settings : Settings) (first : ℕ) (events : List Event)
            → IsWorldAfter settings first events self.old
            → IsSoundWorld settings first (events_done events event.now result) self.new }
        ensures headline { (settings : Settings) (first : ℕ) (events : List Event)
            → IsWorldAfter settings first events self.old
            → Headline settings first (events_done events event.now result)
            self.new.poller_end.items }
    {
        match event.happen(self) {
            Ok(effect) => Ok(self.outcome(effect)),
            Err(fault) => Err(fault),
        }
    }

    /// Applies these events in order, up to the first that is refused. What was done stays, and the events from that one on
    /// may be tried again.
    ///
    /// # Errors
    /// How many of these events were done, and why the next one was not: the errors of `step`.
    pub fn step_all(&mut self, events: &[Event]) -> Result<(), RunError>
        ensures stands { (settings : Settings) (first : ℕ) (before : List Event)
            → IsWorldAfter settings first before self.old
            → IsSoundWorld settings first (all_done before events.now result) self.new }
        ensures headline { (settings : Settings) (first : ℕ) (before : List Event)
            → IsWorldAfter settings first before self.old
            → Headline settings first (all_done before events.now result)
            self.new.poller_end.items }
        ensures err { IfErr result (λ e. (settings : Settings) (first : ℕ)
            (before : List Event) → IsWorldAfter settings first before self.old
            → HasStoppedAt settings first before events.now e.place e.fault self.new) }
    {
        for (place, event) in events.iter().enumerate() {
            if let Err(fault) = self.step(event) {
                return Err(RunError { place, fault });
            }
        }
        Ok(())
    }

    /// Returns the module.
    pub fn module(&self) -> &Module
        ensures { result.now ≡ self.now.module_end }
    {
        &self.module
    }

    /// Returns the CPU's end, with its record.
    pub fn poller(&self) -> &Poller
        ensures { result.now ≡ self.now.poller_end }
    {
        &self.poller
    }

    /// Returns how many frames have been sent to the module.
    pub fn sent_to_module(&self) -> usize
        ensures { result ≡ length self.now.to_module }
    {
        self.to_module.len()
    }

    /// Returns how many frames have been sent to the CPU.
    pub fn sent_to_cpu(&self) -> usize
        ensures { result ≡ length self.now.to_cpu }
    {
        self.to_cpu.len()
    }

    /// Returns the number of the frame that was delivered to the module last, or 0 if there was none.
    pub fn last_to_module(&self) -> usize
        ensures { result ≡ self.now.last_to_module }
    {
        self.last_to_module
    }

    /// Returns the number of the frame that was delivered to the CPU last, or 0 if there was none.
    pub fn last_to_cpu(&self) -> usize
        ensures { result ≡ self.now.last_to_cpu }
    {
        self.last_to_cpu
    }

    /// Returns the octets of the frame with this number, from 1, among those sent to the module; `None` if there is none.
    pub fn frame_to_module(&self, index: usize) -> Option<&[u8]>
        ensures { option_map (λ (octets : Bor (List ℕ)). octets.now) result
            ≡ item_numbered self.now.to_module index }
    {
        self.to_module.get(index)
    }

    /// Returns the octets of the frame with this number, from 1, among those sent to the CPU; `None` if there is none.
    pub fn frame_to_cpu(&self, index: usize) -> Option<&[u8]>
        ensures { option_map (λ (octets : Bor (List ℕ)). octets.now) result
            ≡ item_numbered self.now.to_cpu index }
    {
        self.to_cpu.get(index)
    }
}
