//! One event on a world.
ghost use Rattle.std.specs.Prelude.{◌≡◌, ◌+◌, ◌≤◌, ◌∷◌, ◌++◌, [], None, Some, IfOk, IfErr, OnOk, OnErr, length};
ghost use Rattle.fio_message.specs.Decoding.{command_in};
ghost use Rattle.fio_message.specs.declared.commands.Command.{Command};
ghost use Rattle.fio_message.specs.declared.limits.TheConstants.{FRAME_OCTETS};
ghost use Rattle.fio_link.specs.declared.event.Event.{Event};
ghost use Rattle.fio_link.specs.declared.event.Event.TheVariants as events;
ghost use Rattle.fio_link.specs.Link.{delivery_refusal, item_numbered};
ghost use Rattle.fio_world.specs.Effects.{HappensTo, octets_numbered, outcome_of_effect};
ghost use Rattle.fio_world.specs.Steps.{command_in_word, event_of};
ghost use Rattle.fio_world.specs.Worlds.{IsFault};

use super::World;
use super::effect::Effect;
use super::frames::{StoredFrames, frame_of};
use crate::outcome::{Outcome, WorldError};
use crate::script::{CommandWord, ScriptStep};
use fio_link::Event;
use fio_message::{Command, FRAME_OCTETS, Memory, encode_command, read_poll};

/// What may happen to a world: an event, or a step of a script.
pub(crate) trait WorldEvent {
    ghost event: { Self → Event };

    /// Applies the event, or refuses it and changes nothing: `World::step` without the promises about runs.
    fn happen(&self, world: &mut World) -> Result<Effect, WorldError>
        ensures row { HappensTo (event self.now) world.old result world.new }
        ensures err { OnErr result (world.new ≡ world.old) };
}

impl WorldEvent for Event {
    ghost event = { λ event. event };

    fn happen(&self, world: &mut World) -> Result<Effect, WorldError> {
        match self {
            Event::Scan(raw) => world.scan(*raw),
            Event::LineSync => world.line_sync(),
            Event::Raise(mask) => world.raise(*mask),
            Event::Poll => world.send_poll(),
            Event::Send(command) => world.send_command(command),
            Event::ToModule(index) => world.deliver_to_module(*index),
            Event::ToCpu(index) => world.deliver_to_cpu(*index),
            Event::Restart => world.restart(),
        }
    }
}

impl WorldEvent for ScriptStep<'_> {
    ghost event = { λ step. event_of step };

    fn happen(&self, world: &mut World) -> Result<Effect, WorldError> {
        match self {
            ScriptStep::Scan(raw) => world.scan(*raw),
            ScriptStep::LineSync => world.line_sync(),
            ScriptStep::Raise(mask) => world.raise(*mask),
            ScriptStep::Poll => world.send_poll(),
            ScriptStep::Send(word) => world.send_word(word),
            ScriptStep::ToModule(index) => world.deliver_to_module(*index),
            ScriptStep::ToCpu(index) => world.deliver_to_cpu(*index),
            ScriptStep::Restart => world.restart(),
        }
    }
}

// What needs room for a frame or a command is not inlined: otherwise the room would be cleared for each event.
impl World {
    /// Steps the module's counter and samples its inputs.
    #[inline(always)]
    fn scan(&mut self, raw: u64) -> Result<Effect, WorldError>
        ensures row { HappensTo (events.Scan raw) self.old result self.new }
        ensures err { OnErr result (self.new ≡ self.old) }
    {
        self.module.scan(raw);
        Ok(Effect::Quiet)
    }

    /// Raises LINESYNC from 0 to 1 at the module.
    #[inline(always)]
    fn line_sync(&mut self) -> Result<Effect, WorldError>
        ensures row { HappensTo events.LineSync self.old result self.new }
        ensures err { OnErr result (self.new ≡ self.old) }
    {
        self.module.line_sync();
        Ok(Effect::Quiet)
    }

    /// Raises the module's status flags whose bits are 1.
    #[inline(always)]
    fn raise(&mut self, mask: u8) -> Result<Effect, WorldError>
        ensures row { HappensTo (events.Raise mask) self.old result self.new }
        ensures err { OnErr result (self.new ≡ self.old) }
    {
        self.module.raise(mask);
        Ok(Effect::Quiet)
    }

    /// Restarts the module.
    #[inline(always)]
    fn restart(&mut self) -> Result<Effect, WorldError>
        ensures row { HappensTo events.Restart self.old result self.new }
        ensures err { OnErr result (self.new ≡ self.old) }
    {
        self.module.restart();
        Ok(Effect::Quiet)
    }

    /// Sends the CPU's poll.
    #[inline(never)]
    fn send_poll(&mut self) -> Result<Effect, WorldError>
        ensures row { HappensTo events.Poll self.old result self.new }
        ensures err { OnErr result (self.new ≡ self.old) }
    {
        let frame = self.poller.poll();
        self.send(&frame)
    }

    /// Sends the command that the word denotes, unless it is a poll.
    #[inline(never)]
    fn send_word(&mut self, word: &CommandWord<'_>) -> Result<Effect, WorldError>
        ensures row { HappensTo (events.Send (command_in_word word.now)) self.old result self.new }
        ensures err { OnErr result (self.new ≡ self.old) }
    {
        let mut room = [0; FRAME_OCTETS];
        let count = word.octets_to(&mut room);
        self.send_octets(&room[..count])
    }

    /// Sends a command, unless it is a poll.
    #[inline(never)]
    fn send_command(&mut self, command: &Command) -> Result<Effect, WorldError>
        ensures row { HappensTo (events.Send command.now) self.old result self.new }
        ensures err { OnErr result (self.new ≡ self.old) }
    {
        self.send_octets(&encode_command(command))
    }

    /// Sends the octets of a command, unless they are a poll.
    fn send_octets(&mut self, octets: &[u8]) -> Result<Effect, WorldError>
        requires { length octets.now ≤ FRAME_OCTETS }
        ensures row { (command : Command) → command_in octets.now ≡ Some command
            → HappensTo (events.Send command) self.old result self.new }
        ensures err { OnErr result (self.new ≡ self.old) }
    {
        match read_poll(octets) {
            Some(_) => Err(WorldError::PollIsOurs),
            None => self.send(octets),
        }
    }

    /// Returns the outcome that this effect is.
    // Inlined, so that a caller who reads no frame copies none.
    #[inline(always)]
    pub(crate) fn outcome(&self, effect: Effect) -> Outcome
        ensures { result ≡ outcome_of_effect self.now effect }
    {
        match effect {
            Effect::ToModule(index) => Outcome::Sent {
                index,
                frame: frame_of(self.octets_to_module(index)),
            },
            Effect::ToCpu(index) => Outcome::Sent {
                index,
                frame: frame_of(self.octets_to_cpu(index)),
            },
            Effect::Heard(heard) => Outcome::Heard(heard),
            Effect::Quiet => Outcome::Quiet,
        }
    }

    /// Returns the octets of the frame to the module with this number, or no octets if there is no such frame.
    pub(crate) fn octets_to_module(&self, index: usize) -> &[u8]
        ensures is { result.now ≡ octets_numbered self.now.to_module index }
        ensures short { length result.now ≤ FRAME_OCTETS }
    {
        self.to_module.octets_or_none(index)
    }

    /// Returns the octets of the frame to the CPU with this number, or no octets if there is no such frame.
    pub(crate) fn octets_to_cpu(&self, index: usize) -> &[u8]
        ensures is { result.now ≡ octets_numbered self.now.to_cpu index }
        ensures short { length result.now ≤ FRAME_OCTETS }
    {
        self.to_cpu.octets_or_none(index)
    }

    /// Sends a frame of the CPU: it joins the frames to the module.
    pub(crate) fn send(&mut self, frame: &[u8]) -> Result<Effect, WorldError>
        requires { length frame.now ≤ FRAME_OCTETS }
        ensures outcome { IfOk result (λ effect. outcome_of_effect self.new effect
            ≡ Outcome.Sent (length self.old.to_module + 1) (record { items = frame.now })) }
        ensures ok { OnOk result (self.new
            ≡ record self.old { to_module = self.old.to_module ++ frame.now ∷ [] }) }
        ensures fault { IfErr result (λ fault. fault ≡ WorldError.Memory) }
        ensures err { OnErr result (self.new ≡ self.old) }
    {
        if self.to_module.reserve().is_err() {
            return Err(WorldError::Memory);
        }
        self.to_module.add(frame);
        Ok(Effect::ToModule(self.to_module.len()))
    }

    /// Delivers the frame with this number to the module. Its answer, if any, joins the frames to the CPU. Room for it is
    /// reserved first, since what the module has received can't be taken back.
    #[inline(never)]
    fn deliver_to_module(&mut self, index: usize) -> Result<Effect, WorldError>
        ensures row { HappensTo (events.ToModule index) self.old result self.new }
        ensures err { OnErr result (self.new ≡ self.old) }
    {
        let octets = to_deliver(&self.to_module, self.last_to_module, index)?;
        if self.to_cpu.reserve().is_err() {
            return Err(WorldError::Memory);
        }
        let answer = self.module.receive(octets);
        self.last_to_module = index;
        match &answer {
            None => Ok(Effect::Quiet),
            Some(frame) => {
                self.to_cpu.add(frame);
                Ok(Effect::ToCpu(self.to_cpu.len()))
            }
        }
    }

    /// Delivers the frame with this number to the CPU.
    fn deliver_to_cpu(&mut self, index: usize) -> Result<Effect, WorldError>
        ensures row { HappensTo (events.ToCpu index) self.old result self.new }
        ensures err { OnErr result (self.new ≡ self.old) }
    {
        let octets = to_deliver(&self.to_cpu, self.last_to_cpu, index)?;
        match self.poller.hear(octets) {
            Ok(heard) => {
                self.last_to_cpu = index;
                Ok(Effect::Heard(heard))
            }
            Err(Memory) => Err(WorldError::Memory),
        }
    }
}

/// Returns the octets of the frame with this number among those sent in its direction. The delivery is refused if there is
/// no such frame, or if the frame delivered last has a higher number.
fn to_deliver(frames: &StoredFrames, last: usize, index: usize) -> Result<&[u8], WorldError>
    ensures fine { OnOk result (delivery_refusal (length frames.now.frames) last index ≡ None) }
    ensures is { IfOk result (λ octets. item_numbered frames.now.frames index ≡ Some octets.now) }
    ensures err { IfErr result (λ fault.
        IsFault (delivery_refusal (length frames.now.frames) last index) ⊥ fault) }
{
    let sent = frames.len();
    if index == 0 || sent < index {
        return Err(WorldError::NotSent { index });
    }
    if index < last {
        return Err(WorldError::OutOfOrder { index, last });
    }
    Ok(frames.octets_of(index))
}
