//! Both ends and the bus.
use crate::answers::CallOutcome;
use crate::samples::Sample;
use fio_cpu::Heard;
use fio_message::{Command, Memory};
use fio_module::{Limits, MOST_WAITING, Module};
use fio_world::{Event, Outcome, RunError, Script, World, WorldError, read_script};
use std::alloc::Global;

/// A world in which nothing has happened.
pub(crate) fn new(alloc: Global) -> CallOutcome {
    made(World::new(alloc, 2, 255))
}

/// Like `new`, with other limits.
pub(crate) fn with_limits(alloc: Global) -> CallOutcome {
    let Some(limits) = Limits::new(1, MOST_WAITING) else {
        return CallOutcome::Wrong;
    };
    made(World::with_limits(alloc, 2, 255, limits))
}

fn made(world: Result<World, Memory>) -> CallOutcome {
    match world {
        Ok(world) => CallOutcome::right_if(counts(&world) == [0, 0, 0, 0, 0, 255, 0, 0]),
        Err(Memory) => CallOutcome::Refused(0),
    }
}

/// The events of a sample, run at once with the limits of TEES 2009.
pub(crate) fn run(alloc: Global, sample: Sample) -> Result<CallOutcome, Memory> {
    Ok(run_script(alloc, &script_of(alloc, sample)?, sample))
}

fn run_script(alloc: Global, script: &Script, sample: Sample) -> CallOutcome {
    let ran = World::run(alloc, script.id, script.first, script.events.as_slice());
    ended(&ran, script, sample)
}

/// The events of a sample, run at once with its limits.
pub(crate) fn run_with_limits(alloc: Global, sample: Sample) -> Result<CallOutcome, Memory> {
    Ok(run_limited_script(alloc, &script_of(alloc, sample)?, sample))
}

fn run_limited_script(alloc: Global, script: &Script, sample: Sample) -> CallOutcome {
    let ran = World::run_with_limits(
        alloc,
        script.id,
        script.first,
        script.limits,
        script.events.as_slice(),
    );
    ended(&ran, script, sample)
}

/// A run comes to the end of its sample, or says after how many events memory was refused.
fn ended(ran: &Result<World, RunError>, script: &Script, sample: Sample) -> CallOutcome {
    match ran {
        Ok(world) => CallOutcome::right_if(counts(world) == sample.end()),
        Err(error) if error.fault == WorldError::Memory && error.place < script.events.len() => {
            CallOutcome::Refused(error.place)
        }
        Err(_) => CallOutcome::Wrong,
    }
}

/// The events of a sample, one after another, in two worlds. One of them does each event first; if memory is refused to it,
/// it is still like the other, and then does the same event.
pub(crate) fn step(alloc: Global, sample: Sample) -> Result<CallOutcome, Memory> {
    step_in_both(alloc, &script_of(alloc, sample)?, sample.end())
}

/// The events of a script in two worlds, which come to this end.
fn step_in_both(alloc: Global, script: &Script, end: [usize; 8]) -> Result<CallOutcome, Memory> {
    let mut first = new_world(alloc, script)?;
    step_beside(&mut first, alloc, script, end)
}

/// The events of a script in a world and in a second one.
fn step_beside(
    first: &mut World,
    alloc: Global,
    script: &Script,
    end: [usize; 8],
) -> Result<CallOutcome, Memory> {
    let mut second = new_world(alloc, script)?;
    step_to(first, &mut second, script.events.as_slice(), end)
}

/// A world with what the first line of a script says.
fn new_world(alloc: Global, script: &Script) -> Result<World, Memory> {
    World::with_limits(alloc, script.id, script.first, script.limits)
}

/// Events in two worlds that are alike, which come to this end.
fn step_to(
    first: &mut World,
    second: &mut World,
    events: &[Event],
    end: [usize; 8],
) -> Result<CallOutcome, Memory> {
    let answer = steps_of_both(first, second, events)?;
    Ok(if counts(first) == end {
        answer
    } else {
        CallOutcome::Wrong
    })
}

/// Events in two worlds that are alike.
fn steps_of_both(
    first: &mut World,
    second: &mut World,
    events: &[Event],
) -> Result<CallOutcome, Memory> {
    let mut answer = CallOutcome::Right;
    for (place, event) in events.iter().enumerate() {
        match step_both(first, second, event)? {
            CallOutcome::Right => {}
            CallOutcome::Refused(_) => answer = CallOutcome::Refused(place),
            CallOutcome::Wrong => return Ok(CallOutcome::Wrong),
        }
    }
    Ok(answer)
}

/// An event in two worlds that are alike.
fn step_both(first: &mut World, second: &mut World, event: &Event) -> Result<CallOutcome, Memory> {
    let outcome = first.step(event);
    if outcome != Err(WorldError::Memory) {
        return Ok(CallOutcome::right_if(follows(first, second, event, &outcome)?));
    }
    if !are_alike(first, second) {
        return Ok(CallOutcome::Wrong);
    }
    let outcome = first.step(event);
    Ok(CallOutcome::refused_if(follows(first, second, event, &outcome)?))
}

/// The second world does an event as the first did, and is then like it.
fn follows(
    first: &World,
    second: &mut World,
    event: &Event,
    outcome: &Result<Outcome, WorldError>,
) -> Result<bool, Memory> {
    let expected = second.step(event);
    if expected == Err(WorldError::Memory) {
        return Err(Memory);
    }
    Ok(outcome.is_ok() && *outcome == expected && are_alike(first, second))
}

/// The events of a sample, together: if memory is refused at one of them, those before it are done, and the rest are tried
/// again.
pub(crate) fn step_all(alloc: Global, sample: Sample) -> Result<CallOutcome, Memory> {
    step_script(alloc, &script_of(alloc, sample)?, sample.end())
}

/// The events of a script, together, in a world that comes to this end.
fn step_script(alloc: Global, script: &Script, end: [usize; 8]) -> Result<CallOutcome, Memory> {
    let mut world = new_world(alloc, script)?;
    Ok(step_together_to(&mut world, script.events.as_slice(), end))
}

/// Events together in a world, which come to this end.
fn step_together_to(world: &mut World, events: &[Event], end: [usize; 8]) -> CallOutcome {
    let answer = steps_together(world, events);
    if counts(world) == end {
        answer
    } else {
        CallOutcome::Wrong
    }
}

/// Events together; if memory is refused at one of them, those that remain are tried again.
fn steps_together(world: &mut World, events: &[Event]) -> CallOutcome {
    let Err(error) = world.step_all(events) else {
        return CallOutcome::Right;
    };
    let Some(rest) = events.get(error.place..) else {
        return CallOutcome::Wrong;
    };
    if error.fault != WorldError::Memory || world.step_all(rest).is_err() {
        return CallOutcome::Wrong;
    }
    CallOutcome::Refused(error.place)
}

/// Events that allocate nothing, at the end of a sample: those of the module alone, a delivery that adds nothing to the
/// record, and refused ones.
pub(crate) fn adding_nothing(alloc: Global) -> Result<CallOutcome, Memory> {
    add_nothing(alloc, &script_of(alloc, Sample::LostAnswer)?)
}

fn add_nothing(alloc: Global, script: &Script) -> Result<CallOutcome, Memory> {
    match World::run(alloc, script.id, script.first, script.events.as_slice()) {
        Ok(mut world) => Ok(CallOutcome::right_if(adds_nothing(&mut world))),
        Err(_) => Err(Memory),
    }
}

fn adds_nothing(world: &mut World) -> bool {
    is_quiet(world, &Event::Scan(0))
        && is_quiet(world, &Event::LineSync)
        && is_quiet(world, &Event::Raise(1))
        && hears_a_stale_block(world)
        && refuses_deliveries(world)
        && refuses_a_poll(world)
        && is_quiet(world, &Event::Restart)
        && counts(world) == [4, 4, 4, 4, 2, 1, 0, 0]
}

fn is_quiet(world: &mut World, event: &Event) -> bool {
    world.step(event) == Ok(Outcome::Quiet)
}

fn hears_a_stale_block(world: &mut World) -> bool {
    world.step(&Event::ToCpu(4)) == Ok(Outcome::Heard(Heard::Stale { block: 0 }))
}

fn refuses_deliveries(world: &mut World) -> bool {
    let none_sent = [(Event::ToCpu(5), 5), (Event::ToModule(0), 0)];
    for (event, index) in &none_sent {
        if world.step(event) != Err(WorldError::NotSent { index: *index }) {
            return false;
        }
    }
    world.step(&Event::ToModule(3)) == Err(WorldError::OutOfOrder { index: 3, last: 4 })
}

fn refuses_a_poll(world: &mut World) -> bool {
    world.step(&Event::Send(Command::Poll { block: 1 })) == Err(WorldError::PollIsOurs)
}

/// The script of a sample, as far as there is memory for it.
fn script_of(alloc: Global, sample: Sample) -> Result<Script, Memory> {
    read_script(alloc, sample.script()).ok().ok_or(Memory)
}

/// The figures of a world.
fn counts(world: &World) -> [usize; 8] {
    [
        world.sent_to_module(),
        world.sent_to_cpu(),
        world.last_to_module(),
        world.last_to_cpu(),
        world.poller().items().len(),
        usize::from(world.poller().number()),
        world.module().counter() as usize,
        world.module().waiting(),
    ]
}

/// Every reading call returns the same for both worlds.
fn are_alike(one: &World, other: &World) -> bool {
    counts(one) == counts(other)
        && one.poller().items() == other.poller().items()
        && are_modules_alike(one.module(), other.module())
        && are_frames_alike(one, other)
}

fn are_modules_alike(one: &Module, other: &Module) -> bool {
    one.filtered() == other.filtered()
        && one.watchdog_ms() == other.watchdog_ms()
        && one.outputs() == other.outputs()
}

fn are_frames_alike(one: &World, other: &World) -> bool {
    for index in 0..=one.sent_to_module() {
        if one.frame_to_module(index) != other.frame_to_module(index) {
            return false;
        }
    }
    for index in 0..=one.sent_to_cpu() {
        if one.frame_to_cpu(index) != other.frame_to_cpu(index) {
            return false;
        }
    }
    true
}
