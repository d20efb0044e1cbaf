//! Runs of scripts, and the reports on them.
ghost use Rattle.std.specs.Prelude.{◌≡◌, ◌≢◌, ◌⊎◌, ◌++◌, ℕ, Err, map, IfOk, IfErr, OnOk, IsOkAnd};
ghost use Rattle.fio_module.specs.Settings.{Settings};
ghost use Rattle.fio_world.specs.Effects.{outcome_of_effect};
ghost use Rattle.fio_text.specs.Lines.{lines_of};
ghost use Rattle.fio_link.specs.Link.{Machine};
ghost use Rattle.fio_world.specs.ReportLines.{outcome_line};
ghost use Rattle.fio_world.specs.Reports.{after_text, report_from, report_of};
ghost use Rattle.fio_world.specs.Scripts.{scenario_of, scenario_with, script_in, HasGoodFront, IsScript};
ghost use Rattle.fio_world.specs.Worlds.{ShowsMachine};

mod lines;

use self::lines::{push_ending, push_heard, push_quiet, push_refusal, push_sent};
use crate::outcome::WorldError;
use crate::script::{Script, ScriptError, read_header_and_steps};
use crate::world::{Effect, World, WorldEvent};
use fio_message::Memory;
use fio_module::Limits;
use fio_text::Report;
use std::alloc::{AllocError, Global};

/// Runs a script, and reports the outcome of each event: a line for each, and after the last one the module's counter, the
/// CPU's number, how many entries wait, and the record. If an event is refused, its line is the last, and is a fault.
///
/// # Errors
/// `Memory` if there was none for the run or for the text.
pub fn report(alloc: Global, script: &Script) -> Result<Report, Memory>
    ensures text { IfOk result (λ report.
        report.text.items ≡ (report_of (scenario_of script.now)).text) }
    ensures good { IfOk result (λ report.
        report.good ≡ (report_of (scenario_of script.now)).good) }
{
    report_run(
        alloc,
        script.id,
        script.first,
        script.limits,
        script.events.as_slice(),
    )
}

/// Returns the report of the script of a text: `read_script` and `report` in one, without a list of events. It reads the
/// whole text before it runs anything.
///
/// # Errors
/// The fault of the text's first faulty line; `Memory` if there was none for the steps of the script, for the run or for the
/// report.
pub fn report_text(alloc: Global, text: &[u8]) -> Result<Report, ScriptError>
    ensures ok { IfOk result (λ report. IsOkAnd (script_in text.now) (λ scenario.
        (report.text.items ≡ (report_of scenario).text)
        × (report.good ≡ (report_of scenario).good))) }
    ensures err { IfErr result (λ fault. fault ≢ ScriptError.Memory
        → script_in text.now ≡ Err fault) }
    ensures memory { result ≡ Err ScriptError.Memory
        → HasGoodFront (lines_of text.now) ⊎ IsScript text.now }
{
    let (header, steps) = read_header_and_steps(alloc, text)?;
    match report_run(
        alloc,
        header.id,
        header.first,
        header.limits,
        steps.as_slice(),
    ) {
        Ok(report) => Ok(report),
        Err(Memory) => Err(ScriptError::Memory),
    }
}

/// Returns the report of what happens to a module and a CPU with these settings.
fn report_run<T: WorldEvent>(
    alloc: Global,
    id: u8,
    first: u8,
    limits: Limits,
    happenings: &[T],
) -> Result<Report, Memory>
    ensures text { IfOk result (λ report. report.text.items
        ≡ (report_of (scenario_with id first limits (map T.event happenings.now))).text) }
    ensures good { IfOk result (λ report. report.good
        ≡ (report_of (scenario_with id first limits (map T.event happenings.now))).good) }
{
    match World::with_limits(alloc, id, first, limits) {
        Ok(mut world) => report_on(alloc, &mut world, happenings),
        Err(Memory) => Err(Memory),
    }
}

/// Returns the report of what happens to a world.
// Inlined, so that the world stays a local of the run.
#[inline(always)]
fn report_on<T: WorldEvent>(
    alloc: Global,
    world: &mut World,
    happenings: &[T],
) -> Result<Report, Memory>
    ensures text { (settings : Settings) (first : ℕ) (machine : Machine)
        → ShowsMachine settings first machine world.old → IfOk result (λ report. report.text.items
        ≡ (report_from settings first 1 machine (map T.event happenings.now)).text) }
    ensures good { (settings : Settings) (first : ℕ) (machine : Machine)
        → ShowsMachine settings first machine world.old → IfOk result (λ report. report.good
        ≡ (report_from settings first 1 machine (map T.event happenings.now)).good) }
{
    let mut text = Vec::new(alloc);
    let good = push_run(&mut text, world, happenings)?;
    Ok(Report { text, good })
}

/// Appends the lines of what happens to a world and of how that ends, and returns whether no event was refused.
// Inlined, so that the world stays a local of the run.
#[inline(always)]
fn push_run<T: WorldEvent>(
    text: &mut Vec<u8>,
    world: &mut World,
    happenings: &[T],
) -> Result<bool, Memory>
    ensures { (settings : Settings) (first : ℕ) (machine : Machine)
        → ShowsMachine settings first machine world.old
        → IfOk result (λ good. after_text text.old.items
        (report_from settings first 1 machine (map T.event happenings.now))
        ≡ record { text = text.new.items; good = good }) }
{
    for (place, happening) in happenings.iter().enumerate() {
        match happening.happen(world) {
            Ok(effect) => push_effect(text, place + 1, world, effect)?,
            Err(fault) => {
                push_refusal(text, place + 1, fault)?;
                return Ok(false);
            }
        }
    }
    push_ending(text, world)?;
    Ok(true)
}

/// Appends what the event with this number did, in the world after it.
fn push_effect(
    text: &mut Vec<u8>,
    number: usize,
    world: &World,
    effect: Effect,
) -> Result<(), AllocError>
    ensures { OnOk result (text.new.items
        ≡ text.old.items ++ outcome_line number (outcome_of_effect world.now effect)) }
{
    match effect {
        Effect::Quiet => push_quiet(text, number),
        Effect::ToModule(index) => push_sent(text, number, index, world.octets_to_module(index)),
        Effect::ToCpu(index) => push_sent(text, number, index, world.octets_to_cpu(index)),
        Effect::Heard(heard) => push_heard(text, number, heard),
    }
}
