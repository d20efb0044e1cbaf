//! Makes each call that can allocate once, except those of the tools and of the command line, which `fio2070` makes, and
//! reports for each whether its answer was right. If an allocation is refused, the one call that meets the refusal has to
//! report it and to leave everything as it was. `tests/refused-memory.py` runs both programs once for each growth of memory,
//! refusing that one.
#![tactic(auto)]

mod answers;
mod hearing;
mod modules;
mod samples;
mod texts;
mod worlds;

use answers::CallOutcome;
use fio_message::Memory;
use samples::Sample;
use std::alloc::Global;
use std::process::ExitCode;

fn main(rt: HostRuntime) -> ExitCode {
    let mut rows = Rows {
        rt: &rt,
        are_right: true,
    };
    report_parts(&mut rows, rt.alloc());
    report_steps(&mut rows, rt.alloc());
    report_runs(&mut rows, rt.alloc());
    report_texts(&mut rows, rt.alloc());
    ExitCode::from(u8::from(!rows.are_right))
}

/// A line of output for each call, written before the next call is made: it shows `tests/refused-memory.py` which call met
/// the refusal.
#[derive(Drop)]
struct Rows<'a> {
    rt: &'a HostRuntime,
    /// No answer was wrong, and each was written.
    are_right: bool,
}

impl Rows<'_> {
    /// Reports how a call answered.
    fn report(&mut self, name: &str, answer: CallOutcome) {
        let is_right = match answer {
            CallOutcome::Right => self.writes(name, "right"),
            CallOutcome::Refused(place) => self.writes_place(name, place),
            CallOutcome::Wrong => {
                self.writes(name, "wrong");
                false
            }
        };
        self.are_right = self.are_right && is_right;
    }

    /// Reports how a call answered, or that memory was refused before it was made.
    fn report_begun(&mut self, name: &str, answer: Result<CallOutcome, Memory>) {
        match answer {
            Ok(answer) => self.report(name, answer),
            Err(Memory) => {
                let is_written = self.writes(name, "not begun");
                self.are_right = self.are_right && is_written;
            }
        }
    }

    /// Writes how a call answered, and returns whether that succeeded.
    fn writes(&self, name: &str, answer: &str) -> bool {
        println!(self.rt; "{name}: {answer}").is_ok()
    }

    /// Writes where memory was refused, and returns whether that succeeded.
    fn writes_place(&self, name: &str, place: usize) -> bool {
        println!(self.rt; "{name}: refused at {place}").is_ok()
    }
}

/// The calls of the module and of the CPU's end.
fn report_parts(rows: &mut Rows<'_>, alloc: Global) {
    rows.report("Module::new", modules::new(alloc));
    rows.report("Module::with_limits", modules::with_limits(alloc));
    rows.report_begun("other calls of Module", modules::others(alloc));
    rows.report("Poller::hear of one entry", hearing::one_entry(alloc));
    rows.report("Poller::hear of 255 entries", hearing::most_entries(alloc));
    rows.report("Poller::hear of a gap", hearing::gap(alloc));
    rows.report("Poller::hear that adds nothing", hearing::nothing(alloc));
}

/// Worlds that are made, and their events one by one.
fn report_steps(rows: &mut Rows<'_>, alloc: Global) {
    rows.report("World::new", worlds::new(alloc));
    rows.report("World::with_limits", worlds::with_limits(alloc));
    rows.report_begun("World::step", worlds::step(alloc, Sample::LostAnswer));
    rows.report_begun(
        "World::step of nine rounds",
        worlds::step(alloc, Sample::NineRounds),
    );
    rows.report_begun(
        "World::step with limits",
        worlds::step(alloc, Sample::OneEntry),
    );
}

/// Events together.
fn report_runs(rows: &mut Rows<'_>, alloc: Global) {
    rows.report_begun(
        "World::step_all",
        worlds::step_all(alloc, Sample::LostAnswer),
    );
    rows.report_begun(
        "World::step_all of nine rounds",
        worlds::step_all(alloc, Sample::NineRounds),
    );
    rows.report_begun(
        "World::step that adds nothing",
        worlds::adding_nothing(alloc),
    );
    rows.report_begun("World::run", worlds::run(alloc, Sample::LostAnswer));
    rows.report_begun(
        "World::run of nine rounds",
        worlds::run(alloc, Sample::NineRounds),
    );
    rows.report_begun(
        "World::run_with_limits",
        worlds::run_with_limits(alloc, Sample::OneEntry),
    );
}

/// Texts that are read and made.
fn report_texts(rows: &mut Rows<'_>, alloc: Global) {
    rows.report_begun("push_fault", texts::push_words(alloc));
    rows.report("read_octets", texts::octets(alloc));
    rows.report("read_script", texts::script(alloc));
    rows.report("read_script of faulty lines", texts::faulty_scripts(alloc));
    rows.report(
        "read_script of a fault below a good line",
        texts::script_with_a_fault(alloc),
    );
    rows.report_begun("report", texts::reported(alloc));
    rows.report("report_text", texts::reported_text(alloc));
    rows.report("read_trace", texts::transcript(alloc));
    rows.report(
        "read_trace of faulty lines",
        texts::faulty_transcripts(alloc),
    );
    rows.report(
        "read_trace of a fault below a good line",
        texts::transcript_with_a_fault(alloc),
    );
    rows.report_begun("check_trace", texts::verdict(alloc));
}
