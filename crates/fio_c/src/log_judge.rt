//! The judge of a log, in memory of the caller.
ghost use Rattle.std.specs.Prelude.{◌≡◌, ◌==◌, None, Some, false, not, true};
ghost use Rattle.fio_check.specs.LogJudges.{log_judging, log_lost, log_missing, log_possible, log_with, outcome_in_log};
ghost use Rattle.fio_flat.specs.Module.{are_flat_limits};
ghost use Rattle.fio_c.specs.Checkers.{limits_of, octet_if};
ghost use Rattle.fio_c.specs.LogJudges.{LogReservesZeros, end_in, flat_log_outcome, late_in, log_judge_in, log_started, missing_in, missing_number, place_number, place_taken, start_in};

use crate::checker::limits_from;
use crate::judge::{FlatJudge, JudgeOutcome, flat_of, judge_from, outcome_from, without_breach};
use fio_check::{LateAnswers, LogJudge, LogOutcome, LogPlace, LogStart, MissingFrames, RuleLimits};
use fio_flat::FlatLimits;

/// A judge of a log. Its fields are the library's own: what it keeps of the lines that it took.
#[derive(Clone, Copy)]
#[repr(C)]
pub struct FlatLogJudge {
    /// The judge of the link.
    pub link: FlatJudge,
    /// How many frames were sent by the end that their line names.
    pub agreeing: u32,
    /// How many frames were sent by the other end.
    pub contrary: u32,
    /// Where the log was taken: 0 to be found out, 1 at the CPU's end, 2 at the module, any other on the bus.
    pub place: u8,
    /// 1 if there is a frame above.
    pub has_frames: u8,
    /// Where frames may be missing, since a line speaks of loss: 0 nowhere below the latest block answer, 1 below the latest poll too,
    /// any other above that poll.
    pub missing: u8,
    /// 1 if late answers are left out.
    pub has_late: u8,
    /// 1 if no answer to a command above can still come.
    pub settled: u8,
    /// 1 if the latest command waits for an answer.
    pub has_awaited: u8,
    /// The type of that answer.
    pub awaited: u8,
    /// 1 if there is a poll above.
    pub has_polled: u8,
    /// The number of the latest poll.
    pub polled: u8,
    /// 1 if that poll is the first with its number.
    pub first: u8,
    /// 1 if a block with that number is below that poll.
    pub answered: u8,
    /// 1 if no load of the counter is among lines that are lost.
    pub never_loads: u8,
    /// 0 in each octet that the library writes.
    pub reserved: [u8; 4],
}

/// Starts a judge above the first line of a log of a module with these limits. `place` says where the log was taken: 0 to be
/// found out by the directions in the log, 1 at the CPU's end, 2 at the module, any other on the bus. `start` says how the log
/// begins: 1 with both ends, any other number anywhere; 2 also leaves out late answers. 4, 5 and 6 are 0, 1 and 2 for a CPU that
/// never loads the counter. Returns 0, or 1 without any change if a limit is out of its range.
#[unsafe(no_mangle)]
pub extern "C" fn fio2070_log_judge_start(
    judge: &mut FlatLogJudge,
    limits: FlatLimits,
    place: u8,
    start: u8,
) -> u8
    ensures made { are_flat_limits limits ≡ true → (result ≡ 0)
        × (log_judge_in judge.new ≡ log_started (limits_of limits) place start) }
    ensures reserved { are_flat_limits limits ≡ true → LogReservesZeros judge.new }
    ensures refused { are_flat_limits limits ≡ false → (result ≡ 1) × (judge.new ≡ judge.old) }
{
    let Some(limits) = limits_from(limits) else {
        return 1;
    };
    *judge = log_flat_of(&judge_above(limits, place, start));
    0
}

/// Returns a judge above the first line of a log of a module with these limits.
fn judge_above(limits: RuleLimits, place: u8, start: u8) -> LogJudge
    ensures { log_judging result ≡ log_started limits place start }
{
    let mut judge = LogJudge::new(limits, place_taken(place), start_from(start));
    if matches!(start, 4..=6) {
        judge.never_loads();
    }
    judge
}

/// Takes a line that may have held a frame: nothing is judged until the next poll.
#[unsafe(no_mangle)]
pub extern "C" fn fio2070_log_judge_lose(judge: &mut FlatLogJudge)
    ensures next { log_judge_in judge.new ≡ log_lost (log_judge_in judge.old) }
    ensures reserved { LogReservesZeros judge.new }
{
    let mut kept = log_judge_from(judge);
    kept.lose();
    *judge = log_flat_of(&kept);
}

/// Takes a line that says a message which nothing confirms: if a frame is above, or if the log begins with both ends, it acts as
/// `fio2070_log_judge_lose`.
#[unsafe(no_mangle)]
pub extern "C" fn fio2070_log_judge_possible(judge: &mut FlatLogJudge)
    ensures next { log_judge_in judge.new ≡ log_possible (log_judge_in judge.old) }
    ensures reserved { LogReservesZeros judge.new }
{
    let mut kept = log_judge_from(judge);
    kept.possible();
    *judge = log_flat_of(&kept);
}

/// Takes a line without octets that speaks of loss: nobody is accused of what a frame explains that is missing here.
#[unsafe(no_mangle)]
pub extern "C" fn fio2070_log_judge_miss(judge: &mut FlatLogJudge)
    ensures next { log_judge_in judge.new ≡ log_missing (log_judge_in judge.old) }
    ensures reserved { LogReservesZeros judge.new }
{
    let mut kept = log_judge_from(judge);
    kept.miss();
    *judge = log_flat_of(&kept);
}

/// Takes a frame that the CPU's end sent, if `from_cpu` is not 0, or the module. `said` is who sent it by its line: 1 the CPU's
/// end, 2 the module, any other number if the line does not say it. Writes the frame's outcome, each octet of it, and returns
/// its kind.
#[unsafe(no_mangle)]
pub extern "C" fn fio2070_log_judge_frame(
    judge: &mut FlatLogJudge,
    from_cpu: u8,
    said: u8,
    octets: &[u8],
    outcome: &mut JudgeOutcome,
) -> u8
    ensures next { log_judge_in judge.new ≡ log_with (log_judge_in judge.old) (not (from_cpu == 0)) (end_in said) octets.now }
    ensures reserved { LogReservesZeros judge.new }
    ensures outcome { outcome.new ≡ flat_log_outcome (outcome_in_log (log_judge_in judge.old) (not (from_cpu == 0)) (end_in said) octets.now) }
    ensures kind { result ≡ outcome.new.kind }
{
    *outcome = take(judge, from_cpu != 0, end_from(said), octets);
    outcome.kind
}

/// Takes a frame, and returns its outcome as C sees it.
fn take(judge: &mut FlatLogJudge, from_cpu: bool, said: Option<bool>, octets: &[u8]) -> JudgeOutcome
    ensures next { log_judge_in judge.new ≡ log_with (log_judge_in judge.old) from_cpu said octets.now }
    ensures reserved { LogReservesZeros judge.new }
    ensures outcome { result ≡ flat_log_outcome (outcome_in_log (log_judge_in judge.old) from_cpu said octets.now) }
{
    let mut kept = log_judge_from(judge);
    let outcome = kept.frame(from_cpu, said, octets);
    *judge = log_flat_of(&kept);
    log_outcome_from(outcome)
}

/// Returns the outcome of a frame as C sees it.
pub(crate) fn log_outcome_from(outcome: LogOutcome) -> JudgeOutcome
    ensures { result ≡ flat_log_outcome outcome }
{
    match outcome {
        LogOutcome::Link(outcome) => outcome_from(outcome),
        LogOutcome::Late => without_breach(3, 5),
        LogOutcome::LateAbove => without_breach(3, 6),
    }
}

/// Returns the judge that a struct of C represents, whatever its octets are.
pub(crate) fn log_judge_from(flat: &FlatLogJudge) -> LogJudge
    ensures { log_judging result ≡ log_judge_in flat.now }
{
    LogJudge {
        link: judge_from(&flat.link),
        late: late_from(flat),
        place: place_taken(flat.place),
        agreeing: flat.agreeing,
        contrary: flat.contrary,
        has_frames: flat.has_frames != 0,
        missing: missing_from(flat.missing),
        never_loads: flat.never_loads != 0,
    }
}

/// Returns what decides which answers are late, if these are left out.
fn late_from(flat: &FlatLogJudge) -> Option<LateAnswers>
    ensures { result ≡ late_in flat.now }
{
    if flat.has_late == 0 {
        return None;
    }
    Some(LateAnswers {
        settled: flat.settled != 0,
        awaited: octet_from(flat.has_awaited, flat.awaited),
        polled: octet_from(flat.has_polled, flat.polled),
        first: flat.first != 0,
        answered: flat.answered != 0,
    })
}

/// Returns an octet, if its flag is set.
pub(crate) fn octet_from(has: u8, octet: u8) -> Option<u8>
    ensures { result ≡ octet_if has octet }
{
    if has == 0 { None } else { Some(octet) }
}

/// Returns the struct of C that represents a judge.
pub(crate) fn log_flat_of(judge: &LogJudge) -> FlatLogJudge
    ensures kept { log_judge_in result ≡ log_judging judge.now }
    ensures reserved { LogReservesZeros result }
{
    let flat = flat_without_late(judge);
    match judge.late {
        None => flat,
        Some(late) => flat_with_late(flat, late),
    }
}

/// Returns the struct of a judge that leaves out no late answer.
#[tactic(auto, using(crate::proofs::LogJudges::place_kept, crate::proofs::LogJudges::missing_kept))]
fn flat_without_late(judge: &LogJudge) -> FlatLogJudge
    ensures kept { log_judge_in result ≡ (record (log_judging judge.now) { late = None }) }
    ensures reserved { LogReservesZeros result }
{
    FlatLogJudge {
        link: flat_of(&judge.link),
        agreeing: judge.agreeing,
        contrary: judge.contrary,
        place: place_number(judge.place),
        has_frames: u8::from(judge.has_frames),
        missing: missing_number(judge.missing),
        has_late: 0,
        settled: 0,
        has_awaited: 0,
        awaited: 0,
        has_polled: 0,
        polled: 0,
        first: 0,
        answered: 0,
        never_loads: u8::from(judge.never_loads),
        reserved: [0; 4],
    }
}

/// Returns the struct with what decides which answers are late.
fn flat_with_late(flat: FlatLogJudge, late: LateAnswers) -> FlatLogJudge
    ensures kept { log_judge_in result ≡ (record (log_judge_in flat) { late = Some late }) }
    ensures reserved { LogReservesZeros flat → LogReservesZeros result }
{
    FlatLogJudge {
        has_late: 1,
        settled: u8::from(late.settled),
        has_awaited: u8::from(late.awaited.is_some()),
        awaited: late.awaited.unwrap_or(0),
        has_polled: u8::from(late.polled.is_some()),
        polled: late.polled.unwrap_or(0),
        first: u8::from(late.first),
        answered: u8::from(late.answered),
        ..flat
    }
}

/// Returns where a log was taken, if that is known.
fn place_taken(place: u8) -> Option<LogPlace>
    ensures { result ≡ place_taken place }
{
    match place {
        0 => None,
        1 => Some(LogPlace::Cpu),
        2 => Some(LogPlace::Module),
        _ => Some(LogPlace::Bus),
    }
}

/// Returns the number of where a log was taken.
fn place_number(place: Option<LogPlace>) -> u8
    ensures { result ≡ place_number place }
{
    match place {
        None => 0,
        Some(LogPlace::Cpu) => 1,
        Some(LogPlace::Module) => 2,
        Some(LogPlace::Bus) => 3,
    }
}

/// Returns where frames may be missing.
fn missing_from(missing: u8) -> MissingFrames
    ensures { result ≡ missing_in missing }
{
    match missing {
        0 => MissingFrames::Nowhere,
        1 => MissingFrames::Below,
        _ => MissingFrames::AbovePoll,
    }
}

/// Returns the number of where frames may be missing.
fn missing_number(missing: MissingFrames) -> u8
    ensures { result ≡ missing_number missing }
{
    match missing {
        MissingFrames::Nowhere => 0,
        MissingFrames::Below => 1,
        MissingFrames::AbovePoll => 2,
    }
}

/// Returns how a log begins.
fn start_from(start: u8) -> LogStart
    ensures { result ≡ start_in start }
{
    match start {
        1 | 5 => LogStart::Begun,
        2 | 6 => LogStart::LateAnswers,
        _ => LogStart::Anywhere,
    }
}

/// Returns whether the CPU's end sent a frame, if its line says who did.
pub(crate) fn end_from(said: u8) -> Option<bool>
    ensures { result ≡ end_in said }
{
    match said {
        1 => Some(true),
        2 => Some(false),
        _ => None,
    }
}
