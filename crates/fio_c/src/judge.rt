//! The judge of a link, in memory of the caller.
ghost use Rattle.std.specs.Prelude.{◌≡◌, Bool, false, true};
ghost use Rattle.fio_check.specs.LinkJudges.{judging_anywhere, judging_begun, judging_lost, judging_with, outcome_in};
ghost use Rattle.fio_check.specs.LinkKept.{judging};
ghost use Rattle.fio_flat.specs.Module.{are_flat_limits};
ghost use Rattle.fio_c.specs.Checkers.{limits_of, octet_if};
ghost use Rattle.fio_c.specs.Judges.{ReservesZeros, excuse_number, flat_outcome, judge_in, place_in, unjudged_number, without_breach};

use crate::checker::{FlatChecker, breach_from, checker_from, flat_from, limits_from};
use fio_check::{ContentChecker, Excuse, FrameOutcome, LinkJudge, LogPlace, Unjudged};
use fio_flat::FlatLimits;

/// The value of `input` in an outcome without an input.
const NO_INPUT: u8 = 255;

/// A judge of a link. Its fields are the library's own: what it keeps of the frames that it took.
#[derive(Clone, Copy)]
#[repr(C)]
pub struct FlatJudge {
    /// The checker of the rules on content.
    pub content: ContentChecker,
    /// The checker of the rules of transcripts.
    pub checker: FlatChecker,
    /// The latest stamp that was judged, but not that of a repeated block.
    pub latest: u32,
    /// The latest stamp at the time of the first poll for the block that is due.
    pub asked: u32,
    /// 1 if there is a latest stamp.
    pub has_latest: u8,
    /// 1 if there was a latest stamp at that poll.
    pub has_asked: u8,
    /// The number of polls below the latest stamp, up to 2.
    pub polls: u8,
    /// 0 in each octet that the library writes.
    pub reserved: [u8; 5],
}

/// The outcome of a frame.
#[derive(Clone, Copy)]
#[repr(C)]
pub struct JudgeOutcome {
    /// One of `FIO2070_OUTCOME_KEPT` and those after it.
    pub kind: u8,
    /// Why the frame is excused or not judged, one of `FIO2070_WHY_LOAD` and those after it; else 0.
    pub why: u8,
    /// The number of the rule that the frame breaks: by its kind one of `FIO2070_RULE_READABLE` and those after it, or of
    /// `FIO2070_CONTENT_ORDER` and those after it; else 0.
    pub rule: u8,
    /// 1 if `due` and `got` are set: of rules of transcripts for advance and number, and for pair below a command.
    pub has_due: u8,
    /// The number of the poll or the block answer, or the type of the answer, that was due.
    pub due: u8,
    /// The number or type that the frame has.
    pub got: u8,
    /// The input of the entry that breaks a rule on content, or the input with another state; else 255.
    pub input: u8,
    /// 0.
    pub reserved: u8,
    /// How many items of the frame's block are recorded above a breach of a rule on content, a gap mark with them: for an answer
    /// none, at the end of a block all.
    pub items: u16,
}

/// Starts a judge above the first frame of a log that begins anywhere, of a module with these limits. What the CPU's end heard
/// above the first frame that it sent is not judged. Returns 0, or 1 without any change if a limit is out of its range.
#[unsafe(no_mangle)]
pub extern "C" fn fio2070_judge_start_anywhere(judge: &mut FlatJudge, limits: FlatLimits) -> u8
    ensures made { are_flat_limits limits ≡ true → (result ≡ 0) × (judge_in judge.new ≡ judging_anywhere (limits_of limits)) }
    ensures reserved { are_flat_limits limits ≡ true → ReservesZeros judge.new }
    ensures refused { are_flat_limits limits ≡ false → (result ≡ 1) × (judge.new ≡ judge.old) }
{
    let Some(limits) = limits_from(limits) else {
        return 1;
    };
    *judge = flat_of(&LinkJudge::anywhere(limits));
    0
}

/// Starts a judge above the first frame of a log that begins with both ends; then more is found. Returns as
/// `fio2070_judge_start_anywhere` does.
#[unsafe(no_mangle)]
pub extern "C" fn fio2070_judge_start_begun(judge: &mut FlatJudge, limits: FlatLimits) -> u8
    ensures made { are_flat_limits limits ≡ true → (result ≡ 0) × (judge_in judge.new ≡ judging_begun (limits_of limits)) }
    ensures reserved { are_flat_limits limits ≡ true → ReservesZeros judge.new }
    ensures refused { are_flat_limits limits ≡ false → (result ≡ 1) × (judge.new ≡ judge.old) }
{
    let Some(limits) = limits_from(limits) else {
        return 1;
    };
    *judge = flat_of(&LinkJudge::begun(limits));
    0
}

/// Takes a place where lines of the log are lost, or where a part of it ends and another begins: nothing is judged until the
/// next poll, and what the lost lines may explain accuses nobody.
#[unsafe(no_mangle)]
pub extern "C" fn fio2070_judge_lose(judge: &mut FlatJudge)
    ensures next { judge_in judge.new ≡ judging_lost (judge_in judge.old) }
    ensures reserved { ReservesZeros judge.new }
{
    let mut kept = judge_from(judge);
    kept.lose();
    *judge = flat_of(&kept);
}

/// Takes a frame that the CPU's end sent. `at` says where it was logged: 0 at the CPU's end, 1 at the module, any other on the
/// bus. Writes its outcome, each octet of it, and returns its kind.
#[unsafe(no_mangle)]
pub extern "C" fn fio2070_judge_sent(
    judge: &mut FlatJudge,
    at: u8,
    octets: &[u8],
    outcome: &mut JudgeOutcome,
) -> u8
    ensures next { judge_in judge.new ≡ judging_with (judge_in judge.old) (place_in at) true octets.now }
    ensures reserved { ReservesZeros judge.new }
    ensures outcome { outcome.new ≡ flat_outcome (outcome_in (judge_in judge.old) (place_in at) true octets.now) }
    ensures kind { result ≡ outcome.new.kind }
{
    *outcome = take(judge, at, true, octets);
    outcome.kind
}

/// As `fio2070_judge_sent`, for a frame that the CPU's end heard, or was sent. Where that was logged does not matter.
#[unsafe(no_mangle)]
pub extern "C" fn fio2070_judge_heard(
    judge: &mut FlatJudge,
    octets: &[u8],
    outcome: &mut JudgeOutcome,
) -> u8
    ensures next { judge_in judge.new ≡ judging_with (judge_in judge.old) (place_in 0) false octets.now }
    ensures reserved { ReservesZeros judge.new }
    ensures outcome { outcome.new ≡ flat_outcome (outcome_in (judge_in judge.old) (place_in 0) false octets.now) }
    ensures kind { result ≡ outcome.new.kind }
{
    *outcome = take(judge, 0, false, octets);
    outcome.kind
}

/// Takes a frame, and returns its outcome as C sees it.
fn take(judge: &mut FlatJudge, at: u8, from_cpu: bool, octets: &[u8]) -> JudgeOutcome
    ensures next { judge_in judge.new ≡ judging_with (judge_in judge.old) (place_in at) from_cpu octets.now }
    ensures reserved { ReservesZeros judge.new }
    ensures outcome { result ≡ flat_outcome (outcome_in (judge_in judge.old) (place_in at) from_cpu octets.now) }
{
    let mut kept = judge_from(judge);
    let outcome = kept.frame(place_from(at), from_cpu, octets);
    *judge = flat_of(&kept);
    outcome_from(outcome)
}

/// Returns the judge that a struct of C represents, whatever its octets are.
pub(crate) fn judge_from(flat: &FlatJudge) -> LinkJudge
    ensures { judging result ≡ judge_in flat.now }
{
    LinkJudge {
        checker: checker_from(&flat.checker),
        content: flat.content,
        latest: stamp_in(flat.has_latest, flat.latest),
        asked: stamp_in(flat.has_asked, flat.asked),
        polls: flat.polls,
    }
}

/// Returns a stamp, if its flag is set.
fn stamp_in(has: u8, stamp: u32) -> Option<u32>
    ensures { result ≡ octet_if has stamp }
{
    if has == 0 { None } else { Some(stamp) }
}

/// Returns the struct of C that represents a judge.
#[tactic(auto, using(crate::proofs::Checkers::checker_kept))]
pub(crate) fn flat_of(judge: &LinkJudge) -> FlatJudge
    ensures kept { judge_in result ≡ judging judge.now }
    ensures reserved { ReservesZeros result }
{
    FlatJudge {
        content: judge.content,
        checker: flat_from(&judge.checker),
        latest: judge.latest.unwrap_or(0),
        asked: judge.asked.unwrap_or(0),
        has_latest: u8::from(judge.latest.is_some()),
        has_asked: u8::from(judge.asked.is_some()),
        polls: judge.polls,
        reserved: [0; 5],
    }
}

/// Returns where a frame was logged.
fn place_from(at: u8) -> LogPlace
    ensures { result ≡ place_in at }
{
    match at {
        0 => LogPlace::Cpu,
        1 => LogPlace::Module,
        _ => LogPlace::Bus,
    }
}

/// Returns the outcome of a frame as C sees it.
pub(crate) fn outcome_from(outcome: FrameOutcome) -> JudgeOutcome
    ensures { result ≡ flat_outcome outcome }
{
    match outcome {
        FrameOutcome::Kept => without_breach(0, 0),
        FrameOutcome::Broken(breach) => {
            let flat = breach_from(Some(breach));
            JudgeOutcome {
                rule: flat.rule,
                has_due: flat.has_due,
                due: flat.due,
                got: flat.got,
                ..without_breach(1, 0)
            }
        }
        FrameOutcome::BrokenContent(breach) => JudgeOutcome {
            rule: breach.rule.number(),
            input: breach.input.unwrap_or(NO_INPUT),
            items: breach.items,
            ..without_breach(2, 0)
        },
        FrameOutcome::Excused(excuse) => without_breach(3, excuse_number(excuse)),
        FrameOutcome::Restarted => without_breach(4, 0),
        FrameOutcome::NotJudged(reason) => without_breach(5, unjudged_number(reason)),
    }
}

/// Returns an outcome of this kind, for this reason, without a breach.
pub(crate) fn without_breach(kind: u8, why: u8) -> JudgeOutcome
    ensures { result ≡ without_breach kind why }
{
    JudgeOutcome {
        kind,
        why,
        rule: 0,
        has_due: 0,
        due: 0,
        got: 0,
        input: NO_INPUT,
        reserved: 0,
        items: 0,
    }
}

/// Returns the number of a reason why a frame is excused.
fn excuse_number(excuse: Excuse) -> u8
    ensures { result ≡ excuse_number excuse }
{
    match excuse {
        Excuse::Load => 1,
        Excuse::Unheard => 2,
    }
}

/// Returns the number of a reason why a frame is not judged.
fn unjudged_number(reason: Unjudged) -> u8
    ensures { result ≡ unjudged_number reason }
{
    match reason {
        Unjudged::AboveCommand => 3,
        Unjudged::PlaceLost => 4,
    }
}
