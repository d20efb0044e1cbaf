//! The checker of the rules of transcripts, in memory of the caller.
ghost use Rattle.std.specs.Prelude.{◌≡◌, IfNone, IfSome, true, false};
ghost use Rattle.fio_check.specs.Checkers.{checker_anywhere, checker_with, checker_within, found_by, new_checker};
ghost use Rattle.fio_check.specs.Observations.{observation_in};
ghost use Rattle.fio_flat.specs.Module.{are_flat_limits};
ghost use Rattle.fio_c.specs.Checkers.{checker_in, flat_breach, flat_checker, flat_more, flat_skips, limits_of, more_in, octet_if, skips_in};

use fio_check::{Breach, Checker, Facts, RuleLimits, Skips};
use fio_flat::FlatLimits;
use fio_module::MOST_WAITING;

/// A checker. Its fields are the library's own: what it keeps of the frames that it took.
#[derive(Clone, Copy)]
#[repr(C)]
pub struct FlatChecker {
    /// 1 if a command is directly above.
    pub has_awaited: u8,
    /// The type of the answer to it.
    pub awaited: u8,
    /// 1 if it names an input above 63.
    pub absent_named: u8,
    /// 1 if a poll is above.
    pub has_polled: u8,
    /// The number of the latest poll.
    pub polled: u8,
    /// 1 if the latest poll or block answer is a block answer.
    pub answered: u8,
    /// 1 if the latest poll has another number than the poll before it.
    pub advanced: u8,
    /// 0 if no block answer is above, 1 if the latest has no C, 2 if it has.
    pub more: u8,
    /// What is skipped: 0 nothing; 1 all frames to the next poll, as below a breach; 2 what is heard above the first
    /// command.
    pub skips: u8,
    /// The most entries of a block of the module.
    pub per_block: u8,
    /// The most entries that wait there.
    pub waiting: u16,
    /// 0 in each octet that the library writes.
    pub reserved: [u8; 4],
}

/// The first rule that a frame breaks, and what was due.
#[derive(Clone, Copy)]
#[repr(C)]
pub struct FlatBreach {
    /// 0 for none, else the number of the rule: one of `FIO2070_RULE_READABLE` and those after it.
    pub rule: u8,
    /// 1 if `due` and `got` are set: for advance and number, and for pair below a command.
    pub has_due: u8,
    /// The number of the poll or the block answer, or the type of the answer, that was due.
    pub due: u8,
    /// The number or type that the frame has.
    pub got: u8,
}

/// A frame that keeps the rules.
const NO_BREACH: FlatBreach = FlatBreach {
    rule: 0,
    has_due: 0,
    due: 0,
    got: 0,
};

/// Starts a checker above the first frame, of a module with the limits of TEES 2009. Each octet of the struct is set.
#[unsafe(no_mangle)]
pub extern "C" fn fio2070_checker_start(checker: &mut FlatChecker)
    ensures made { checker_in checker.new ≡ new_checker }
    ensures octets { checker.new ≡ flat_checker new_checker }
{
    *checker = flat_from(&Checker::new());
}

/// Starts a checker above the first frame, of a module with these limits. Each octet of the struct is set. Returns 0, or 1
/// without any change if a limit is out of its range.
#[unsafe(no_mangle)]
pub extern "C" fn fio2070_checker_start_within(checker: &mut FlatChecker, limits: FlatLimits) -> u8
    ensures made { are_flat_limits limits ≡ true → checker_in checker.new ≡ checker_within (limits_of limits) }
    ensures octets { are_flat_limits limits ≡ true → (result ≡ 0) × (checker.new ≡ flat_checker (checker_within (limits_of limits))) }
    ensures refused { are_flat_limits limits ≡ false → (result ≡ 1) × (checker.new ≡ checker.old) }
{
    let Some(limits) = limits_from(limits) else {
        return 1;
    };
    *checker = flat_from(&Checker::within(limits));
    0
}

/// Starts a checker above the first frame of a log that begins anywhere: what the CPU's end heard above the first frame that
/// it sent is skipped. Returns as `fio2070_checker_start_within` does.
#[unsafe(no_mangle)]
pub extern "C" fn fio2070_checker_start_anywhere(
    checker: &mut FlatChecker,
    limits: FlatLimits,
) -> u8
    ensures made { are_flat_limits limits ≡ true → checker_in checker.new ≡ checker_anywhere (limits_of limits) }
    ensures octets { are_flat_limits limits ≡ true → (result ≡ 0) × (checker.new ≡ flat_checker (checker_anywhere (limits_of limits))) }
    ensures refused { are_flat_limits limits ≡ false → (result ≡ 1) × (checker.new ≡ checker.old) }
{
    let Some(limits) = limits_from(limits) else {
        return 1;
    };
    *checker = flat_from(&Checker::anywhere(limits));
    0
}

/// Returns the limits in a struct of C; `None` if one is out of its range.
pub(crate) fn limits_from(limits: FlatLimits) -> Option<RuleLimits>
    ensures none { IfNone result (are_flat_limits limits ≡ false) }
    ensures some { IfSome result (λ found. (are_flat_limits limits ≡ true) × (found ≡ limits_of limits)) }
{
    if limits.waiting == 0 || limits.waiting > MOST_WAITING || limits.per_block == 0 {
        return None;
    }
    Some(RuleLimits {
        per_block: limits.per_block,
        waiting: limits.waiting,
    })
}

/// Takes a frame that the CPU's end sent: writes its breach, each octet of it, and returns the number of its rule, 0 if it
/// keeps the rules. After a breach it continues like a checker that starts at the next poll.
#[unsafe(no_mangle)]
pub extern "C" fn fio2070_checker_sent(
    checker: &mut FlatChecker,
    octets: &[u8],
    breach: &mut FlatBreach,
) -> u8
    ensures next { checker_in checker.new ≡ checker_with (checker_in checker.old) true (observation_in true octets.now) }
    ensures breach { breach.new ≡ flat_breach (found_by (checker_in checker.old) true (observation_in true octets.now)) }
    ensures rule { result ≡ breach.new.rule }
{
    let mut kept = checker_from(checker);
    let found = kept.sent(octets);
    keep(&kept, found, checker, breach)
}

/// As `fio2070_checker_sent`, for a frame that the CPU's end heard.
#[unsafe(no_mangle)]
pub extern "C" fn fio2070_checker_heard(
    checker: &mut FlatChecker,
    octets: &[u8],
    breach: &mut FlatBreach,
) -> u8
    ensures next { checker_in checker.new ≡ checker_with (checker_in checker.old) false (observation_in false octets.now) }
    ensures breach { breach.new ≡ flat_breach (found_by (checker_in checker.old) false (observation_in false octets.now)) }
    ensures rule { result ≡ breach.new.rule }
{
    let mut kept = checker_from(checker);
    let found = kept.heard(octets);
    keep(&kept, found, checker, breach)
}

/// Returns the checker that a struct of C represents, whatever its octets are.
pub(crate) fn checker_from(flat: &FlatChecker) -> Checker
    ensures { result ≡ checker_in flat.now }
{
    Checker {
        limits: RuleLimits {
            per_block: flat.per_block,
            waiting: flat.waiting,
        },
        facts: Facts {
            awaited: octet_in(flat.has_awaited, flat.awaited),
            absent_named: flat.absent_named != 0,
            polled: octet_in(flat.has_polled, flat.polled),
            answered: flat.answered != 0,
            advanced: flat.advanced != 0,
            more: more_in(flat.more),
        },
        skips: skips_in(flat.skips),
    }
}

/// Writes a checker and the breach that it found to the caller's structs, each octet of them, and returns the number of the
/// breach's rule, 0 without a breach.
#[tactic(auto, using(crate::proofs::Checkers::checker_kept))]
fn keep(
    kept: &Checker,
    found: Option<Breach>,
    checker: &mut FlatChecker,
    breach: &mut FlatBreach,
) -> u8
    ensures kept { checker_in checker.new ≡ kept.now }
    ensures breach { breach.new ≡ flat_breach found }
    ensures rule { result ≡ breach.new.rule }
{
    *checker = flat_from(kept);
    *breach = breach_from(found);
    breach.rule
}

/// Returns the struct of C that represents a checker.
pub(crate) fn flat_from(checker: &Checker) -> FlatChecker
    ensures { result ≡ flat_checker checker.now }
{
    let facts = &checker.facts;
    FlatChecker {
        has_awaited: u8::from(facts.awaited.is_some()),
        awaited: facts.awaited.unwrap_or(0),
        absent_named: u8::from(facts.absent_named),
        has_polled: u8::from(facts.polled.is_some()),
        polled: facts.polled.unwrap_or(0),
        answered: u8::from(facts.answered),
        advanced: u8::from(facts.advanced),
        more: flat_more(facts.more),
        skips: flat_skips(checker.skips),
        per_block: checker.limits.per_block,
        waiting: checker.limits.waiting,
        reserved: [0; 4],
    }
}

/// Returns a number, if its flag is set.
fn octet_in(has: u8, octet: u8) -> Option<u8>
    ensures { result ≡ octet_if has octet }
{
    if has == 0 { None } else { Some(octet) }
}

/// Returns whether the latest block answer has C.
fn more_in(more: u8) -> Option<bool>
    ensures { result ≡ more_in more }
{
    if more == 0 { None } else { Some(more != 1) }
}

/// `more` for C: 0 no block answer, 1 without C, 2 with C.
fn flat_more(more: Option<bool>) -> u8
    ensures { result ≡ flat_more more }
{
    match more {
        None => 0,
        Some(false) => 1,
        Some(true) => 2,
    }
}

/// Returns what a checker skips.
fn skips_in(skips: u8) -> Skips
    ensures { result ≡ skips_in skips }
{
    match skips {
        0 => Skips::Nothing,
        2 => Skips::ToCommand,
        _ => Skips::ToPoll,
    }
}

/// `skips` for C: 0 nothing, 1 to the next poll, 2 what is heard to the first command.
fn flat_skips(skips: Skips) -> u8
    ensures { result ≡ flat_skips skips }
{
    match skips {
        Skips::Nothing => 0,
        Skips::ToPoll => 1,
        Skips::ToCommand => 2,
    }
}

/// Returns a breach as C sees it.
pub(crate) fn breach_from(found: Option<Breach>) -> FlatBreach
    ensures { result ≡ flat_breach found }
{
    match found {
        None => NO_BREACH,
        Some(breach) => {
            let rule = breach.rule.number();
            match breach.due {
                None => FlatBreach { rule, ..NO_BREACH },
                Some(due) => FlatBreach {
                    rule,
                    has_due: 1,
                    due: due.expected,
                    got: due.actual,
                },
            }
        }
    }
}
