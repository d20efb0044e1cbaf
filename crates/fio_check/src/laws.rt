//! Laws of the definitions that the contracts cite. Each function states one in its contract, and does nothing.
ghost use Rattle.std.specs.Prelude.{◌≡◌, ℕ, Bool, List, None, Option, false, option_map};
ghost use Rattle.fio_check.specs.Checkers.{BeginsAnywhere, GoesOn, verdict_of_checker};
ghost use Rattle.fio_check.specs.ContentCheckers.{ContentChecking, checking_at_start, fault_found, found_first};
ghost use Rattle.fio_check.specs.ContentEvents.{LineEvent};
ghost use Rattle.fio_check.specs.ContentLaws.{KeepsContent};
ghost use Rattle.fio_check.specs.ContentFaults.{content_fault_in};
ghost use Rattle.fio_check.specs.Facts.{is_answering, number_polled, status_of_block};
ghost use Rattle.fio_check.specs.Finding.{FindsDoubled, FindsDropped, FindsSwapped, FindsTurned, FindsTurnedLater};
ghost use Rattle.fio_check.specs.LateAnswers.{lateness_of};
ghost use Rattle.fio_check.specs.Laws.{HasOneVerdict, IsTheLatest, KeepsFacts};
ghost use Rattle.fio_check.specs.Lines.{TranscriptLine};
ghost use Rattle.fio_check.specs.LinkJudges.{Judging, LogLine};
ghost use Rattle.fio_check.specs.LinkLaws.{ExcusesWhatIsShown, FindFirst, FindsRestart, GoesOnAsCheckers, HasOutcomes, LinkGoesOn, LosesPlace, SaysTheSame};
ghost use Rattle.fio_check.specs.LogJudges.{LogEvent, LogJudging, late_starting, log_starting};
ghost use Rattle.fio_check.specs.LogLaws.{IsJudgedAsLink, JudgesFramesAlike, JudgesInTime, around_in, nothing_around};
ghost use Rattle.fio_check.specs.Observations.{observation_at, observation_in};
ghost use Rattle.fio_check.specs.UnloadedLogs.{JudgesUnloaded, SupposesNoLoad};
ghost use Rattle.fio_check.specs.Verdicts.{verdict_on};
ghost use Rattle.fio_check.specs.declared.checker.Checker.{Checker};
ghost use Rattle.fio_check.specs.declared.late_answers.LateAnswers.{LateAnswers};
ghost use Rattle.fio_check.specs.declared.late_answers.Lateness.TheVariants.{InTime};
ghost use Rattle.fio_check.specs.declared.limits.RuleLimits.{RuleLimits};
ghost use Rattle.fio_check.specs.declared.log_judge.LogStart.{LogStart};
ghost use Rattle.fio_check.specs.declared.observation.Observation.{Observation};
ghost use Rattle.fio_check.specs.declared.outcome.LogPlace.{LogPlace};

/// The latest poll above a line is the latest that is sent above it, and so are the latest block
/// answer and the latest of both.
pub fn latest_is_latest_above()
    ensures polls { (lines : List TranscriptLine)
        → IsTheLatest (λ place. number_polled (observation_at lines place)) }
    ensures blocks { (lines : List TranscriptLine)
        → IsTheLatest (λ place. status_of_block (observation_at lines place)) }
    ensures turns { (lines : List TranscriptLine)
        → IsTheLatest (λ place. is_answering (observation_at lines place)) }
{}

/// `Facts::add` computes what is above the next line.
#[tactic(auto, using(crate::proofs::KeptFacts::facts_are_kept))]
pub fn facts_are_kept()
    ensures { (lines : List TranscriptLine) → KeepsFacts lines }
{}

/// A transcript has exactly one verdict, that of `check_trace`.
#[tactic(auto, using(crate::proofs::Verdicts::one_verdict))]
pub fn verdicts_are_one()
    ensures { (lines : List TranscriptLine) → HasOneVerdict lines }
{}

/// Up to the first breach a checker finds what `check_trace` finds: the verdict by its first breach is the verdict on the
/// transcript.
pub fn checkers_find_the_first_breach()
    ensures { (lines : List TranscriptLine) → verdict_of_checker lines ≡ verdict_on lines }
{}

/// After a breach a checker continues like a checker that starts at the next poll.
pub fn checkers_go_on()
    ensures { (limits : RuleLimits) (lines : List TranscriptLine) → GoesOn limits lines }
{}

/// In a log that begins anywhere a checker finds nothing above the first command, and from that command on what a checker
/// started there finds.
pub fn checkers_begin_anywhere()
    ensures { (limits : RuleLimits) (lines : List TranscriptLine) → BeginsAnywhere limits lines }
{}

/// What a checker of the rules on content updates event by event equals what is defined by the events above the next one.
pub fn content_is_kept()
    ensures { (events : List LineEvent) → KeepsContent events }
{}

/// What a checker of the rules on content finds first is the first fault of the transcript, whether it begins with both
/// ends or later.
#[tactic(auto, using(crate::proofs::ContentFound::finds_the_fault))]
pub fn content_checkers_find_the_fault()
    ensures { (begun : Bool) (lines : List TranscriptLine)
        → found_first (checking_at_start begun) lines ≡ option_map fault_found (content_fault_in begun lines) }
{}

/// A doubled entry is found at once: if an entry is in a block twice in succession, below a clear block and with no load of the
/// counter above, the log has a fault by that block, whatever else is in it.
#[tactic(auto, using(crate::proofs::Found::finds_doubled))]
pub fn doubled_entries_are_found()
    ensures { (begun : Bool) → FindsDoubled begun }
{}

/// Swapped neighbours are found at once: if two neighbours in a block of a log without a fault are exchanged, below a clear
/// block and with no load of the counter above, the log has a fault by that block.
#[tactic(auto, using(crate::proofs::Found::finds_swapped))]
pub fn swapped_entries_are_found()
    ensures { (begun : Bool) → FindsSwapped begun }
{}

/// An entry whose state is inverted, in a log without a fault, is found: by its block if it is compared with the entry of its
/// input above it, and otherwise by the line at which it is compared with what follows, the next entry of its input or a 181
/// that the record comes to.
pub fn turned_entries_are_found()
    ensures at_once { (begun : Bool) → FindsTurned begun }
    ensures later { (begun : Bool) → FindsTurnedLater begun }
{}

/// A dropped entry, in a log without a fault, is found if it is compared with the entry of its input above it: by the line at
/// which it is compared with what follows, the next entry of its input or a 181 that the record comes to.
pub fn dropped_entries_are_found()
    ensures { (begun : Bool) → FindsDropped begun }
{}

/// The judge of a link gives each frame exactly one outcome, and marks none.
#[tactic(auto, using(crate::proofs::LinkLaws::has_outcomes))]
pub fn frames_have_outcomes()
    ensures { (judging : Judging) (lines : List LogLine) → HasOutcomes judging lines }
{}

/// Below a lost line, a restart, a load that took effect and a breach of a rule of transcripts the place is lost.
#[tactic(auto, using(crate::proofs::LinkLaws::loses_the_place))]
pub fn judges_lose_the_place()
    ensures { (judging : Judging) → LosesPlace judging }
{}

/// Once the place is lost a judge judges nothing above the next poll, and from that poll on says what a judge says that begins
/// there.
#[tactic(auto, using(crate::proofs::LinkLaws::goes_on))]
pub fn judges_go_on()
    ensures { (judging : Judging) (above : List LogLine) → LinkGoesOn judging above }
{}

/// In a whole log at the CPU's end the judge accuses first what the two checkers find first.
#[tactic(auto, using(crate::proofs::LinkTranscripts::says_the_same))]
pub fn judges_say_what_checkers_find()
    ensures { (limits : RuleLimits) (lines : List TranscriptLine) → SaysTheSame limits lines }
{}

/// If one of two checkers finds nothing, both together find first what the other finds first.
#[tactic(auto, using(crate::proofs::BothFind::find_first))]
pub fn checkers_find_side_by_side()
    ensures { (checker : Checker) (content : ContentChecking) (lines : List TranscriptLine) → FindFirst checker content lines }
{}

/// Below a lost line, a restart, a load that took effect and a breach of a rule of transcripts, from the next poll on, the judge
/// accuses first what the two checkers find first that begin there.
#[tactic(auto, using(crate::proofs::GoingOn::goes_on_as_checkers))]
pub fn judges_go_on_as_checkers()
    ensures { (judging : Judging) (line : LogLine) (above : List LogLine) → GoesOnAsCheckers judging line above }
{}

/// A stamp that is set back where no load of the counter may take effect is a restart of the module, and none is found below it
/// while stamps rise, but by the answer to a watchdog.
#[tactic(auto, using(crate::proofs::RestartsFound::finds_restart))]
pub fn judges_find_restarts()
    ensures { (judging : Judging) (at : LogPlace) (octets : List ℕ) (between : List LogLine) → FindsRestart judging at octets between }
{}

/// The judge of a link excuses a frame only by what shows it: a restart or a load by an earlier stamp than one above, a restart also
/// by the answer to a watchdog, and a poll that is sent again by the number of the latest one.
#[tactic(auto, using(crate::proofs::Excuses::excuses_what_is_shown))]
pub fn judges_excuse_what_is_shown()
    ensures { (judging : Judging) (at : LogPlace) (from_cpu : Bool) (octets : List ℕ) → ExcusesWhatIsShown judging at from_cpu octets }
{}

/// Without late answers the judge of a log gives each frame the outcome of the judge of a link, of the frames and of marks that are
/// those of the events: from the first event of a log on, and below whatever the judge took, if the CPU may load the counter. So the
/// laws of the judge of a link are laws of logs.
pub fn logs_are_judged_as_links()
    ensures whole { (limits : RuleLimits) (place : Option LogPlace) (start : LogStart) (events : List LogEvent)
        → late_starting start ≡ None → IsJudgedAsLink nothing_around (log_starting limits place start) events }
    ensures below { (log : LogJudging) (events : List LogEvent) → log.late ≡ None → log.never_loads ≡ false
        → IsJudgedAsLink (around_in log) log events }
    ensures frames { (log : LogJudging) (at : LogPlace) (events : List LogEvent) → JudgesFramesAlike log at events }
{}

/// A judge that leaves late answers out accuses a frame that is none of what the judge of the link accuses it of, but for rules that
/// late answers may break, and for content where one can still come.
#[tactic(auto, using(crate::proofs::InTime::judges_in_time))]
pub fn answers_in_time_are_judged()
    ensures { (log : LogJudging) (late : LateAnswers) (at : LogPlace) (from_cpu : Bool) (octets : List ℕ)
        → lateness_of late (observation_in from_cpu octets) ≡ InTime → JudgesInTime log late at from_cpu octets }
{}

/// The judge of the log of a CPU that never loads the counter says of no frame that a load took effect, whatever lines are lost, and
/// supposes no load among these. That ends at a load in the log.
pub fn unloaded_logs_excuse_no_load()
    ensures none { (log : LogJudging) (events : List LogEvent) → SupposesNoLoad log events }
    ensures lines { (log : LogJudging) (at : LogPlace) (events : List LogEvent) → JudgesUnloaded log at events }
{}
