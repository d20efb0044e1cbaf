//! Laws of the definitions. Each function states one in its contract, and does nothing.
ghost use Rattle.fio_check.specs.declared.content_rules.ContentRule.TheVariants.{Accepted, Alternate, Apart, Cleared, Clock, Done, Fresh, Ignored, Order, State, Watchdog};
ghost use Rattle.fio_ends.specs.AnsweredLogs.{AnswersAccuseNone, JudgeAccusesNoMaker};
ghost use Rattle.fio_ends.specs.BusRuns.{BusesExist, HeadlineAtStations, LinesAreStations, StationsAreLines, StationsAreRuns};
ghost use Rattle.fio_ends.specs.Calls.{CallsAreRuns};
ghost use Rattle.fio_ends.specs.ContentPremises.{HasNearTimes};
ghost use Rattle.fio_ends.specs.ContentRuns.{AccusesNone, Always, ContentNeverAccuses};
ghost use Rattle.fio_ends.specs.EventLogs.{LogJudgeAccusesNone};
ghost use Rattle.fio_ends.specs.LateLogs.{AnswersMayBeLate, LateAnswersBreakNoRule};
ghost use Rattle.fio_ends.specs.LineRuns.{EachFrameMayCome, EachStruckFrameMayCome, HeadlineOverLines, LinesAreRuns, LinesBringRecords};
ghost use Rattle.fio_ends.specs.Lines.{AtCpu, AtModule};
ghost use Rattle.fio_ends.specs.LinkLogs.{AccusesNoneBelowLoads, FramesMayBeMissing, JudgeAccusesNone, JudgeKeepsAll, LoadsMayBeUnderWay};
ghost use Rattle.fio_ends.specs.Pollers.{GoodIsOfPoller};
ghost use Rattle.fio_ends.specs.PromptRuns.{FromCommand, HasNoBreach, HasNoBreachAnywhere, IsGood, NeverAccuses, NeverAccusesLater};
ghost use Rattle.fio_ends.specs.RestartedLogs.{JudgeFindsRestarts, JudgeFindsRestartsAnywhere, RestartsAreFound};
ghost use Rattle.fio_ends.specs.RunRecords.{KeepsRecord};
ghost use Rattle.fio_ends.specs.StretchLogs.{OneStretchGoesOn, StretchesArePieces};
ghost use Rattle.fio_ends.specs.StretchNumbers.{NumbersCountStretches};
ghost use Rattle.fio_ends.specs.TapLogs.{TapsBreakNoRule, TapsExcusePolls};
ghost use Rattle.fio_ends.specs.SharedLines.{AtDecoders, AtModules, EachFrameMayComeToAll, HeadlineOverSharedLines, SharedLinesAreABus, SharedLinesBringRecords};

/// A good transcript comes from a right CPU's end: a poller that starts with the first poll's number has at each poll that
/// poll's number, and takes each block answer heard, so none is stale.
pub fn good_transcripts_are_of_pollers()
    ensures { GoodIsOfPoller }
{}

/// No false accusation: a checker with the limits of the module, whatever they are, finds nothing in the transcript of a prompt
/// run; if they are those of TEES 2009, or more may wait, the transcript is good.
#[tactic(auto, using(crate::proofs::PromptRuns::never_accuses, crate::proofs::PromptRuns::is_good))]
pub fn prompt_runs_are_good()
    ensures any { NeverAccuses HasNoBreach }
    ensures standard { NeverAccuses IsGood }
{}

/// No false accusation in a log that begins later, with what the CPU's end logs from any event of a prompt run on. A checker
/// that is started for such logs finds nothing, and neither does one that starts at the first command; with the limits of TEES
/// 2009, or if more may wait, the transcript from that command on is good.
#[tactic(auto, using(crate::proofs::LaterLogs::never_accuses_anywhere, crate::proofs::LaterLogs::never_accuses_later, crate::proofs::LaterLogs::is_good_later))]
pub fn later_logs_are_good()
    ensures anywhere { NeverAccusesLater HasNoBreachAnywhere }
    ensures any { NeverAccusesLater (FromCommand HasNoBreach) }
    ensures standard { NeverAccusesLater (FromCommand IsGood) }
{}

/// The record of a prompt run's transcript is that of the run's CPU, item by item: a poller that starts with
/// the first poll's number, and hears what the transcript has, ends as the run's own.
#[tactic(auto, using(crate::proofs::RunRecords::keeps_record))]
pub fn prompt_runs_are_recorded()
    ensures { KeepsRecord }
{}

/// The rule `done` never accuses: what the CPU's end logs of a prompt run, from the start of both ends or from any event on,
/// keeps it.
#[tactic(auto, using(crate::proofs::AnswersKept::done_never_accuses))]
pub fn done_never_accuses()
    ensures { ContentNeverAccuses Done Always }
{}

/// The rule `accepted` never accuses, in any log.
#[tactic(auto, using(crate::proofs::AnswersKept::accepted_never_accuses))]
pub fn accepted_never_accuses()
    ensures { ContentNeverAccuses Accepted Always }
{}

/// The rule `cleared` never accuses, in any log.
#[tactic(auto, using(crate::proofs::AnswersKept::cleared_never_accuses))]
pub fn cleared_never_accuses()
    ensures { ContentNeverAccuses Cleared Always }
{}

/// The rule `watchdog` never accuses, in any log.
#[tactic(auto, using(crate::proofs::AnswersKept::watchdog_never_accuses))]
pub fn watchdog_never_accuses()
    ensures { ContentNeverAccuses Watchdog Always }
{}

/// The rule `clock` never accuses in a log with near times: no more loads of the counter take effect in it than are sent in it;
/// and fewer than 2^31 scans lie between successive stamps; between a block without C and each block up to the next one without
/// C; between the states that were asked for and each entry and block below them, until the record comes to them; and fewer
/// than 2^32 between successive entries of an input. The start of both ends, if the log begins there, counts as such a block.
#[tactic(auto, using(crate::proofs::TimesKept::clock_never_accuses))]
pub fn clock_never_accuses()
    ensures { ContentNeverAccuses Clock HasNearTimes }
{}

/// The rule `order` never accuses, in the same logs.
#[tactic(auto, using(crate::proofs::TimesKept::order_never_accuses))]
pub fn order_never_accuses()
    ensures { ContentNeverAccuses Order HasNearTimes }
{}

/// The rule `fresh` never accuses, in the same logs.
#[tactic(auto, using(crate::proofs::TimesKept::fresh_never_accuses))]
pub fn fresh_never_accuses()
    ensures { ContentNeverAccuses Fresh HasNearTimes }
{}

/// The rule `alternate` never accuses, in any log, whatever its times.
#[tactic(auto, using(crate::proofs::AlternateKept::alternate_never_accuses))]
pub fn alternate_never_accuses()
    ensures { ContentNeverAccuses Alternate Always }
{}

/// The rule `ignored` never accuses, in any log.
#[tactic(auto, using(crate::proofs::IgnoredKept::ignored_never_accuses))]
pub fn ignored_never_accuses()
    ensures { ContentNeverAccuses Ignored Always }
{}

/// The rule `apart` never accuses, in logs with near times.
#[tactic(auto, using(crate::proofs::TimesKept::apart_never_accuses))]
pub fn apart_never_accuses()
    ensures { ContentNeverAccuses Apart HasNearTimes }
{}

/// The rule `state` never accuses, in the same logs.
#[tactic(auto, using(crate::proofs::TimesKept::state_never_accuses))]
pub fn state_never_accuses()
    ensures { ContentNeverAccuses State HasNearTimes }
{}

/// So a checker of content accuses no right link, from the start of both ends or from any event on, if all this holds. A log
/// that begins later must fulfil it from the first command on.
#[tactic(auto, using(crate::proofs::FaultsOfLogs::accuses_none))]
pub fn content_accuses_no_right_link()
    ensures { AccusesNone HasNearTimes }
{}

/// A checker that begins anywhere, while loads of the counter may still take effect, accuses no right link: it finds nothing in
/// what the CPU's end logs of a prompt run from any event on, if it knows the number of these loads, and all that is compared
/// is near.
#[tactic(auto, using(crate::proofs::BegunAgain::accuses_none_below_loads))]
pub fn content_accuses_no_right_link_below_loads()
    ensures { AccusesNoneBelowLoads }
{}

/// Such a log exists: one in which a load takes effect that was sent above it, so that a checker that knows of none would accuse a
/// right link.
#[tactic(auto, using(crate::proofs::JudgeExamples::under_way))]
pub fn loads_may_be_under_way()
    ensures { LoadsMayBeUnderWay }
{}

/// The judge of a link accuses no right link: in what the CPU's end logs of a prompt run, from the start of both ends or from
/// any event on, no frame breaks a rule, though any frames may be missing at marks. At most one load of the counter is under
/// way where the log goes on below a mark, and none where it begins; and all that is compared is near.
#[tactic(auto, using(crate::proofs::JudgedLogs::judge_accuses_none))]
pub fn judge_accuses_no_right_link()
    ensures { JudgeAccusesNone }
{}

/// Such a log exists: one in which an answer is missing at a mark, and one frame above it and two below keep all rules.
#[tactic(auto, using(crate::proofs::JudgeExamples::may_be_missing))]
pub fn frames_may_be_missing()
    ensures { FramesMayBeMissing }
{}

/// If no frame is missing, the judge also excuses no frame and never takes the module for restarted: from the first command on
/// each frame keeps all rules, whatever block is repeated. No load of the counter takes effect in the log, and it lasts fewer
/// than 2^31 scans.
#[tactic(auto, using(crate::proofs::JudgedCalm::judge_keeps_all))]
pub fn judge_keeps_each_right_frame()
    ensures { JudgeKeepsAll }
{}

/// Over restarts of the module the judge accuses nobody either, and says once at most for each that it was restarted: if the stamps
/// that are heard below each, through the first that is not that of a block that is sent again, are before the latest one above.
/// Nothing is under way at a restart, no frame is missing, no load of the counter takes effect, and the log of each life of the
/// module lasts fewer than 2^31 scans. Above the first restart the judge may have taken anything, too. Of which restarts it says so
/// is a law of `fio_check` (`judges_find_restarts`).
#[tactic(auto, using(crate::proofs::Restarted::judge_finds_restarts, crate::proofs::Restarted::judge_finds_restarts_anywhere))]
pub fn judge_finds_restarts()
    ensures anywhere { JudgeFindsRestartsAnywhere }
    ensures whole { JudgeFindsRestarts }
{}

/// Such a log exists, and a restart is found in it.
#[tactic(auto, using(crate::proofs::JudgeExamples::restarts_found))]
pub fn restarts_are_found()
    ensures { RestartsAreFound }
{}

/// Any calls of the exports of one module, whatever its limits, with its ring, and of one poller, with
/// frames carried between them in order, with losses and immediate repeats, are a run of the link: what
/// holds of each run holds of them, and the record of the run is what `fio2070_poller_hear` has written,
/// one item after the other.
#[tactic(auto, using(crate::proofs::Calls::calls_are_runs))]
pub fn calls_are_runs()
    ensures { CallsAreRuns }
{}

/// What both ends do over two lines of octets is a run of the link, whatever a line brings between two flags: a frame whole and
/// in order, a frame that is struck in a way that the frame check finds, or noise; also where octets are lost, frames do not
/// come, and the module restarts. So what holds of each run holds over lines.
#[tactic(auto, using(crate::proofs::LineRuns::lines_are_runs))]
pub fn lines_are_runs()
    ensures { LinesAreRuns }
{}

/// The headline holds over lines: without restarts the CPU's record is the module's transition log from its start through the
/// last block taken, each entry once and in order, and entries are missing only at gap marks.
#[tactic(auto, using(crate::proofs::LineRuns::headline_over_lines))]
pub fn headline_holds_over_lines()
    ensures { HeadlineOverLines }
{}

/// The premise excludes no frame: directly after a flag a line may bring each frame that was written to it whole, if no later
/// frame came before.
#[tactic(auto, using(crate::proofs::LinePremises::frames_to_module, crate::proofs::LinePremises::frames_to_cpu))]
pub fn lines_may_bring_each_frame()
    ensures to_module { EachFrameMayCome (λ ends. ends.to_module) AtModule }
    ensures to_cpu { EachFrameMayCome (λ ends. ends.to_cpu) AtCpu }
{}

/// Directly after a flag a line may bring any frame that was struck.
#[tactic(auto, using(crate::proofs::LinePremises::struck_to_module, crate::proofs::LinePremises::struck_to_cpu))]
pub fn lines_may_bring_struck_frames()
    ensures to_module { EachStruckFrameMayCome (λ ends. ends.to_module) AtModule }
    ensures to_cpu { EachStruckFrameMayCome (λ ends. ends.to_cpu) AtCpu }
{}

/// The premises can be met: over some lines the CPU's record gains something.
#[tactic(auto, using(crate::proofs::LineExamples::lines_bring_records))]
pub fn lines_bring_records()
    ensures { LinesBringRecords }
{}

/// On a bus of one CPU and several modules, what comes at each station may come over its lines if it is alone: of another's frame
/// it is asked only that it is as it was written, and that no frame of one station is another's own. So each station is a run of
/// the link.
#[tactic(auto, using(crate::proofs::BusStations::stations_are_lines, crate::proofs::BusStations::stations_are_runs))]
pub fn stations_are_runs()
    ensures lines { StationsAreLines }
    ensures runs { StationsAreRuns }
{}

/// The headline holds of each station of a bus.
#[tactic(auto, using(crate::proofs::BusStations::headline_at_stations))]
pub fn headline_holds_at_stations()
    ensures { HeadlineAtStations }
{}

/// The premise excludes nothing that may come at each station if it is alone.
#[tactic(auto, using(crate::proofs::BusPremises::lines_are_stations))]
pub fn lines_are_stations()
    ensures { LinesAreStations }
{}

/// There are buses of up to 256 stations.
#[tactic(auto, using(crate::proofs::BusPremises::buses_exist))]
pub fn buses_exist()
    ensures { BusesExist }
{}

/// Two lines that carry the same to all are a bus, though nothing is asked of the other stations where a frame of one ends.
#[tactic(auto, using(crate::proofs::SharedLines::shared_lines_are_a_bus))]
pub fn shared_lines_are_a_bus()
    ensures { SharedLinesAreABus }
{}

/// So the headline holds of each station of a bus over two such lines.
#[tactic(auto, using(crate::proofs::SharedLines::headline_over_shared_lines))]
pub fn headline_holds_over_shared_lines()
    ensures { HeadlineOverSharedLines }
{}

/// Directly after a flag such a line may carry each frame of each station that was written to it whole, if none of that station
/// after it came before.
#[tactic(auto, using(crate::proofs::SharedLines::frames_to_all_modules, crate::proofs::SharedLines::frames_to_all_decoders))]
pub fn shared_lines_may_bring_each_frame()
    ensures to_modules { EachFrameMayComeToAll (λ ends. ends.to_module) AtModules }
    ensures to_cpu { EachFrameMayComeToAll (λ ends. ends.to_cpu) AtDecoders }
{}

/// The premises can be met: over such lines the CPU's records of two stations gain something.
#[tactic(auto, using(crate::proofs::SharedExamples::shared_lines_bring_records))]
pub fn shared_lines_bring_records()
    ensures { SharedLinesBringRecords }
{}

/// The answers of the module's maker accuse nobody: put into any log directly below his commands 56, 57 and 59, at most one for
/// each, and in place of the octet of an identification, they accuse no end if no frame did so without them.
#[tactic(auto, using(crate::proofs::MakersAnswers::answers_accuse_none))]
pub fn makers_answers_accuse_none()
    ensures { AnswersAccuseNone }
{}

/// So the judge accuses no right link whose maker answers, in the logs of `judge_accuses_no_right_link`.
#[tactic(auto, using(crate::proofs::MakersAnswers::judge_accuses_no_maker))]
pub fn judge_accuses_no_maker()
    ensures { JudgeAccusesNoMaker }
{}

/// So the judge of a log accuses no right link, wherever the log was taken and whatever its lines say of senders, if it leaves no
/// late answers out: any frames may be missing directly below lines at which the place is lost, and other lines may be anywhere.
#[tactic(auto, using(crate::proofs::EventLogs::log_judge_accuses_none))]
pub fn log_judge_accuses_no_right_link()
    ensures { LogJudgeAccusesNone }
{}

/// The law on late answers: a judge that leaves them out finds no breach of a rule of transcripts in the log of a right CPU's end,
/// though frames may be lost, repeated at once and delayed, if they never overtake each other. The log may begin anywhere, and other
/// lines may stand anywhere.
#[tactic(auto, using(crate::proofs::LateRuns::late_answers_break_no_rule))]
pub fn late_answers_break_no_rule()
    ensures { LateAnswersBreakNoRule }
{}

/// Such a log exists: one in which an answer is heard twice, and is late the second time.
#[tactic(auto, using(crate::proofs::LateExamples::answers_may_be_late))]
pub fn answers_may_be_late()
    ensures { AnswersMayBeLate }
{}

/// The law on late answers at a tap on the line, though frames may be lost, repeated at once and delayed on both sides of it: the judge
/// finds no breach of a rule of transcripts there either, if it knows that the log was not taken at the CPU.
#[tactic(auto, using(crate::proofs::TapRuns::taps_break_no_rule))]
pub fn taps_break_no_rule()
    ensures { TapsBreakNoRule }
{}

/// There is a log of a tap in which a right CPU's end sends a poll that is excused there, since it heard an answer later than the tap.
#[tactic(auto, using(crate::proofs::TapExamples::taps_excuse_polls))]
pub fn taps_excuse_polls()
    ensures { TapsExcusePolls }
{}

/// The law of stretches. Each stretch of the log of a right module has the entries of one contiguous piece of the transition list of one
/// life of the module, and the pieces rise; above each stretch whose first block says that transitions are lost, at least one is missing.
/// Any frames may be missing, other frames may be anywhere, any blocks may be disbelieved, and the module's counter may be loaded, under
/// any CPU whose numbers rise. Fewer than 255 numbers are between two blocks of the log, one directly below the other; or if the module
/// was restarted between, the lower one's stamp shows that.
#[tactic(auto, using(crate::proofs::StretchLogs::stretches_are_pieces))]
pub fn stretches_are_pieces()
    ensures { StretchesArePieces }
{}

/// The other half: where no number is between two blocks of such a log, no block says that transitions are lost, each is believed, and
/// no stamp shows a restart, the log is one stretch.
#[tactic(auto, using(crate::proofs::StretchLogs::one_stretch_goes_on))]
pub fn one_stretch_goes_on()
    ensures { OneStretchGoesOn }
{}

/// The numbers that are kept of a log count its stretches and the places between them, modulo 2^64: the entries of all stretches, the places
/// where transitions are lost, those where blocks are missing and how many blocks these are, and the places of each other cause. The log
/// may be of any module.
#[tactic(auto, using(crate::proofs::StretchNumbers::numbers_count_stretches))]
pub fn numbers_count_stretches()
    ensures { NumbersCountStretches }
{}
