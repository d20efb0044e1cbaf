//! Laws that span several crates. Nothing here runs. They say that the checkers and the judge accuse no right link; that a good
//! transcript fits its poller; and that calls of both ends in C are a run of the link, as are both ends over two lines of octets, and
//! each station of a bus.
//!
//! The definitions are in `specs/`, in this order: the poller of a transcript (`Pollers`), the transcript of a run
//! (`Transcripts`), runs in which an answer comes directly after its command or never (`PromptRuns`), the record in their
//! transcripts (`RunRecords`), their logs and the rules on content (`ContentRuns`), what a log must fulfil for these
//! (`ContentPremises`), logs in which lines are lost (`LinkLogs`), what a caller in C does with one module and one poller
//! (`Calls`), what lines carry and both ends do (`Lines`), that this is a run (`LineRuns`), what comes at the stations of a bus
//! (`Bus`), that each is a run (`BusRuns`), lines that carry the same to all (`SharedLines`), logs with late answers at the
//! CPU's end (`LateLogs`) and at a tap on the line (`TapLogs`), and the stretches of the log of a module (`StretchLogs`). The laws are the contracts of the module `laws`.
//!
//! # What is proved
//!
//! A checker with the limits of the module, whatever they are, finds nothing in the transcript of a run without restarts if no
//! frame is delivered twice, and each answer directly after its command or never (`prompt_runs_are_good`). The log of such a
//! run may also begin at any event (`later_logs_are_good`). The judge of a link accuses neither end of such a log, whichever
//! frames are missing at marks (`judge_accuses_no_right_link`), nor one over restarts that a stamp shows
//! (`judge_finds_restarts`); nor does the judge of a log, at lines that lose the place (`log_judge_accuses_no_right_link`). If it leaves late
//! answers out, it finds no breach of a rule of transcripts where frames are lost, repeated at once and delayed
//! (`late_answers_break_no_rule`), nor at a tap on the line (`taps_break_no_rule`). Of a right module's log, whichever frames are missing,
//! the stretches are pieces of the module's transition list, and rise (`stretches_are_pieces`), and where nothing is missing it is one
//! (`one_stretch_goes_on`); the numbers that are kept of a log count them (`numbers_count_stretches`). The transcript's record is the run's (`prompt_runs_are_recorded`). A good transcript's poller has
//! the number of each poll, and takes each block answer (`good_transcripts_are_of_pollers`). Calls of both ends in C are a run
//! (`calls_are_runs`), and so are both ends over two lines of octets (`lines_are_runs`), and each station of a bus
//! (`stations_are_runs`). `docs/PROMISES.md` says what is assumed.
#![tactic(auto)]

pub mod laws;
