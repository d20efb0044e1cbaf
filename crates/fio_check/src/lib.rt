//! The rules that a transcript must keep, that is, what the CPU's end of the transition link sent and heard, and the judges that
//! say which end a log accuses. Nothing here allocates memory.
//!
//! # Examples
//!
//! ```rust
//! use fio_check::{Facts, Observation, Rule, rule_broken};
//!
//! let mut above = Facts::default();
//! above.add(Observation::of(true, &[0x36, 5]));
//! let next = Observation::of(true, &[0x36, 6]);
//! assert_eq!(rt; above.number_due(), Some(5));
//! assert_eq!(rt; rule_broken(&above, next), Some(Rule::Advance));
//! ```
//!
//! | To | Call |
//! |---|---|
//! | get the one verdict on a list of lines | `check_trace` |
//! | get the first rule that a line breaks, from the facts above it | `rule_broken`; `Facts::add` keeps the facts |
//! | check a transcript frame by frame, also after a breach | `Checker` |
//! | check what entries and answers say | `ContentChecker` |
//! | judge a link by a log in which lines may be lost | `LinkJudge`, which has both checkers |
//! | judge a log by its frames and by the lines between them | `LogJudge` |
//! | see whether a log looks like another kind than that of one link in order | `LogSigns` |
//! | count what a log has | `LogCounts` |
//! | see where a log records each transition once, and where not | `LogStretches` |
//!
//! The definitions are in `specs/`, in this order: the lines (`Lines`), what a line says to the rules (`Observations`), the latest
//! value said above a place (`Places`), what is above a line (`Facts`), the rules (`Rules`), the verdict (`Verdicts`) and the
//! checker (`Checkers`), whose laws (`Laws`) are the contracts of the module `laws`. Those of the rules on content follow: events
//! (`ContentEvents`), the rules (`ContentRules`), what is above an event, by places (`ContentAbove`) and updated event by event
//! (`ContentFacts`), and the checker (`ContentCheckers`); then the judges (`LinkJudges`, `LogJudges`), the signs of other logs
//! (`LogSigns`), the counts (`LogCounts`) and the stretches (`Stretches`).
//!
//! # What is proved
//!
//! `Checker` finds what `check_trace` does, one frame at a time; there is one verdict (`verdicts_are_one`; through the first
//! breach `checkers_find_the_first_breach`, after one `checkers_go_on`; of a log that begins anywhere, from its first command
//! on, `checkers_begin_anywhere`). `ContentChecker` finds the first fault of a log by the rules on content, whether the log
//! begins with both ends or later (`content_checkers_find_the_fault`).
//!
//! `LinkJudge` says of each frame of a log, in which lines may be lost, the outcome that `outcome_in` defines (`outcome` and
//! `next` of `LinkJudge::frame`). It excuses a frame only by what shows it (`judges_excuse_what_is_shown`), says of a stamp that is
//! set back that the module was restarted (`judges_find_restarts`), and goes on below a lost place as both checkers do
//! (`judges_go_on_as_checkers`). `LogJudge` says of each frame that a reader finds the outcome that `outcome_in_log` defines,
//! by what the log says of the lines between the frames too (`outcome` and `next` of `LogJudge::frame`; the clauses of
//! `LogJudge::line`, `LogJudge::below_frame` and of the calls that they make). Without late answers it is the judge of a link, of the frames
//! with marks that the events of the log decide (`logs_are_judged_as_links`). So what is proved of that
//! judge holds of this one, if its premises hold with these marks. Of a CPU that never loads the counter it supposes no load among lost
//! lines (`unloaded_logs_excuse_no_load`). With late answers it accuses a frame that is none of what the judge of the link accuses it
//! of, but for rules that late answers may break, and for content where one can still come (`answers_in_time_are_judged`).
//!
//! `LogCounts` counts of each frame what `counts_with` says, and returns how long the module took for an answer (`next` and
//! `time` of `LogCounts::frame`; the clause of `LogCounts::lose`). `LogSigns` counts as `signs_with` says (clause of
//! `LogSigns::frame`), and says the sign that `sign_of` defines by the counts (clause of `LogSigns::sign`).
//!
//! `LogStretches` keeps of each frame what `stretches_with` says, and returns the place above a block answer that `seam_of` defines
//! (`next` and `seam` of `LogStretches::frame`).
//!
//! Only tested: that no right end is accused where late answers are left out, where the CPU never loads the counter, or where the
//! judge finds by itself where the log was taken; that the logs of right links have no sign, and the four other kinds of logs theirs.
#![tactic(auto)]

mod block_order;
mod block_rows;
mod checker;
mod content;
mod content_above;
mod content_blocks;
mod content_inputs;
mod content_judging;
mod content_rules;
mod content_times;
mod facts;
mod frame_stamps;
mod input_sets;
mod late_answers;
pub mod laws;
mod left_out;
mod limits;
mod line;
mod line_kind;
mod link_frames;
mod link_judge;
mod log_counts;
mod log_judge;
mod log_signs;
mod missing_frames;
mod observation;
mod outcome;
mod repeated_frames;
mod rules;
mod seam;
mod stretches;
mod verdict;

pub use block_order::{BlockOrder, BlockSeen};
pub use block_rows::BlockRows;
pub use checker::{Breach, Checker, Due, Skips};
pub use content::{ContentBreach, ContentChecker};
pub use content_rules::{BrokenRule, ContentRule};
pub use facts::Facts;
pub use late_answers::{LateAnswers, Lateness};
pub use left_out::LeftOutBlocks;
pub use limits::RuleLimits;
pub use line::Line;
pub use line_kind::LogLineKind;
pub use link_judge::LinkJudge;
pub use log_counts::LogCounts;
pub use log_judge::{LogJudge, LogOutcome, LogStart};
pub use log_signs::{LogSign, LogSigns};
pub use missing_frames::MissingFrames;
pub use observation::Observation;
pub use outcome::{Excuse, FrameOutcome, LogPlace, Unjudged};
pub use repeated_frames::RepeatedFrames;
pub use rules::{Rule, rule_broken, rule_broken_within};
pub use seam::{SeamCause, ToldBlock};
pub use stretches::{LogStretches, Seam};
pub use verdict::{Verdict, check_trace};
