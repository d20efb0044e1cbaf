//! The field I/O transition link for C and C++: the calls of the crates below over memory of the
//! caller. `include/fio2070.h` declares them.
//!
//! Only the exports of the reader of logs have a `requires`. Every other export is right for all octets, all lengths and all
//! contents of a struct. C must only pass pointers that are valid, aligned and not shared during a call. A reader of logs must
//! be one that `fio2070_log_start` made (`log`). Nothing here allocates, keeps a static or calls anything but `memcpy` and the
//! like.
//!
//! | To | Call |
//! |---|---|
//! | read a block answer in place | `fio2070_read_block`, `fio2070_block_entries` |
//! | read any message | `fio2070_decode_command`, `fio2070_command_items`, `fio2070_decode_answer` |
//! | write a message | `fio2070_encode_command`, `fio2070_encode_answer` |
//! | write what `show` writes of a message | `fio2070_show` |
//! | write a code in words | `fio2070_fault_text`, `fio2070_rule_text`, `fio2070_content_rule_text`, `fio2070_heard_text` |
//! | judge what the CPU's end sends and hears | `fio2070_checker_..`, `fio2070_content_..` |
//! | judge a log in which lines may be lost | `fio2070_judge_..`, `fio2070_log_judge_..` |
//! | count what a log has | `fio2070_log_counts_..` |
//! | read a log of any logger | `fio2070_log_..` |
//! | be the CPU's end | `fio2070_poller_..` |
//! | be the module | `fio2070_sized_module_..`; `fio2070_module_..` are these, in the header alone |
//! | frame messages on a line, and read its octets or bits | `fio2070_wire_..` |
//! | find how often to poll over a line | `fio2070_plan` |
//! | say which library it is | `fio2070_version` |
//! | use its parts | `fio2070_counter_..`, `fio2070_filters_..`, `fio2070_widen` |
//!
//! The definitions are in `specs/`: flat forms of commands, answers and blocks (`Flat`), what C gives to write a message
//! (`Given`, whose laws are the contracts of the module `laws`), checkers (`Checkers`), the judge of a
//! link (`Judges`), the judge of a log (`LogJudges`), logs (`Logs`, `Told`, `LogOthers`), batches of the reader (`BatchItems`), parts of these (`LogParts`,
//! `TakenLines`, `PartLaws`), counts
//! (`LogCounts`), texts (`Texts`), versions (`Version`), lines (`Wires`), paces (`Plans`). `fio_flat` has the other structs, and what calls do to
//! them and to the caller's arrays.
//!
//! # What is proved
//!
//! A call whose input has a fault, or whose output does not fit, changes no memory (`no_room`, `no_command`, `refused`), with
//! two exceptions: `fio2070_show` writes the text of the fault, and a checker takes such a frame too. Each `_start` sets every
//! octet (`octets`); for those of the rules on content and of the judges this is tested only.
//!
//! `fio2070_judge_sent` and `_heard` write the outcome of the judge of a link, and `fio2070_log_judge_frame` that of the judge
//! of a log, each field of it, and return its kind (`outcome`, `next`, `kind`); with limits out of range no judge is started,
//! and nothing changes (`refused`). `fio2070_log_judge_batch` writes what the judge of a log says of each frame of a batch, in
//! their order, and nothing else (`next`, `outcomes`, `count`; of what a reader returned `told` and `all`).
//! `fio2070_log_counts_frame` counts a frame, and writes and returns what is known of its time (`next`, `taken`, `known`).
//! `fio2070_log_counts_batch` counts the frames of a batch, takes the lines between them, and writes the times that are known,
//! in order, and nothing else (`next`, `taken`, `count`; of what a reader returned `told`). `fio2070_log_signs_batch` takes its
//! frames (`next`, `told`). `fio2070_log_batch_part` writes the part of a batch that a mask takes (`part`, `lines`, `count`); what
//! these three calls say of it is what they say of its lines alone (`judge`, `counts`, `signs`).
//!
//! `fio2070_log_start` sets the octets of its reader, which may be fewer than the room. The verdicts that `fio2070_log_read`
//! puts into a batch are those that `Reader` of `fio_log` returns of the next lines, each once, in order and no other, octet
//! for octet, with all their frames and places (see `HasRead` and `HasVerdicts` in `specs/Logs.antt`), but that lines with messages that
//! this protocol has not are passed over, as `specs/LogOthers.antt` says; what is proved of `Reader` is true of all others. A call makes progress: if its batch has no verdict, it took all octets, and after
//! the end of the log each line has had its verdict. When a log has ended and all its verdicts are given, octets begin another
//! log of the same form (see `IsReadFrom`). `fio2070_log_end` makes the octets after the last line end the last line, and keeps a
//! verdict that is ready (see `HasEnded`).
#![tactic(auto)]

mod answer_frames;
mod answering;
mod answers;
mod batch_items;
mod blocks;
mod checker;
mod command_frames;
mod commands;
mod content;
mod counter;
mod faults;
mod filters;
mod judge;
pub mod laws;
mod log;
mod log_batch;
mod log_counts;
mod log_forms;
mod log_judge;
mod log_judge_batch;
mod log_others;
mod log_parts;
mod log_signs;
mod log_stretches;
mod log_verdicts;
mod makers;
mod parts;
mod plan;
mod poller;
mod show;
mod sized_module;
mod text_buffer;
mod texts;
mod version;
mod wire;
mod written;
