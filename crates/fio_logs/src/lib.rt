//! The law from the lines of a log to its outcomes. Nothing here runs. It joins what `fio_log` proves of lines by themselves with what
//! `fio_ends` proves of the judge of a log.
//!
//! The definitions are in `specs/`: what the judge is given of the lines that a reader reports (`ReportedLines`), the lines of a right
//! link (`WrittenLogs`), and the verdicts that a reader returns of them (`ReturnedVerdicts`). The laws are the contracts of the module
//! `laws`.
//!
//! # What is proved
//!
//! Of the lines of a right link no outcome accuses either end, wherever the log was taken, and whatever lines that no form has are in it
//! (`lines_of_a_right_link_accuse_none`); what the reader must say of the lines is what `Reader::verdict` ensures
//! (`verdicts_of_a_right_link_accuse_none`). Each frame that is in the log is a line by itself, in a form that writes a message in one
//! line. Frames may be missing only below a line that is too long, of which a part is gone, or whose octets are damaged. At most one
//! load of the counter is under way at the first command below a line without a message, and at each command below a line that speaks
//! of loss; none is where a log begins that begins later than both ends. Such a log exists (`lines_may_be_lost`).
//!
//! Not proved: of lines with several messages or with others beside a message, of messages in several lines, of streams and echoes, of
//! the last line of a log, and of frames that are missing where nothing but words of loss says so.
#![tactic(auto)]

pub mod laws;
