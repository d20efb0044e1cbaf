//! Reads logs that have frames of the field I/O link, whatever logger wrote them: the forms of their lines are learnt from some
//! of them, and each line is then read by them. Nothing here allocates memory.
//!
//! # Examples
//!
//! ```rust
//! use fio_log::{Form, Kind, Reader};
//!
//! let mut reader = Reader::new(Form::Auto);
//! // A line gives its form. Without one, forms are learnt from the first lines of the log.
//! assert!(rt; reader.like(b"TX 36 05") == 1);
//! reader.feed(b"TX 36 06\n");
//! let first = reader.verdict();
//! assert!(rt; first.is_some_and(|verdict| verdict.line == 1 && verdict.kind == Kind::Frames));
//! assert!(rt; matches!(reader.frame(0), Some([0x36, 6])));
//! ```
//!
//! | To | Call |
//! |---|---|
//! | read a log: a verdict on each line, with its frames and where they are written | `Reader` |
//! | give forms by sample lines | `Reader::like` |
//! | learn which forms are known, and how many lines each had | `Reader::forms`, `Reader::read_as` |
//! | split octets into lines, however they are cut into pieces | `LineMaker` |
//! | find the first time in a line | `time_in` |
//! | see whether the octets before messages are addresses | `Addresses` |
//! | read a line of the program's own texts | `read_own_line` |
//!
//! A line is kept until the forms are known (`learning`), heard by them (`by_forms`), and reported as soon as its verdict depends on
//! no line below it (`teller`). The definitions are in `specs/`: characters (`Digits`), times (`Clock`), lines (`Lines`), which
//! are blank (`Blanks`), what words say (`Wordings`), the program's own texts (`OwnTexts`), frames and their places (`Frames`),
//! what a verdict says (`Verdicts`, `OwnVerdicts`), what a reader has read and returned (`Telling`), how many lines wait
//! (`Waiting`), what is known of them (`Knowing`), what is heard of a line by the forms and said of that (`Heard`), from one line to the
//! next (`Following`), in a log of lines by themselves (`LineLogs`), by the forms that are known (`KnownForms`), digits that
//! go on after octets (`Spoilt`), the sizes that messages of other modules have (`Foreign`), which of those that this protocol has not
//! are no damage (`Others`), and whether octets before messages are addresses (`Addresses`).
//!
//! # What is proved
//!
//! Each line has one verdict, in order: `verdict` returns that of the next line, and after the end of the log it returns `None`
//! only once every line has had its verdict (`told`, `all`); while it returns `None`, at most 1,024 lines that are read are
//! without one (`waiting` of `HasNoMore`). `end` keeps a verdict that is ready (`ready`). The lines of a log do not depend on
//! where it is cut (`lines_are_cut_anywhere`), and the octets that `feed` takes make the lines that are read (`taken`).
//!
//! Each frame of a verdict spells a message (`spelled`). `frame` and `place` return that of their index (`same`), for each index
//! below their number (`given`); no verdict has more than 2,048 frames, 16,384 octets of frames and 1,024 places (`few` of
//! `HasTold`). Kind and reason of a verdict agree, and with its number of frames (`agreed` of `HasTold`). A line of the program's
//! own texts is read as `show` and `check` read it (`read_own_line`, `own`, `last`). Of any other log, whose lines are those that
//! were read (`knows`), a line that is said to be blank is (`blank`), and one that is said to speak of loss, or to be a heading, does
//! or is, by its own words (`words`). `time_in` returns the first time by the table of `specs/Clock.antt` (`time`).
//!
//! Of such a log a verdict reports its line, by the forms that the reader has (`line` of `Reader::verdict`, by `HasToldLine`): what
//! `Reading::read` of `fio_rows` reads of it below what is open above it, and this is what was read of the lines above, from the
//! beginning of the log on, where nothing is open (`begins`, `stands`). If the line says a message, that is its first frame, and its
//! only one if the line ends with its octets and no form has a line in what is before them; so messages by themselves are reported, and
//! nothing beside them, and lines whose octets are damaged are damaged (`lines_by_themselves_are_told`). Octets that may go on are a
//! part, and octets without a message are passed over. Such a line is damaged only if it is too long, has NULs, or
//! digits that go on after its octets, or would be the 513th row of a message. A message of any length that ends with a line, since the
//! next one does not go on with it or the log ends, is its only frame. What is counted of messages that this protocol has not is counted
//! line by line (`others`), and `Reader::passes` says by that whether a line with one is passed over.
//!
//! Not proved: which forms a reader has; whether an echo is one of the frame above; which messages a stream has, the further messages
//! of a line, where frames are; what a line is that no form has, and what the last line of a log has that ends within a stream. All
//! this is tested by `tests/fiolog-reader.py` and `tests/real-logs.py`.
#![tactic(auto)]

mod addressed;
mod addresses;
mod ahead;
mod blanks;
mod by_forms;
mod clock;
mod counts;
mod cut;
mod digits;
mod directions;
mod ends;
mod foreign;
mod header;
mod heading;
mod heads;
mod known_forms;
pub mod laws;
mod learning;
mod lines;
mod middle;
mod others;
mod own_texts;
mod own_verdicts;
mod parts;
mod places;
mod quiet;
mod reader;
mod rows;
mod second;
mod shapes;
mod sides;
mod spoilt;
mod teller;
mod time_ends;
mod time_forms;
mod told;
mod verdict;
mod wordings;

pub use addresses::{AddressedFrame, Addresses, SHOWN_FRAMES};
pub use clock::{Moment, Time, time_in};
pub use counts::{ReadAs, SAMPLE_CHARACTERS};
pub use directions::Direction;
pub use header::FrameHeader;
pub use lines::{LINE_OCTETS, LineMaker};
pub use own_texts::{OwnForm, OwnLine, read_own_line};
pub use parts::TimeKind;
pub use places::Place;
pub use reader::Reader;
pub use verdict::{Form, Kind, LineVerdict, Reason};
