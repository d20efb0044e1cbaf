//! Both ends of the transition link and the bus between them, scripts, and the reports of their runs.
//!
//! What the crate above relies on: a run is a run of the link machine of `fio_link`, and for each machine to which a run
//! leads, the headline and the other promises hold; a report is that of its script.
//!
//! The definitions are in `specs/`, in this order. What happens: the outcome of an event (`Outcomes`). What is read and
//! written, based on the lines, words and digits of `fio_text`: forms of lines (`Forms`), the first line of a script
//! (`Headers`), its further lines (`EventLines`), the steps in which they are kept (`Steps`), scripts (`Scripts`), the texts
//! of faults (`Faults`), the lines of a report (`ReportLines`), reports (`Reports`). How contracts describe a world: frames
//! stored end to end (`EndToEnd`), both ends (`Ends`), how a world shows the machine (`Worlds`), and what an event did
//! (`Effects`). The laws are the contracts of the module `laws`.
//!
//! # What is proved
//!
//! `step` does one event of the link machine, with its exact outcome, or refuses it as the machine does and changes nothing
//! (`row`). `step_all` stops at the first event that is refused, and returns its position (`err`). `run` is `step_all` on a new
//! world; its `Memory` at position 0 may come from the start. `report_text` returns exactly the report of a script, or its
//! first faulty line (`ok`, `err`); the report is good if all events were done (`good_reports_are_of_whole_runs`).
//!
//! # Examples
//!
//! ```rust
//! use fio_world::{Event, World};
//!
//! let lost = [Event::Poll, Event::ToModule(1), Event::Poll, Event::ToModule(2), Event::ToCpu(2)];
//! let world = World::run(rt.alloc(), 2, 0, &lost)?;
//! assert_eq!(rt; world.frame_to_cpu(2), Some([0xb6, 0, 0, 2, 0, 0, 0, 0].as_slice()));
//! assert_eq!(rt; world.poller().number(), 1);
//! ```
#![tactic(auto)]

pub mod laws;
mod outcome;
mod script;
mod simulation;
mod world;

pub use fio_link::Event;
pub use fio_text::{Report, push_fault};
pub use outcome::{Outcome, RunError, WorldError};
pub use script::{Script, ScriptError, read_script};
pub use simulation::{report, report_text};
pub use world::World;
