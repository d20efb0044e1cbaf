//! The link machine: both ends of the transition link and the bus between them, event by event, and what holds of every run
//! of it; and how often the CPU may poll over a line of a rate.
//!
//! What the crates above rely on: whatever is shown to be a run of the machine has the headline and the other promises
//! (`Sound`).
//!
//! The definitions are in `specs/`, in this order. What happens: the link machine (`Link`). What is claimed of every run:
//! polls and block answers among the frames (`Frames`), the record as pieces of the transition log (`Pieces`), the headline
//! (`Headline`), what else is promised (`Claims`), the order of rounds on which that rests (`Rounds`), the rising record,
//! through restarts too (`Rising`, `Restarts`), what arrives (`Delivery`), from which points on (`Settled`, `WholeSince`),
//! how soon (`KeptUp`, `StandardLinks`), also counted from the raw sample (`NewLevels`), how many rounds may be lost
//! (`LostRounds`), how often to poll over a line that takes its time (`Pace`, `Rate`), what may take time (`MovedScans`), how
//! sharp the bounds are (`Sharpness`), and all of it for one run (`Sound`); then what stands of it if the maker of the module
//! answers commands himself (`Answered`). The laws are the contracts of the module `laws`.
#![tactic(auto)]

mod event;
pub mod laws;
mod line;
mod planning;

pub use event::Event;
pub use line::{TimedLine, Traffic};
pub use planning::{Pace, plan};
