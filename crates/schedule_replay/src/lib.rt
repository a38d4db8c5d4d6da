//! Two desks, boards and all messages that they have sent, run by a schedule of events.
#![tactic(auto)]

mod admission;
mod boards;
mod report;
mod seen;
mod seen_words;
mod shown_scores;
mod site;
mod world;

pub use headline::{Event, Fault, FileVersion, Station, every_run_is_sound};
pub use report::{Report, replay, replay_in, replay_old};
pub use schedules::{ScheduleFault, read_schedule};
pub use seen::{Cause, Seen, WorldRefusal};
pub use world::World;
pub use world_desks::AnyDesk;
