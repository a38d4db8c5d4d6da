//! Runs of two desks and boards, event by event, and what holds in every run.
#![tactic(auto)]

mod event;
mod fault;
mod laws;
mod version;

pub use event::{Event, Station};
pub use fault::Fault;
pub use laws::every_run_is_sound;
pub use version::FileVersion;
