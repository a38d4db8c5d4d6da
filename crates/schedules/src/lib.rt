//! Schedules as text, one event a line.
#![tactic(auto)]

mod event_line;
mod schedule_fault;
mod schedule_text;

pub use schedule_fault::ScheduleFault;
pub use schedule_text::read_schedule;
