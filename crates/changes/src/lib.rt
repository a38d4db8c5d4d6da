//! What a correction changes: the differences between the cards before it and after it.
#![tactic(auto)]

mod before;
mod change;
mod differs;
mod fate;
mod figures;
mod halves;
mod results;
mod rows;
mod stage;
mod stages;
mod telling;
mod worked;

pub use before::item_with;
pub use telling::print_last_changes;
