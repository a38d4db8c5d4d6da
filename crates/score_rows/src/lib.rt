//! The state of a match in a row that is fitted to a screen; the check of an over; and who may bowl.
#![tactic(auto)]

mod aim;
mod batters;
mod bowler;
mod bowlers;
mod fit;
mod form;
mod front;
mod limited;
mod marks;
mod over_check;
mod over_end;
mod room;
mod row;
mod text;

pub use aim::print_result;
pub use bowlers::print_bowlers;
pub use over_check::print_check;
pub use over_end::print_over_note;
pub use row::print_row;
