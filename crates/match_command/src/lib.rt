//! `ground match`: two desks and a board agree the lines of a book, over any two disks and any link that they share; and how
//! the command starts on this machine.
#![tactic(auto)]

mod match_run;

pub use crate::match_run::{MatchFault, run_match, start_match};
