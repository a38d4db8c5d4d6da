//! The command of the program that starts a board on this machine.
#![tactic(auto)]

mod begin;
mod files;
mod hearing;
mod life;
mod notes;
mod page;
mod pane;
mod times;
mod waiting;

pub use crate::begin::{Ended, start_board};
pub use crate::life::BoardLife;
