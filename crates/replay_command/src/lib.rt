//! The command `replay`: plays a schedule over any reader and writer; and how the command starts on this machine.
#![tactic(auto)]

mod replay;

pub use crate::replay::{replay_run, start_replay};
