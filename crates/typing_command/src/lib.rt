//! `ground typing`: a desk's terminal, at which its scorer edits the line that is being typed.
#![tactic(auto)]

mod begin;
mod keys_and_rows;

pub use crate::begin::start_typing;
