//! Overs and deliveries by number, such as `9.2`.
#![tactic(auto)]

mod balls;
mod count;

pub use balls::{Named, named_ball, place_of};
pub use count::Count;
