//! The pages that stations serve, as bytes: the page of a desk, and the scoreboard.
#![tactic(auto)]

pub mod desk;
pub mod scoreboard;
