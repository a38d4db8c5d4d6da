//! Desks of a world, with files of either version on disks in memory, and the votes in these files.
#![tactic(auto)]

mod any_desk;
mod versions;
mod votes_file;
mod world_desk;

pub use any_desk::AnyDesk;
pub use votes_file::{VotesFile, agreed_list};
pub use world_desk::{WorldDesk, most_bytes};
