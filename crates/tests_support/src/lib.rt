//! Helpers that several test crates share.
#![tactic(auto)]

mod disks;
mod failing;
mod votes;

pub use disks::{CHOICES, new_disk, set_fault};
pub use failing::Failing;
pub use votes::{entry_in, next_position, vote_of};
