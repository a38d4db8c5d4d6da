//! Where wickets fell: after how many overs, and at which ball of the next one.
#![tactic(auto)]

mod fallen;
mod laws;

pub use fallen::{FallAt, falls_at, falls_in, over_and_ball};
pub use laws::falls_stand;
