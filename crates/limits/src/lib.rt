//! The limits that a match's sheet sets, such as overs and overs a bowler, and what they mean for the score. They are
//! shown to the scorer, and are never a reason to refuse an entry.
#![tactic(auto)]

mod allowed;
mod bowling;
mod freedom;
mod key;
mod left;
mod powerplay;
mod rates;
mod reading;
mod unfit;
mod worked;

pub use allowed::Limits;
pub use bowling::{may_bowl, overs_bowled, overs_yet};
pub use freedom::is_free_hit;
pub use key::{KEYS, Key};
pub use left::{deliveries_left, overs_left, powerplay_now, runs_needed};
pub use powerplay::Powerplay;
pub use rates::{TwoPlaces, a_ball, an_over, hundredths_are_nearest, run_rate};
pub use reading::{read_limits, why_unfit};
pub use unfit::Unfit;
