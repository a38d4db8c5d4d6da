//! Starting a desk or a board with its sheet's table `[stations]`, and the laws on all stations that are kept.
#![tactic(auto)]

mod begin;
mod laws;

pub use crate::begin::{start_board_of, start_desk_of};
pub use crate::laws::{kept_stations_agree, lives_in_turn_are_woven};
