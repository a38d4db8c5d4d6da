//! Stations as processes of their own: a desk with its scorer, or a board, at a link that carries datagrams to its peers.
#![tactic(auto)]

mod awaited;
mod begin;
mod between;
pub mod board_calls;
mod board_life;
mod board_loop;
mod desk_life;
mod desk_loop;
mod ends;
pub mod hearing;
mod hearing_log;
mod later;
mod laws;
mod lost_lines;
mod outside;
mod pace;
mod peer;
mod reminding;
mod scoreboard;
mod shows;
mod sight_log;
mod times;
mod watch;

pub use begin::{Beginning, begin_desk};
pub use board_life::keep_board;
pub use board_loop::run_board;
pub use desk_life::{LifeEnd, keep_desk, run_desk};
pub use ends::{DeskEnd, end_at};
pub use hearing_log::HearingLog;
pub use laws::{
    both_lines_are_told, nothing_is_asked_in_vain, reminders_come_once, rows_are_told_as_values,
    splits_are_told, stations_are_never_silent, the_other_is_hidden,
};
pub use outside::Outside;
pub use scoreboard::Scoreboard;
pub use shows::Shows;
pub use sight_log::SightLog;
pub use watch::Watch;
