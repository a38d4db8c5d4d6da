//! The settings of a desk and of a board, and a match sheet's table `[stations]`, whose values stand in for their options.
#![tactic(auto)]

mod board_options;
mod desk_options;
mod laws;
mod lookup;
mod settings;

pub use board_options::{BoardOptions, board_begun};
pub use desk_options::{BoardNames, DeskOptions, MOST_BOARDS, desk_begun};
pub use laws::stations_are_not_of_the_sheet;
pub use settings::{BoardSetting, DeskSetting, Showing};
