//! The texts of a desk and a board, and what a typed line comes to: used by the loops of `live`.
#![tactic(auto)]

mod again;
pub mod asides;
pub mod both;
pub mod doubt;
pub mod news;
mod notice_log;
pub mod notices;
mod plan_text;
pub mod questions;
pub mod refusals;
pub mod reminder;
pub mod said;
pub mod texts;
pub mod told;
pub mod warned;
pub mod who_bowls;

pub use notice_log::NoticeLog;
pub use notices::{Notice, Notices, print_notice};
