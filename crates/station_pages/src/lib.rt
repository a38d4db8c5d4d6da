//! A station and its page: for a desk the lines typed in the page, the page's own words, what it tells and its state; for a board
//! what it shows.
#![tactic(auto)]

mod board_page;
mod handed;
mod page_lines;
mod page_words;
mod scorers_page;
mod sight;
mod teller;
mod tellings;
mod told;

pub use board_page::BoardPage;
pub use handed::HandedLog;
pub use page_lines::PageLines;
pub use page_words::{PageWord, PageWords, Squares};
pub use scorers_page::ScorersPage;
pub use sight::PageSight;
pub use teller::PageTeller;
