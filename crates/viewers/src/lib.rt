//! The page of a station: what browsers ask for, and what they are sent of the newest texts.
#![tactic(auto)]

mod asks;
mod crowd;
mod guest;
mod host;
mod inbox;
mod laws;
mod listening;
mod logs;
mod own;
mod page_texts;
mod places;
mod replies;
mod station;
mod stream;
mod times;
mod viewer;

pub use crowd::Viewers;
pub use inbox::Inbox;
pub use laws::what_others_are_served;
pub use listening::reached_at;
pub use page_texts::PageTexts;
pub use station::Station;
