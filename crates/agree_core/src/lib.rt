//! Rounds of votes for each place of a book, whatever an entry means.
//!
//! A position is a place of the book and a round of voting on it. Each of the two desks votes once at a
//! position. Equal votes settle the place, and the next place opens at round 0; different votes open
//! the next round.
#![tactic(auto)]

mod laws;
mod messages;
mod position;
mod reader;
mod seat;
mod step_laws;

pub use laws::{
    agreed_list_grows, files_show_the_agreed_list, no_round_waits, settled_once, taken_or_refused,
    votes_follow,
};
pub use messages::{Ask, Asker, DeskId, Message, Vote};
pub use notation::PLACES;
pub use position::{Position, ROUNDS};
pub use reader::Reader;
pub use seat::{Heard, Seat, Settled};
pub use step_laws::{
    ShowsVotes, a_pen_is_allowed_or_refused, boards_are_those_of_the_votes,
    desks_are_those_of_their_votes,
};
