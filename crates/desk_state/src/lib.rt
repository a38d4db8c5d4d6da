//! The state of a desk as one JSON value, for the page on which a scorer taps: what the match wants next, who may come in and
//! who may bowl, this over with its places, both sides, the desk's own vote and its held lines.
#![tactic(auto, using(json_fields::proofs::Putting::json_parts), unfolding(json_fields::specs::Values::fields_tokens, json_fields::specs::Values::values_tokens))]

mod before;
mod board_field;
mod corrected;
mod deliveries;
mod head;
mod items;
mod laws;
mod news;
mod next;
mod over;
mod players;
mod sides;
mod standing_item;
mod text;
mod value;
mod wants;
mod worked;

pub use laws::{news_are_spliced, offers_are_taken, the_over_is_shown};
pub use text::{book_text, open_text, state_text};
