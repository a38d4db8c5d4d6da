//! The book of a match as JSON, for archives and leagues: the match ball by ball, with its results by the Laws,
//! and each entry as it was penned.
#![tactic(auto, using(json_fields::proofs::Putting::json_parts), unfolding(json_fields::specs::Values::fields_tokens, json_fields::specs::Values::values_tokens))]

mod disagreement;
mod document;
mod entries;
mod escapes;
mod fall_values;
mod given;
mod info;
mod innings;
mod laws;
mod limited;
mod meta;
mod overs;
mod powerplays;
mod readers;
mod text;
mod value;

pub use disagreement::disagreement_of;
pub use document::document_of;
pub use given::info_or;
pub use innings::{runs_after, runs_before};
pub use laws::{escapes_read_back, exports_add_up, exports_hand_on, exports_name_two_sides};
pub use readers::{batters_add_up, bowlers_add_up, extras_add_up, names_tell_players};
pub use text::text_of;
