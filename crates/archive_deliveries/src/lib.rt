//! The deliveries of an innings in an archive: their runs, extras and wickets, what happened between two deliveries, and the
//! players by names that tell them apart.
#![tactic(auto, using(json_fields::proofs::Putting::json_parts), unfolding(json_fields::specs::Values::fields_tokens, json_fields::specs::Values::values_tokens))]

mod begun;
mod deliveries;
mod innings;
mod miscounts;
mod named;
mod notes;
mod wickets;

pub use begun::Begun;
pub use deliveries::{all_extras, is_run, penalties, plus, put_awarded, put_listed, whole_total};
pub use innings::{Carrier, NamedInnings};
pub use miscounts::put_miscounts;
pub use named::NamedSheet;
pub use notes::{Noted, carried, is_ball, items_in, noted_at, notes_of};
pub use wickets::{fielder_name, how_words, is_own, leave_words};
