//! Proves that the cards, the match's page, a board's JSON and an export of one book show the same figures.
#![tactic(auto)]

mod laws;

pub use laws::texts_tell_the_same;
