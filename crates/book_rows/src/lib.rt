//! The entries of a book, a row each: the last ones, those of a range of places, and those of an over.
#![tactic(auto)]

mod listing;
mod over_entries;

pub use listing::{print_listing, print_range};
pub use over_entries::{print_over_by_side, print_over_last};
