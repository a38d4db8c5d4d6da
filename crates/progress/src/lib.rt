//! What goes on in every run of a match: desks that hear each other come to one position, and boards to the desks' book.
#![tactic(auto)]

mod laws;

pub use laws::every_match_goes_on;
