//! Books from pen lines and from votes files: the table with both seats, the refused lines and why, the book of
//! an input, and its printed cards.
#![tactic(auto)]

mod both;
mod card;
mod compare;
mod desk_votes;
mod fault;
mod laws;
mod one_history;
mod rejected;
mod seats;
mod source;
mod table;

pub use both::book_of_both;
pub use card::print_card;
pub use compare::{Comparison, Difference, compare_files, print_comparison};
pub use desk_votes::DeskVotes;
pub use fault::{BookFault, BothFault};
pub use laws::{both_begin_with_each, comparisons_tell_all, one_history_is_whole};
pub use one_history::print_torn;
pub use rejected::{Refusal, Rejected, print_rejected};
pub use source::{Source, book_from};
pub use table::Table;
