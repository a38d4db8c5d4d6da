//! What a scorer is shown: the cards and the sides; what each word asks
//! for, with its help; and a sentence for each fault and each refusal.
#![tactic(auto)]

mod both;
mod near;
mod sentences;
mod shows_desk;
mod sides;
mod told;
mod topic;
mod waiting;
mod word;

pub use both::{print_cards, print_cards_of};
pub use near::print_unknown;
pub use sentences::{fault_sentence, refusal_sentence};
pub use shows_desk::{RowsAlone, ShowsDesk};
pub use sides::{print_player, print_sides};
pub use told::{TellLog, Tells, Told};
pub use topic::{HELP, Topic, help_on};
pub use waiting::print_waiting;
pub use word::{Word, behind_plan, is_end, word_of};
