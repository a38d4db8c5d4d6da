//! What `ground help` prints: what each word of the program does, with one filled-in command.
#![tactic(auto)]

mod asking;
mod laws;
mod printing;
mod subject;
mod texts;

pub use asking::{asked, own_word};
pub use laws::texts_fit_a_screen;
pub use printing::print_help;
pub use subject::Subject;
