//! The line that a scorer types at a terminal: what each key does to it, what is handed to the desk, and how the terminal shows
//! it below the desk's rows.
#![tactic(auto)]

mod editor;
mod heard;
mod keeping;
mod key;
mod laws;
mod reading;
mod terminal;

pub use heard::{Came, HeardLog, Inputs};
pub use keeping::{Fault, Kept, keep_terminal};
pub use key::Key;
pub use laws::{rows_are_shown_whole, what_is_entered_is_handed};
pub use terminal::Terminal;
