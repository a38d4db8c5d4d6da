//! What the words on the command line ask the program to do.
#![tactic(auto)]

mod book_words;
mod forms;
mod station_words;
mod task;
mod values;
mod words;
mod words_fault;
mod wrong_words;

pub use task::{BoardTask, BookFiles, DeskTask, Printed, Task};
pub use words::task_in;
pub use words_fault::{WordsFault, print_words_fault};
