//! Streams: readers and writers that remember whether a call on them failed, and reading to the end within a limit.
#![tactic(auto)]

mod failures;
mod feed;
mod input;
mod limit;
mod watched;

pub use feed::Feed;
pub use input::{InputFault, read_all};
pub use limit::LONGEST_INPUT;
pub use watched::{ReadFailed, Sink, Watched, WriteFailed};
