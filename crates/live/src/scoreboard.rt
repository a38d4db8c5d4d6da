//! What the viewers of a board see.

use streams::Watched;

/// What the viewers of a board see: its lines, as they are printed, and its state, shown by what is handed its book.
#[derive(Drop)]
pub struct Scoreboard<W, S> {
    pub lines: Watched<W>,
    pub state: S,
}
