//! What a board tells of what it hears, and what it remembers.

use board::Witness;

/// A board's notices of what it can't take, and the rounds of which it has heard both votes.
#[derive(Drop)]
pub struct Watch<N> {
    pub notices: N,
    pub witness: Witness,
}
